//! Laws of frames and of streams of octets. These functions do nothing: their contracts are the laws.

ghost use Rattle.std.specs.Prelude.{◌≡◌, ◌+◌, ◌<◌, ◌≤◌, ℕ, List, [], ◌∷◌, ◌++◌, All, length};
ghost use Rattle.std.specs.Prelude.{slice_index};
ghost use Rattle.dmr_frames.specs.declared.frame.FrameIn.{FrameIn};
ghost use Rattle.dmr_frames.specs.declared.frame.FrameOut.{FrameOut};
ghost use Rattle.dmr_frames.specs.declared.version.FrameTable.{FrameTable};
ghost use Rattle.dmr_frames.specs.declared.version.Version.{Version};
ghost use Rattle.dmr_frames.specs.declared.frame.TheConstants.{LONGEST_FRAME};
ghost use Rattle.dmr_frames.specs.Limits.{longest_frame};
ghost use Rattle.dmr_frames.specs.Frames.{IsFrame, IsFrameOut, spelling, spelling_out};
ghost use Rattle.dmr_frames.specs.Rest.{Rest, Open};
ghost use Rattle.dmr_frames.specs.Stream.{IsOpen, Reads};
ghost use Rattle.dmr_frames.specs.Versions.{table_after, version_of};
ghost use Rattle.dmr_frames.specs.Reading.{frame_of, frames_from, rest_after_octet};
ghost use Rattle.dmr_frames.specs.Reading.{rest_after_octets, step_from};

/// Octets have exactly one reading by each table: the frames that they produce one by one, and the rest, in whatever
/// pieces they come.
pub fn one_reading()
    ensures one { (table : FrameTable) (octets : List ℕ) (fs gs : List FrameIn) (r q : Rest) →
        Reads table octets fs r → Reads table octets gs q → (fs ≡ gs) × (r ≡ q) }
    ensures found { (table : FrameTable) (octets : List ℕ) → All (λ x. x < 256) octets
        → Reads table octets (frames_from (Open table []) octets)
        (rest_after_octets (Open table []) octets) }
    ensures cut { (rest : Rest) (a b : List ℕ) →
        (frames_from rest (a ++ b) ≡ frames_from rest a ++ frames_from (rest_after_octets rest a) b)
        × (rest_after_octets rest (a ++ b) ≡ rest_after_octets (rest_after_octets rest a) b) }
    // A reading continues with one more octet, from the rest before it.
    ensures more { (table : FrameTable) (octets : List ℕ) (fs : List FrameIn) (r : Rest) (x : ℕ)
        → x < 256 → Reads table octets fs r
        → Reads table (octets ++ x ∷ []) (fs ++ frame_of (step_from r x)) (rest_after_octet r x) }
    // The octets of a frame produce it and leave nothing; those of a part of a frame produce nothing and are kept.
    ensures frame { (table : FrameTable) (f : FrameIn) → IsFrame (version_of table) f →
        (frames_from (Open table []) (spelling f) ≡ f ∷ [])
        × (rest_after_octets (Open table []) (spelling f) ≡ Open (table_after table f) []) }
    ensures part { (table : FrameTable) (q : List ℕ) → IsOpen (version_of table) q
        → (frames_from (Open table []) q ≡ [])
        × (rest_after_octets (Open table []) q ≡ Open table q) }
{}

/// Each frame has one spelling, and no spelling is a proper prefix of another's. So octets that begin with the spelling
/// of one frame do not begin with that of another, of whichever version the two are. The second octet of a spelling
/// counts the octets after it.
pub fn spellings_are_prefix_free()
    ensures from_carrier { (v w : Version) (f g : FrameIn) (a b : List ℕ) → IsFrame v f
        → IsFrame w g → spelling f ++ a ≡ spelling g ++ b → (f ≡ g) × (a ≡ b) }
    ensures to_carrier { (f g : FrameOut) (a b : List ℕ) → IsFrameOut f → IsFrameOut g →
        spelling_out f ++ a ≡ spelling_out g ++ b → (f ≡ g) × (a ≡ b) }
    ensures length_in { (f : FrameIn) → length (spelling f) ≡ slice_index (spelling f) 1 + 2 }
    ensures length_out { (f : FrameOut)
        → length (spelling_out f) ≡ slice_index (spelling_out f) 1 + 2 }
{}

/// No frame is longer than the longest, whose octets `LONGEST_FRAME` counts.
pub fn limits_are_stated()
    ensures longest { LONGEST_FRAME ≡ longest_frame }
    ensures from_carrier { (f : FrameIn) → length (spelling f) ≤ longest_frame }
    ensures to_carrier { (f : FrameOut) → length (spelling_out f) ≤ longest_frame }
{}
