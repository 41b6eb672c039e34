//! Spells the frames that go to a carrier.

ghost use Rattle.std.specs.Prelude.{◌≡◌, ◌+◌, ◌≤◌, ◌++◌, [], ◌∷◌, length};
ghost use Rattle.arrayvec.specs.ArrayVec.{array_vec_len};
ghost use Rattle.dmr_frames.specs.Frames.{burst_octets, frame_octets, plain_octets, spelling_out};
ghost use Rattle.dmr_frames.specs.Versions.{version_by};

use crate::frame::{FrameOut, LONGEST_FRAME};
use crate::table::FrameKind;
use crate::version::Version;
use arrayvec::ArrayVec;
use dmr_pdu::SlotNo;

/// Appends a frame's first two octets: its type and its length in this version.
fn append_head<const N: usize>(text: &mut ArrayVec<u8, N>, version: Version, kind: FrameKind)
    requires { array_vec_len text.old + 2 ≤ N }
    ensures items { text.new.items ≡ text.old.items ++ frame_octets version kind [] }
    ensures len { array_vec_len text.new ≡ array_vec_len text.old + 2 }
{
    text.push(kind.row().octet);
    text.push(kind.body_length(version));
}

/// Appends the octets of a TX up to its word: type and length, the number, if it has one, and the slot.
fn append_burst_head<const N: usize>(text: &mut ArrayVec<u8, N>, number: Option<u8>, slot: SlotNo)
    requires { array_vec_len text.old + 4 ≤ N }
    ensures items { text.new.items ≡ text.old.items
        ++ frame_octets (version_by number) FrameKind.Tx (burst_octets number slot []) }
    ensures len { array_vec_len text.new ≤ array_vec_len text.old + 4 }
{
    append_head(text, Version::by_number(number), FrameKind::Tx);
    if let Some(number) = number {
        text.push(number);
    }
    text.push(slot.get() as u8);
}

/// Appends the octets of a frame, 2 to `LONGEST_FRAME` of them: its type, its length and its body.
pub fn append_spelling<const N: usize>(text: &mut ArrayVec<u8, N>, frame: &FrameOut)
    requires { array_vec_len text.old + LONGEST_FRAME ≤ N }
    ensures { text.new.items ≡ text.old.items ++ spelling_out frame.now }
{
    match frame {
        FrameOut::Welcome { version } => {
            append_head(text, FrameKind::Welcome.row().since, FrameKind::Welcome);
            text.push(*version);
        }
        FrameOut::Tx { number, slot, word } => {
            append_burst_head(text, *number, *slot);
            let Ok(()) = text.try_extend_from_slice(&word.to_octets()) else {
                unreachable!()
            };
        }
        FrameOut::Done => append_head(text, FrameKind::Done.row().since, FrameKind::Done),
        FrameOut::Refused(refusal) => {
            append_head(text, FrameKind::Refused.row().since, FrameKind::Refused);
            text.push(refusal.octet());
        }
    }
}

/// Returns the octets of a frame.
pub fn write_frame(frame: &FrameOut) -> ArrayVec<u8, LONGEST_FRAME>
    ensures { result.items ≡ spelling_out frame.now }
{
    let mut octets = ArrayVec::new();
    append_spelling(&mut octets, frame);
    octets
}
