//! Laws of what every link accounts for, and of how a port's record is read. The functions do nothing: their contracts
//! are the laws.

ghost use Rattle.std.specs.Prelude.{◌≡◌, ◌≤◌, ◌⊎◌, ℕ, List, [], ◌∷◌, ◌++◌, Option, false};
ghost use Rattle.dmr_wire.specs.Answers.{Answer, Reports};
ghost use Rattle.dmr_link.specs.declared.link_state.LinkState.{LinkState as ALinkState};
ghost use Rattle.dmr_link.specs.Sessions.{Session, progress_at, progress_after_answers, reads_in};
ghost use Rattle.dmr_link.specs.Sessions.{AreOfWire, IsLeftBy, IsOver, Sides, Happens};
ghost use Rattle.dmr_link.specs.Happenings.{Happening};
ghost use Rattle.dmr_link.specs.Limits.{most_reads};
ghost use Rattle.dmr_link.specs.LinkSteps.{is_live};
ghost use Rattle.dmr_link.specs.Pending.{Accounts, pending_notices};
ghost use Rattle.dmr_link.specs.Recorded.{of_progress, reading_at, reading_after_all};

/// States what a link accounts for. Its newest connection means the notices that are done, followed by those that the
/// link still has to handle. After a failed write or a cut, this is the meaning of the first octets that came, and of
/// the end.
/// The desk took the events of those that are done. The connection took the text that answers them, or a first part of
/// it.
pub fn links_account()
    ensures { (l : ALinkState) (s : Session) → IsLeftBy l s → Accounts l s }
{}

/// States that a link that is not live has no connection and nothing pending, and that only such a link is not live.
pub fn links_rest()
    ensures over { (l : ALinkState) → is_live l ≡ false → IsOver l }
    ensures dead { (l : ALinkState) → IsOver l → is_live l ≡ false }
    ensures nothing { (l : ALinkState) → IsOver l → pending_notices l ≡ [] }
{}

/// States that the happenings of one call, followed by those of the next, are the happenings of both: the records of
/// port, desk and gate go on.
pub fn happenings_follow()
    ensures none { (x : Sides) → Happens x [] x }
    ensures both { (x y z : Sides) (first second : List Happening) → Happens x first y
        → Happens y second z → Happens x (first ++ second) z }
    ensures told_none { (reported : Option (List Answer)) → Reports reported [] reported }
    ensures told_both { (a b c : Option (List Answer)) (first second : List Answer)
        → Reports a first b → Reports b second c → Reports a (first ++ second) c }
{}

/// States that the answers of one call of `serve` are read in a whole record as in the call.
/// This holds if they follow an opening, a wait, or the [`MOST_READS`](crate::MOST_READS) reads of the call before.
/// After those reads, the count of reads starts again at the first read of this call.
pub fn records_read()
    ensures begun { (s : Session) (ss : List Session) (answers : List Answer) → AreOfWire answers
        → reads_in answers ≤ most_reads
        → reading_after_all (reading_at (s ∷ ss) 0 0 0) answers
        ≡ of_progress ss (reads_in answers) (progress_after_answers (progress_at s 0) answers) }
    ensures paused { (s : Session) (ss : List Session) (row : ℕ) (answers : List Answer)
        → AreOfWire answers → reads_in answers ≤ most_reads
        → (reading_after_all (reading_at (s ∷ ss) row 0 most_reads) answers).past
        ≡ (progress_after_answers (progress_at s 0) answers).session ∷ ss }
    ensures writing { (s : Session) (ss : List Session) (row : ℕ) (answers : List Answer)
        → AreOfWire answers → reads_in answers ≤ most_reads
        → (reading_after_all (reading_at (s ∷ ss) row 0 most_reads) answers).writing
        ≡ (progress_after_answers (progress_at s 0) answers).writing }
    ensures reads { (s : Session) (ss : List Session) (row : ℕ) (answers : List Answer)
        → AreOfWire answers → reads_in answers ≤ most_reads
        → ((reading_after_all (reading_at (s ∷ ss) row 0 most_reads) answers).reads
        ≡ reads_in answers)
        ⊎ (reads_in answers ≡ 0) }
{}
