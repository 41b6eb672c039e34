//! What the clause of a term says of each peer's whole session.

ghost use Rattle.std.specs.Prelude.{◌≡◌, ◌+◌, ℕ, List, Some, length, slice_get};
ghost use Rattle.dmr_wire.specs.Answers.{Answer};
ghost use Rattle.dmr_desk.specs.Term.{End, IsTerm, Start};
ghost use Rattle.dmr_desk.specs.Views.{view_of};
ghost use Rattle.dmr_desk.specs.Work.{StationState};
ghost use Rattle.test_witness.specs.Session.{IsNewStation, IsWholeSession};

use dmr_desk::{one_meaning, one_record};

/// One session. If a term began with a new station, and the station's port reports its record at the end, then the
/// station's peer had a whole session. What came on its connections, by the port's record alone, means exactly what the
/// journal has of it, and then what is pending.
pub fn one_session()
    ensures carrier { (start : Start) (end : End) (k : ℕ) (s t : StationState)
        (answers : List Answer) → IsTerm start end → slice_get start.stations k ≡ Some s
        → slice_get end.stations k ≡ Some t → IsNewStation s → t.reported ≡ Some answers
        → IsWholeSession t answers (view_of k end.journal) }
    ensures operators { (start : Start) (end : End) (answers : List Answer) → IsTerm start end
        → IsNewStation start.console → end.console.reported ≡ Some answers
        → IsWholeSession end.console answers
        (view_of (length start.stations + 1) end.journal) }
{
    one_record();
    one_meaning();
}
