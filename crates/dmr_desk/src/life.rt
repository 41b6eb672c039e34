//! Laws on terms in a row. These functions do nothing: their contracts are the laws.

ghost use Rattle.std.specs.Prelude.{◌≡◌, ◌+◌, ◌<◌, ◌≤◌, ◌++◌, ℕ, All, List, Option, Some, length};
ghost use Rattle.std.specs.Prelude.{map, reverse, slice_get};
ghost use Rattle.std.specs.List.{flat_map};
ghost use Rattle.dmr_core.specs.Journal.{IsLegal};
ghost use Rattle.dmr_core.specs.State.{IsSite};
ghost use Rattle.dmr_core.specs.declared.entry.Entry.{Entry as AnEntry};
ghost use Rattle.dmr_wire.specs.Answers.{Answer};
ghost use Rattle.dmr_link.specs.Runs.{IsSafe};
ghost use Rattle.dmr_link.specs.Sessions.{Session, HasPast};
ghost use Rattle.dmr_desk.specs.Life.{HasTickedOn, HasWorkedOn, WentOn, answers_of_terms};
ghost use Rattle.dmr_desk.specs.Life.{joined_answers, joined_journal, joined_view};
ghost use Rattle.dmr_desk.specs.Life.{past_after_terms, read_terms};
ghost use Rattle.dmr_desk.specs.Meaning.{IsOneMeaning, in_record};
ghost use Rattle.dmr_desk.specs.BookState.{site_after_entries};
ghost use Rattle.dmr_desk.specs.Term.{End, Start};
ghost use Rattle.dmr_desk.specs.Terms.{AreTerms, Fits, HaveRun, journals_of, start_after};
ghost use Rattle.dmr_desk.specs.Views.{view_of};
ghost use Rattle.dmr_desk.specs.Work.{Step, WorkState, StationState};

use crate::meaning::{one_meaning, one_record};
use dmr_core::each_act_is_safe;
use dmr_link::laws::happenings_follow;

/// Terms go on. Terms that go on from the end of others make one row of terms with them. So a run of n terms and a run
/// of m terms that goes on from it are a run of n + m terms. The observer saw all their journals.
pub fn terms_go_on()
    ensures terms { (start : Start) (earlier later : List End) → AreTerms start earlier
        → AreTerms (start_after start earlier) later → AreTerms start (later ++ earlier) }
    ensures ends { (start : Start) (earlier later : List End)
        → start_after start (later ++ earlier) ≡ start_after (start_after start earlier) later }
    ensures run { (start middle next : Start) (n m : ℕ)
        (before between after : Option (List (List AnEntry)))
        → HaveRun start n middle before between → HaveRun middle m next between after
        → HaveRun start (n + m) next before after }
{}

/// One life. What terms in a row come to, from the first start to the last end.
/// - The journals of all terms, joined, are one journal. It is legal from the site of the first start, it is safe, and
///   it leads to the site that the last term left. The journal of each term has at most `limit` entries. No entry
///   belongs to another actor.
/// - The views of an actor, joined, are what the joined journal has of the actor. They are what its worker deposited,
///   each event once and in order. The reports of port and gate since the first start are what happened to the worker.
/// - The octets that came on all connections mean the events of these views, and then what is pending.
/// - If the pacer reports its ticks, the desks took one for each, except at most one a term.
pub fn one_life()
    ensures legal { (start : Start) (ends : List End) → AreTerms start ends
        → IsLegal start.site.plan start.site.facts (reverse (joined_journal ends)) }
    // The law needs a site that fits together, as every `Site` is.
    ensures safe { (start : Start) (ends : List End) → IsSite start.site → AreTerms start ends
        → IsSafe start.site.plan start.site.facts (reverse (joined_journal ends)) }
    ensures site { (start : Start) (ends : List End) → AreTerms start ends
        → (start_after start ends).site ≡ site_after_entries start.site (joined_journal ends) }
    ensures within { (start : Start) (ends : List End) → AreTerms start ends
        → All (λ (end : End). length end.journal ≤ start.limit) ends }
    ensures nobody { (start : Start) (ends : List End) → AreTerms start ends
        → All (λ (entry : AnEntry). entry.actor < length start.stations + 2) (joined_journal ends) }
    // An observer saw the parts of this journal.
    ensures journals { (ends : List End)
        → flat_map (λ (journal : List AnEntry). journal) (journals_of ends) ≡ joined_journal ends }
    ensures views { (start : Start) (ends : List End) (actor : ℕ) → AreTerms start ends
        → actor < length start.stations + 2
        → joined_view actor ends ≡ view_of actor (joined_journal ends) }
    ensures handed_back { (start : Start) (ends : List End) → AreTerms start ends
        → length (start_after start ends).stations ≡ length start.stations }
    // Stations and limit fit every further term, if they fit the first.
    ensures fits { (start : Start) (ends : List End) → AreTerms start ends → Fits start
        → Fits (start_after start ends) }
    ensures carriers { (start : Start) (ends : List End) (k : ℕ) (s t : StationState)
        → AreTerms start ends → slice_get start.stations k ≡ Some s
        → slice_get (start_after start ends).stations k ≡ Some t
        → HasWorkedOn (length ends) s t (view_of k (joined_journal ends)) }
    ensures console { (start : Start) (ends : List End) → AreTerms start ends
        → HasWorkedOn (length ends) start.console (start_after start ends).console
        (view_of (length start.stations + 1) (joined_journal ends)) }
    ensures ticker { (start : Start) (ends : List End) → AreTerms start ends
        → HasTickedOn (length ends) start.pacer (start_after start ends).pacer
        (view_of (length start.stations) (joined_journal ends)) }
    // What a worker's connections mean after its steps in all terms.
    ensures meaning { (m n : WorkState) (past : List Session) (terms : List (List Step))
        → WentOn m n terms → HasPast m.at.link past
        → IsOneMeaning n.at.link (past_after_terms past terms) }
    // The answers of the port, read term by term, give these connections, except for their deposits.
    ensures records { (m n : WorkState) (past : List Session) (terms : List (List Step))
        → WentOn m n terms → HasPast m.at.link past
        → map in_record (past_after_terms past terms) ≡ read_terms past (answers_of_terms terms) }
    // If the port reports its record, these are its answers since the first start.
    ensures since { (m n : WorkState) (terms : List (List Step)) (begun whole : List Answer)
        → WentOn m n terms → m.at.reported ≡ Some begun → n.at.reported ≡ Some whole
        → whole ≡ begun ++ joined_answers (answers_of_terms terms) }
{
    each_act_is_safe();
    happenings_follow();
    one_meaning();
    one_record();
}
