//! Laws: statements about the definitions alone, for every journal.

ghost use Rattle.std.specs.Prelude.{◌≡◌, ℕ, ◌+◌, ◌++◌, List, length, reverse, true};
ghost use Rattle.std.specs.List.{list_any};
ghost use Rattle.dmr_plan.specs.declared.settings.Settings.{Settings};
ghost use Rattle.dmr_plan.specs.IsPlan.{IsPlan};
ghost use Rattle.dmr_core.specs.declared.event.Event.{Event};
ghost use Rattle.dmr_core.specs.declared.entry.Entry.{Entry};
ghost use Rattle.dmr_core.specs.Facts.{Facts, facts_after, no_facts};
ghost use Rattle.dmr_core.specs.Journal.{IsLegal};
ghost use Rattle.dmr_core.specs.Restored.{facts_with};
ghost use Rattle.dmr_core.specs.Rules.{acts_of};
ghost use Rattle.dmr_core.specs.Sound.{IsSound};
ghost use Rattle.dmr_keeper.specs.Calls.{begun_in};
ghost use Rattle.dmr_keeper.specs.Carried.{Carry, carried_after, nothing_carried, starting_with};
ghost use Rattle.dmr_keeper.specs.Carriers.{counts_of_both, counts_of_carrier};
ghost use Rattle.dmr_keeper.specs.Changes.{changes_in};
ghost use Rattle.dmr_keeper.specs.Counts.{counts_joined};
ghost use Rattle.dmr_keeper.specs.Laws.{IsOfFacts, HaveAges, IsWithinLimits, MayEndCalls, is_end};
ghost use Rattle.dmr_keeper.specs.Notes.{notes_in};
ghost use Rattle.dmr_keeper.specs.Records.{counts_in, ended_calls};

use dmr_core::facts_stay_sound;

/// A term may end after any entry: the records are the same.
///
/// The records of two journals, one after the other, are those of the first, followed by those of the second from what
/// the first hands on. Their counts are added, also those of each carrier, but the most lines at once is the greater of
/// the two. So a call that began in an earlier term is recorded once, with the tick at which it began and the ticks that
/// its request waited.
pub fn records_join()
    ensures calls { (plan : Settings) (before : Carry) (first second : List Entry)
        → ended_calls plan before (first ++ second) ≡ ended_calls plan before first
        ++ ended_calls plan (carried_after plan before first) second }
    ensures changes { (plan : Settings) (before : Carry) (first second : List Entry)
        → changes_in before.ticks (first ++ second) ≡ changes_in before.ticks first
        ++ changes_in (carried_after plan before first).ticks second }
    ensures notes { (plan : Settings) (before : Carry) (first second : List Entry)
        → notes_in plan before.ticks (first ++ second) ≡ notes_in plan before.ticks first
        ++ notes_in plan (carried_after plan before first).ticks second }
    ensures counts { (plan : Settings) (before : Carry) (first second : List Entry)
        → counts_in plan before (first ++ second) ≡ counts_joined (counts_in plan before first)
        (counts_in plan (carried_after plan before first) second) }
    ensures carriers { (first second : List Entry) (carrier : ℕ)
        → counts_of_carrier (first ++ second) carrier
        ≡ counts_of_both (counts_of_carrier first carrier) (counts_of_carrier second carrier) }
    ensures after { (plan : Settings) (before : Carry) (first second : List Entry)
        → carried_after plan before (first ++ second)
        ≡ carried_after plan (carried_after plan before first) second }
{}

/// What is carried is the site's: the open calls with their ages, the lines, and the registered radios, in the site's
/// order.
///
/// What is carried before a journal may agree with the facts of a site (`IsOfFacts`). Then what is carried after the
/// journal agrees with the facts after it. Before the first term of a site on which nothing has happened, the two
/// agree, and also before that of a site that starts with radios registered. Suppose that what is carried agrees with
/// sound facts. After a legal journal of an accepted plan, at most 31 calls are then open, 32 lines wait and 4,096
/// radios are registered.
pub fn carried_is_the_sites()
    ensures starts { IsOfFacts nothing_carried no_facts }
    ensures restarts { (radios : List ℕ) → IsOfFacts (starting_with radios) (facts_with radios) }
    ensures stays { (plan : Settings) (facts : Facts) (before : Carry) (journal : List Entry)
        → IsOfFacts before facts
        → IsOfFacts (carried_after plan before journal) (facts_after plan facts (reverse journal)) }
    ensures within { (plan : Settings) (facts : Facts) (before : Carry) (journal : List Entry)
        → IsPlan plan → IsSound plan facts → IsLegal plan facts (reverse journal)
        → IsOfFacts before facts → IsWithinLimits (carried_after plan before journal) }
{
    facts_stay_sound();
}

/// Calls are counted: those that are open before a journal and those that begin in it are as many as those that end in
/// it and those that stay open.
///
/// The tick at which an open call began fits its age: the age is the ticks since then, up to 65,535, if it was so
/// before the journal.
pub fn calls_are_counted_once()
    ensures counted { (plan : Settings) (before : Carry) (journal : List Entry)
        → length before.calls + length (begun_in journal) ≡ length (ended_calls plan before journal)
        + length (carried_after plan before journal).calls }
    ensures ages { (plan : Settings) (before : Carry) (journal : List Entry)
        → HaveAges before.ticks before.calls
        → HaveAges (carried_after plan before journal).ticks
        (carried_after plan before journal).calls }
{}

/// In a site's answers calls end only by a Tick, by a PDU, or by a command that may end calls by its row of the table.
///
/// So [`EndCause`](crate::EndCause) has all causes: a Tick ends calls by their ages, a PDU those of a radio that
/// leaves, and a command by itself. A carrier's Up and Lost end its calls without an act.
pub fn few_events_end_calls()
    ensures { (plan : Settings) (facts : Facts) (event : Event)
        → list_any is_end (acts_of plan facts event) ≡ true → MayEndCalls event }
{}
