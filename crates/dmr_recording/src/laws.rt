//! The laws of recordings. The functions do nothing: their contracts are the laws.

ghost use Rattle.std.specs.Prelude.{◌≡◌, ◌++◌, ℕ, List, Bool, false, length, replicate, reverse};
ghost use Rattle.dmr_plan.specs.declared.settings.Settings.{Settings};
ghost use Rattle.dmr_core.specs.declared.entry.Entry.{Entry as AnEntry};
ghost use Rattle.dmr_core.specs.declared.event.Event.{Event as AnEvent};
ghost use Rattle.dmr_core.specs.Facts.{facts_after, no_facts};
ghost use Rattle.dmr_core.specs.Journal.{IsLegal, events_of};
ghost use Rattle.dmr_core.specs.Restored.{facts_with, restored};
ghost use Rattle.dmr_link.specs.Records.{no_past};
ghost use Rattle.dmr_replay.specs.Script.{RepeatedInput};
ghost use Rattle.dmr_recording.specs.Events.{inputs_of_events};
ghost use Rattle.dmr_recording.specs.Recordable.{AreRecordable, up_after_all};
ghost use Rattle.dmr_recording.specs.Records.{Matches, Records};
ghost use Rattle.dmr_recording.specs.Restored.{session_of as session};

use dmr_bptc::nearest_codeword;
use dmr_console::{lines_in_any_cutting, lines_precede_their_ends};
use dmr_frames::laws::one_reading;
use dmr_link::laws::connections_mean;
use dmr_plan::Plan;

/// States that the lines of events that can be recorded are a recording of exactly these events.
pub fn recordings_mean()
    ensures recorded { (plan : Settings) (up : List Bool) (events : List AnEvent)
        → length up ≡ 16 → AreRecordable plan up events
        → Records plan up (up_after_all up events) events (inputs_of_events plan events) }
    // No carrier is up on a site to which nothing came yet.
    ensures begins { (plan : Settings) → Matches plan (replicate 16 false) no_past }
    // One recording after another is a recording.
    ensures joins { (plan : Settings) (up more later : List Bool) (es fs : List AnEvent)
        (gs hs : List RepeatedInput) → Records plan up more es gs → Records plan more later fs hs
        → Records plan up later (es ++ fs) (gs ++ hs) }
{
    one_reading();
    nearest_codeword();
    connections_mean();
    lines_in_any_cutting();
    lines_precede_their_ends();
}

/// States that after the session of [`record_restored`](crate::record_restored) a site on which nothing had happened is
/// the site that starts with these radios registered. A journal has its newest entry first.
pub fn a_session_registers(plan: &Plan)
    ensures { (radios : List ℕ) (journal : List AnEntry) → IsLegal plan.now no_facts journal
        → events_of journal ≡ reverse (session plan.now radios)
        → facts_after plan.now no_facts journal ≡ facts_with (restored plan.now radios) }
{
    plan.use_invariant();
    // The control carrier's number is below 16.
    let _ = plan.control().get();
}
