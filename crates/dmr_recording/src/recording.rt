//! Records the events of a journal.

ghost use Rattle.std.specs.Prelude.{string_bytes, ◌⊎◌};
ghost use Rattle.std.specs.Prelude.{◌≡◌, ◌≤◌, ◌++◌, ◌∷◌, List, IfErr, IfOk, OnErr, OnOk};
ghost use Rattle.dmr_core.specs.declared.event.Event.{Event as AnEvent};
ghost use Rattle.dmr_recording.specs.Drafts.{whole};
ghost use Rattle.dmr_recording.specs.Events.{events_of, inputs_of_events, ticks_together};
ghost use Rattle.dmr_recording.specs.Events.{is_tick as is_tick_event};
ghost use Rattle.dmr_recording.specs.Lines.{text_of};
ghost use Rattle.dmr_recording.specs.Recordable.{AreRecordable, IsFault, IsFirstFault};
ghost use Rattle.dmr_recording.specs.Recordable.{IsRecordable, up_after, up_after_all};
ghost use Rattle.dmr_recording.specs.Records.{Records};

use crate::carriers::Carriers;
use crate::events::write_event;
use crate::fault::RecordingFault;
use crate::laws::recordings_mean;
use crate::lines::write_ticks;
use dmr_core::{Entry, Event};
use dmr_plan::Plan;
use std::alloc::Global;

/// The most ticks of one line.
const MOST_TICKS: u32 = 100_000;

/// Lines that are being written, the carriers that are up after them, and the ticks that follow them and have no line
/// yet.
#[derive(Drop)]
pub struct Draft {
    /// The lines that are written.
    pub text: String,
    /// The carriers that are up after them.
    pub up: Carriers,
    /// The ticks after them that have no line yet, at most 100,000.
    pub ticks: u32,
}

/// Appends the line of ticks, if there are any.
fn push_ticks(text: &mut String, ticks: u32) -> Result<(), RecordingFault>
    ensures ok { OnOk result
        (string_bytes text.new ≡ string_bytes text.old ++ text_of (ticks_together ticks)) }
    ensures err { IfErr result (λ fault. fault ≡ RecordingFault.OutOfMemory) }
{
    if ticks == 0 {
        Ok(())
    } else {
        write_ticks(text, ticks)
    }
}

/// Notes an Up or a Lost.
fn follow(up: &mut Carriers, event: &Event)
    ensures { up.new ≡ up_after up.old event.now }
{
    match event {
        Event::Up(carrier) => up.set_up(*carrier, true),
        Event::Lost(carrier) => up.set_up(*carrier, false),
        _ => {}
    }
}

/// Returns whether an event is a tick.
fn is_tick(event: &Event) -> bool
    ensures { result ≡ is_tick_event event.now }
{
    matches!(event, Event::Tick)
}

/// Appends the lines of an event. A tick is only counted, until another event or 100,000 ticks follow it. On an error
/// the text may have a part of the lines.
pub fn add_event(
    alloc: Global,
    plan: &Plan,
    place: usize,
    event: &Event,
    draft: &mut Draft,
) -> Result<(), RecordingFault>
    requires { draft.old.ticks ≤ 100000 }
    // What is written, and the lines of the ticks and of any further events, are together the same as before.
    ensures lines { OnOk result ((more : List AnEvent)
        → whole plan.now draft.new more ≡ whole plan.now draft.old (event.now ∷ more)) }
    ensures up { OnOk result (draft.new.up ≡ up_after draft.old.up event.now) }
    ensures ticks { draft.new.ticks ≤ 100000 }
    ensures recordable { OnOk result (IsRecordable plan.now draft.old.up event.now) }
    ensures fault { IfErr result (λ fault. (fault ≡ RecordingFault.OutOfMemory)
        ⊎ IsFault plan.now draft.old.up place event.now fault) }
{
    if !is_tick(event) {
        push_ticks(&mut draft.text, draft.ticks)?;
        draft.ticks = 0;
        write_event(alloc, plan, &draft.up, place, event, &mut draft.text)?;
        follow(&mut draft.up, event);
    } else if draft.ticks < MOST_TICKS {
        draft.ticks += 1;
    } else {
        push_ticks(&mut draft.text, draft.ticks)?;
        draft.ticks = 1;
    }
    Ok(())
}

/// Returns the lines of a journal's events, and the carriers that are up after them.
fn draft_of(
    alloc: Global,
    plan: &Plan,
    up: &Carriers,
    journal: &[Entry],
) -> Result<Draft, RecordingFault>
    ensures lines { IfOk result (λ draft. string_bytes draft.text
        ≡ text_of (inputs_of_events plan.now (events_of journal.now))) }
    ensures up { IfOk result (λ draft. draft.up ≡ up_after_all up.now (events_of journal.now)) }
    ensures recordable { OnOk result (AreRecordable plan.now up.now (events_of journal.now)) }
    ensures fault { IfErr result (λ fault. (fault ≡ RecordingFault.OutOfMemory)
        ⊎ IsFirstFault plan.now up.now 0 (events_of journal.now) fault) }
{
    let mut draft = Draft {
        text: String::new(alloc),
        up: *up,
        ticks: 0,
    };
    for place in 0..journal.len() {
        let entry = journal[place];
        match add_event(alloc, plan, place, &entry.event, &mut draft) {
            Ok(()) => {}
            Err(fault) => return Err(fault),
        }
    }
    push_ticks(&mut draft.text, draft.ticks)?;
    Ok(draft)
}

/// Appends the events of a journal to a text, as lines of a script, and notes which carriers are up after them.
///
/// Before the first journal no carrier is up ([`Carriers::none_up`]). Each line ends with an LF. The error is the fault
/// of the first event that cannot be recorded, or `OutOfMemory`; then the text and the carriers are unchanged.
pub fn record_journal(
    alloc: Global,
    plan: &Plan,
    up: &mut Carriers,
    journal: &[Entry],
    text: &mut String,
) -> Result<(), RecordingFault>
    ensures lines { OnOk result (string_bytes text.new
        ≡ string_bytes text.old ++ text_of (inputs_of_events plan.now (events_of journal.now))) }
    // From the carriers that were up, these lines mean exactly the events.
    ensures records { OnOk result (Records plan.now up.old up.new (events_of journal.now)
        (inputs_of_events plan.now (events_of journal.now))) }
    ensures up { OnOk result (up.new ≡ up_after_all up.old (events_of journal.now)) }
    ensures recordable { OnOk result (AreRecordable plan.now up.old (events_of journal.now)) }
    ensures fault { IfErr result (λ fault. (fault ≡ RecordingFault.OutOfMemory)
        ⊎ IsFirstFault plan.now up.old 0 (events_of journal.now) fault) }
    ensures err { OnErr result
        ((string_bytes text.new ≡ string_bytes text.old) × (up.new ≡ up.old)) }
{
    recordings_mean();
    up.use_invariant();
    let draft = draft_of(alloc, plan, up, journal)?;
    match text.push_str(draft.text.as_str()) {
        Ok(()) => {
            *up = draft.up;
            Ok(())
        }
        Err(_) => Err(RecordingFault::OutOfMemory),
    }
}
