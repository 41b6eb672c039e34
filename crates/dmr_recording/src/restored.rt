//! Records the radios with which a site starts.

ghost use Rattle.std.specs.Prelude.{string_bytes, ◌⊎◌};
ghost use Rattle.std.specs.Prelude.{◌≡◌, ◌++◌, ◌∷◌, [], false, replicate, IfErr, IfOk, OnErr, OnOk};
ghost use Rattle.dmr_core.specs.declared.event.Event.TheVariants as AnEvent;
ghost use Rattle.dmr_recording.specs.Events.{events_of, inputs_of_events};
ghost use Rattle.dmr_recording.specs.Lines.{text_of};
ghost use Rattle.dmr_recording.specs.Recordable.{IsFirstFault, up_after_all};
ghost use Rattle.dmr_recording.specs.Records.{Records};
ghost use Rattle.dmr_recording.specs.Restored.{options_to_stay as staying, session_of as session};
ghost use Rattle.dmr_recording.specs.Restored.{registration_of as registration};

use crate::carriers::Carriers;
use crate::fault::RecordingFault;
use crate::recording::record_journal;
use dmr_core::{Acts, Entry, Event};
use dmr_pdu::{Address, Kind, Number, Options, OutOfMemory, Pdu, Slot, SlotNo};
use dmr_plan::Plan;
use std::alloc::Global;

/// Returns the options of a request that registers: the bit that separates it from a request to leave is 1.
fn options_to_stay(plan: &Plan) -> Options
    ensures { result ≡ staying plan.now }
{
    plan.use_invariant();
    match plan.leave_bit() {
        Some(bit) => Number::new(1 << bit),
        None => Number::new(0),
    }
}

/// Returns the request of a radio to be registered.
fn registration_of(plan: &Plan, radio: Address) -> Pdu
    ensures { result ≡ registration plan.now radio }
{
    Pdu::Random {
        options: options_to_stay(plan),
        flags: Number::new(0),
        kind: Kind::REGISTRATION,
        target: plan.regi(),
        source: radio,
    }
}

/// Returns the event in which a radio asks to be registered.
fn request_of(plan: &Plan, radio: Address) -> Event
    ensures { result ≡ AnEvent.Heard (record { carrier = plan.now.lists.control; slot = 0 })
        (registration plan.now radio) }
{
    let slot = Slot::new(plan.control(), SlotNo::new(0));
    Event::Heard(slot, registration_of(plan, radio))
}

/// Appends a copy of an item to a list. The item is borrowed, because the checker can use some `Copy` values only once.
fn push_copy<T: Copy>(list: &mut Vec<T>, item: &T) -> Result<(), OutOfMemory>
    ensures { OnOk result (list.new.items ≡ list.old.items ++ item.now ∷ []) }
{
    list.push(*item)?;
    Ok(())
}

/// Makes an entry with this event, without a sender and an answer.
fn entry_of(event: &Event) -> Entry
    ensures { result.event ≡ event.now }
{
    Entry {
        actor: 0,
        event: *event,
        acts: Acts::none(),
    }
}

/// Appends an entry with this event, without a sender and an answer.
fn push_event(journal: &mut Vec<Entry>, event: &Event) -> Result<(), OutOfMemory>
    ensures { OnOk result
        (events_of journal.new.items ≡ events_of journal.old.items ++ event.now ∷ []) }
{
    push_copy(journal, &entry_of(event))
}

/// Returns the journal of the session: the control carrier comes up, each radio registers and its acknowledgement is
/// sent, and the carrier is lost.
fn session_of(alloc: Global, plan: &Plan, radios: &[Address]) -> Result<Vec<Entry>, OutOfMemory>
    ensures { IfOk result (λ journal. events_of journal.items ≡ session plan.now radios.now) }
{
    let mut journal = Vec::new(alloc);
    push_event(&mut journal, &Event::Up(plan.control()))?;
    for radio in radios {
        push_event(&mut journal, &request_of(plan, *radio))?;
        push_event(&mut journal, &Event::Poll(plan.control()))?;
    }
    push_event(&mut journal, &Event::Lost(plan.control()))?;
    Ok(journal)
}

/// Appends a session of the control carrier in which radios register, as lines of a script. The carrier comes up, each
/// radio registers and its acknowledgement is sent, and the carrier is lost.
///
/// After the session a site that had just started is the site that starts with these radios registered
/// ([`a_session_registers`](crate::a_session_registers)). No carrier is up before the session, and none is up after it.
/// The error is `OutOfMemory`, or the fault of an event of the session, counted from its Up; then the text is
/// unchanged.
pub fn record_restored(
    alloc: Global,
    plan: &Plan,
    radios: &[Address],
    text: &mut String,
) -> Result<(), RecordingFault>
    ensures lines { OnOk result (string_bytes text.new
        ≡ string_bytes text.old ++ text_of (inputs_of_events plan.now (session plan.now radios.now))) }
    // While no carrier is up, these lines mean exactly the events of the session.
    ensures records { OnOk result (Records plan.now (replicate 16 false)
        (up_after_all (replicate 16 false) (session plan.now radios.now))
        (session plan.now radios.now) (inputs_of_events plan.now (session plan.now radios.now))) }
    ensures fault { IfErr result (λ fault. (fault ≡ RecordingFault.OutOfMemory)
        ⊎ IsFirstFault plan.now (replicate 16 false) 0 (session plan.now radios.now) fault) }
    ensures err { OnErr result (string_bytes text.new ≡ string_bytes text.old) }
{
    match session_of(alloc, plan, radios) {
        Ok(journal) => {
            let mut up = Carriers::none_up();
            record_journal(alloc, plan, &mut up, journal.as_slice(), text)
        }
        Err(OutOfMemory) => Err(RecordingFault::OutOfMemory),
    }
}
