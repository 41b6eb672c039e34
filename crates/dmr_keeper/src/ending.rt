//! The open calls by an entry of a journal, and the records of those that end.

ghost use Rattle.std.specs.Prelude.{◌≡◌, ◌++◌, fold, filter, map, not, OnOk};
ghost use Rattle.dmr_keeper.specs.Calls.{ended_at as ended_call_at, ended_by_act, ended_by_acts};
ghost use Rattle.dmr_keeper.specs.Calls.{ended_by_event, ended_in_entry};
ghost use Rattle.dmr_keeper.specs.Calls.{open_after_entry, open_by_act, open_by_event};
ghost use Rattle.dmr_keeper.specs.Ending.{is_covered};

use crate::calls::{EndedCall, OpenCall, count_tick, mark_active};
use crate::lines::OpenLine;
use dmr_core::{Act, Entry, Event};
use dmr_pdu::{CarrierNo, OutOfMemory, Slot};

/// The calls that end together.
#[derive(Clone, Copy, Debug)]
pub enum EndingCalls {
    /// Those on a slot.
    OnSlot(Slot),
    /// Those on the slots of a carrier.
    OfCarrier(CarrierNo),
}

impl EndingCalls {
    /// Reports whether the call is one of them.
    fn covers(&self, call: &OpenCall) -> bool
        ensures { result ≡ is_covered self.now call.now }
    {
        match self {
            EndingCalls::OnSlot(slot) => call.active.call.slot == *slot,
            EndingCalls::OfCarrier(carrier) => call.active.call.slot.carrier == *carrier,
        }
    }
}

/// Adds the records of the calls that end.
fn add_ended(
    hang: u16,
    event: &Event,
    tick: u64,
    ending: &EndingCalls,
    calls: &[OpenCall],
    ended: &mut Vec<EndedCall>,
) -> Result<(), OutOfMemory>
    ensures { OnOk result (ended.new.items ≡ ended.old.items
        ++ map (ended_call_at hang event.now tick) (filter (is_covered ending.now) calls.now)) }
{
    for call in calls {
        if ending.covers(call) {
            ended.push(call.ended_at(hang, event, tick))?;
        }
    }
    Ok(())
}

/// Removes the calls that end.
fn remove_ended(ending: &EndingCalls, calls: &mut Vec<OpenCall>)
    ensures { calls.new.items ≡ filter (λ o. not (is_covered ending.now o)) calls.old.items }
{
    calls.retain(|call| !ending.covers(call));
}

/// Removes the calls that end, and adds their records.
fn end_calls(
    hang: u16,
    event: &Event,
    tick: u64,
    ending: &EndingCalls,
    calls: &mut Vec<OpenCall>,
    ended: &mut Vec<EndedCall>,
) -> Result<(), OutOfMemory>
    ensures calls { OnOk result
        (calls.new.items ≡ filter (λ o. not (is_covered ending.now o)) calls.old.items) }
    ensures ended { OnOk result (ended.new.items ≡ ended.old.items
        ++ map (ended_call_at hang event.now tick)
        (filter (is_covered ending.now) calls.old.items)) }
{
    add_ended(hang, event, tick, ending, calls.as_slice(), ended)?;
    remove_ended(ending, calls);
    Ok(())
}

/// Applies an event to the open calls, and adds the records of those that it ends.
fn apply_event(
    hang: u16,
    event: &Event,
    tick: u64,
    calls: &mut Vec<OpenCall>,
    ended: &mut Vec<EndedCall>,
) -> Result<(), OutOfMemory>
    ensures calls { OnOk result (calls.new.items ≡ open_by_event calls.old.items event.now) }
    ensures ended { OnOk result
        (ended.new.items ≡ ended.old.items ++ ended_by_event hang event.now tick calls.old.items) }
{
    match event {
        Event::Up(carrier) | Event::Lost(carrier) => {
            end_calls(
                hang,
                event,
                tick,
                &EndingCalls::OfCarrier(*carrier),
                calls,
                ended,
            )?;
        }
        Event::Active(slot) => mark_active(calls, slot),
        Event::Tick => count_tick(calls),
        Event::Heard(_, _) | Event::Noise(_) | Event::Poll(_) | Event::Say(_) => {}
    }
    Ok(())
}

/// Applies an act to the open calls, and adds the records of those that it ends. `lines` waited before its entry.
fn apply_act(
    hang: u16,
    event: &Event,
    tick: u64,
    lines: &[OpenLine],
    act: &Act,
    calls: &mut Vec<OpenCall>,
    ended: &mut Vec<EndedCall>,
) -> Result<(), OutOfMemory>
    ensures calls { OnOk result (calls.new.items ≡ open_by_act tick lines.now calls.old.items act.now) }
    ensures ended { OnOk result (ended.new.items
        ≡ ended.old.items ++ ended_by_act hang event.now tick calls.old.items act.now) }
{
    match act {
        Act::Began(call) => calls.push(OpenCall::begun(call, tick, lines))?,
        Act::Ended(slot) => end_calls(
            hang,
            event,
            tick,
            &EndingCalls::OnSlot(*slot),
            calls,
            ended,
        )?,
        Act::Queue(_, _)
        | Act::Send(_, _)
        | Act::Fill(_, _)
        | Act::Joined(_)
        | Act::Left(_)
        | Act::Asked(_)
        | Act::AskOver(_)
        | Act::Lined(_)
        | Act::Unlined(_) => {}
    }
    Ok(())
}

/// Applies acts in their order. `lines` waited before their entry.
fn apply_acts(
    hang: u16,
    event: &Event,
    tick: u64,
    lines: &[OpenLine],
    acts: &[Act],
    calls: &mut Vec<OpenCall>,
    ended: &mut Vec<EndedCall>,
) -> Result<(), OutOfMemory>
    ensures calls { OnOk result
        (calls.new.items ≡ fold (open_by_act tick lines.now) calls.old.items acts.now) }
    ensures ended { OnOk result (ended.new.items ≡ ended.old.items
        ++ ended_by_acts hang event.now tick lines.now calls.old.items acts.now) }
{
    for act in acts {
        apply_act(hang, event, tick, lines, act, calls, ended)?;
    }
    Ok(())
}

/// Applies an entry to the open calls, whose ticks with its event are `tick`, and adds the records of those that it
/// ends. `lines` waited before it. On an error memory ran out, and both lists have the effect of some first acts.
pub fn apply_to_calls(
    hang: u16,
    tick: u64,
    lines: &[OpenLine],
    entry: &Entry,
    calls: &mut Vec<OpenCall>,
    ended: &mut Vec<EndedCall>,
) -> Result<(), OutOfMemory>
    ensures calls { OnOk result
        (calls.new.items ≡ open_after_entry tick lines.now calls.old.items entry.now) }
    ensures ended { OnOk result (ended.new.items ≡ ended.old.items
        ++ ended_in_entry hang tick lines.now calls.old.items entry.now) }
{
    apply_event(hang, &entry.event, tick, calls, ended)?;
    apply_acts(
        hang,
        &entry.event,
        tick,
        lines,
        entry.acts.list.as_slice(),
        calls,
        ended,
    )
}
