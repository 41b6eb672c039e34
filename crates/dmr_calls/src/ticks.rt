//! Counting ticks of asks and calls, and marking calls as active.

ghost use Rattle.std.specs.Prelude.{◌≡◌, map};
ghost use Rattle.dmr_calls.specs.Asks.{ask_after_tick as waited_more_of};
ghost use Rattle.dmr_calls.specs.Calls.{one_tick_older as counted_of, with_activity as marked_of};
ghost use Rattle.dmr_calls.specs.Calls.{is_slot};

use crate::ask::ActiveAsk;
use crate::call::ActiveCall;
use crate::calls::{MOST_ASKS, MOST_CALLS};
use dmr_pdu::Slot;
use dmr_table::KeyedTable;

/// An ask after one more tick.
fn ask_after_tick(asking: ActiveAsk) -> ActiveAsk
    ensures { result ≡ waited_more_of asking }
{
    ActiveAsk {
        ask: asking.ask,
        waited: asking.waited.saturating_add(1),
    }
}

/// A call after one more tick.
fn call_after_tick(active_call: ActiveCall) -> ActiveCall
    ensures { result ≡ counted_of active_call }
{
    ActiveCall {
        call: active_call.call,
        age: active_call.age.saturating_add(1),
        quiet: active_call.quiet.saturating_add(1),
    }
}

/// Reports whether a call is on a slot.
fn is_on(active_call: &ActiveCall, slot: &Slot) -> bool
    ensures { result ≡ is_slot active_call.now.call.slot slot.now }
{
    active_call.call.slot == *slot
}

/// Adds one tick to each ask.
pub fn age_asks(asks: &mut KeyedTable<ActiveAsk, MOST_ASKS>)
    ensures { asks.new ≡ map waited_more_of asks.old }
{
    for place in 0..asks.len() {
        let asking = asks.as_slice()[place];
        asks.replace(place, ask_after_tick(asking));
    }
}

/// Adds one tick to each call.
pub fn age_calls(calls: &mut KeyedTable<ActiveCall, MOST_CALLS>)
    ensures { calls.new ≡ map counted_of calls.old }
{
    for place in 0..calls.len() {
        let active_call = calls.as_slice()[place];
        calls.replace(place, call_after_tick(active_call));
    }
}

/// Marks the calls on the slot as active.
pub fn mark_active(calls: &mut KeyedTable<ActiveCall, MOST_CALLS>, slot: &Slot)
    ensures { calls.new ≡ map (marked_of slot.now) calls.old }
{
    for place in 0..calls.len() {
        let active_call = calls.as_slice()[place];
        // The other calls are not written back: that costs more than the comparison of a slot.
        if is_on(&active_call, slot) {
            let active = ActiveCall {
                quiet: 0,
                ..active_call
            };
            calls.replace(place, active);
        }
    }
}
