//! Calls that are open, and calls that ended.

ghost use Rattle.std.specs.Prelude.{◌≡◌, map};
ghost use Rattle.dmr_keeper.specs.Calls.{begun_at, ended_at as ended_call_at};
ghost use Rattle.dmr_keeper.specs.Calls.{one_tick_on, with_activity_on};

use crate::cause::{EndCause, cause_of};
use crate::lines::{OpenLine, waited_at};
use dmr_calls::{ActiveCall, Call};
use dmr_core::Event;
use dmr_pdu::Slot;

/// A call that began and has not ended.
#[derive(Clone, Copy, Debug, PartialEq, Eq)]
pub struct OpenCall {
    /// The call, with its age and its quiet time as the site counts them.
    pub active: ActiveCall,
    /// The tick at which it began, counted over all terms.
    pub began: u64,
    /// How many ticks its request waited in line for a slot; 0 if it was given one at once.
    pub waited: u64,
}

/// A call that ended.
#[derive(Clone, Copy, Debug, PartialEq, Eq)]
pub struct EndedCall {
    /// The call: its slot and its parties.
    pub call: Call,
    /// The tick at which it began, counted over all terms.
    pub began: u64,
    /// The tick at which it ended, counted over all terms.
    pub ended: u64,
    /// How many ticks its request waited in line for a slot; 0 if it was given one at once.
    pub waited: u64,
    /// Why it ended.
    pub cause: EndCause,
}

impl OpenCall {
    /// The call when it begins at this tick, in an entry before which these lines waited.
    pub(crate) fn begun(call: &Call, tick: u64, lines: &[OpenLine]) -> OpenCall
        ensures { result ≡ begun_at tick lines.now call.now }
    {
        OpenCall {
            active: ActiveCall {
                call: *call,
                age: 0,
                quiet: 0,
            },
            began: tick,
            waited: waited_at(tick, lines, &call.source),
        }
    }

    /// The call one tick later.
    fn counted(&self) -> OpenCall
        ensures { result ≡ one_tick_on self.now }
    {
        OpenCall {
            active: ActiveCall {
                age: self.active.age.saturating_add(1),
                quiet: self.active.quiet.saturating_add(1),
                ..self.active
            },
            ..*self
        }
    }

    /// The call after activity on a slot.
    fn marked(&self, slot: &Slot) -> OpenCall
        ensures { result ≡ with_activity_on slot.now self.now }
    {
        if self.active.call.slot == *slot {
            OpenCall {
                active: ActiveCall {
                    quiet: 0,
                    ..self.active
                },
                ..*self
            }
        } else {
            *self
        }
    }

    /// The record of the call if it ends at this tick, in an entry with this event.
    pub(crate) fn ended_at(&self, hang: u16, event: &Event, tick: u64) -> EndedCall
        ensures { result ≡ ended_call_at hang event.now tick self.now }
    {
        EndedCall {
            call: self.active.call,
            began: self.began,
            ended: tick,
            waited: self.waited,
            cause: cause_of(hang, event, &self.active),
        }
    }
}

/// Counts a tick for each call.
pub fn count_tick(calls: &mut [OpenCall])
    ensures { calls.new ≡ map one_tick_on calls.old }
{
    for call in calls.iter_mut() {
        *call = call.counted();
    }
}

/// Marks the calls on a slot as active: their quiet time is 0 again.
pub fn mark_active(calls: &mut [OpenCall], slot: &Slot)
    ensures { calls.new ≡ map (with_activity_on slot.now) calls.old }
{
    for call in calls.iter_mut() {
        *call = call.marked(slot);
    }
}
