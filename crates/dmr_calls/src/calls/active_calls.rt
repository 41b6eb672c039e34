//! The calls.

ghost use Rattle.std.specs.Prelude.{◌≡◌, ◌<◌, [], ◌∷◌, ◌++◌, nat_le, length, map, is_err};
ghost use Rattle.dmr_calls.specs.declared.calls.TheConstants.{MOST_CALLS};
ghost use Rattle.dmr_calls.specs.Calls.{just_begun, with_activity, with_call, on_other_slots};
ghost use Rattle.dmr_calls.specs.Calls.{on_other_carriers, call_on, group_call, own_group_call};
ghost use Rattle.dmr_calls.specs.Calls.{own_call};
ghost use Rattle.dmr_calls.specs.Engaged.{call_of};
ghost use Rattle.dmr_calls.specs.Due.{due_call};

use super::{Calls, MOST_CALLS};
use crate::answer::Full;
use crate::call::{ActiveCall, Call};
use crate::party::is_party;
use crate::ticks::mark_active;
use dmr_pdu::{Address, CarrierNo, Slot};

impl Calls {
    /// Begins a call: adds it after the others, with 0 ticks. If `MOST_CALLS` calls are active, returns `Full` and
    /// changes nothing.
    pub fn begin(&mut self, call: Call) -> Result<(), Full>
        ensures full { is_err result ≡ nat_le MOST_CALLS (length self.old.calls) }
        ensures calls { self.new ≡ record self.old { calls = with_call self.old.calls call } }
    {
        if self.calls.len() >= MOST_CALLS {
            return Err(Full);
        }
        self.add_call(call);
        Ok(())
    }

    /// Begins a call: adds it after the others, with 0 ticks. There must be a place for it.
    pub fn add_call(&mut self, call: Call)
        requires { length self.old.calls < MOST_CALLS }
        ensures { self.new ≡ record self.old { calls = self.old.calls ++ just_begun call ∷ [] } }
    {
        self.calls.push(ActiveCall {
            call,
            age: 0,
            quiet: 0,
        });
    }

    /// Removes the calls on a slot, and returns the first of them. If there is none, returns `None` and changes
    /// nothing.
    pub fn end(&mut self, slot: Slot) -> Option<Call>
        ensures first { result ≡ call_on self.old.calls slot }
        ensures calls { self.new ≡ record self.old { calls = on_other_slots slot self.old.calls } }
    {
        let first = self.call_on(slot);
        self.end_calls_on(&slot);
        first
    }

    /// Removes the calls on a slot, if there are any.
    pub fn end_calls_on(&mut self, slot: &Slot)
        ensures { self.new ≡ record self.old { calls = on_other_slots slot.now self.old.calls } }
    {
        self.calls.remove(slot.index() as u32);
    }

    /// Removes the calls on the slots of a carrier.
    pub fn end_calls_of_carrier(&mut self, carrier: CarrierNo)
        ensures { self.new ≡ record self.old { calls = on_other_carriers carrier self.old.calls } }
    {
        let first = 2 * carrier.get();
        self.calls.remove(first);
        self.calls.remove(first + 1);
    }

    /// Marks the calls on a slot as active: their quiet time is 0 again.
    pub fn active(&mut self, slot: Slot)
        ensures { self.new ≡ record self.old { calls = map (with_activity slot) self.old.calls } }
    {
        mark_active(&mut self.calls, &slot);
    }

    /// The first call on a slot.
    pub fn call_on(&self, slot: Slot) -> Option<Call>
        ensures { result ≡ call_on self.now.calls slot }
    {
        let found = self.calls.find(slot.index() as u32)?;
        Some(found.call)
    }

    /// The first call to a talkgroup.
    pub fn group_call(&self, group: Address) -> Option<Call>
        ensures { result ≡ group_call self.now.calls group }
    {
        let found = self
            .calls
            .as_slice()
            .iter()
            .find(|s| s.call.group && s.call.target == group)?;
        Some(found.call)
    }

    /// The first call of the source to a talkgroup.
    pub fn own_group_call(&self, source: Address, group: Address) -> Option<Call>
        ensures { result ≡ own_group_call self.now.calls source group }
    {
        let found = self.calls.as_slice().iter().find(|s| s.call.source == source
            && s.call.group
            && s.call.target == group)?;
        Some(found.call)
    }

    /// The first individual call of the source to the target.
    pub fn own_call(&self, source: Address, target: Address) -> Option<Call>
        ensures { result ≡ own_call self.now.calls source target }
    {
        let found = self.calls.as_slice().iter().find(|s| s.call.source == source
            && !s.call.group
            && s.call.target == target)?;
        Some(found.call)
    }

    /// The first call to which a radio is a party: its source, or its target if it is individual.
    pub fn call_of(&self, radio: Address) -> Option<Call>
        ensures { result ≡ call_of self.now.calls radio }
    {
        let found = self.calls.as_slice().iter().find(|s| is_party(
            radio,
            s.call.group,
            s.call.source,
            s.call.target,
        ))?;
        Some(found.call)
    }

    /// The slot of the first call that was quiet for `hang` ticks or more, or is `maximum` ticks old or more.
    pub(super) fn due_call(&self, hang: u16, maximum: u16) -> Option<Slot>
        ensures { result ≡ due_call hang maximum self.now.calls }
    {
        let found = self
            .calls
            .as_slice()
            .iter()
            .find(|s| s.quiet >= hang || s.age >= maximum)?;
        Some(found.call.slot)
    }
}
