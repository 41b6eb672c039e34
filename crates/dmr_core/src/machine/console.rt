//! The answers to an operator's commands: the acts and the reply, decided together.

ghost use Rattle.std.specs.Prelude.{◌≡◌, ◌≤◌, ◌<◌, ◌+◌, ◌++◌, length, filter, if◌then◌else◌};
ghost use Rattle.dmr_core.specs.declared.reply.Reply.TheVariants.{Calls, NoCarrier, Status};
ghost use Rattle.dmr_core.specs.Rules.{acts_and_done, answer_to_command, drop_radio, end_call};
ghost use Rattle.dmr_core.specs.Rules.{reply_alone};
ghost use Rattle.dmr_calls.specs.Calls.{call_on};
ghost use Rattle.dmr_core.specs.Facts.{has_carrier};
ghost use Rattle.dmr_core.specs.Displays.{all_slot_states, at_most_one, calls_on_carrier};
ghost use Rattle.dmr_core.specs.Displays.{slot_states, state_of};

use super::Machine;
use crate::act::{Act, ActList, Acts};
use crate::command::Command;
use crate::reply::{Reply, SlotState, State};
use dmr_calls::Call;
use dmr_pdu::{Address, BoundedList, CarrierNo, Slot, SlotNo};

/// The answer to a command that has no acts.
fn reply_alone(reply: Reply) -> Acts
    ensures { result ≡ reply_alone reply }
{
    Acts {
        list: BoundedList::new(),
        said: Some(reply),
    }
}

/// The answer to a command that is done by these acts.
fn acts_and_done(list: ActList) -> Acts
    ensures { result ≡ acts_and_done list }
{
    Acts {
        list,
        said: Some(Reply::Done),
    }
}

impl Machine {
    /// The answer to a command.
    #[tactic(auto, unfolding(crate::specs::Rules::answer_to_command))]
    // Out of line: an event of another kind then does not clear this function's locals.
    #[inline(never)]
    pub(super) fn answer_command(&self, command: &Command) -> Acts
        ensures { result ≡ answer_to_command self.now.plan self.now.facts command.now }
    {
        match command {
            Command::Status => reply_alone(self.status_reply()),
            Command::Radios(from) => {
                let radios = self.registry.from_number(*from);
                reply_alone(Reply::Radios(BoundedList::from_slice(radios.as_slice())))
            }
            Command::Calls(carrier) => reply_alone(self.calls_or_no_carrier(*carrier)),
            Command::Lines(from) => {
                let lines = self.calls.lines_from(usize::from(from.get()) - 1);
                reply_alone(Reply::Lines {
                    from: *from,
                    rows: BoundedList::from_slice(lines.as_slice()),
                })
            }
            Command::Slots => reply_alone(Reply::Slots(self.slot_states())),
            Command::Drop(radio) => self.answer_drop(*radio),
            Command::End(carrier, slot) => self.answer_end(&Slot::new(*carrier, *slot)),
            Command::Move(_) | Command::Stay => acts_and_done(BoundedList::new()),
        }
    }

    /// The answer to `drop`. If the radio is registered and there is room, the call, ask or line that engages it ends,
    /// and it is no longer registered.
    fn answer_drop(&self, radio: Address) -> Acts
        ensures { result ≡ drop_radio self.now.plan self.now.facts radio }
    {
        if !self.registry.has(radio) {
            reply_alone(Reply::NotRegistered)
        } else if !self.has_room() {
            reply_alone(Reply::Busy)
        } else {
            let mut acts = BoundedList::new();
            self.add_close(&mut acts, radio);
            acts.push(Act::Left(radio));
            acts_and_done(acts)
        }
    }

    /// The answer to `end`: it ends the call on a slot, if the plan has the carrier and a call is active there.
    fn answer_end(&self, slot: &Slot) -> Acts
        ensures { result ≡ end_call self.now.plan self.now.facts slot.now }
    {
        if self.plan.carrier_with(slot.carrier).is_none() {
            reply_alone(Reply::NoCarrier)
        } else if let Some(call) = self.calls.call_on(*slot) {
            let mut acts = BoundedList::new();
            self.add_clear(&mut acts, &call);
            acts_and_done(acts)
        } else {
            reply_alone(Reply::NoCall)
        }
    }

    /// The calls on a carrier; `NoCarrier` if the plan has none of this number.
    fn calls_or_no_carrier(&self, carrier: CarrierNo) -> Reply
        ensures { result ≡ (if has_carrier self.now.plan carrier
            then Calls (calls_on_carrier self.now.facts.calls carrier) else NoCarrier) }
    {
        if self.plan.carrier_with(carrier).is_some() {
            Reply::Calls(self.calls_on_carrier(carrier))
        } else {
            Reply::NoCarrier
        }
    }

    /// The answer to `status`.
    fn status_reply(&self) -> Reply
        ensures { result ≡ Status (length (filter (λ up. up) self.now.facts.up))
            (length self.now.facts.registered) (length self.now.facts.asks)
            (length self.now.facts.lines) (length self.now.facts.calls) self.now.facts.moving }
    {
        let counts = self.calls.counts();
        Reply::Status {
            carriers: self.pool.carriers_up(),
            radios: self.registry.len(),
            asks: counts.asks,
            lines: counts.lines,
            calls: counts.calls,
            moving: self.moving,
        }
    }

    /// The calls on a carrier, by slot.
    fn calls_on_carrier(&self, carrier: CarrierNo) -> BoundedList<Call, 2>
        ensures { result ≡ calls_on_carrier self.now.facts.calls carrier }
    {
        let mut calls = BoundedList::new();
        self.add_call(&mut calls, carrier, SlotNo::new(0));
        self.add_call(&mut calls, carrier, SlotNo::new(1));
        calls
    }

    /// Adds the call on a slot, if one is active there.
    fn add_call(&self, calls: &mut BoundedList<Call, 2>, carrier: CarrierNo, slot: SlotNo)
        requires { length calls.old < 2 }
        ensures calls { calls.new ≡ calls.old
            ++ at_most_one
            (call_on self.now.facts.calls (record { carrier = carrier; slot = slot })) }
        ensures few { length calls.new ≤ length calls.old + 1 }
    {
        if let Some(call) = self.calls.call_on(Slot::new(carrier, slot)) {
            calls.push(call);
        }
    }

    /// The state of a slot: the first that applies.
    fn state_of(&self, slot: &Slot) -> State
        ensures { result ≡ state_of self.now.plan self.now.facts slot.now }
    {
        if self.is_control(slot) {
            State::Control
        } else if !self.is_up(slot.carrier) {
            State::Down
        } else if self.has_call_on(slot) {
            State::Call
        } else if self.is_free(slot) {
            State::Free
        } else {
            State::Waiting
        }
    }

    /// Each slot of the plan with its state, by carrier number, then slot.
    fn slot_states(&self) -> BoundedList<SlotState, 32>
        ensures { result ≡ all_slot_states self.now.plan self.now.facts }
    {
        let mut slots = BoundedList::new();
        for place in 0..32usize {
            self.add_slot(&mut slots, &Slot::at(place));
        }
        slots
    }

    /// Adds a slot with its state, if the plan has its carrier.
    fn add_slot(&self, slots: &mut BoundedList<SlotState, 32>, slot: &Slot)
        requires { length slots.old < 32 }
        ensures slots { slots.new ≡ slots.old ++ slot_states self.now.plan self.now.facts slot.now }
        ensures few { length slots.new ≤ length slots.old + 1 }
    {
        if self.plan.carrier_with(slot.carrier).is_some() {
            slots.push(SlotState {
                slot: *slot,
                state: self.state_of(slot),
            });
        }
    }
}
