//! The parts of a site, and the effect of each event and act on them. The answers are in the modules below.

ghost use Rattle.std.specs.Prelude.{◌≡◌, ◌≤◌, ◌+◌, ◌++◌, [], ◌∷◌, None, fold, length, IfOk};
ghost use Rattle.dmr_core.specs.declared.event.Event.TheVariants.{Up, Lost, Heard, Say};
ghost use Rattle.dmr_core.specs.Facts.{facts_after, facts_after_event, facts_after_act, no_facts};
ghost use Rattle.dmr_core.specs.Rules.{acts_of, answer_to_command};
ghost use Rattle.dmr_core.specs.Replies.{reply_to};
ghost use Rattle.dmr_core.specs.Journal.{unattributed_entry};
ghost use Rattle.dmr_core.specs.declared.act.Act.TheVariants.{Began, Ended};
ghost use Rattle.dmr_pool.specs.Slots.{IsSlot};
ghost use Rattle.dmr_core.specs.May.{MayBegin, MayDo, AllMayDo};
ghost use Rattle.dmr_core.specs.Restored.{facts_with};
ghost use Rattle.dmr_core.specs.Same.{are_same};

mod acts;
mod console;
mod late;
mod poll;
mod radio_pdus;
mod slots;
mod tick;

use crate::act::{Act, ActList, Acts};
use crate::command::Command;
use crate::event::Event;
use crate::named::NamedSlot;
use dmr_access::Access;
use dmr_calls::{Call, Calls};
use dmr_pdu::{Address, CarrierNo, Lpcn, OutOfMemory, Pdu, Slot};
use dmr_plan::Plan;
use dmr_pool::Pool;
use dmr_registry::Registry;
pub use slots::MOST_WITH_ROOM;
use std::alloc::Global;
use std::marker::Model;

/// A site in its parts. It computes answers and applies changes, one step at a time.
#[derive(Drop)]
pub struct Machine {
    plan: Plan,
    registry: Registry,
    pool: Pool,
    calls: Calls,
    access: Access,
    moving: Option<Lpcn>,
    late: Option<NamedSlot>,
}

impl Model for Machine {
    ghost use Rattle.std.specs.Prelude.{◌≡◌};
    ghost use Rattle.dmr_core.specs.State.{SiteState};
    ghost use Rattle.dmr_core.specs.Held.{HoldsCalls};

    ghost Value = { SiteState };

    ghost view = { λ m. record {
      plan = m.plan;
      facts = record {
        up = m.pool.up;
        registered = m.registry;
        asks = m.calls.asks;
        lines = m.calls.lines;
        calls = m.calls.calls;
        outboxes = m.pool.outboxes;
        noise = m.access.noise;
        moving = m.moving;
        fills = m.access.fills;
        late = m.late;
      };
    } };

    ghost invariant = { λ m. (m.access.system ≡ m.plan.system) × (m.access.aloha ≡ m.plan.aloha)
        × (m.access.calls ≡ m.plan.calls) × (m.pool.lists ≡ m.plan.lists)
        × HoldsCalls m.pool.held m.calls.calls };
}

/// Does nothing. A proof calls it to use that the numbers of a slot are in their ranges.
fn slot_is_in_range(slot: &Slot)
    ensures { IsSlot slot.now }
{
    let _ = (slot.carrier.get(), slot.slot.get());
}

impl Machine {
    /// Makes a site of the plan on which nothing has happened. Returns `OutOfMemory` if a part cannot be allocated.
    pub fn new(alloc: Global, plan: &Plan) -> Result<Machine, OutOfMemory>
        ensures { IfOk result (λ m. m ≡ record { plan = plan.now; facts = no_facts }) }
    {
        let Ok(registry) = Registry::new(alloc) else {
            return Err(OutOfMemory);
        };
        Machine::with_registry(alloc, plan, registry)
    }

    /// Makes a site of the plan on which nothing has happened, but with radios registered. Returns `OutOfMemory` if a
    /// part cannot be allocated; the registry is lost then.
    #[tactic(auto, using(crate::proofs::HeldLemmas::at_first))]
    pub fn with_registry(
        alloc: Global,
        plan: &Plan,
        registry: Registry,
    ) -> Result<Machine, OutOfMemory>
        ensures { IfOk result (λ m. m ≡ record { plan = plan.now; facts = facts_with registry }) }
    {
        let Ok(pool) = Pool::new(alloc, plan) else {
            drop(registry);
            return Err(OutOfMemory);
        };
        let Ok(calls) = Calls::new(alloc) else {
            drop((registry, pool));
            return Err(OutOfMemory);
        };
        let Ok(access) = Access::new(alloc, plan) else {
            drop((registry, pool, calls));
            return Err(OutOfMemory);
        };
        Ok(Machine {
            plan: *plan,
            registry,
            pool,
            calls,
            access,
            moving: None,
            late: None,
        })
    }

    /// Makes an independent site with the same plan and facts. Returns `OutOfMemory` if a part cannot be allocated.
    pub fn try_clone(&self, alloc: Global) -> Result<Machine, OutOfMemory>
        ensures { IfOk result (λ copy. copy ≡ self.now) }
    {
        let Ok(registry) = self.registry.try_clone(alloc) else {
            return Err(OutOfMemory);
        };
        let Ok(pool) = self.pool.try_clone(alloc) else {
            drop(registry);
            return Err(OutOfMemory);
        };
        let Ok(calls) = self.calls.try_clone(alloc) else {
            drop((registry, pool));
            return Err(OutOfMemory);
        };
        let Ok(access) = self.access.try_clone(alloc) else {
            drop((registry, pool, calls));
            return Err(OutOfMemory);
        };
        Ok(Machine {
            plan: self.plan,
            registry,
            pool,
            calls,
            access,
            moving: self.moving,
            late: self.late,
        })
    }

    /// The plan.
    pub fn plan(&self) -> &Plan
        ensures { result.now ≡ self.now.plan }
    {
        &self.plan
    }

    /// The registered radios, in the order in which they joined.
    pub fn registered(&self) -> &[Address]
        ensures { result.now ≡ self.now.facts.registered }
    {
        self.registry.as_slice()
    }

    /// Applies the Up of a carrier, which is up then if the plan has it. Its calls end, and the PDUs that waited for
    /// its slots are removed. For the control carrier, asks and lines end too, the noise numbers and Fills begin again,
    /// and the last late entry is forgotten.
    #[tactic(auto, using(crate::proofs::HeldLemmas::lost))]
    // Out of line: an event of another kind then does not clear this function's locals.
    #[inline(never)]
    fn apply_up(&mut self, carrier: CarrierNo)
        ensures { self.new ≡ record {
          plan = self.old.plan;
          facts = facts_after_event self.old.plan self.old.facts (Up carrier);
        } }
    {
        self.pool.use_invariant();
        self.calls.end_calls_of_carrier(carrier);
        if self.plan.carrier_with(carrier).is_some() {
            self.pool.up(carrier);
        } else {
            self.pool.empty_carrier(carrier);
        }
        if carrier == self.plan.control() {
            self.calls.clear_waiting();
            self.access.reset();
            self.late = None;
        }
    }

    /// Applies the Lost of a carrier. Its calls end, and the PDUs that waited for its slots are removed. For the
    /// control carrier, asks and lines end too, there are no noise numbers and no Fills, and the last late entry is
    /// forgotten.
    #[tactic(auto, using(crate::proofs::HeldLemmas::lost))]
    // Out of line: an event of another kind then does not clear this function's locals.
    #[inline(never)]
    fn apply_lost(&mut self, lost: CarrierNo)
        ensures { self.new ≡ record {
          plan = self.old.plan;
          facts = facts_after_event self.old.plan self.old.facts (Lost lost);
        } }
    {
        self.pool.use_invariant();
        self.calls.end_calls_of_carrier(lost);
        self.pool.lost(lost);
        if lost == self.plan.control() {
            self.calls.clear_waiting();
            self.access.stop();
            self.late = None;
        }
    }

    /// Begins a call, which holds its slot.
    // Out of line: an event without such an act then does not prepare for it.
    #[inline(never)]
    fn begin_call(&mut self, call: &Call)
        requires { MayBegin self.old.plan self.old.facts call.now }
        ensures { self.new ≡ record {
          plan = self.old.plan;
          facts = facts_after_act self.old.facts (Began call.now);
        } }
    {
        slot_is_in_range(&call.slot);
        self.pool.use_invariant();
        self.pool.hold(call.slot);
        self.calls.add_call(*call);
    }

    /// Ends the call on a slot and releases the slot.
    // Out of line: an event without such an act then does not prepare for it.
    #[inline(never)]
    fn end_call_on(&mut self, slot: &Slot)
        ensures { self.new ≡ record {
          plan = self.old.plan;
          facts = facts_after_act self.old.facts (Ended slot.now);
        } }
    {
        slot_is_in_range(slot);
        self.pool.use_invariant();
        self.pool.release(*slot);
        self.calls.end_calls_on(slot);
    }

    /// Applies an act to the facts.
    fn apply_act(&mut self, act: &Act)
        requires { MayDo self.old.plan self.old.facts act.now }
        ensures { self.new
            ≡ record { plan = self.old.plan; facts = facts_after_act self.old.facts act.now } }
    {
        match act {
            Act::Queue(slot, pdu) => self.pool.add_pdu(slot, pdu),
            Act::Send(slot, pdu) => self.pool.take_first(slot, pdu),
            Act::Fill(slot, pdu) => self.apply_fill(slot, pdu),
            Act::Joined(radio) => self.registry.add(*radio),
            Act::Left(radio) => self.registry.remove(*radio),
            Act::Asked(ask) => self.calls.add_ask(ask),
            Act::AskOver(source) => self.calls.ask_over(*source),
            Act::Lined(line) => self.calls.add_line(line),
            Act::Unlined(source) => self.calls.unline(*source),
            Act::Began(call) => self.begin_call(call),
            Act::Ended(slot) => self.end_call_on(slot),
        }
    }

    fn apply_acts(&mut self, acts: &[Act])
        requires { AllMayDo self.old.plan self.old.facts acts.now }
        ensures { self.new ≡ record {
          plan = self.old.plan;
          facts = fold facts_after_act self.old.facts acts.now;
        } }
    {
        for act in acts {
            self.apply_act(act);
        }
    }

    /// Answers a PDU on a slot: with no act unless the slot is the control slot, its carrier is up, and there is room.
    // Out of line: an event of another kind then does not clear this function's locals.
    #[inline(never)]
    fn answer_pdu_on(&self, acts: &mut ActList, slot: &Slot, pdu: &Pdu)
        requires { length acts.old + 7 ≤ 16 }
        ensures { acts.new
            ≡ acts.old ++ acts_of self.now.plan self.now.facts (Heard slot.now pdu.now) }
    {
        if self.is_up(slot.carrier) && self.is_control(slot) && self.has_room() {
            self.answer_pdu(acts, pdu);
        }
    }

    /// Makes `acts` the answer to a command.
    // Out of line: an event of another kind then does not clear the room of the answer that is returned here.
    #[inline(never)]
    fn answer_command_to(&self, command: &Command, acts: &mut Acts)
        ensures { acts.new ≡ answer_to_command self.now.plan self.now.facts command.now }
    {
        *acts = self.answer_command(command);
    }

    /// Applies a command to the facts: `move` sets the channel to which the control channel moves, and `stay` removes it.
    fn apply_command(&mut self, command: &Command)
        ensures { self.new ≡ record {
          plan = self.old.plan;
          facts = facts_after_event self.old.plan self.old.facts (Say command.now);
        } }
    {
        match command {
            Command::Move(lpcn) => self.moving = Some(*lpcn),
            Command::Stay => self.moving = None,
            _ => {}
        }
    }

    /// Answers an event and applies it to the facts, without its acts. `acts` becomes the answer, whatever it was before.
    /// A Tick is counted before it is answered.
    #[tactic(auto, using(crate::proofs::HeldLemmas::marked_held, crate::proofs::HeldLemmas::counted_held))]
    fn answer_and_note(&mut self, event: &Event, acts: &mut Acts)
        ensures acts { acts.new ≡ record {
          list = acts_of self.old.plan self.old.facts event.now;
          said = reply_to self.old.plan self.old.facts event.now;
        } }
        ensures facts { self.new ≡ record {
          plan = self.old.plan;
          facts = facts_after_event self.old.plan self.old.facts event.now;
        } }
    {
        acts.clear();
        match event {
            Event::Up(carrier) => self.apply_up(*carrier),
            Event::Lost(carrier) => self.apply_lost(*carrier),
            Event::Heard(slot, pdu) => self.answer_pdu_on(&mut acts.list, slot, pdu),
            Event::Noise(slot) => {
                if self.is_control(slot) {
                    self.access.noise();
                }
            }
            Event::Active(slot) => self.calls.active(*slot),
            Event::Poll(carrier) => {
                self.answer_poll(&mut acts.list, *carrier);
                if *carrier == self.plan.control() {
                    self.access.polled();
                }
            }
            Event::Tick => {
                self.calls.count_tick();
                self.answer_tick(&mut acts.list);
            }
            Event::Say(command) => {
                self.answer_command_to(command, acts);
                self.apply_command(command);
            }
        }
    }

    /// Answers an event and applies it with its acts. `acts` becomes the answer, whatever it was before.
    pub fn apply_to(&mut self, event: &Event, acts: &mut Acts)
        requires { AllMayDo self.old.plan (facts_after_event self.old.plan self.old.facts event.now)
            (acts_of self.old.plan self.old.facts event.now) }
        ensures acts { acts.new ≡ record {
          list = acts_of self.old.plan self.old.facts event.now;
          said = reply_to self.old.plan self.old.facts event.now;
        } }
        ensures facts { self.new ≡ record {
          plan = self.old.plan;
          facts =
              facts_after self.old.plan self.old.facts (unattributed_entry event.now acts.new ∷ []);
        } }
    {
        self.answer_and_note(event, acts);
        self.apply_acts(acts.list.as_slice());
    }

    /// Reports whether two sites have the same plan and facts.
    pub fn equals(&self, other: &Machine) -> bool
        ensures { result ≡ are_same self.now other.now }
    {
        self.plan == other.plan
            && self.registry == other.registry
            && self.pool.has_same_carriers_and_pdus(&other.pool)
            && self.calls == other.calls
            && self.access.has_same_noise_and_fills(&other.access)
            && self.moving == other.moving
            && self.late == other.late
    }
}
