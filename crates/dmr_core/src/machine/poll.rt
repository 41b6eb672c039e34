//! The answer to a carrier's poll: the PDUs for its next two slots.

ghost use Rattle.std.specs.Prelude.{◌≡◌, ◌≤◌, ◌<◌, ◌+◌, ◌++◌, length};
ghost use Rattle.dmr_core.specs.declared.event.Event.TheVariants.{Poll};
ghost use Rattle.dmr_core.specs.Rules.{acts_of, acts_for_slot};

use super::Machine;
use crate::act::{Act, ActList};
use dmr_pdu::{CarrierNo, Slot, SlotNo};

impl Machine {
    /// Answers a carrier's poll: for slot 0 and then for slot 1. There are no acts if the carrier is not up.
    pub(super) fn answer_poll(&self, acts: &mut ActList, carrier: CarrierNo)
        requires { length acts.old + 2 ≤ 16 }
        ensures { acts.new ≡ acts.old ++ acts_of self.now.plan self.now.facts (Poll carrier) }
    {
        if self.is_up(carrier) {
            self.add_send_or_fill(acts, &Slot::new(carrier, SlotNo::new(0)));
            self.add_send_or_fill(acts, &Slot::new(carrier, SlotNo::new(1)));
        }
    }

    /// Adds the first PDU that waits for a slot; if none waits and the slot is the control slot, its Fill.
    #[tactic(auto, unfolding(crate::specs::Rules::acts_for_slot))]
    fn add_send_or_fill(&self, acts: &mut ActList, slot: &Slot)
        requires { length acts.old < 16 }
        ensures acts { acts.new ≡ acts.old ++ acts_for_slot self.now.plan self.now.facts slot.now }
        ensures few { length acts.new ≤ length acts.old + 1 }
    {
        if let Some(pdu) = self.pool.first(*slot) {
            acts.push(Act::Send(*slot, pdu));
        } else if self.is_control(slot) {
            let pdu = self.access.next_fill(self.moving, self.late_entry());
            acts.push(Act::Fill(*slot, pdu));
        }
    }
}
