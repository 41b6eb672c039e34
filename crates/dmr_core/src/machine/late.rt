//! Late entries: grants that announce active talkgroup calls.

ghost use Rattle.std.specs.Prelude.{◌≡◌};
ghost use Rattle.dmr_core.specs.declared.act.Act.TheVariants.{Fill};
ghost use Rattle.dmr_core.specs.Facts.{facts_after_act};
ghost use Rattle.dmr_core.specs.Late.{carrier_on, last_slot, next_call};
ghost use Rattle.dmr_core.specs.Rules.{late_entry};

use super::Machine;
use crate::named::NamedSlot;
use dmr_calls::Call;
use dmr_pdu::{CarrierNo, Lpcn, Pdu, Slot};

impl Machine {
    /// The late entry of the next Fill. If one is due and the control channel is not to be moved, it is the grant of
    /// the next talkgroup call, if there is one.
    #[tactic(auto, unfolding(crate::specs::Rules::late_entry))]
    pub(super) fn late_entry(&self) -> Option<Pdu>
        ensures { result ≡ late_entry self.now.plan self.now.facts }
    {
        if self.access.late_due() && self.moving.is_none() {
            let call = self.next_call()?;
            Some(self.grant_pdu(&call, true))
        } else {
            None
        }
    }

    /// The talkgroup call that follows the one named last.
    fn next_call(&self) -> Option<Call>
        ensures { result ≡ next_call self.now.plan self.now.facts }
    {
        self.calls.group_after(self.last_slot())
    }

    /// The slot of the last late entry.
    fn last_slot(&self) -> Option<Slot>
        ensures { result ≡ last_slot self.now.plan self.now.facts }
    {
        let named = self.late?;
        let carrier = self.carrier_on(named.channel)?;
        Some(Slot {
            carrier,
            slot: named.slot,
        })
    }

    /// The carrier that has a channel.
    fn carrier_on(&self, channel: Lpcn) -> Option<CarrierNo>
        ensures { result ≡ carrier_on self.now.plan channel }
    {
        let row = self.plan.carrier().iter().find(|row| row.lpcn == channel)?;
        Some(row.number)
    }

    /// Applies a Fill of the control slot: counts it and, if it is a late entry, remembers the slot that it names.
    pub(super) fn apply_fill(&mut self, slot: &Slot, pdu: &Pdu)
        ensures { self.new ≡ record {
          plan = self.old.plan;
          facts = facts_after_act self.old.facts (Fill slot.now pdu.now);
        } }
    {
        let _ = slot;
        self.access.count_fill();
        if let Pdu::TvGrant { lpcn, slot, .. } = *pdu {
            self.late = Some(NamedSlot {
                channel: lpcn,
                slot,
            });
        }
    }
}
