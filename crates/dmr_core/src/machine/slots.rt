//! Questions about slots: which is the control slot, which carriers are up, whether there is room, which slots are
//! free.

ghost use Rattle.std.specs.Prelude.{◌≡◌};
ghost use Rattle.dmr_pool.specs.Free.{control_slot, is_control};
ghost use Rattle.dmr_core.specs.Words.{has_room, is_free, is_up, lowest_free, lpcn_of};
ghost use Rattle.dmr_core.specs.Words.{slot_for_new_call, has_call_on};

use super::{Machine, slot_is_in_range};
use dmr_pdu::{CarrierNo, Lpcn, Slot};

/// The most PDUs in the control slot's outbox with which there is room for another answer: 56, by this project's
/// profile.
pub const MOST_WITH_ROOM: usize = 56;

impl Machine {
    /// Slot 0 of the control carrier.
    pub(super) fn control_slot(&self) -> Slot
        ensures { result ≡ control_slot self.now.plan.lists }
    {
        self.pool.control_slot()
    }

    /// Reports whether a slot is the control slot.
    pub(super) fn is_control(&self, slot: &Slot) -> bool
        ensures { result ≡ is_control self.now.plan.lists slot.now }
    {
        self.pool.is_control(*slot)
    }

    /// Reports whether a carrier is up.
    pub(super) fn is_up(&self, carrier: CarrierNo) -> bool
        ensures { result ≡ is_up self.now.facts carrier }
    {
        self.pool.is_up(carrier)
    }

    /// Reports whether there is room for the answer to a request.
    pub(super) fn has_room(&self) -> bool
        ensures { result ≡ has_room self.now.plan self.now.facts }
    {
        self.pool.waiting(self.control_slot()) <= MOST_WITH_ROOM
    }

    /// The channel of a carrier; 1 if the plan does not have the carrier.
    pub(super) fn lpcn_of(&self, carrier: CarrierNo) -> Lpcn
        ensures { result ≡ lpcn_of self.now.plan carrier }
    {
        match self.plan.carrier_with(carrier) {
            Some(row) => row.lpcn,
            None => Lpcn::new(1),
        }
    }

    /// Reports whether a call is active on a slot.
    #[tactic(auto, using(crate::proofs::ConsoleLemmas::called))]
    pub(super) fn has_call_on(&self, slot: &Slot) -> bool
        ensures { result ≡ has_call_on self.now.facts.calls slot.now }
    {
        self.calls.call_on(*slot).is_some()
    }

    /// Reports whether a call can begin on a slot.
    #[tactic(auto, using(crate::proofs::FreeLemmas::pool_free))]
    pub(super) fn is_free(&self, slot: &Slot) -> bool
        ensures { result ≡ is_free self.now.plan self.now.facts slot.now }
    {
        slot_is_in_range(slot);
        self.pool.is_free(*slot)
    }

    /// The lowest free slot, by carrier number, then slot.
    #[tactic(auto, using(crate::proofs::FreeLemmas::pool_lowest))]
    pub(super) fn lowest_free(&self) -> Option<Slot>
        ensures { result ≡ lowest_free self.now.plan self.now.facts }
    {
        self.pool.free_slot()
    }

    /// A slot for a new call: the lowest free one, but none while a line waits.
    pub(super) fn slot_for_new_call(&self) -> Option<Slot>
        ensures { result ≡ slot_for_new_call self.now.plan self.now.facts }
    {
        if self.calls.has_lines() {
            None
        } else {
            self.lowest_free()
        }
    }
}
