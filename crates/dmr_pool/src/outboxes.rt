//! The outboxes of all slots of a site, and the numbers of waiting grants of each slot.

ghost use Rattle.std.specs.Prelude.{◌≡◌, ◌<◌, [], ◌≤◌, ℕ, true, length, replicate, slice_get};
ghost use Rattle.std.specs.Prelude.{slice_index_or, IfOk};
ghost use Rattle.std.specs.Cmp.Lexicographic.{pointwise};
ghost use Rattle.dmr_plan.specs.Sections.{IsListSection};
ghost use Rattle.dmr_pool.specs.declared.outbox.TheConstants.{MOST_PDUS_OF_A_SLOT};
ghost use Rattle.dmr_pool.specs.Slots.{box, outboxes_without_carrier, outboxes_with_pdu};
ghost use Rattle.dmr_pool.specs.Slots.{outboxes_after_send, slot_at};
ghost use Rattle.dmr_pool.specs.Free.{control_slot, is_control, is_granted};
ghost use Rattle.dmr_pool.specs.Grants.{AreOutboxes, IsOneMore, is_this, slot_counted};
ghost use Rattle.dmr_pool.specs.Grants.{slot_granted, slot_on_channel};
ghost use Rattle.dmr_pdu.specs.Slots.{slots_of_site};
ghost use Rattle.dmr_pool.specs.Same.{are_same_pdus};

use crate::outbox::Outbox;
use dmr_pdu::{CarrierNo, Lpcn, OutOfMemory, Pdu, Slot, SlotNo};
use dmr_plan::{ListSection, Plan};
use std::alloc::Global;
use std::marker::Model;

/// The outboxes of a site: one for each slot of each carrier number.
const OUTBOXES: usize = 32;

/// The outboxes of a plan's site. Contracts see the lists of the plan and the PDUs that wait for each slot.
///
/// For each slot it counts the grants that name the slot and wait for the control slot.
#[derive(Drop)]
pub struct Outboxes {
    lists: ListSection,
    outboxes: Vec<Outbox>,
    grants: [u8; 32],
}

impl Model for Outboxes {
    ghost use Rattle.dmr_plan.specs.Sections.{IsListSection};
    ghost use Rattle.dmr_pool.specs.Grants.{AreCounted, AreOutboxes, WaitingPdus};

    ghost Value = { WaitingPdus };

    ghost view = { λ o. record { lists = o.lists; outboxes = o.outboxes.items } };

    ghost invariant = { λ o. AreOutboxes o.outboxes.items
        × AreCounted o.lists o.outboxes.items o.grants × IsListSection o.lists };
}

/// Makes empty outboxes. Returns `OutOfMemory` if they cannot be allocated.
fn empty_outboxes(alloc: Global) -> Result<Vec<Outbox>, OutOfMemory>
    ensures { IfOk result (λ outboxes. outboxes.items ≡ replicate 32 []) }
{
    let mut outboxes = Vec::with_capacity(alloc, OUTBOXES)?;
    for _ in 0..OUTBOXES {
        outboxes.push(Outbox::new(alloc)?)?;
    }
    Ok(outboxes)
}

/// Makes copies of outboxes with memory of their own. Returns `OutOfMemory` if they cannot be allocated.
fn copied_outboxes(alloc: Global, outboxes: &[Outbox]) -> Result<Vec<Outbox>, OutOfMemory>
    ensures { IfOk result (λ copies. copies.items ≡ outboxes.now) }
{
    let mut copies = Vec::with_capacity(alloc, outboxes.len())?;
    for outbox in outboxes {
        copies.push(outbox.try_clone(alloc)?)?;
    }
    Ok(copies)
}

/// Counts one more grant of a slot, if there is one.
fn count_grant(grants: &mut [u8; 32], granted: Option<Slot>)
    requires { (place : ℕ) → place < slots_of_site → slice_index_or grants.old place 0 < 255 }
    ensures { IsOneMore grants.old granted grants.new }
{
    if let Some(slot) = granted {
        grants[slot.index()] += 1;
    }
}

/// Counts one grant less of a slot, if there is one.
fn uncount_grant(grants: &mut [u8; 32], granted: Option<Slot>)
    requires { (place : ℕ) → place < slots_of_site → is_this granted (slot_at place) ≡ true
        → 1 ≤ slice_index_or grants.old place 0 }
    ensures { IsOneMore grants.new granted grants.old }
{
    if let Some(slot) = granted {
        grants[slot.index()] -= 1;
    }
}

impl Outboxes {
    /// Makes the outboxes of a plan's site, all empty. Returns `OutOfMemory` if they cannot be allocated.
    pub fn new(alloc: Global, plan: &Plan) -> Result<Outboxes, OutOfMemory>
        ensures { IfOk result
            (λ o. o ≡ record { lists = plan.now.lists; outboxes = replicate 32 [] }) }
    {
        Ok(Outboxes {
            lists: plan.settings().lists,
            outboxes: empty_outboxes(alloc)?,
            grants: [0; OUTBOXES],
        })
    }

    /// Makes a copy with memory of its own. Returns `OutOfMemory` if the allocation fails.
    pub fn try_clone(&self, alloc: Global) -> Result<Outboxes, OutOfMemory>
        ensures { IfOk result (λ copy. copy ≡ self.now) }
    {
        Ok(Outboxes {
            lists: self.lists,
            outboxes: copied_outboxes(alloc, &self.outboxes)?,
            grants: self.grants,
        })
    }

    /// The lists of the plan.
    pub fn lists(&self) -> &ListSection
        ensures { result.now ≡ self.now.lists }
    {
        &self.lists
    }

    /// Slot 0 of the control carrier.
    pub fn control_slot(&self) -> Slot
        ensures { result ≡ control_slot self.now.lists }
    {
        Slot::new(self.lists.control, SlotNo::new(0))
    }

    /// Reports whether a slot is the control slot.
    pub fn is_control(&self, slot: &Slot) -> bool
        ensures { result ≡ is_control self.now.lists slot.now }
    {
        slot.carrier == self.lists.control && slot.slot.get() == 0
    }

    /// Reports whether a grant of a slot waits for the control slot.
    pub fn is_granted(&self, slot: &Slot) -> bool
        ensures { result ≡ is_granted self.now.lists self.now.outboxes slot.now }
    {
        self.grants[slot.index()] > 0
    }

    /// The slot with this number on the plan's carrier with this channel.
    fn slot_on_channel(&self, channel: Lpcn, number: SlotNo) -> Option<Slot>
        ensures { result ≡ slot_on_channel self.now.lists channel number }
    {
        let rows = self.lists.carriers.as_slice();
        let row = rows.iter().find(|row| channel == row.lpcn)?;
        Some(Slot::new(row.number, number))
    }

    /// The slot that a PDU grants, if it is a grant of a slot of the site.
    fn slot_granted(&self, pdu: &Pdu) -> Option<Slot>
        ensures { result ≡ slot_granted self.now.lists pdu.now }
    {
        match *pdu {
            Pdu::PvGrant { lpcn, slot, .. } | Pdu::TvGrant { lpcn, slot, .. } => {
                self.slot_on_channel(lpcn, slot)
            }
            _ => None,
        }
    }

    /// The slot whose grant count changes when a PDU is added to a slot's outbox or removed from it. Only grants that
    /// wait for the control slot count.
    pub fn slot_counted(&self, slot: &Slot, pdu: &Pdu) -> Option<Slot>
        ensures { result ≡ slot_counted self.now.lists slot.now pdu.now }
    {
        if self.is_control(slot) {
            self.slot_granted(pdu)
        } else {
            None
        }
    }

    /// Adds a PDU after those that wait for a slot. There must be a place for it.
    pub fn push(&mut self, slot: &Slot, pdu: &Pdu)
        requires { length (box self.old.outboxes slot.now) < MOST_PDUS_OF_A_SLOT }
        ensures { self.new ≡ record {
          lists = self.old.lists;
          outboxes = outboxes_with_pdu self.old.outboxes slot.now pdu.now;
        } }
    {
        let granted = self.slot_counted(slot, pdu);
        self.outboxes[slot.index()].push(*pdu);
        count_grant(&mut self.grants, granted);
    }

    /// Removes the PDU that has waited longest for a slot, which must be `pdu`.
    pub fn take(&mut self, slot: &Slot, pdu: &Pdu)
        requires { slice_get (box self.old.outboxes slot.now) 0 ≡ Some pdu.now }
        ensures { self.new ≡ record {
          lists = self.old.lists;
          outboxes = outboxes_after_send self.old.outboxes slot.now;
        } }
    {
        let granted = self.slot_counted(slot, pdu);
        self.outboxes[slot.index()].take();
        uncount_grant(&mut self.grants, granted);
    }

    /// Removes all PDUs that wait for the slots of a carrier.
    pub fn clear(&mut self, carrier: CarrierNo)
        ensures { self.new ≡ record {
          lists = self.old.lists;
          outboxes = outboxes_without_carrier self.old.outboxes carrier;
        } }
    {
        let first = 2 * carrier.get() as usize;
        self.outboxes[first].clear();
        self.outboxes[first + 1].clear();
        if carrier == self.lists.control {
            self.grants = [0; OUTBOXES];
        }
    }

    /// The PDU that has waited longest for a slot, if one waits.
    pub fn first(&self, slot: &Slot) -> Option<Pdu>
        ensures { result ≡ slice_get (box self.now.outboxes slot.now) 0 }
    {
        self.outboxes[slot.index()].first()
    }

    /// The number of PDUs that wait for a slot: 0 to `MOST_PDUS_OF_A_SLOT`.
    pub fn waiting(&self, slot: &Slot) -> usize
        ensures value { result ≡ length (box self.now.outboxes slot.now) }
        ensures few { result ≤ MOST_PDUS_OF_A_SLOT }
    {
        self.outboxes[slot.index()].len()
    }

    /// Reports whether the same PDUs wait for each slot.
    pub fn has_same_pdus(&self, other: &Outboxes) -> bool
        ensures { result ≡ pointwise are_same_pdus self.now.outboxes other.now.outboxes }
    {
        self.outboxes == other.outboxes
    }

    /// Does nothing. A proof calls it to use the invariant of the outboxes of every site.
    pub fn use_invariant(&self)
        ensures outboxes { AreOutboxes self.now.outboxes }
        ensures lists { IsListSection self.now.lists }
    {
        let _ = &self.lists;
    }
}
