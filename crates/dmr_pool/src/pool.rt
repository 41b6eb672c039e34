//! The pool: carriers that are up, slots that calls hold, outboxes, and free slots.

ghost use Rattle.std.specs.Prelude.{◌≡◌, ◌<◌, ◌≤◌, ◌↔◌, length, filter, slice_get, slice_set, true};
ghost use Rattle.std.specs.Prelude.{false, IsTrue, IsErr, IfOk, OnOk, OnErr, MatchOption};
ghost use Rattle.dmr_plan.specs.Carriers.{has_number_in};
ghost use Rattle.dmr_pool.specs.declared.outbox.TheConstants.{MOST_PDUS_OF_A_SLOT};
ghost use Rattle.dmr_pool.specs.Slots.{box, is_up, outboxes_without_carrier, held_without_carrier};
ghost use Rattle.dmr_pool.specs.Slots.{outboxes_with_pdu, outboxes_after_send, place, nothing_on};
ghost use Rattle.dmr_pool.specs.Free.{control_slot, is_control, is_free, lowest_free};
ghost use Rattle.dmr_pool.specs.Free.{HasNoFreeSlot, IsLowestFree};
ghost use Rattle.dmr_pool.specs.Grants.{slots_with};
ghost use Rattle.dmr_pool.specs.Marks.{AreMarked};
ghost use Rattle.dmr_pool.specs.Kept.{AreSlotsOfSite};
ghost use Rattle.dmr_pool.specs.Same.{are_alike, are_same};

use crate::marks::Marks;
use crate::outbox::MOST_PDUS_OF_A_SLOT;
use crate::outboxes::Outboxes;
use dmr_pdu::{CarrierNo, OutOfMemory, Pdu, Slot};
use dmr_plan::Plan;
use std::alloc::Global;
use std::marker::Model;

/// No place is left for another PDU: `MOST_PDUS_OF_A_SLOT` wait for the slot.
#[derive(Clone, Copy, Debug, PartialEq, Eq)]
pub struct Full;

/// The slots of a plan's site.
///
/// Contracts see the lists of the plan, the carriers that are up, the slots that calls hold, and the PDUs that wait for
/// each slot.
/// Their invariant is `AreSlotsOfSite`; a proof gets it from [`Pool::use_invariant`].
#[derive(Drop)]
pub struct Pool {
    up: [bool; 16],
    held: [bool; 32],
    outboxes: Outboxes,
    free: Marks,
}

impl Model for Pool {
    ghost use Rattle.dmr_pool.specs.Slots.{Slots};
    ghost use Rattle.dmr_pool.specs.Grants.{slots_with};
    ghost use Rattle.dmr_pool.specs.Marks.{AreMarked};

    ghost Value = { Slots };

    ghost view = { λ pool. slots_with pool.outboxes pool.up pool.held };

    ghost invariant = { λ pool. AreMarked pool.free.bits
        (slots_with pool.outboxes pool.up pool.held) };
}

/// Does nothing. A proof calls it to use the numbers of carriers and slots.
fn are_sized(up: &[bool; 16], held: &[bool; 32])
    ensures carriers { length up.now ≡ 16 }
    ensures slots { length held.now ≡ 32 }
{
    let _ = (up[0], held[0]);
}

/// Reports whether a slot is free for a call: the test that [`Pool::is_free`] describes.
fn is_free(outboxes: &Outboxes, up: &[bool; 16], held: &[bool; 32], slot: &Slot) -> bool
    ensures { result ≡ is_free (slots_with outboxes.now up.now held.now) slot.now }
{
    let carrier = slot.carrier.get() as usize;
    !outboxes.is_control(slot)
        && up[carrier]
        && !held[slot.index()]
        && outboxes.waiting(slot) == 0
        && !outboxes.is_granted(slot)
        && outboxes.lists().carrier_with(slot.carrier).is_some()
}

/// The set of the free slots.
fn all_free(outboxes: &Outboxes, up: &[bool; 16], held: &[bool; 32]) -> Marks
    ensures { AreMarked result.bits (slots_with outboxes.now up.now held.now) }
{
    let mut free = Marks::none();
    for place in 0..32usize {
        let slot = &Slot::at(place);
        free.set(slot, is_free(outboxes, up, held, slot));
    }
    free
}

impl Pool {
    /// Makes the pool of a plan's site: no carrier is up, no slot is held, no PDU waits. It allocates all outboxes.
    ///
    /// Returns `OutOfMemory` if the allocation fails.
    pub fn new(alloc: Global, plan: &Plan) -> Result<Pool, OutOfMemory>
        ensures { IfOk result (λ pool. pool ≡ nothing_on plan.now.lists) }
    {
        Ok(Pool {
            up: [false; 16],
            held: [false; 32],
            outboxes: Outboxes::new(alloc, plan)?,
            free: Marks::none(),
        })
    }

    /// Makes a copy with memory of its own. Returns `OutOfMemory` if the allocation fails.
    pub fn try_clone(&self, alloc: Global) -> Result<Pool, OutOfMemory>
        ensures { IfOk result (λ copy. copy ≡ self.now) }
    {
        Ok(Pool {
            up: self.up,
            held: self.held,
            outboxes: self.outboxes.try_clone(alloc)?,
            free: self.free,
        })
    }

    /// Reports whether a carrier is up.
    pub fn is_up(&self, carrier: CarrierNo) -> bool
        ensures { result ≡ is_up self.now.up carrier }
    {
        let number = carrier.get() as usize;
        self.up[number]
    }

    /// The number of carriers that are up: 0 to 16.
    pub fn carriers_up(&self) -> usize
        ensures { result ≡ length (filter (λ up. up) self.now.up) }
    {
        self.up.iter().filter(|up| **up).count()
    }

    /// Marks a carrier of the plan as up. Its slots are released, and its outboxes emptied.
    pub fn up(&mut self, carrier: CarrierNo)
        requires { IsTrue (has_number_in self.old.lists.carriers carrier) }
        ensures { self.new ≡ record self.old {
          up = slice_set self.old.up carrier true;
          held = held_without_carrier self.old.held carrier;
          outboxes = outboxes_without_carrier self.old.outboxes carrier;
        } }
    {
        self.set_up(carrier, true);
    }

    /// Marks a carrier as not up. Its slots are released, and its outboxes emptied.
    pub fn lost(&mut self, carrier: CarrierNo)
        ensures { self.new ≡ record self.old {
          up = slice_set self.old.up carrier false;
          held = held_without_carrier self.old.held carrier;
          outboxes = outboxes_without_carrier self.old.outboxes carrier;
        } }
    {
        self.set_up(carrier, false);
    }

    /// Releases the slots of a carrier and empties its outboxes. Whether it is up does not change.
    pub fn empty_carrier(&mut self, carrier: CarrierNo)
        ensures { self.new ≡ record self.old {
          held = held_without_carrier self.old.held carrier;
          outboxes = outboxes_without_carrier self.old.outboxes carrier;
        } }
    {
        let is_up = self.is_up(carrier);
        self.set_up(carrier, is_up);
    }

    /// Marks a carrier as up or not. Its slots are released, and its outboxes emptied.
    fn set_up(&mut self, carrier: CarrierNo, is_up: bool)
        ensures { self.new ≡ record self.old {
          up = slice_set self.old.up carrier is_up;
          held = held_without_carrier self.old.held carrier;
          outboxes = outboxes_without_carrier self.old.outboxes carrier;
        } }
    {
        let first = 2 * carrier.get() as usize;
        self.up[carrier.get() as usize] = is_up;
        self.held[first] = false;
        self.held[first + 1] = false;
        self.outboxes.clear(carrier);
        self.free = all_free(&self.outboxes, &self.up, &self.held);
    }

    /// The lowest free slot, by carrier number, then slot number; `None` if no slot is free.
    pub fn free_slot(&self) -> Option<Slot>
        ensures gives { result ≡ lowest_free self.now }
        // If there is one, no slot before it is free; without one, none is.
        ensures lowest { MatchOption result (HasNoFreeSlot self.now) (IsLowestFree self.now) }
    {
        self.free.lowest()
    }

    /// Reports whether a slot is free for a call.
    ///
    /// It is free if its carrier is in the plan and up, it is not the control slot, and no call holds it. Also, no PDU
    /// waits for it, and no grant of it waits for the control slot.
    pub fn is_free(&self, slot: Slot) -> bool
        ensures { result ≡ is_free self.now slot }
    {
        self.free.has(&slot)
    }

    /// Slot 0 of the control carrier.
    pub fn control_slot(&self) -> Slot
        ensures { result ≡ control_slot self.now.lists }
    {
        self.outboxes.control_slot()
    }

    /// Reports whether a slot is the control slot.
    pub fn is_control(&self, slot: Slot) -> bool
        ensures { result ≡ is_control self.now.lists slot }
    {
        self.outboxes.is_control(&slot)
    }

    /// Marks a slot as held by a call. It must be free.
    pub fn hold(&mut self, slot: Slot)
        requires { IsTrue (is_free self.old slot) }
        ensures { self.new ≡ record self.old { held = slice_set self.old.held (place slot) true } }
    {
        self.held[slot.index()] = true;
        self.free.set(&slot, false);
    }

    /// Marks a slot as not held. If no call held it, nothing changes.
    pub fn release(&mut self, slot: Slot)
        ensures { self.new ≡ record self.old { held = slice_set self.old.held (place slot) false } }
    {
        self.held[slot.index()] = false;
        let is_idle = is_free(&self.outboxes, &self.up, &self.held, &slot);
        self.free.set(&slot, is_idle);
    }

    /// Adds a PDU after those that wait for a slot, whose carrier must be up.
    ///
    /// If `MOST_PDUS_OF_A_SLOT` PDUs wait, returns `Full` and changes nothing.
    pub fn push(&mut self, slot: Slot, pdu: Pdu) -> Result<(), Full>
        requires { IsTrue (is_up self.old.up slot.carrier) }
        ensures full { IsErr result ↔ (length (box self.old.outboxes slot) ≡ MOST_PDUS_OF_A_SLOT) }
        ensures ok { OnOk result (self.new
            ≡ record self.old { outboxes = outboxes_with_pdu self.old.outboxes slot pdu }) }
        ensures err { OnErr result (self.new ≡ self.old) }
    {
        if self.waiting(slot) >= MOST_PDUS_OF_A_SLOT {
            return Err(Full);
        }
        self.add_pdu(&slot, &pdu);
        Ok(())
    }

    /// Adds a PDU after those that wait for a slot. There must be a place for it.
    pub fn add_pdu(&mut self, slot: &Slot, pdu: &Pdu)
        requires { length (box self.old.outboxes slot.now) < MOST_PDUS_OF_A_SLOT }
        ensures { self.new
            ≡ record self.old { outboxes = outboxes_with_pdu self.old.outboxes slot.now pdu.now } }
    {
        self.outboxes.use_invariant();
        self.outboxes.push(slot, pdu);
        self.free.set(slot, false);
        if let Some(granted) = self.outboxes.slot_counted(slot, pdu) {
            self.free.set(&granted, false);
        }
    }

    /// Removes the PDU that has waited longest for a slot, if there is one, and returns it.
    pub fn take(&mut self, slot: Slot) -> Option<Pdu>
        ensures first { result ≡ slice_get (box self.old.outboxes slot) 0 }
        ensures rest { self.new
            ≡ record self.old { outboxes = outboxes_after_send self.old.outboxes slot } }
    {
        let pdu = self.first(slot)?;
        self.take_first(&slot, &pdu);
        Some(pdu)
    }

    /// Removes the PDU that has waited longest for a slot, which must be `pdu`.
    pub fn take_first(&mut self, slot: &Slot, pdu: &Pdu)
        requires { slice_get (box self.old.outboxes slot.now) 0 ≡ Some pdu.now }
        ensures { self.new
            ≡ record self.old { outboxes = outboxes_after_send self.old.outboxes slot.now } }
    {
        self.outboxes.use_invariant();
        self.outboxes.take(slot, pdu);
        let is_idle = is_free(&self.outboxes, &self.up, &self.held, slot);
        self.free.set(slot, is_idle);
        if let Some(granted) = self.outboxes.slot_counted(slot, pdu) {
            let is_idle = is_free(&self.outboxes, &self.up, &self.held, &granted);
            self.free.set(&granted, is_idle);
        }
    }

    /// The PDU that has waited longest for a slot, if one waits.
    pub fn first(&self, slot: Slot) -> Option<Pdu>
        ensures { result ≡ slice_get (box self.now.outboxes slot) 0 }
    {
        self.outboxes.first(&slot)
    }

    /// The number of PDUs that wait for a slot: 0 to `MOST_PDUS_OF_A_SLOT`.
    pub fn waiting(&self, slot: Slot) -> usize
        ensures value { result ≡ length (box self.now.outboxes slot) }
        ensures few { result ≤ MOST_PDUS_OF_A_SLOT }
    {
        self.outboxes.waiting(&slot)
    }

    /// Reports whether two pools have the same lists, carriers up, held slots and waiting PDUs.
    fn equals(&self, other: &Pool) -> bool
        ensures { result ≡ are_same self.now other.now }
    {
        self.outboxes.lists() == other.outboxes.lists()
            && self.up == other.up
            && self.held == other.held
            && self.outboxes.has_same_pdus(&other.outboxes)
    }

    /// Reports whether the same carriers are up and the same PDUs wait for each slot. Lists and held slots are
    /// not compared.
    pub fn has_same_carriers_and_pdus(&self, other: &Pool) -> bool
        ensures { result ≡ are_alike self.now other.now }
    {
        self.up == other.up && self.outboxes.has_same_pdus(&other.outboxes)
    }

    /// Does nothing. A proof calls it to use the invariant of the slots of every site.
    pub fn use_invariant(&self)
        ensures { AreSlotsOfSite self.now }
    {
        self.outboxes.use_invariant();
        are_sized(&self.up, &self.held);
    }
}

/// Two pools are equal if they have the same lists of a plan, carriers up, held slots, and waiting PDUs in the same order.
impl PartialEq for Pool {
    ghost use Rattle.std.specs.Cmp.{partial_equiv_from_equiv};
    ghost use Rattle.dmr_pool.specs.Same.{are_same, are_same-equivalence};

    ghost eq = { are_same };

    ghost laws = { partial_equiv_from_equiv are_same-equivalence };

    fn eq(&self, other: &Self) -> bool
        ensures gives { result ≡ are_same self.now other.now }
        ensures same { IsTrue result ↔ (self.now ≡ other.now) }
    {
        self.equals(other)
    }
}

impl Eq for Pool {
    ghost use Rattle.dmr_pool.specs.Same.{are_same-equivalence};

    ghost laws = { are_same-equivalence };
}
