//! The outbox of a slot: the PDUs that wait for it.

ghost use Rattle.std.specs.Prelude.{◌≡◌, ◌≤◌, ◌<◌, ◌+◌, ◌∷◌, ◌++◌, ◌&&◌, [], length, drop};
ghost use Rattle.std.specs.Prelude.{slice_get, IfOk};
ghost use Rattle.dmr_pool.specs.declared.outbox.TheConstants.{MOST_PDUS_OF_A_SLOT};
ghost use Rattle.dmr_pool.specs.Same.{are_same_pdus};

use circular_buffer::HeapCircularBuffer;
use dmr_pdu::{OutOfMemory, Pdu};
use std::alloc::Global;
use std::marker::Model;

/// The most PDUs that wait for a slot: 64, by this project's profile.
pub const MOST_PDUS_OF_A_SLOT: usize = 64;

/// The PDUs that wait for a slot, at most `MOST_PDUS_OF_A_SLOT`. Contracts see a list, oldest first.
#[derive(Drop)]
pub struct Outbox {
    waiting: HeapCircularBuffer<Pdu>,
}

impl Model for Outbox {
    ghost use Rattle.std.specs.Prelude.{◌≡◌, ◌≤◌, List, length};
    ghost use Rattle.dmr_pdu.specs.declared.pdu.Pdu.{Pdu};
    ghost use Rattle.dmr_pool.specs.declared.outbox.TheConstants.{MOST_PDUS_OF_A_SLOT};

    ghost Value = { List Pdu };

    ghost view = { λ outbox. outbox.waiting.items };

    ghost invariant = { λ outbox. (outbox.waiting.capacity ≡ MOST_PDUS_OF_A_SLOT)
        × (length outbox.waiting.items ≤ MOST_PDUS_OF_A_SLOT) };
}

impl Outbox {
    /// Makes an empty outbox, and allocates its memory. Returns `OutOfMemory` if the allocation fails.
    pub fn new(alloc: Global) -> Result<Outbox, OutOfMemory>
        ensures { IfOk result (λ outbox. outbox ≡ []) }
    {
        Ok(Outbox {
            waiting: HeapCircularBuffer::with_capacity(alloc, MOST_PDUS_OF_A_SLOT)?,
        })
    }

    /// Makes a copy with memory of its own. Returns `OutOfMemory` if the allocation fails.
    pub fn try_clone(&self, alloc: Global) -> Result<Outbox, OutOfMemory>
        ensures { IfOk result (λ copy. copy ≡ self.now) }
    {
        let mut waiting = HeapCircularBuffer::with_capacity(alloc, MOST_PDUS_OF_A_SLOT)?;
        let (older, newer) = self.waiting.as_slices();
        waiting.extend_from_slice(older);
        waiting.extend_from_slice(newer);
        Ok(Outbox { waiting })
    }

    /// The number of PDUs that wait: 0 to `MOST_PDUS_OF_A_SLOT`.
    pub fn len(&self) -> usize
        ensures value { result ≡ length self.now }
        ensures few { result ≤ MOST_PDUS_OF_A_SLOT }
    {
        self.waiting.len()
    }

    /// The PDU that has waited longest.
    pub fn first(&self) -> Option<Pdu>
        ensures { result ≡ slice_get self.now 0 }
    {
        self.waiting.front().copied()
    }

    /// Reports whether two outboxes have the same PDU at a place that both have.
    fn is_same_at(&self, other: &Outbox, index: usize) -> bool
        requires own { index < length self.now }
        requires other { index < length other.now }
        ensures { are_same_pdus (drop index self.now) (drop index other.now)
            ≡ (result && are_same_pdus (drop (index + 1) self.now) (drop (index + 1) other.now)) }
    {
        match (self.waiting.get(index), other.waiting.get(index)) {
            (Some(pdu), Some(its)) => pdu == its,
            _ => unreachable!(),
        }
    }

    /// Adds a PDU after those that wait. There must be a place for it.
    pub fn push(&mut self, pdu: Pdu)
        requires { length self.old < MOST_PDUS_OF_A_SLOT }
        ensures { self.new ≡ self.old ++ pdu ∷ [] }
    {
        self.waiting.try_push_back(pdu).unwrap();
    }

    /// Removes the PDU that has waited longest, and returns it. There must be one.
    pub fn take(&mut self) -> Pdu
        requires { 0 < length self.old }
        ensures first { slice_get self.old 0 ≡ Some result }
        ensures rest { self.new ≡ drop 1 self.old }
    {
        self.waiting.pop_front().unwrap()
    }

    /// Removes all PDUs.
    pub fn clear(&mut self)
        ensures { self.new ≡ [] }
    {
        self.waiting.clear();
    }
}

/// Two outboxes are equal if the same PDUs wait in the same order.
impl PartialEq for Outbox {
    ghost use Rattle.std.specs.Cmp.{partial_equiv_from_equiv};
    ghost use Rattle.dmr_pool.specs.Same.{are_same_pdus, are_same_pdus-equivalence};

    ghost eq = { are_same_pdus };

    ghost laws = { partial_equiv_from_equiv are_same_pdus-equivalence };

    fn eq(&self, other: &Self) -> bool
        ensures gives { result ≡ are_same_pdus self.now other.now }
    {
        let count = self.len();
        if other.len() != count {
            return false;
        }
        for index in 0..count {
            if !self.is_same_at(other, index) {
                return false;
            }
        }
        true
    }
}
