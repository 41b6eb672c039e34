//! Records that wait until a store keeps them.

ghost use Rattle.std.specs.Prelude.{◌≡◌, ◌<◌, ◌≤◌, ◌+◌, ◌-◌, ◌↔◌, [], ◌∷◌, ◌++◌, length, vec_capacity};
ghost use Rattle.std.specs.Prelude.{IfErr, IfOk, IsSome, IsTrue, OnErr, OnOk, option_to_list};
ghost use Rattle.dmr_keeper.specs.Handing.{AreHandedOver, IsRefused, newest};
ghost use Rattle.dmr_keeper.specs.Kept.{Keeps};

use crate::keeper::{KeepFault, Keeper};
use crate::time::TimedRecords;
use dmr_pdu::OutOfMemory;
use std::alloc::Global;
use std::marker::Model;

/// How many terms' records may wait.
pub const MOST_WAITING: usize = 1_000;

/// Records that wait to be kept, oldest term first. Contracts see the list.
///
/// The records of at most [`MOST_WAITING`] terms wait. Room for them is allocated at the beginning.
#[derive(Drop)]
pub struct RecordQueue {
    terms: Vec<TimedRecords>,
}

impl Model for RecordQueue {
    ghost use Rattle.std.specs.Prelude.{◌≤◌, List, length, vec_capacity};
    ghost use Rattle.dmr_keeper.specs.declared.time.TimedRecords.{TimedRecords as TermRecords};

    ghost Value = { List TermRecords };

    ghost view = { λ record_queue. record_queue.terms.items };

    ghost invariant = { λ record_queue. (1000 ≤ vec_capacity record_queue.terms) × (length record_queue.terms.items ≤ 1000) };
}

/// Hands the oldest records to a keeper, and removes them if it kept them. There are some.
fn hand_oldest<K: Keeper>(terms: &mut Vec<TimedRecords>, keeper: &mut K) -> Result<(), KeepFault>
    requires { 0 < length terms.old.items }
    ensures handed { AreHandedOver (K.kept keeper.old) terms.old.items terms.new.items
        (K.kept keeper.new) }
    ensures removed { OnOk result (length terms.new.items + 1 ≡ length terms.old.items) }
    ensures stays { OnErr result (terms.new.items ≡ terms.old.items) }
    ensures refused { IfErr result
        (IsRefused K.kept K.refuses keeper.old terms.old.items terms.new.items) }
    ensures room { vec_capacity terms.new ≡ vec_capacity terms.old }
{
    keeper.keep(&terms[0])?;
    drop(terms.remove(0));
    Ok(())
}

/// Hands records to a keeper, oldest term first, until it refuses some or none are left. Removes those that it kept.
fn hand_all<K: Keeper>(terms: &mut Vec<TimedRecords>, keeper: &mut K) -> Result<(), KeepFault>
    ensures handed { AreHandedOver (K.kept keeper.old) terms.old.items terms.new.items
        (K.kept keeper.new) }
    ensures all { OnOk result (terms.new.items ≡ []) }
    ensures left { OnErr result (0 < length terms.new.items) }
    ensures refused { IfErr result
        (IsRefused K.kept K.refuses keeper.old terms.old.items terms.new.items) }
    ensures fewer { length terms.new.items ≤ length terms.old.items }
    ensures room { vec_capacity terms.new ≡ vec_capacity terms.old }
{
    while !terms.is_empty() {
        hand_oldest(terms, keeper)?;
    }
    Ok(())
}

impl RecordQueue {
    /// Makes a queue in which nothing waits. Returns `OutOfMemory` if the allocation is refused.
    pub fn new(alloc: Global) -> Result<RecordQueue, OutOfMemory>
        ensures { IfOk result (λ record_queue. record_queue ≡ []) }
    {
        Ok(RecordQueue {
            terms: Vec::with_capacity(alloc, MOST_WAITING)?,
        })
    }

    /// How many terms' records wait: at most [`MOST_WAITING`].
    pub fn len(&self) -> usize
        ensures value { result ≡ length self.now }
        ensures within { result ≤ MOST_WAITING }
    {
        self.terms.len()
    }

    /// Reports whether no records wait.
    pub fn is_empty(&self) -> bool
        ensures { IsTrue result ↔ (self.now ≡ []) }
    {
        self.terms.is_empty()
    }

    /// Adds the records of a term. If [`MOST_WAITING`] wait already, the oldest are removed and returned: they are lost
    /// for the store. It allocates nothing.
    pub fn add(&mut self, term: TimedRecords) -> Option<TimedRecords>
        ensures added { self.new ≡ newest (self.old ++ term ∷ []) }
        ensures all { option_to_list result ++ self.new ≡ self.old ++ term ∷ [] }
        ensures lost { IsSome result ↔ (MOST_WAITING ≤ length self.old) }
    {
        let mut lost = None;
        if self.terms.len() == MOST_WAITING {
            lost = Some(self.terms.remove(0));
        }
        self.terms.push_reserved(term);
        lost
    }

    /// Removes the oldest records and returns them. `None` if none wait.
    pub fn take_oldest(&mut self) -> Option<TimedRecords>
        ensures all { option_to_list result ++ self.new ≡ self.old }
        ensures some { IsSome result ↔ (0 < length self.old) }
    {
        if self.terms.is_empty() {
            return None;
        }
        Some(self.terms.remove(0))
    }

    /// Moves all records of another queue here, after these. If there is no room for all, the oldest are lost for the
    /// store, and it returns for how many terms. It allocates nothing.
    pub fn append(&mut self, later: &mut RecordQueue) -> usize
        ensures moved { self.new ≡ newest (self.old ++ later.old) }
        ensures none { later.new ≡ [] }
        ensures lost { result ≡ length self.old + length later.old - MOST_WAITING }
    {
        let lost = (self.len() + later.len()).saturating_sub(MOST_WAITING);
        while let Some(term) = later.take_oldest() {
            drop(self.add(term));
        }
        lost
    }

    /// Hands records to a keeper, oldest term first, until it refuses some or none are left. Those that it kept are
    /// removed.
    ///
    /// # Errors
    ///
    /// The [`KeepFault`] with which the keeper refused records. These and the later ones still wait.
    pub fn hand_over<K: Keeper>(&mut self, keeper: &mut K) -> Result<(), KeepFault>
        ensures handed { AreHandedOver (K.kept keeper.old) self.old self.new (K.kept keeper.new) }
        ensures all { OnOk result (self.new ≡ []) }
        ensures left { OnErr result (0 < length self.new) }
        ensures refused { IfErr result (IsRefused K.kept K.refuses keeper.old self.old self.new) }
    {
        hand_all(&mut self.terms, keeper)
    }
}
