//! A store of records in memory.

ghost use Rattle.std.specs.Prelude.{◌≡◌, [], ◌∷◌, true, IfErr, OnErr, OnOk, Some};
ghost use Rattle.dmr_keeper.specs.declared.keeper.KeepFault.TheVariants.{OutOfMemory as MemoryRanOut};
ghost use Rattle.dmr_keeper.specs.Kept.{Keeps, kept_with, nothing_kept};

use crate::calls::EndedCall;
use crate::carriers::CarrierCounts;
use crate::changes::Change;
use crate::counts::TermCounts;
use crate::keeper::{KeepFault, Keeper};
use crate::notes::TimedOccurrence;
use crate::time::{TermTime, TimedRecords};
use dmr_pdu::{Address, OutOfMemory};
use std::alloc::Global;
use std::marker::Model;

/// A store in memory, for tests. Contracts see a record of lists.
#[derive(Drop)]
pub struct InMemory {
    calls: Vec<EndedCall>,
    changes: Vec<Change>,
    notes: Vec<TimedOccurrence>,
    counts: Vec<TermCounts>,
    carriers: Vec<CarrierCounts>,
    times: Vec<TermTime>,
    registered: Vec<Address>,
}

impl Model for InMemory {
    ghost use Rattle.dmr_keeper.specs.Kept.{Kept};

    ghost Value = { Kept };

    ghost view = { λ store. record {
      calls = store.calls.items;
      changes = store.changes.items;
      notes = store.notes.items;
      counts = store.counts.items;
      carriers = store.carriers.items;
      times = store.times.items;
      registered = store.registered.items;
    } };
}

impl InMemory {
    /// Makes a store in which nothing is kept. It allocates nothing.
    pub fn new(alloc: Global) -> InMemory
        ensures { result ≡ nothing_kept }
    {
        InMemory {
            calls: Vec::new(alloc),
            changes: Vec::new(alloc),
            notes: Vec::new(alloc),
            counts: Vec::new(alloc),
            carriers: Vec::new(alloc),
            times: Vec::new(alloc),
            registered: Vec::new(alloc),
        }
    }

    /// The calls that ended in all terms, oldest term first.
    pub fn calls(&self) -> &[EndedCall]
        ensures { result.now ≡ self.now.calls }
    {
        self.calls.as_slice()
    }

    /// The changes of registration in all terms, oldest first.
    pub fn changes(&self) -> &[Change]
        ensures { result.now ≡ self.now.changes }
    {
        self.changes.as_slice()
    }

    /// The notes of all terms, oldest first.
    pub fn notes(&self) -> &[TimedOccurrence]
        ensures { result.now ≡ self.now.notes }
    {
        self.notes.as_slice()
    }

    /// The counts of each term, oldest term first.
    pub fn counts(&self) -> &[TermCounts]
        ensures { result.now ≡ self.now.counts }
    {
        self.counts.as_slice()
    }

    /// The counts of carriers in each term, oldest term first. Of one term, they are by the carrier's number.
    pub fn carriers(&self) -> &[CarrierCounts]
        ensures { result.now ≡ self.now.carriers }
    {
        self.carriers.as_slice()
    }

    /// The time of each term, oldest term first.
    pub fn times(&self) -> &[TermTime]
        ensures { result.now ≡ self.now.times }
    {
        self.times.as_slice()
    }

    /// The radios that were registered after the last term, in the order in which they joined.
    pub fn registered(&self) -> &[Address]
        ensures { result.now ≡ self.now.registered }
    {
        self.registered.as_slice()
    }

    /// Adds the records of a term. Returns `OutOfMemory` if an allocation is refused, and then nothing has changed.
    fn add(&mut self, term: &TimedRecords) -> Result<(), OutOfMemory>
        ensures kept { OnOk result (self.new ≡ kept_with self.old term.now) }
        ensures same { OnErr result (self.new ≡ self.old) }
    {
        let records = &term.records;
        self.calls.reserve(records.calls.len())?;
        self.changes.reserve(records.changes.len())?;
        self.notes.reserve(records.notes.len())?;
        self.carriers.reserve(records.carriers.len())?;
        self.registered.reserve(records.after.registered().len())?;
        self.times.reserve(1)?;
        self.counts.push(records.counts)?;
        self.times.push(term.time).unwrap();
        self.calls
            .extend_from_slice(records.calls.as_slice())
            .unwrap();
        self.changes
            .extend_from_slice(records.changes.as_slice())
            .unwrap();
        self.notes
            .extend_from_slice(records.notes.as_slice())
            .unwrap();
        self.carriers
            .extend_from_slice(records.carriers.as_slice())
            .unwrap();
        self.registered.clear();
        self.registered
            .extend_from_slice(records.after.registered())
            .unwrap();
        Ok(())
    }
}

impl Keeper for InMemory {
    ghost kept = { λ store. Some store };

    ghost refuses = { λ store term fault. fault ≡ MemoryRanOut };

    ghost wants = { λ store. true };

    /// Reports that records are wanted.
    fn wants_records(&self) -> bool
        ensures { result ≡ true }
    {
        true
    }

    /// Keeps the records of a term. After an error nothing has changed.
    fn keep(&mut self, term: &TimedRecords) -> Result<(), KeepFault>
        ensures added { OnOk result (self.new ≡ kept_with self.old term.now) }
        ensures unchanged { OnErr result (self.new ≡ self.old) }
        ensures kept { OnOk result (Keeps (Some self.old) (term.now ∷ []) (Some self.new)) }
        ensures same { OnErr result (Keeps (Some self.old) [] (Some self.new)) }
        ensures refused { IfErr result (λ fault. fault ≡ KeepFault.OutOfMemory) }
    {
        match self.add(term) {
            Ok(()) => Ok(()),
            Err(OutOfMemory) => Err(KeepFault::OutOfMemory),
        }
    }
}
