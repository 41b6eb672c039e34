//! A store of records in a database.

ghost use Rattle.std.specs.Prelude.{◌≡◌, [], ◌∷◌, true, None, IfErr, IfOk, OnErr, OnOk};
ghost use Rattle.dmr_keeper.specs.Kept.{Keeps};
ghost use Rattle.dmr_records.specs.Reached.{AreReadBack, IsKept, IsNotKept, IsNotRead, IsRefusal, Refuses};

use crate::fault::{FileFault, keep_fault_of};
use crate::reach::Reach;
use crate::reached::{keep_term, read_registered};
use dmr_keeper::{KeepFault, Keeper, TimedRecords};
use dmr_pdu::Address;
use sqlite::{Alter, Connection};
use std::alloc::Global;
use std::marker::PhantomData;

/// The newest rows that stay of each table of calls, events and terms, if the caller does not choose another number.
/// With this number, older rows are removed after each 101st term.
pub const MOST_ROWS: u32 = 100_000;

/// A store of records in a database. It reaches the database for each call.
#[derive(Drop)]
pub struct RecordsIn<S, D> {
    /// How the database is reached.
    pub reach: D,
    /// How many of the newest rows stay of each table of calls, events and terms.
    pub most: u32,
    of: PhantomData<S>,
}

impl<S, D> RecordsIn<S, D> {
    /// Keeps at least the newest [`MOST_ROWS`] rows of each table of calls, events and terms ([`keep_term`]).
    pub fn new(reach: D) -> RecordsIn<S, D>
        ensures { (result.reach ≡ reach) × (result.most ≡ MOST_ROWS) }
    {
        RecordsIn::with_most_rows(reach, MOST_ROWS)
    }

    /// Keeps at least this many of the newest rows of each table of calls, events and terms ([`keep_term`]).
    pub fn with_most_rows(reach: D, most: u32) -> RecordsIn<S, D>
        ensures { (result.reach ≡ reach) × (result.most ≡ most) }
    {
        RecordsIn {
            reach,
            most,
            of: PhantomData,
        }
    }
}

impl<S: Alter, D: Reach<Connection<S>>> RecordsIn<S, D> {
    /// Reads the registered radios, in the order in which they joined; 4,097 if there are more than the 4,096 that a
    /// site may have. It prepares the tables first: if the database has none, they are made.
    ///
    /// # Errors
    ///
    /// Each [`FileFault`] says what is wrong with the database. It then has the records that it had before; its tables
    /// may have been made, or carried over.
    pub fn registered(&mut self, alloc: Global) -> Result<Vec<Address>, FileFault>
        ensures read { IfOk result (λ radios. AreReadBack S.Store D.opens D.closes radios.items
            self.old.reach self.new.reach) }
        ensures not_read { IfErr result (IsNotRead S.Store D.opens D.refuses D.closes
            self.old.reach self.new.reach) }
        ensures most { self.new.most ≡ self.old.most }
    {
        read_registered(alloc, &mut self.reach)
    }

    /// Writes the records of a term, in one transaction.
    ///
    /// # Errors
    ///
    /// Each [`FileFault`] says why nothing was written. The database then has the records that it had before.
    pub fn write_term(&mut self, term: &TimedRecords) -> Result<(), FileFault>
        ensures kept { OnOk result (IsKept S.Store D.opens D.closes self.old.most term.now
            self.old.reach self.new.reach) }
        ensures not_kept { IfErr result (IsNotKept S.Store D.opens D.refuses D.closes self.old.most term.now
            self.old.reach self.new.reach) }
        ensures most { self.new.most ≡ self.old.most }
    {
        keep_term(&mut self.reach, self.most, term)
    }
}

/// The store does not report what it has kept, since other programs may write the database too. What it did with the
/// database is in its own clauses.
impl<S: Alter, D: Reach<Connection<S>>> Keeper for RecordsIn<S, D> {
    ghost kept = { λ store. None };

    ghost refuses = { λ store term fault. Refuses S.Store D.opens D.refuses D.closes store.most term
        store.reach fault };

    ghost wants = { λ store. true };

    /// Reports `true`, since a database keeps records.
    fn wants_records(&self) -> bool
        ensures { result ≡ true }
    {
        true
    }

    /// Writes the records of a term, as [`RecordsIn::write_term`] does.
    fn keep(&mut self, term: &TimedRecords) -> Result<(), KeepFault>
        ensures written { OnOk result (IsKept S.Store D.opens D.closes self.old.most term.now
            self.old.reach self.new.reach) }
        ensures not_written { IfErr result (IsRefusal S.Store D.opens D.refuses D.closes self.old.most term.now
            self.old.reach self.new.reach) }
        ensures most { self.new.most ≡ self.old.most }
        ensures kept { OnOk result (Keeps None (term.now ∷ []) None) }
        ensures same { OnErr result (Keeps None [] None) }
        ensures refused { IfErr result (Refuses S.Store D.opens D.refuses D.closes self.old.most
            term.now self.old.reach) }
    {
        match self.write_term(term) {
            Ok(()) => Ok(()),
            Err(fault) => Err(keep_fault_of(fault)),
        }
    }
}
