//! The store of records: a file in the folder for the program's state, if the environment names one. Another file there
//! is the folder's lock.

ghost use Rattle.std.specs.Prelude.{◌≡◌, ℕ, List, IfErr, IfOk, None, Some};
ghost use Rattle.dmr_keeper.specs.declared.keeper.KeepFault.{KeepFault as AFault};
ghost use Rattle.dmr_records.specs.Reached.{AreReadBack, CannotRead};
ghost use Rattle.dmr_trunk.specs.Restart.{named_in, unnamed_in};

use crate::lock::FolderLock;
use crate::script::RECORD;
use dmr_keeper::{KeepFault, Keeper};
use dmr_pdu::{Address, OutOfMemory};
use dmr_records::{Reach, RecordsIn, keep_fault_of};
use sqlite::{Alter, Connection};
use std::alloc::Global;
use std::env;
use std::env::VarError;
use std::rt::Env;

/// The variable that names the folder for the program's state. systemd sets it for `StateDirectory=`.
pub const STATE_DIRECTORY: &str = "STATE_DIRECTORY";

/// The name of the file of records in that folder.
pub const RECORDS: &str = "/site.db";

/// The name of the file in that folder that a controller locks while it runs.
pub const LOCK: &str = "/site.lock";

/// A store that can say which radios were registered.
pub trait Store: Keeper {
    /// What holds if these radios are read.
    ghost reads: { Self → List ℕ → Self → Type 0 };

    /// What holds if they cannot be read, with this fault.
    ghost cannot_read: { Self → AFault → Self → Type 0 };

    /// Reads the radios that were registered at the end of the last term that the store has, in the order in which they
    /// joined.
    fn registered(&mut self, alloc: Global) -> Result<Vec<Address>, KeepFault>
        ensures reads { IfOk result (λ radios. reads self.old radios.items self.new) }
        ensures cannot_read { IfErr result (λ fault. cannot_read self.old fault self.new) };
}

impl<S: Alter, D: Reach<Connection<S>>> Store for RecordsIn<S, D> {
    ghost reads = { λ before radios after. AreReadBack S.Store D.opens D.closes radios
        before.reach after.reach };

    ghost cannot_read = { λ before fault after. CannotRead S.Store D.opens D.refuses D.closes
        before.reach after.reach fault };

    fn registered(&mut self, alloc: Global) -> Result<Vec<Address>, KeepFault>
        ensures reads { IfOk result (λ radios. AreReadBack S.Store D.opens D.closes radios.items
            self.old.reach self.new.reach) }
        ensures cannot_read { IfErr result (CannotRead S.Store D.opens D.refuses D.closes
            self.old.reach self.new.reach) }
    {
        match RecordsIn::registered(self, alloc) {
            Ok(radios) => Ok(radios),
            Err(fault) => Err(keep_fault_of(fault)),
        }
    }
}

/// What the environment says about the store of records, or about the recording.
#[derive(Drop)]
pub enum Stored<K> {
    /// Nothing is kept.
    Nowhere,
    /// It is kept here.
    In(K),
    /// The name of the folder or file is not UTF-8.
    NotText,
}

impl<K> Stored<K> {
    /// Returns the store if one is named. If its name is not UTF-8, the error is the variable that names it.
    fn named_by(self, variable: &'static str) -> Result<Option<K>, &'static str>
        ensures named { IfOk result (λ store. named_in self ≡ Some store) }
        ensures unnamed { IfErr result (λ name. (named_in self ≡ None)
            × (name.now ≡ variable.now)) }
    {
        match self {
            Stored::Nowhere => Ok(None),
            Stored::In(store) => Ok(Some(store)),
            Stored::NotText => Err(variable),
        }
    }
}

/// What is kept of a served site, as the environment asks for it.
#[derive(Drop)]
pub struct Kept<'a, K, W> {
    /// Its records, in a store.
    pub records: Stored<K>,
    /// Its recording, in a script.
    pub recording: Stored<W>,
    /// The lock on the folder of the records.
    pub lock: FolderLock<'a>,
}

/// The store and the script that are named, and the lock.
#[derive(Drop)]
pub struct Asked<'a, K, W> {
    /// The store of its records, if one is named.
    pub store: Option<K>,
    /// The script to which it is recorded, if one is named.
    pub script: Option<W>,
    /// The lock on the folder of the records.
    pub lock: FolderLock<'a>,
}

impl<'a, K: Drop, W: Drop> Kept<'a, K, W> {
    /// Returns the store and the script that are named. If the name of one is not UTF-8, the error is the variable that
    /// names it; the script's comes first.
    pub fn asked_for(self) -> Result<Asked<'a, K, W>, &'static str>
        ensures store { IfOk result (λ asked. named_in self.entry.records ≡ Some asked.store) }
        ensures script { IfOk result (λ asked. named_in self.entry.recording ≡ Some asked.script) }
        ensures lock { IfOk result (λ asked. asked.lock ≡ self.entry.lock) }
        ensures unnamed { IfErr result (λ name. unnamed_in STATE_DIRECTORY.now RECORD.now
            self.entry.records self.entry.recording ≡ Some name.now) }
    {
        let Kept {
            records,
            recording,
            lock,
        } = self;
        let script = recording.named_by(RECORD)?;
        match records.named_by(STATE_DIRECTORY) {
            Ok(store) => Ok(Asked {
                store,
                script,
                lock,
            }),
            Err(variable) => {
                drop(script);
                Err(variable)
            }
        }
    }
}

/// Reads the path of a file in the folder that `STATE_DIRECTORY` names, by the file's name after a slash. No folder is
/// named if the variable is not set or empty. `NotText`: its value is not UTF-8.
pub fn path_in_folder<R: AllocGlobal + Env>(
    rt: &R,
    file: &str,
) -> Result<Stored<String>, OutOfMemory> {
    match env::var(rt, STATE_DIRECTORY) {
        Ok(folder) if folder.is_empty() => Ok(Stored::Nowhere),
        Ok(mut path) => {
            path.push_str(file)?;
            Ok(Stored::In(path))
        }
        Err(VarError::NotPresent) => Ok(Stored::Nowhere),
        Err(VarError::NotUnicode) => Ok(Stored::NotText),
        Err(VarError::OutOfMemory) => Err(OutOfMemory),
    }
}
