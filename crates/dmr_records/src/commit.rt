//! The transaction that writes the records of a term.

ghost use Rattle.std.specs.Prelude.{◌≡◌, false, IfErr, OnErr, OnOk};
ghost use Rattle.sqlite.specs.Held.{state};
ghost use Rattle.sqlite.specs.State.{HasCleanDisk, KeepsCommit, Survives};
ghost use Rattle.dmr_records.specs.Written.{FailsToWrite, HoldsTerm, IsNotWritten, MayLeave};

use crate::fault::{FileFault, fault_of};
use crate::written::put_records;
use dmr_keeper::TimedRecords;
use sqlite::{Alter, Connection, Error};

/// Writes the records of a term and commits them. If that fails, the transaction is
/// dropped, which rolls it back.
fn commit_term<S: Alter>(
    conn: &mut Connection<S>,
    most: u32,
    term: &TimedRecords,
) -> Result<(), Error>
    requires idle { conn.old.in_transaction ≡ false }
    ensures idle { conn.new.in_transaction ≡ false }
    ensures all { HasCleanDisk (state S.Store conn.new) → OnOk result
        (HoldsTerm S.Store most term.now conn.old (state S.Store conn.new).committed) }
    ensures failed { HasCleanDisk (state S.Store conn.new) → IfErr result
        (FailsToWrite S.Store most term.now conn.old conn.new) }
    ensures nothing { HasCleanDisk (state S.Store conn.new)
        → OnErr result (KeepsCommit (state S.Store conn.old) (state S.Store conn.new)) }
    ensures crash { Survives (state S.Store conn.old) (state S.Store conn.new)
        (MayLeave S.Store most term.now conn.old) }
{
    let mut tx = conn.transaction();
    put_records(&mut tx, most, term)?;
    tx.commit()
}

/// Writes the records of a term over a connection whose tables are prepared, in one transaction.
///
/// Of each table of calls, events and terms, the newest `most` rows stay. Older rows are removed only if the number of
/// the term's row is a multiple of `most / 1000 + 1`. Until then they stay too.
///
/// # Errors
///
/// Any [`FileFault`] but `Newer`. The database is then as it was before.
pub fn write_term<S: Alter>(
    conn: &mut Connection<S>,
    most: u32,
    term: &TimedRecords,
) -> Result<(), FileFault>
    requires idle { conn.old.in_transaction ≡ false }
    ensures idle { conn.new.in_transaction ≡ false }
    ensures all { HasCleanDisk (state S.Store conn.new) → OnOk result
        (HoldsTerm S.Store most term.now conn.old (state S.Store conn.new).committed) }
    ensures failed { HasCleanDisk (state S.Store conn.new) → IfErr result
        (IsNotWritten S.Store most term.now conn.old conn.new) }
    ensures nothing { HasCleanDisk (state S.Store conn.new)
        → OnErr result (KeepsCommit (state S.Store conn.old) (state S.Store conn.new)) }
    ensures crash { Survives (state S.Store conn.old) (state S.Store conn.new)
        (MayLeave S.Store most term.now conn.old) }
{
    match commit_term(conn, most, term) {
        Ok(()) => Ok(()),
        Err(error) => Err(fault_of(error)),
    }
}
