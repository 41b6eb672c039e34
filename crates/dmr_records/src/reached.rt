//! Writing to and reading from a database that is opened for it.

ghost use Rattle.std.specs.Prelude.{IfErr, IfOk, OnOk};
ghost use Rattle.sqlite.specs.Held.{state};
ghost use Rattle.sqlite.specs.State.{HasCleanDisk, Survives};
ghost use Rattle.dmr_records.specs.Reached.{AreReadBack, FailsOver, IsKept, IsNotKept, IsNotRead};
ghost use Rattle.dmr_records.specs.Reached.{MayKeep, ReadsRadios, WritesTerm};
ghost use Rattle.dmr_records.specs.Reading.{AreNotRead};
ghost use Rattle.dmr_records.specs.Tables.{MayPrepare};
ghost use Rattle.dmr_records.specs.Written.{IsNotWritten};

use crate::commit::write_term;
use crate::fault::FileFault;
use crate::reach::Reach;
use crate::reading::read_radios;
use crate::tables::prepare_tables;
use dmr_keeper::TimedRecords;
use dmr_pdu::Address;
use sqlite::{Alter, Connection};
use std::alloc::Global;

/// Prepares the tables, and writes the records of a term.
fn prepare_and_write<S: Alter>(
    conn: &mut Connection<S>,
    most: u32,
    term: &TimedRecords,
) -> Result<(), FileFault>
    ensures written { HasCleanDisk (state S.Store conn.new)
        → OnOk result (WritesTerm S.Store most term.now conn.old conn.new) }
    ensures not_written { HasCleanDisk (state S.Store conn.new)
        → IfErr result (FailsOver S.Store (IsNotWritten S.Store most term.now) conn.old conn.new) }
    ensures crash { Survives (state S.Store conn.old) (state S.Store conn.new)
        (MayKeep S.Store most term.now conn.old) }
{
    if !conn.is_autocommit() {
        return Err(FileFault::NotRecords);
    }
    prepare_tables(conn)?;
    write_term(conn, most, term)
}

/// Prepares the tables, and reads the registered radios.
fn prepare_and_read<S: Alter>(
    alloc: Global,
    conn: &mut Connection<S>,
) -> Result<Vec<Address>, FileFault>
    ensures read { HasCleanDisk (state S.Store conn.new)
        → IfOk result (λ radios. ReadsRadios S.Store radios.items conn.old conn.new) }
    ensures not_read { HasCleanDisk (state S.Store conn.new)
        → IfErr result (FailsOver S.Store (AreNotRead S.Store) conn.old conn.new) }
    ensures crash { Survives (state S.Store conn.old) (state S.Store conn.new)
        (MayPrepare S.Store conn.old) }
{
    if !conn.is_autocommit() {
        return Err(FileFault::NotRecords);
    }
    prepare_tables(conn)?;
    read_radios(alloc, conn)
}

/// Opens the database, prepares its tables ([`prepare_tables`]), writes the records of a term in one transaction, and
/// closes it.
///
/// Of each table of calls, events and terms, the newest `most` rows stay. Older rows are removed only if the number of
/// the term's row is a multiple of `most / 1000 + 1`. Until then they stay too.
///
/// # Errors
///
/// Each [`FileFault`] says why nothing was written. The database then has the records that it had before. A connection
/// that is within a transaction when it is opened is [`FileFault::NotRecords`].
pub fn keep_term<S: Alter, D: Reach<Connection<S>>>(
    reach: &mut D,
    most: u32,
    term: &TimedRecords,
) -> Result<(), FileFault>
    ensures kept { OnOk result (IsKept S.Store D.opens D.closes most term.now reach.old reach.new) }
    ensures not_kept { IfErr result (IsNotKept S.Store D.opens D.refuses D.closes most term.now
        reach.old reach.new) }
{
    let mut conn = reach.open()?;
    let written = prepare_and_write(&mut conn, most, term);
    reach.close(conn);
    written
}

/// Opens the database, prepares its tables ([`prepare_tables`]), reads the registered radios, and closes it. The radios
/// are in the order in which they joined. If there are more than the 4,096 that a site may have, it reads 4,097.
///
/// # Errors
///
/// Each [`FileFault`] says what is wrong with the database. It then has the records that it had before.
pub fn read_registered<S: Alter, D: Reach<Connection<S>>>(
    alloc: Global,
    reach: &mut D,
) -> Result<Vec<Address>, FileFault>
    ensures read { IfOk result
        (λ radios. AreReadBack S.Store D.opens D.closes radios.items reach.old reach.new) }
    ensures not_read { IfErr result (IsNotRead S.Store D.opens D.refuses D.closes reach.old reach.new) }
{
    let mut conn = reach.open()?;
    let radios = prepare_and_read(alloc, &mut conn);
    reach.close(conn);
    radios
}
