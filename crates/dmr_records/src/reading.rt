//! The registered radios, read back from the file.

ghost use Rattle.std.specs.Prelude.{◌≡◌, false, IfErr, IfOk};
ghost use Rattle.sqlite.specs.Order.{column};
ghost use Rattle.sqlite.specs.Held.{state};
ghost use Rattle.sqlite.specs.State.{HasCleanDisk, KeepsCommit, Survives};
ghost use Rattle.dmr_records.specs.Reading.{AreNoRadios, AreNotRead, AreRead, AreShown, FailsToShow};
ghost use Rattle.dmr_records.specs.Reading.{IsNoRadio, ShowRadios};
ghost use Rattle.dmr_records.specs.Statements.{number};

use crate::fault::{FileFault, fault_of};
use dmr_pdu::Address;
use sqlite::{Alter, Connection, Error, ErrorCode, Row};
use std::alloc::Global;

// As many radios as a site may have, and one more, which shows that there are too many.
const SELECT_RADIOS: &str = "SELECT radio FROM registrations ORDER BY place LIMIT 4097";

/// The radio of a row. A number that is not an address is a damage.
fn radio_of(row: &Row) -> Result<Address, FileFault>
    ensures read { IfOk result (λ radio. column row.now 0 ≡ number radio) }
    ensures not_read { IfErr result (IsNoRadio row.now) }
{
    let found: u32 = match row.get(0) {
        Ok(found) => found,
        Err(Error::SqliteFailure(ErrorCode::OutOfMemory)) => return Err(FileFault::OutOfMemory),
        Err(_) => return Err(FileFault::Damaged),
    };
    match Address::try_new(found) {
        Some(radio) => Ok(radio),
        None => Err(FileFault::Damaged),
    }
}

/// The radios of rows, in their order.
fn radios_of(alloc: Global, rows: &[Row]) -> Result<Vec<Address>, FileFault>
    ensures read { IfOk result (λ radios. ShowRadios rows.now radios.items) }
    ensures not_read { IfErr result (AreNoRadios rows.now) }
{
    let mut radios = Vec::new(alloc);
    for row in rows {
        let radio = radio_of(row)?;
        if radios.push(radio).is_err() {
            return Err(FileFault::OutOfMemory);
        }
    }
    Ok(radios)
}

/// The rows of the registered radios, in a transaction of its own, in which nothing is written.
fn select_radios<S: Alter>(conn: &mut Connection<S>) -> Result<Vec<Row>, Error>
    requires idle { conn.old.in_transaction ≡ false }
    ensures shown { HasCleanDisk (state S.Store conn.new)
        → IfOk result (λ rows. AreShown S.Store conn.old conn.new rows.items) }
    ensures not_shown { HasCleanDisk (state S.Store conn.new)
        → IfErr result (FailsToShow S.Store conn.old conn.new) }
    ensures nothing { HasCleanDisk (state S.Store conn.new)
        → KeepsCommit (state S.Store conn.old) (state S.Store conn.new) }
    ensures survives { Survives (state S.Store conn.old) (state S.Store conn.new) (λ _. ⊥) }
{
    let mut tx = conn.transaction();
    tx.query_all(SELECT_RADIOS, &[])
}

/// Reads the registered radios, in the order in which they joined, over a connection whose tables are prepared. If there
/// are more than the 4,096 that a site may have, it reads 4,097.
///
/// # Errors
///
/// [`FileFault::Damaged`] if a row has no address; [`FileFault::NotRecords`] if the connection is within a transaction;
/// any other but `Newer`, as it is described there. What is committed stays as it was.
pub fn read_radios<S: Alter>(
    alloc: Global,
    conn: &mut Connection<S>,
) -> Result<Vec<Address>, FileFault>
    ensures read { HasCleanDisk (state S.Store conn.new)
        → IfOk result (λ radios. AreRead S.Store conn.old conn.new radios.items) }
    ensures not_read { HasCleanDisk (state S.Store conn.new)
        → IfErr result (AreNotRead S.Store conn.old conn.new) }
    ensures nothing { HasCleanDisk (state S.Store conn.new)
        → KeepsCommit (state S.Store conn.old) (state S.Store conn.new) }
    ensures survives { Survives (state S.Store conn.old) (state S.Store conn.new) (λ _. ⊥) }
{
    if !conn.is_autocommit() {
        return Err(FileFault::NotRecords);
    }
    match select_radios(conn) {
        Ok(rows) => radios_of(alloc, rows.as_slice()),
        Err(error) => Err(fault_of(error)),
    }
}
