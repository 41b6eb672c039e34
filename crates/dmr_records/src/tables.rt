//! How a database gets the tables, and which version it has.

ghost use Rattle.std.specs.Prelude.{◌≡◌, ◌≢◌, false, pos, IfErr, IfOk, IsTrue, OnErr, OnOk};
ghost use Rattle.sqlite.specs.Held.{state};
ghost use Rattle.sqlite.specs.State.{HasCleanDisk, KeepsCommit, Survives};
ghost use Rattle.dmr_records.specs.Ran.{Looks};
ghost use Rattle.dmr_records.specs.Tables.{AreMade, AreNotPrepared, ArePrepared, FailsToMake};
ghost use Rattle.dmr_records.specs.Tables.{FindsNoVersion, FindsVersion, HasNoVersion, HasVersion};
ghost use Rattle.dmr_records.specs.Tables.{IsOtherVersion, MayLeaveTables, MayPrepare};
ghost use Rattle.dmr_records.specs.Tables.{ShowsNoNumber, ShowsNumber};
ghost use Rattle.dmr_records.specs.Statements.{version, version_before};

use crate::fault::{FileFault, fault_of};
use crate::rows::{CARRY_OVER, TABLES, VERSION, VERSION_BEFORE};
use sqlite::{Alter, Connection, Error, Transaction};

const COUNT_TABLES: &str = "SELECT count(*) FROM sqlite_schema";

const SELECT_VERSION: &str = "SELECT max(version) FROM schema_version";

/// The number with which the first row of a query's answer begins.
fn read_number<S: Alter>(tx: &mut Transaction<'_, S>, query: &str) -> Result<i64, Error>
    ensures same_reference { tx.new.conn.ghost_name ≡ tx.old.conn.ghost_name }
    ensures shown { HasCleanDisk (state S.Store tx.new.conn.now)
        → IfOk result (ShowsNumber S.Store query.now tx.old.conn.now tx.new.conn.now) }
    ensures not_shown { HasCleanDisk (state S.Store tx.new.conn.now)
        → IfErr result (ShowsNoNumber S.Store query.now tx.old.conn.now tx.new.conn.now) }
    ensures looks { Looks S.Store tx.old.conn.now tx.new.conn.now }
    ensures inside { HasCleanDisk (state S.Store tx.new.conn.now) → IsTrue tx.old.conn.now.in_transaction
        → OnOk result (IsTrue tx.new.conn.now.in_transaction) }
{
    tx.query_row(query, &[])?.get(0)
}

/// The version of the tables, or `None` if there is no table.
fn read_version<S: Alter>(tx: &mut Transaction<'_, S>) -> Result<Option<i64>, Error>
    ensures same_reference { tx.new.conn.ghost_name ≡ tx.old.conn.ghost_name }
    ensures found { HasCleanDisk (state S.Store tx.new.conn.now)
        → IfOk result (FindsVersion S.Store tx.old.conn.now tx.new.conn.now) }
    ensures not_found { HasCleanDisk (state S.Store tx.new.conn.now)
        → IfErr result (FindsNoVersion S.Store tx.old.conn.now tx.new.conn.now) }
    ensures looks { Looks S.Store tx.old.conn.now tx.new.conn.now }
{
    if read_number(tx, COUNT_TABLES)? == 0 {
        return Ok(None);
    }
    Ok(Some(read_number(tx, SELECT_VERSION)?))
}

/// The same, in a transaction of its own, in which nothing is written.
fn find_version<S: Alter>(conn: &mut Connection<S>) -> Result<Option<i64>, Error>
    requires idle { conn.old.in_transaction ≡ false }
    ensures idle { conn.new.in_transaction ≡ false }
    ensures found { HasCleanDisk (state S.Store conn.new)
        → IfOk result (HasVersion S.Store conn.old conn.new) }
    ensures not_found { HasCleanDisk (state S.Store conn.new)
        → IfErr result (HasNoVersion S.Store conn.old conn.new) }
    ensures nothing { HasCleanDisk (state S.Store conn.new)
        → KeepsCommit (state S.Store conn.old) (state S.Store conn.new) }
    ensures survives { Survives (state S.Store conn.old) (state S.Store conn.new) (λ _. ⊥) }
{
    let mut tx = conn.transaction();
    read_version(&mut tx)
}

/// Accepts this crate's version, of those that are not carried over.
fn check_version(found: i64) -> Result<(), FileFault>
    requires { found ≢ pos version_before }
    ensures known { OnOk result (found ≡ pos version) }
    ensures other { IfErr result (IsOtherVersion found) }
{
    if found == VERSION {
        Ok(())
    } else if found > VERSION {
        Err(FileFault::Newer(found))
    } else {
        Err(FileFault::NotRecords)
    }
}

/// Runs statements in one transaction.
fn commit_batch<S: Alter>(conn: &mut Connection<S>, text: &str) -> Result<(), Error>
    requires idle { conn.old.in_transaction ≡ false }
    ensures idle { conn.new.in_transaction ≡ false }
    ensures made { HasCleanDisk (state S.Store conn.new)
        → OnOk result (AreMade S.Store text.now conn.old conn.new) }
    ensures not_made { HasCleanDisk (state S.Store conn.new)
        → IfErr result (FailsToMake S.Store text.now conn.old conn.new) }
    ensures nothing { HasCleanDisk (state S.Store conn.new)
        → OnErr result (KeepsCommit (state S.Store conn.old) (state S.Store conn.new)) }
    ensures crash { Survives (state S.Store conn.old) (state S.Store conn.new)
        (MayLeaveTables S.Store text.now conn.old) }
{
    let mut tx = conn.transaction();
    tx.execute_batch(text)?;
    tx.commit()
}

/// Makes the tables in a database that has none. Those of the version before are carried over: their rows stay, and what
/// they do not say is NULL. That is done in one transaction. Of any other database, checks the version.
///
/// # Errors
///
/// - [`FileFault::Newer`]: the tables are of a later version.
/// - [`FileFault::NotRecords`]: the tables are others.
/// - The other [`FileFault`]s, as they are described there.
///
/// The database is then as it was before.
pub fn prepare_tables<S: Alter>(conn: &mut Connection<S>) -> Result<(), FileFault>
    requires idle { conn.old.in_transaction ≡ false }
    ensures idle { conn.new.in_transaction ≡ false }
    ensures prepared { HasCleanDisk (state S.Store conn.new)
        → OnOk result (ArePrepared S.Store conn.old conn.new) }
    ensures not_prepared { HasCleanDisk (state S.Store conn.new)
        → IfErr result (AreNotPrepared S.Store conn.old conn.new) }
    ensures nothing { HasCleanDisk (state S.Store conn.new)
        → OnErr result (KeepsCommit (state S.Store conn.old) (state S.Store conn.new)) }
    ensures crash { Survives (state S.Store conn.old) (state S.Store conn.new)
        (MayPrepare S.Store conn.old) }
{
    match find_version(conn) {
        Ok(None) => match commit_batch(conn, TABLES) {
            Ok(()) => Ok(()),
            Err(error) => Err(fault_of(error)),
        },
        Ok(Some(found)) => {
            if found == VERSION_BEFORE {
                match commit_batch(conn, CARRY_OVER) {
                    Ok(()) => Ok(()),
                    Err(error) => Err(fault_of(error)),
                }
            } else {
                check_version(found)
            }
        }
        Err(error) => Err(fault_of(error)),
    }
}
