//! The statements that remove the oldest rows.

ghost use Rattle.std.specs.Prelude.{◌≡◌, [], ◌∷◌};
ghost use Rattle.dmr_records.specs.Ran.{Keeps, RanAll};
ghost use Rattle.dmr_records.specs.Statements.{mark_removed as statement_of_mark};
ghost use Rattle.dmr_records.specs.Statements.{prune as statements_of_pruning};
ghost use Rattle.dmr_records.specs.Statements.{prune_after as statements_after};

use crate::rows::run;
use crate::values::number;
use sqlite::{Alter, Error, Transaction};

const MARK_REMOVED: &str = "UPDATE removed SET calls = (SELECT max(number) FROM calls) - ?1, \
    events = (SELECT max(number) FROM events) - ?1, \
    terms = (SELECT max(number) FROM terms) - ?1";

const PRUNE_CALLS: &str = "DELETE FROM calls WHERE number <= (SELECT calls FROM removed)";

const PRUNE_EVENTS: &str = "DELETE FROM events WHERE number <= (SELECT events FROM removed)";

const PRUNE_TERMS: &str = "DELETE FROM terms WHERE number <= (SELECT terms FROM removed)";

const PRUNE_CARRIERS: &str = "DELETE FROM carriers WHERE term <= (SELECT terms FROM removed)";

/// Notes up to which number the rows of each table are removed next, so that at most this many stay.
fn mark_removed<S: Alter>(tx: &mut Transaction<'_, S>, most: u32) -> Result<(), Error>
    ensures same_reference { tx.new.conn.ghost_name ≡ tx.old.conn.ghost_name }
    ensures ran { RanAll S.Store (statement_of_mark most ∷ [])
        tx.old.conn.now tx.new.conn.now result }
    ensures keeps { Keeps S.Store tx.old.conn.now tx.new.conn.now }
{
    run(tx, MARK_REMOVED, &[number(most)])
}

/// Runs a statement that has no parameter.
fn run_alone<S: Alter>(tx: &mut Transaction<'_, S>, text: &str) -> Result<(), Error>
    ensures same_reference { tx.new.conn.ghost_name ≡ tx.old.conn.ghost_name }
    ensures ran { RanAll S.Store (record { text = text.now; params = [] } ∷ [])
        tx.old.conn.now tx.new.conn.now result }
    ensures keeps { Keeps S.Store tx.old.conn.now tx.new.conn.now }
{
    run(tx, text, &[])
}

/// Removes the oldest calls, events and terms, so that at most this many of each stay, and the counts of carriers in
/// terms that are removed.
fn prune<S: Alter>(tx: &mut Transaction<'_, S>, most: u32) -> Result<(), Error>
    ensures same_reference { tx.new.conn.ghost_name ≡ tx.old.conn.ghost_name }
    ensures ran { RanAll S.Store (statements_of_pruning most)
        tx.old.conn.now tx.new.conn.now result }
    ensures keeps { Keeps S.Store tx.old.conn.now tx.new.conn.now }
{
    mark_removed(tx, most)?;
    run_alone(tx, PRUNE_CALLS)?;
    run_alone(tx, PRUNE_EVENTS)?;
    run_alone(tx, PRUNE_TERMS)?;
    run_alone(tx, PRUNE_CARRIERS)
}

/// Removes the oldest rows after the term with this number, if it is a multiple of `most / 1000 + 1`.
pub fn prune_after<S: Alter>(
    tx: &mut Transaction<'_, S>,
    most: u32,
    number: u64,
) -> Result<(), Error>
    ensures same_reference { tx.new.conn.ghost_name ≡ tx.old.conn.ghost_name }
    ensures ran { RanAll S.Store (statements_after most number)
        tx.old.conn.now tx.new.conn.now result }
    ensures keeps { Keeps S.Store tx.old.conn.now tx.new.conn.now }
{
    if number % (u64::from(most) / 1000 + 1) == 0 {
        return prune(tx, most);
    }
    Ok(())
}
