//! The statements that write the records of a term, one after another.

ghost use Rattle.std.specs.Prelude.{◌≡◌};
ghost use Rattle.dmr_records.specs.Ran.{Keeps, RanAll};
ghost use Rattle.dmr_records.specs.Statements.{put_calls as statements_of_calls};
ghost use Rattle.dmr_records.specs.Statements.{put_carriers as statements_of_carriers};
ghost use Rattle.dmr_records.specs.Statements.{put_changes as statements_of_changes};
ghost use Rattle.dmr_records.specs.Statements.{put_notes as statements_of_notes};
ghost use Rattle.dmr_records.specs.Statements.{put_radios as statements_of_radios};
ghost use Rattle.dmr_records.specs.Statements.{put_registrations as statements_of_registrations};
ghost use Rattle.dmr_records.specs.Statements.{put_rest as statements_of_rest};
ghost use Rattle.dmr_records.specs.Statements.{row_number};
ghost use Rattle.dmr_records.specs.Written.{RunsTerm};
ghost use Rattle.sqlite.specs.Held.{state};

use crate::events::{event_of_change, event_of_note};
use crate::pruning::prune_after;
use crate::rows::{
    cut_registrations, put_call, put_carrier, put_event, put_registration, put_term,
};
use crate::term_row::TermRow;
use dmr_keeper::{CarrierCounts, Change, EndedCall, Records, TimedOccurrence, TimedRecords};
use dmr_pdu::Address;
use sqlite::{Alter, Error, Transaction};

/// Writes the rows of calls, in their order.
fn put_calls<S: Alter>(
    tx: &mut Transaction<'_, S>,
    term: TermRow,
    calls: &[EndedCall],
) -> Result<(), Error>
    ensures same_reference { tx.new.conn.ghost_name ≡ tx.old.conn.ghost_name }
    ensures ran { RanAll S.Store (statements_of_calls term calls.now)
        tx.old.conn.now tx.new.conn.now result }
    ensures keeps { Keeps S.Store tx.old.conn.now tx.new.conn.now }
{
    for call in calls {
        put_call(tx, term, call)?;
    }
    Ok(())
}

/// Writes the rows of changes, in their order.
fn put_changes<S: Alter>(
    tx: &mut Transaction<'_, S>,
    term: TermRow,
    changes: &[Change],
) -> Result<(), Error>
    ensures same_reference { tx.new.conn.ghost_name ≡ tx.old.conn.ghost_name }
    ensures ran { RanAll S.Store (statements_of_changes term changes.now)
        tx.old.conn.now tx.new.conn.now result }
    ensures keeps { Keeps S.Store tx.old.conn.now tx.new.conn.now }
{
    for change in changes {
        put_event(tx, term, &event_of_change(change))?;
    }
    Ok(())
}

/// Writes the rows of notes, in their order.
fn put_notes<S: Alter>(
    tx: &mut Transaction<'_, S>,
    term: TermRow,
    notes: &[TimedOccurrence],
) -> Result<(), Error>
    ensures same_reference { tx.new.conn.ghost_name ≡ tx.old.conn.ghost_name }
    ensures ran { RanAll S.Store (statements_of_notes term notes.now)
        tx.old.conn.now tx.new.conn.now result }
    ensures keeps { Keeps S.Store tx.old.conn.now tx.new.conn.now }
{
    for note in notes {
        put_event(tx, term, &event_of_note(note))?;
    }
    Ok(())
}

/// Writes the rows of the counts of carriers, in their order.
fn put_carriers<S: Alter>(
    tx: &mut Transaction<'_, S>,
    term: TermRow,
    carriers: &[CarrierCounts],
) -> Result<(), Error>
    ensures same_reference { tx.new.conn.ghost_name ≡ tx.old.conn.ghost_name }
    ensures ran { RanAll S.Store (statements_of_carriers term carriers.now)
        tx.old.conn.now tx.new.conn.now result }
    ensures keeps { Keeps S.Store tx.old.conn.now tx.new.conn.now }
{
    for counts in carriers {
        put_carrier(tx, term, counts)?;
    }
    Ok(())
}

/// Writes radios in their order, from the first place on.
fn put_registrations<S: Alter>(tx: &mut Transaction<'_, S>, radios: &[Address]) -> Result<(), Error>
    ensures same_reference { tx.new.conn.ghost_name ≡ tx.old.conn.ghost_name }
    ensures ran { RanAll S.Store (statements_of_registrations 1 radios.now)
        tx.old.conn.now tx.new.conn.now result }
    ensures keeps { Keeps S.Store tx.old.conn.now tx.new.conn.now }
{
    let mut place = 1u64;
    for radio in radios {
        put_registration(tx, place, radio)?;
        place += 1;
    }
    Ok(())
}

/// Writes the registered radios, and removes the rows after the last of them.
fn put_radios<S: Alter>(tx: &mut Transaction<'_, S>, radios: &[Address]) -> Result<(), Error>
    ensures same_reference { tx.new.conn.ghost_name ≡ tx.old.conn.ghost_name }
    ensures ran { RanAll S.Store (statements_of_radios radios.now)
        tx.old.conn.now tx.new.conn.now result }
    ensures keeps { Keeps S.Store tx.old.conn.now tx.new.conn.now }
{
    put_registrations(tx, radios)?;
    cut_registrations(tx, radios.len())
}

/// Writes what belongs to the row of its term, and the registered radios; then removes the oldest rows, if it is time
/// for that.
fn put_rest<S: Alter>(
    tx: &mut Transaction<'_, S>,
    most: u32,
    term: TermRow,
    records: &Records,
) -> Result<(), Error>
    ensures same_reference { tx.new.conn.ghost_name ≡ tx.old.conn.ghost_name }
    ensures ran { RanAll S.Store (statements_of_rest most term records.now)
        tx.old.conn.now tx.new.conn.now result }
    ensures keeps { Keeps S.Store tx.old.conn.now tx.new.conn.now }
{
    put_calls(tx, term, records.calls.as_slice())?;
    put_changes(tx, term, records.changes.as_slice())?;
    put_notes(tx, term, records.notes.as_slice())?;
    put_carriers(tx, term, records.carriers.as_slice())?;
    put_radios(tx, records.after.registered())?;
    prune_after(tx, most, term.number)
}

/// The number of the row that was written last.
fn newest_row<S: Alter>(tx: &Transaction<'_, S>) -> u64
    ensures { result ≡ row_number (state S.Store tx.now.conn.now).last_rowid }
{
    match u64::try_from(tx.last_insert_rowid()) {
        Ok(number) => number,
        Err(_) => 0,
    }
}

/// Writes the records of a term in a transaction. If it is time for that, removes the oldest rows of calls, events and
/// terms, so that this many of each stay. Nothing is committed.
pub fn put_records<S: Alter>(
    tx: &mut Transaction<'_, S>,
    most: u32,
    term: &TimedRecords,
) -> Result<(), Error>
    ensures same_reference { tx.new.conn.ghost_name ≡ tx.old.conn.ghost_name }
    ensures ran { RunsTerm S.Store most term.now tx.old.conn.now tx.new.conn.now result }
    ensures keeps { Keeps S.Store tx.old.conn.now tx.new.conn.now }
{
    let records = &term.records;
    put_term(tx, term.time, records.after.ticks(), &records.counts)?;
    let row = TermRow::new(newest_row(tx), term);
    put_rest(tx, most, row, records)
}
