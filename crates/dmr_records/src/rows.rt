//! The columns of the tables in SQL, and the statements that write a row.
//!
//! Each function runs one statement in a transaction. If the statement fails or is refused, the transaction is as the
//! library leaves it, and its owner drops it, which rolls it back.

ghost use Rattle.std.specs.Prelude.{◌≡◌, [], ◌∷◌};
ghost use Rattle.sqlite.specs.Values.{bound};
ghost use Rattle.dmr_records.specs.Ran.{Keeps, RanAll};
ghost use Rattle.dmr_records.specs.Statements.{cut_registrations as statement_of_cut};
ghost use Rattle.dmr_records.specs.Statements.{put_call as statement_of_call};
ghost use Rattle.dmr_records.specs.Statements.{put_carrier as statement_of_carrier};
ghost use Rattle.dmr_records.specs.Statements.{put_event as statement_of_event};
ghost use Rattle.dmr_records.specs.Statements.{put_registration as statement_of_registration};
ghost use Rattle.dmr_records.specs.Statements.{put_term as statement_of_term};

use crate::events::EventRow;
use crate::term_row::TermRow;
use crate::values::{count, flag, number, number_or_null, outcome_or_null, size, time_in, word};
use crate::words::{cause_word, kind_word};
use dmr_keeper::{CarrierCounts, EndedCall, TermCounts, TermTime};
use dmr_pdu::Address;
use sqlite::types::ValueRef;
use sqlite::{Alter, Error, Transaction};

/// The version of the tables that this crate makes and reads.
pub const VERSION: i64 = 2;

/// The version of the tables that it carries over.
pub const VERSION_BEFORE: i64 = 1;

/// The statements that make the tables. `docs/RECORDS.md` describes them.
pub const TABLES: &str = "\
    CREATE TABLE schema_version (version INTEGER PRIMARY KEY) STRICT;\
    CREATE TABLE terms (\
    number INTEGER PRIMARY KEY, \
    ended_ms INTEGER NOT NULL, \
    tick_ms INTEGER NOT NULL, \
    last_tick INTEGER NOT NULL, \
    entries INTEGER NOT NULL, \
    heard INTEGER NOT NULL, \
    requests INTEGER NOT NULL, \
    noise INTEGER NOT NULL, \
    active INTEGER NOT NULL, \
    polls INTEGER NOT NULL, \
    ticks INTEGER NOT NULL, \
    commands INTEGER NOT NULL, \
    grants INTEGER NOT NULL, \
    late_entries INTEGER NOT NULL, \
    registrations INTEGER NOT NULL, \
    refusals INTEGER NOT NULL, \
    begun INTEGER NOT NULL, \
    ended INTEGER NOT NULL, \
    most_lines INTEGER NOT NULL) STRICT;\
    CREATE TABLE calls (\
    number INTEGER PRIMARY KEY, \
    term INTEGER NOT NULL, \
    carrier INTEGER NOT NULL, \
    slot INTEGER NOT NULL, \
    is_group INTEGER NOT NULL, \
    source INTEGER NOT NULL, \
    target INTEGER NOT NULL, \
    began INTEGER NOT NULL, \
    began_ms INTEGER NOT NULL, \
    ended INTEGER NOT NULL, \
    ended_ms INTEGER NOT NULL, \
    cause TEXT NOT NULL, \
    waited INTEGER) STRICT;\
    CREATE TABLE events (\
    number INTEGER PRIMARY KEY, \
    term INTEGER NOT NULL, \
    tick INTEGER NOT NULL, \
    at_ms INTEGER NOT NULL, \
    kind TEXT NOT NULL, \
    carrier INTEGER, \
    slot INTEGER, \
    radio INTEGER, \
    target INTEGER, \
    channel INTEGER, \
    reason INTEGER, \
    reply TEXT) STRICT;\
    CREATE TABLE carriers (\
    term INTEGER NOT NULL, \
    carrier INTEGER NOT NULL, \
    polls INTEGER NOT NULL, \
    heard INTEGER NOT NULL, \
    noise INTEGER NOT NULL, \
    active INTEGER NOT NULL, \
    PRIMARY KEY (term, carrier)) STRICT;\
    CREATE TABLE registrations (\
    place INTEGER PRIMARY KEY, \
    radio INTEGER NOT NULL) STRICT;\
    CREATE TABLE removed (calls INTEGER, events INTEGER, terms INTEGER) STRICT;\
    INSERT INTO removed (calls, events, terms) VALUES (0, 0, 0);\
    INSERT INTO schema_version (version) VALUES (2)";

/// Those that make them from the tables of the version before. No table can be given a column, so rows are copied.
pub const CARRY_OVER: &str = "\
    CREATE TABLE calls_before (\
    number INTEGER PRIMARY KEY, \
    term INTEGER NOT NULL, \
    carrier INTEGER NOT NULL, \
    slot INTEGER NOT NULL, \
    is_group INTEGER NOT NULL, \
    source INTEGER NOT NULL, \
    target INTEGER NOT NULL, \
    began INTEGER NOT NULL, \
    began_ms INTEGER NOT NULL, \
    ended INTEGER NOT NULL, \
    ended_ms INTEGER NOT NULL, \
    cause TEXT NOT NULL) STRICT;\
    INSERT INTO calls_before (number, term, carrier, slot, is_group, source, target, \
    began, began_ms, ended, ended_ms, cause) \
    SELECT number, term, carrier, slot, is_group, source, target, \
    began, began_ms, ended, ended_ms, cause FROM calls;\
    DROP TABLE calls;\
    CREATE TABLE calls (\
    number INTEGER PRIMARY KEY, \
    term INTEGER NOT NULL, \
    carrier INTEGER NOT NULL, \
    slot INTEGER NOT NULL, \
    is_group INTEGER NOT NULL, \
    source INTEGER NOT NULL, \
    target INTEGER NOT NULL, \
    began INTEGER NOT NULL, \
    began_ms INTEGER NOT NULL, \
    ended INTEGER NOT NULL, \
    ended_ms INTEGER NOT NULL, \
    cause TEXT NOT NULL, \
    waited INTEGER) STRICT;\
    INSERT INTO calls (number, term, carrier, slot, is_group, source, target, \
    began, began_ms, ended, ended_ms, cause) \
    SELECT number, term, carrier, slot, is_group, source, target, \
    began, began_ms, ended, ended_ms, cause FROM calls_before;\
    DROP TABLE calls_before;\
    CREATE TABLE carriers (\
    term INTEGER NOT NULL, \
    carrier INTEGER NOT NULL, \
    polls INTEGER NOT NULL, \
    heard INTEGER NOT NULL, \
    noise INTEGER NOT NULL, \
    active INTEGER NOT NULL, \
    PRIMARY KEY (term, carrier)) STRICT;\
    UPDATE schema_version SET version = 2";

const PUT_TERM: &str =
    "INSERT INTO terms (ended_ms, tick_ms, last_tick, entries, heard, requests, noise, active, \
    polls, ticks, commands, grants, late_entries, registrations, refusals, begun, ended, most_lines) \
    VALUES (?1, ?2, ?3, ?4, ?5, ?6, ?7, ?8, ?9, ?10, ?11, ?12, ?13, ?14, ?15, ?16, ?17, ?18)";

const PUT_CALL: &str =
    "INSERT INTO calls (term, carrier, slot, is_group, source, target, began, began_ms, ended, \
    ended_ms, cause, waited) VALUES (?1, ?2, ?3, ?4, ?5, ?6, ?7, ?8, ?9, ?10, ?11, ?12)";

const PUT_EVENT: &str = "INSERT INTO events \
    (term, tick, at_ms, kind, carrier, slot, radio, target, channel, reason, reply) \
    VALUES (?1, ?2, ?3, ?4, ?5, ?6, ?7, ?8, ?9, ?10, ?11)";

const PUT_CARRIER: &str = "INSERT INTO carriers (term, carrier, polls, heard, noise, active) \
    VALUES (?1, ?2, ?3, ?4, ?5, ?6)";

const PUT_REGISTRATION: &str = "INSERT INTO registrations (place, radio) VALUES (?1, ?2) \
    ON CONFLICT (place) DO UPDATE SET radio = excluded.radio WHERE radio <> excluded.radio";

const CUT_REGISTRATIONS: &str = "DELETE FROM registrations WHERE place > ?1";

/// Runs a statement, and does not say how many rows it changed.
pub fn run<S: Alter>(
    tx: &mut Transaction<'_, S>,
    text: &str,
    params: &[ValueRef<'_>],
) -> Result<(), Error>
    ensures same_reference { tx.new.conn.ghost_name ≡ tx.old.conn.ghost_name }
    ensures ran { RanAll S.Store (record { text = text.now; params = bound params.now } ∷ [])
        tx.old.conn.now tx.new.conn.now result }
    ensures keeps { Keeps S.Store tx.old.conn.now tx.new.conn.now }
{
    match tx.execute(text, params) {
        Ok(_) => Ok(()),
        Err(error) => Err(error),
    }
}

/// Writes the row of a term: its time, the ticks of all terms up to its end, and its counts. The
/// row has the next number.
pub fn put_term<S: Alter>(
    tx: &mut Transaction<'_, S>,
    time: TermTime,
    ticks: u64,
    counts: &TermCounts,
) -> Result<(), Error>
    ensures same_reference { tx.new.conn.ghost_name ≡ tx.old.conn.ghost_name }
    ensures ran { RanAll S.Store (statement_of_term time ticks counts.now ∷ [])
        tx.old.conn.now tx.new.conn.now result }
    ensures keeps { Keeps S.Store tx.old.conn.now tx.new.conn.now }
{
    run(
        tx,
        PUT_TERM,
        &[
            count(time.ended),
            number(time.tick_ms),
            count(ticks),
            size(counts.entries),
            size(counts.heard),
            size(counts.requests),
            size(counts.noise),
            size(counts.active),
            size(counts.polls),
            size(counts.ticks),
            size(counts.commands),
            size(counts.grants),
            size(counts.late_entries),
            size(counts.registrations),
            size(counts.refusals),
            size(counts.begun),
            size(counts.ended),
            size(counts.most_lines),
        ],
    )
}

/// Writes the row of a call that ended in the term with this row.
pub fn put_call<S: Alter>(
    tx: &mut Transaction<'_, S>,
    term: TermRow,
    call: &EndedCall,
) -> Result<(), Error>
    ensures same_reference { tx.new.conn.ghost_name ≡ tx.old.conn.ghost_name }
    ensures ran { RanAll S.Store (statement_of_call term call.now ∷ [])
        tx.old.conn.now tx.new.conn.now result }
    ensures keeps { Keeps S.Store tx.old.conn.now tx.new.conn.now }
{
    run(
        tx,
        PUT_CALL,
        &[
            count(term.number),
            number(call.call.slot.carrier.get()),
            number(call.call.slot.slot.get()),
            flag(call.call.group),
            number(call.call.source.get()),
            number(call.call.target.get()),
            count(call.began),
            time_in(&term, call.began),
            count(call.ended),
            time_in(&term, call.ended),
            word(cause_word(&call.cause)),
            count(call.waited),
        ],
    )
}

/// Writes the row of an event in the term with this row.
pub fn put_event<S: Alter>(
    tx: &mut Transaction<'_, S>,
    term: TermRow,
    event: &EventRow,
) -> Result<(), Error>
    ensures same_reference { tx.new.conn.ghost_name ≡ tx.old.conn.ghost_name }
    ensures ran { RanAll S.Store (statement_of_event term event.now ∷ [])
        tx.old.conn.now tx.new.conn.now result }
    ensures keeps { Keeps S.Store tx.old.conn.now tx.new.conn.now }
{
    run(
        tx,
        PUT_EVENT,
        &[
            count(term.number),
            count(event.tick),
            time_in(&term, event.tick),
            word(kind_word(&event.kind)),
            number_or_null(event.carrier),
            number_or_null(event.slot),
            number_or_null(event.radio),
            number_or_null(event.target),
            number_or_null(event.channel),
            number_or_null(event.reason),
            outcome_or_null(event.reply),
        ],
    )
}

/// Writes the row of the counts of a carrier in the term with this row.
pub fn put_carrier<S: Alter>(
    tx: &mut Transaction<'_, S>,
    term: TermRow,
    counts: &CarrierCounts,
) -> Result<(), Error>
    ensures same_reference { tx.new.conn.ghost_name ≡ tx.old.conn.ghost_name }
    ensures ran { RanAll S.Store (statement_of_carrier term counts.now ∷ [])
        tx.old.conn.now tx.new.conn.now result }
    ensures keeps { Keeps S.Store tx.old.conn.now tx.new.conn.now }
{
    run(
        tx,
        PUT_CARRIER,
        &[
            count(term.number),
            number(counts.carrier.get()),
            size(counts.polls),
            size(counts.heard),
            size(counts.noise),
            size(counts.active),
        ],
    )
}

/// Writes the radio at a place of the order of joining. A row that has this radio already is not written.
pub fn put_registration<S: Alter>(
    tx: &mut Transaction<'_, S>,
    place: u64,
    radio: &Address,
) -> Result<(), Error>
    ensures same_reference { tx.new.conn.ghost_name ≡ tx.old.conn.ghost_name }
    ensures ran { RanAll S.Store (statement_of_registration place radio.now ∷ [])
        tx.old.conn.now tx.new.conn.now result }
    ensures keeps { Keeps S.Store tx.old.conn.now tx.new.conn.now }
{
    run(tx, PUT_REGISTRATION, &[count(place), number(radio.get())])
}

/// Removes the registrations after this place.
pub fn cut_registrations<S: Alter>(tx: &mut Transaction<'_, S>, last: usize) -> Result<(), Error>
    ensures same_reference { tx.new.conn.ghost_name ≡ tx.old.conn.ghost_name }
    ensures ran { RanAll S.Store (statement_of_cut last ∷ [])
        tx.old.conn.now tx.new.conn.now result }
    ensures keeps { Keeps S.Store tx.old.conn.now tx.new.conn.now }
{
    run(tx, CUT_REGISTRATIONS, &[size(last)])
}
