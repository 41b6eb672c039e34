//! Numbers and words as values of SQL.

ghost use Rattle.std.specs.Prelude.{◌≡◌};
ghost use Rattle.sqlite.specs.Value.{owned};
ghost use Rattle.sqlite.specs.Values.{bound_value, or_null};
ghost use Rattle.sqlite.specs.declared.types.Value.TheVariants.{Text as Words};
ghost use Rattle.dmr_records.specs.Statements.{count as as_count, flag as as_flag};
ghost use Rattle.dmr_records.specs.Statements.{number as as_number, stored, time_in as as_time_in};
ghost use Rattle.dmr_records.specs.Words.{outcome_word as word_of_outcome};

use crate::term_row::TermRow;
use crate::words::outcome_word;
use dmr_keeper::CommandOutcome;
use sqlite::types::ValueRef;

/// A count as an integer of SQLite. A count above the greatest of these integers, 2 ^ 63 - 1, becomes that integer.
/// That is the number of milliseconds of 292 million years.
fn stored_count(count: u64) -> i64
    ensures { result ≡ stored count }
{
    if count <= 9_223_372_036_854_775_807 {
        count as i64
    } else {
        9_223_372_036_854_775_807
    }
}

/// A count.
pub fn count(value: u64) -> ValueRef<'static>
    ensures { bound_value (owned result) ≡ as_count value }
{
    ValueRef::Int(stored_count(value))
}

/// A count of what is in memory.
pub fn size(value: usize) -> ValueRef<'static>
    ensures { bound_value (owned result) ≡ as_count value }
{
    count(value as u64)
}

/// The time of day of a tick of the term.
pub fn time_in(term: &TermRow, tick: u64) -> ValueRef<'static>
    ensures { bound_value (owned result) ≡ as_time_in term.now tick }
{
    count(term.time_of(tick))
}

/// The number of a carrier, a slot, an address, a channel or a reason.
pub fn number(value: u32) -> ValueRef<'static>
    ensures { bound_value (owned result) ≡ as_number value }
{
    ValueRef::Int(i64::from(value))
}

/// A number, or NULL if there is none.
pub fn number_or_null(value: Option<u32>) -> ValueRef<'static>
    ensures { bound_value (owned result) ≡ or_null as_number value }
{
    match value {
        Some(value) => number(value),
        None => ValueRef::Null,
    }
}

/// 1 if it is so, and 0 if it is not.
pub fn flag(value: bool) -> ValueRef<'static>
    ensures { bound_value (owned result) ≡ as_flag value }
{
    ValueRef::Int(if value { 1 } else { 0 })
}

/// A word.
pub fn word(value: &'static str) -> ValueRef<'static>
    ensures { bound_value (owned result) ≡ Words value.now }
{
    ValueRef::Text(value.as_bytes())
}

/// The result of a command, or NULL if there is none.
pub fn outcome_or_null(value: Option<CommandOutcome>) -> ValueRef<'static>
    ensures { bound_value (owned result) ≡ or_null (λ o. Words (word_of_outcome o)) value }
{
    match value {
        Some(outcome) => word(outcome_word(&outcome)),
        None => ValueRef::Null,
    }
}
