//! The keys that have one whole number.

ghost use Rattle.std.specs.Prelude.{◌≡◌, ◌≢◌, ◌<◌, ◌≤◌, ◌^◌, ℕ, option_map, IfOk, IfErr, IfSome};
ghost use Rattle.std.specs.Prelude.{None};
ghost use Rattle.toml.specs.Data.{get_member};
ghost use Rattle.toml.specs.View.{view, table_view};
ghost use Rattle.dmr_plan.specs.Keys.{name_of, limits_of, IsNumberOf};
ghost use Rattle.dmr_plan.specs.Steps.{IsOfKey};
ghost use Rattle.dmr_plan.specs.Numbers.{number_within, number_at_key, number_if_missing, bit_in};
ghost use Rattle.dmr_plan.specs.Numbers.{optional_in, optional_if_missing, number_from_in};
ghost use Rattle.dmr_plan.specs.Numbers.{number_unlike_in};

use crate::fault::PlanFault;
use crate::key::{Fallback, Key};
use dmr_pdu::{Address, Number, SystemCode};
use toml::{Table, Value};

/// Returns the value at a key, if there is one.
pub fn member(table: &Table, key: Key) -> Option<&Value>
    ensures { option_map (λ v. view v.now) result
        ≡ get_member (name_of key) (table_view table.now) }
{
    table.get(key.name())
}

/// Returns the whole number that a value is. The error is `WrongType` if the value is not a whole number, and
/// `OutOfRange` if it is not from `least` to `most`.
pub fn number_between(value: &Value, key: Key, least: u32, most: u32) -> Result<u32, PlanFault>
    ensures gives { result ≡ number_within key least most (view value.now) }
    ensures low { IfOk result (λ n. least ≤ n) }
    ensures high { IfOk result (λ n. n ≤ most) }
    ensures of_key { IfErr result IsOfKey }
{
    let Some(n) = value.as_integer() else {
        return Err(PlanFault::WrongType(key));
    };
    if n < i64::from(least) || n > i64::from(most) {
        return Err(PlanFault::OutOfRange(key));
    }
    Ok(n as u32)
}

/// Returns the number that a missing key has. The error is `Missing` if the key has no such number.
fn number_for_missing(key: Key) -> Result<u32, PlanFault>
    ensures gives { result ≡ number_if_missing key (limits_of key).fallback }
    ensures within { IfOk result (IsNumberOf key) }
    ensures of_key { IfErr result IsOfKey }
{
    match key.limits().fallback {
        Fallback::Value(n) => Ok(n),
        _ => Err(PlanFault::Missing(key)),
    }
}

/// Reads the number at a key, or the number that the key has if it is missing.
#[tactic(auto, unfolding(crate::specs::Numbers::number_at_key))]
pub fn number(table: &Table, key: Key) -> Result<u32, PlanFault>
    ensures gives { result ≡ number_at_key (table_view table.now) key }
    ensures within { IfOk result (IsNumberOf key) }
    ensures of_key { IfErr result IsOfKey }
{
    let range = key.limits().range;
    match member(table, key) {
        Some(value) => number_between(value, key, range.least, range.most),
        None => number_for_missing(key),
    }
}

/// Reads the bit at a key: whether its number is 1.
#[tactic(auto, unfolding(crate::specs::Numbers::bit_in))]
pub fn bit(table: &Table, key: Key) -> Result<bool, PlanFault>
    ensures gives { result ≡ bit_in (table_view table.now) key }
    ensures of_key { IfErr result IsOfKey }
{
    Ok(number(table, key)? == 1)
}

/// Returns `None` if that is the value of the missing key, else the error `Missing`.
fn nothing_for_missing(key: Key) -> Result<Option<u32>, PlanFault>
    ensures gives { result ≡ optional_if_missing key (limits_of key).fallback }
    ensures nothing { IfOk result (λ o. o ≡ None) }
    ensures of_key { IfErr result IsOfKey }
{
    match key.limits().fallback {
        Fallback::Nothing => Ok(None),
        _ => Err(PlanFault::Missing(key)),
    }
}

/// Reads the number at a key, or returns `None` if the key is missing and may be.
#[tactic(auto, unfolding(crate::specs::Numbers::optional_in))]
pub fn optional_number(table: &Table, key: Key) -> Result<Option<u32>, PlanFault>
    ensures gives { result ≡ optional_in (table_view table.now) key }
    ensures within { IfOk result (λ o. IfSome o (IsNumberOf key)) }
    ensures of_key { IfErr result IsOfKey }
{
    let range = key.limits().range;
    match member(table, key) {
        Some(value) => Ok(Some(number_between(value, key, range.least, range.most)?)),
        None => nothing_for_missing(key),
    }
}

/// Reads the number at a key. `WIDTH` bits hold each number of the key's range.
pub fn field<const WIDTH: u32>(table: &Table, key: Key) -> Result<Number<WIDTH>, PlanFault>
    requires fits { (limits_of key).range.most < 2 ^ WIDTH }
    requires narrow { WIDTH ≤ 8 }
    ensures gives { result ≡ number_at_key (table_view table.now) key }
    ensures within { IfOk result (IsNumberOf key) }
    ensures of_key { IfErr result IsOfKey }
{
    Ok(Number::new(number(table, key)?))
}

/// Reads the system identity code at a key. Each number of the key's range is one.
pub fn system_code(table: &Table, key: Key) -> Result<SystemCode, PlanFault>
    requires { (limits_of key).range.most < 2 ^ 16 }
    ensures gives { result ≡ number_at_key (table_view table.now) key }
    ensures within { IfOk result (IsNumberOf key) }
    ensures of_key { IfErr result IsOfKey }
{
    Ok(SystemCode::new(number(table, key)?))
}

/// Reads the address at a key. Each number of the key's range is an address.
pub fn address(table: &Table, key: Key) -> Result<Address, PlanFault>
    requires { (limits_of key).range.most < 2 ^ 24 }
    ensures gives { result ≡ number_at_key (table_view table.now) key }
    ensures within { IfOk result (IsNumberOf key) }
    ensures of_key { IfErr result IsOfKey }
{
    Ok(Address::new(number(table, key)?))
}

/// Reads the address at a key. The error is `Repeated` if it equals the number at another key, whose faults are errors
/// too.
#[tactic(auto, unfolding(crate::specs::Numbers::number_unlike_in))]
pub fn address_unlike(table: &Table, key: Key, other: Key) -> Result<Address, PlanFault>
    requires { (limits_of key).range.most < 2 ^ 24 }
    ensures gives { result ≡ number_unlike_in (table_view table.now) key other }
    ensures within { IfOk result (IsNumberOf key) }
    ensures unlike { (m : ℕ) → Ok m ≡ number_at_key (table_view table.now) other
        → IfOk result (λ n. n ≢ m) }
    ensures of_key { IfErr result IsOfKey }
{
    let found = number(table, key)?;
    if found == number(table, other)? {
        return Err(PlanFault::Repeated(key));
    }
    Ok(Address::new(found))
}

/// Reads the number at a key that may not be missing, after that at another key, whose fault comes first. The error is
/// `OutOfRange` if it is below the other.
#[tactic(auto, unfolding(crate::specs::Numbers::number_from_in))]
pub fn number_from(table: &Table, key: Key, other: Key) -> Result<u32, PlanFault>
    ensures gives { result ≡ number_from_in (table_view table.now) key other }
    ensures low { (m : ℕ) → Ok m ≡ number_at_key (table_view table.now) other
        → IfOk result (λ n. m ≤ n) }
    ensures high { IfOk result (λ n. n ≤ (limits_of key).range.most) }
    ensures of_key { IfErr result IsOfKey }
{
    let least = number(table, other)?;
    match member(table, key) {
        Some(value) => number_between(value, key, least, key.limits().range.most),
        None => Err(PlanFault::Missing(key)),
    }
}
