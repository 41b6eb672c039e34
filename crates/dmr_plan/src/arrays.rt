//! The arrays at keys: the types of their items, and how many there are.

ghost use Rattle.std.specs.Prelude.{◌≡◌, ◌≤◌, option_map, length, IfErr};
ghost use Rattle.std.specs.Bool.{OnTrue};
ghost use Rattle.toml.specs.Data.{get_member};
ghost use Rattle.toml.specs.View.{view, items_view, array_view, table_view};
ghost use Rattle.dmr_plan.specs.Keys.{limits_of};
ghost use Rattle.dmr_plan.specs.Steps.{IsOfKey, Returns};
ghost use Rattle.dmr_plan.specs.Arrays.{is_item, is_pair, two_of, all_items, array_of, array_in};
ghost use Rattle.dmr_plan.specs.Arrays.{count_of, is_count};

use crate::fault::PlanFault;
use crate::key::{Content, Key};
use crate::numbers::member;
use toml::value::Array;
use toml::{Table, Value};

impl Content {
    /// Returns whether a value may be an item.
    fn admits(self, value: &Value) -> bool
        ensures { result ≡ is_item self (view value.now) }
    {
        match self {
            Content::OneNumber => value.is_integer(),
            Content::Numbers => value.is_integer(),
            Content::Pairs => admits_pair(value),
            Content::Tables => value.is_table(),
        }
    }
}

/// Returns whether a value is an array of two whole numbers.
fn admits_pair(value: &Value) -> bool
    ensures { result ≡ is_pair (view value.now) }
{
    let Some(pair) = value.as_array() else {
        return false;
    };
    match pair_in(pair.as_slice()) {
        Some((first, last)) => first.is_integer() && last.is_integer(),
        None => false,
    }
}

/// Returns the two values, or `None` if there are more or fewer.
pub fn pair_in(values: &[Value]) -> Option<(&Value, &Value)>
    ensures { option_map (λ p. (view p.0.now, view p.1.now)) result
        ≡ two_of (items_view values.now) }
{
    if values.len() != 2 {
        return None;
    }
    Some((&values[0], &values[1]))
}

/// Returns whether each value may be an item.
fn admits_all(values: &[Value], content: Content) -> bool
    ensures { result ≡ all_items (is_item content) (items_view values.now) }
{
    for value in values {
        if !content.admits(value) {
            return false;
        }
    }
    true
}

/// Returns the array that a value is. The error is `WrongType` if the value is not an array, or an item is not of the
/// key's content.
pub fn array_from(value: &Value, key: Key) -> Result<&Array, PlanFault>
    ensures gives { Returns (λ a. array_view a.now) result (array_of key (view value.now)) }
    ensures of_key { IfErr result IsOfKey }
{
    match value.as_array() {
        Some(array) => {
            if admits_all(array.as_slice(), key.limits().content) {
                Ok(array)
            } else {
                Err(PlanFault::WrongType(key))
            }
        }
        None => Err(PlanFault::WrongType(key)),
    }
}

/// Returns the array at a required key. The error is `Missing` or `WrongType`.
#[tactic(auto, unfolding(crate::specs::Arrays::array_in))]
pub fn array_at(table: &Table, key: Key) -> Result<&Array, PlanFault>
    ensures gives { Returns (λ a. array_view a.now) result (array_in (table_view table.now) key) }
    ensures of_key { IfErr result IsOfKey }
{
    match member(table, key) {
        Some(value) => array_from(value, key),
        None => Err(PlanFault::Missing(key)),
    }
}

/// Returns the number of values.
fn count(values: &[Value]) -> usize
    ensures same { result ≡ count_of (items_view values.now) }
    ensures len { result ≡ length values.now }
{
    values.len()
}

/// Returns whether the number of values is within the key's count.
pub fn has_count(values: &[Value], key: Key) -> bool
    ensures gives { result ≡ is_count key (items_view values.now) }
    ensures few { OnTrue result ((limits_of key).count.fewest ≤ length values.now) }
    ensures many { OnTrue result (length values.now ≤ (limits_of key).count.most) }
{
    let bounds = key.limits().count;
    let items = count(values);
    bounds.fewest <= items && items <= bounds.most
}
