//! The keys `address`, `radios` and `groups`.

ghost use Rattle.std.specs.Prelude.{◌≡◌, ◌≤◌, ◌↔◌, IsTrue, length, [], false, IfOk, IfErr};
ghost use Rattle.std.specs.List.{All};
ghost use Rattle.toml.specs.View.{view, items_view, table_view};
ghost use Rattle.dmr_plan.specs.Steps.{IsOfKey};
ghost use Rattle.dmr_plan.specs.Numbers.{number as number_of};
ghost use Rattle.dmr_plan.specs.Arrays.{in_turn};
ghost use Rattle.dmr_plan.specs.Lists.{has_repeat as repeats, address_of, address_of_items};
ghost use Rattle.dmr_plan.specs.Lists.{address_if_missing, range_of, is_within, radios_of};
ghost use Rattle.dmr_plan.specs.Lists.{radios_of_items, distinct, groups_of, groups_of_items};
ghost use Rattle.dmr_plan.specs.Kept.{IsAddress, IsRange, AreRadios, AreGroups};
ghost use Rattle.dmr_plan.specs.Keys.{IsNumberOf};

use crate::arrays::{array_at, array_from, has_count, pair_in};
use crate::fault::PlanFault;
use crate::key::{Fallback, Key, MOST_GROUPS, MOST_RANGES};
use crate::numbers::{member, number_between};
use dmr_pdu::{Address, Blank, BoundedList};
use toml::{Table, Value};

/// The radios from a first to a last address, both included.
#[derive(Clone, Copy, PartialEq, Eq, Debug)]
pub struct RadioRange {
    /// The least address.
    pub first: Address,
    /// The greatest address.
    pub last: Address,
}

impl RadioRange {
    /// Returns whether a radio is in the range.
    pub(crate) fn contains(&self, radio: Address) -> bool
        ensures gives { result ≡ is_within self.now radio }
        ensures within { IsTrue result ↔ ((self.now.first ≤ radio) × (radio ≤ self.now.last)) }
    {
        self.first.get() <= radio.get() && radio.get() <= self.last.get()
    }
}

impl Blank for RadioRange {
    ghost use Rattle.dmr_plan.specs.Lists.{no_range};

    ghost blank = { no_range };

    fn blank() -> RadioRange {
        RadioRange {
            first: Address::blank(),
            last: Address::blank(),
        }
    }
}

/// Reads one octet of an address.
fn octet(value: &Value) -> Result<u8, PlanFault>
    ensures gives { result ≡ number_of Key.Address (view value.now) }
    ensures within { IfOk result (IsNumberOf Key.Address) }
    ensures of_key { IfErr result IsOfKey }
{
    let range = Key::Address.limits().range;
    Ok(number_between(value, Key::Address, range.least, range.most)? as u8)
}

/// Reads the four octets of an address.
fn octets(values: &[Value]) -> Result<[u8; 4], PlanFault>
    requires { length values.now ≡ 4 }
    ensures gives { result ≡ in_turn (λ _ d. number_of Key.Address d) [] (items_view values.now) }
    ensures limits { IfOk result IsAddress }
    ensures of_key { IfErr result IsOfKey }
{
    let first = octet(&values[0])?;
    let second = octet(&values[1])?;
    let third = octet(&values[2])?;
    let fourth = octet(&values[3])?;
    Ok([first, second, third, fourth])
}

/// Reads the address from an array. The error is `WrongType` if the array does not have four items.
fn address_from(values: &[Value]) -> Result<[u8; 4], PlanFault>
    ensures gives { result ≡ address_of_items (items_view values.now) }
    ensures limits { IfOk result IsAddress }
    ensures of_key { IfErr result IsOfKey }
{
    if !has_count(values, Key::Address) {
        return Err(PlanFault::WrongType(Key::Address));
    }
    octets(values)
}

/// Returns the address to listen at if the key is missing.
fn address_for_missing() -> Result<[u8; 4], PlanFault>
    ensures gives { result ≡ address_if_missing }
    ensures limits { IfOk result IsAddress }
    ensures of_key { IfErr result IsOfKey }
{
    match Key::Address.limits().fallback {
        Fallback::Loopback => Ok([127, 0, 0, 1]),
        _ => Err(PlanFault::Missing(Key::Address)),
    }
}

/// Reads the IPv4 address to listen at.
#[tactic(auto, unfolding(crate::specs::Lists::address_of))]
pub fn address_in(table: &Table) -> Result<[u8; 4], PlanFault>
    ensures gives { result ≡ address_of (table_view table.now) }
    ensures limits { IfOk result IsAddress }
    ensures of_key { IfErr result IsOfKey }
{
    match member(table, Key::Address) {
        Some(value) => {
            let array = array_from(value, Key::Address)?;
            address_from(array.as_slice())
        }
        None => address_for_missing(),
    }
}

/// Reads a range from a pair of numbers. The error is `OutOfRange` if the first is above the last.
fn range_from(value: &Value) -> Result<RadioRange, PlanFault>
    ensures gives { result ≡ range_of (view value.now) }
    ensures limits { IfOk result IsRange }
    ensures of_key { IfErr result IsOfKey }
{
    let range = Key::Radios.limits().range;
    let Some(pair) = value.as_array() else {
        return Err(PlanFault::WrongType(Key::Radios));
    };
    let Some((first, last)) = pair_in(pair.as_slice()) else {
        return Err(PlanFault::WrongType(Key::Radios));
    };
    let first = number_between(first, Key::Radios, range.least, range.most)?;
    let last = number_between(last, Key::Radios, range.least, range.most)?;
    if last < first {
        return Err(PlanFault::OutOfRange(Key::Radios));
    }
    Ok(RadioRange {
        first: Address::new(first),
        last: Address::new(last),
    })
}

/// Reads the ranges in order.
fn radio_list(values: &[Value]) -> Result<BoundedList<RadioRange, MOST_RANGES>, PlanFault>
    requires { length values.now ≤ MOST_RANGES }
    ensures gives { result ≡ in_turn (λ _ d. range_of d) [] (items_view values.now) }
    ensures count { IfOk result (λ rs. length rs ≡ length values.now) }
    ensures each { IfOk result (All IsRange) }
    ensures of_key { IfErr result IsOfKey }
{
    let mut ranges = BoundedList::new();
    for value in values {
        let range = range_from(value)?;
        ranges.push(range);
    }
    Ok(ranges)
}

/// Reads the ranges from an array. The error is `OutOfRange` if there are fewer or more than a site file may have.
fn radios_from(values: &[Value]) -> Result<BoundedList<RadioRange, MOST_RANGES>, PlanFault>
    ensures gives { result ≡ radios_of_items (items_view values.now) }
    ensures limits { IfOk result AreRadios }
    ensures of_key { IfErr result IsOfKey }
{
    if !has_count(values, Key::Radios) {
        return Err(PlanFault::OutOfRange(Key::Radios));
    }
    radio_list(values)
}

/// Reads the ranges of the radios that may register.
#[tactic(auto, unfolding(crate::specs::Lists::radios_of))]
pub fn radios_in(table: &Table) -> Result<BoundedList<RadioRange, MOST_RANGES>, PlanFault>
    ensures gives { result ≡ radios_of (table_view table.now) }
    ensures limits { IfOk result AreRadios }
    ensures of_key { IfErr result IsOfKey }
{
    let array = array_at(table, Key::Radios)?;
    radios_from(array.as_slice())
}

/// Returns whether an address is there twice.
fn has_repeat(addresses: &[Address]) -> bool
    ensures { result ≡ repeats addresses.now }
{
    match addresses {
        [] => false,
        [first, rest @ ..] => rest.contains(first) || has_repeat(rest),
    }
}

/// Reads the talkgroups in order.
fn group_list(values: &[Value]) -> Result<BoundedList<Address, MOST_GROUPS>, PlanFault>
    requires { length values.now ≤ MOST_GROUPS }
    ensures gives { result ≡ in_turn (λ _ d. number_of Key.Groups d) [] (items_view values.now) }
    ensures count { IfOk result (λ gs. length gs ≡ length values.now) }
    ensures each { IfOk result (All (IsNumberOf Key.Groups)) }
    ensures of_key { IfErr result IsOfKey }
{
    let range = Key::Groups.limits().range;
    let mut groups = BoundedList::new();
    for value in values {
        let number = number_between(value, Key::Groups, range.least, range.most)?;
        groups.push(Address::new(number));
    }
    Ok(groups)
}

/// Returns the talkgroups, or the error `Repeated` if one is there twice.
fn distinct_groups(
    groups: BoundedList<Address, MOST_GROUPS>,
) -> Result<BoundedList<Address, MOST_GROUPS>, PlanFault>
    ensures gives { result ≡ distinct Key.Groups groups }
    ensures same { IfOk result (λ gs. gs ≡ groups) }
    ensures once { IfOk result (λ gs. repeats gs ≡ false) }
    ensures of_key { IfErr result IsOfKey }
{
    if has_repeat(groups.as_slice()) {
        return Err(PlanFault::Repeated(Key::Groups));
    }
    Ok(groups)
}

/// Reads the talkgroups from an array. The error is `OutOfRange` if there are more than a site may have.
fn groups_from(values: &[Value]) -> Result<BoundedList<Address, MOST_GROUPS>, PlanFault>
    ensures gives { result ≡ groups_of_items (items_view values.now) }
    ensures limits { IfOk result AreGroups }
    ensures of_key { IfErr result IsOfKey }
{
    if !has_count(values, Key::Groups) {
        return Err(PlanFault::OutOfRange(Key::Groups));
    }
    let groups = group_list(values)?;
    distinct_groups(groups)
}

/// Reads the talkgroups.
#[tactic(auto, unfolding(crate::specs::Lists::groups_of))]
pub fn groups_in(table: &Table) -> Result<BoundedList<Address, MOST_GROUPS>, PlanFault>
    ensures gives { result ≡ groups_of (table_view table.now) }
    ensures limits { IfOk result AreGroups }
    ensures of_key { IfErr result IsOfKey }
{
    let array = array_at(table, Key::Groups)?;
    groups_from(array.as_slice())
}
