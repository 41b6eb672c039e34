//! The key `carrier`.

ghost use Rattle.std.specs.Prelude.{◌≡◌, ◌≤◌, ℕ, length, [], IfOk, IfErr, IfSome};
ghost use Rattle.std.specs.List.{All, Contains};
ghost use Rattle.toml.specs.View.{view, items_view, table_view};
ghost use Rattle.dmr_plan.specs.Steps.{IsOfKey};
ghost use Rattle.dmr_plan.specs.Numbers.{number_at_key};
ghost use Rattle.dmr_plan.specs.Arrays.{in_turn};
ghost use Rattle.dmr_plan.specs.Carriers.{row_with, has_number_in, has_lpcn_in, has_port_in};
ghost use Rattle.dmr_plan.specs.Carriers.{carrier_of_table, carrier_of_item, carriers_of};
ghost use Rattle.dmr_plan.specs.Carriers.{carriers_of_items};
ghost use Rattle.dmr_plan.specs.Kept.{IsCarrierRow, IsNewRow, AreApart, AreCarriers};

use crate::arrays::{array_at, has_count};
use crate::fault::PlanFault;
use crate::key::{Key, MOST_CARRIERS};
use crate::numbers::number as number_at;
use dmr_pdu::{Blank, BoundedList, CarrierNo, Lpcn};
use toml::{Table, Value};

/// One carrier of the site.
#[derive(Clone, Copy, PartialEq, Eq, Debug)]
pub struct CarrierRow {
    /// The carrier's number. No other carrier has it.
    pub number: CarrierNo,
    /// The logical physical channel number of both of its slots. No other carrier has it.
    pub lpcn: Lpcn,
    /// The TCP port of its connection, 1 to 65535. Neither another carrier nor the console has it.
    pub port: u16,
}

impl Blank for CarrierRow {
    ghost use Rattle.dmr_plan.specs.Carriers.{no_row};

    ghost blank = { no_row };

    fn blank() -> CarrierRow {
        CarrierRow {
            number: CarrierNo::blank(),
            lpcn: Lpcn::blank(),
            port: 0,
        }
    }
}

/// Returns whether a row has this number.
pub fn has_number(rows: &[CarrierRow], number: CarrierNo) -> bool
    ensures { result ≡ has_number_in rows.now number }
{
    rows.iter().any(|row| row.number == number)
}

/// Returns whether a row has this channel.
fn has_lpcn(rows: &[CarrierRow], lpcn: Lpcn) -> bool
    ensures { result ≡ has_lpcn_in rows.now lpcn }
{
    rows.iter().any(|row| row.lpcn == lpcn)
}

/// Returns whether a row has this port.
fn has_port(rows: &[CarrierRow], port: u16) -> bool
    ensures { result ≡ has_port_in rows.now port }
{
    rows.iter().any(|row| row.port == port)
}

/// Returns the carrier with this number, if there is one.
pub fn row_numbered(rows: &[CarrierRow], number: CarrierNo) -> Option<CarrierRow>
    ensures gives { result ≡ row_with rows.now number }
    ensures row { IfSome result (λ row. (row.number ≡ number) × Contains rows.now row) }
{
    rows.iter().copied().find(|row| row.number == number)
}

/// Reads a carrier from its table. The error is `Repeated` if an earlier carrier has its number, channel or port, or
/// its port is the console's.
#[tactic(auto, unfolding(crate::specs::Carriers::carrier_of_table))]
fn row_in(console_port: u16, earlier: &[CarrierRow], table: &Table) -> Result<CarrierRow, PlanFault>
    ensures gives { result ≡ carrier_of_table console_port earlier.now (table_view table.now) }
    ensures apart { IfOk result (IsNewRow console_port earlier.now) }
    ensures of_key { IfErr result IsOfKey }
{
    let number = CarrierNo::new(number_at(table, Key::Number)?);
    if has_number(earlier, number) {
        return Err(PlanFault::Repeated(Key::Number));
    }
    let lpcn = Lpcn::new(number_at(table, Key::Lpcn)?);
    if has_lpcn(earlier, lpcn) {
        return Err(PlanFault::Repeated(Key::Lpcn));
    }
    let port = number_at(table, Key::Port)? as u16;
    if port == console_port {
        return Err(PlanFault::Repeated(Key::Port));
    }
    if has_port(earlier, port) {
        return Err(PlanFault::Repeated(Key::Port));
    }
    Ok(CarrierRow { number, lpcn, port })
}

/// Reads a carrier from its value. The error is `WrongType` if the value is not a table, else as in `row_in`.
fn row_from(
    console_port: u16,
    earlier: &[CarrierRow],
    value: &Value,
) -> Result<CarrierRow, PlanFault>
    ensures gives { result ≡ carrier_of_item console_port earlier.now (view value.now) }
    ensures apart { IfOk result (IsNewRow console_port earlier.now) }
    ensures of_key { IfErr result IsOfKey }
{
    match value.as_table() {
        Some(table) => row_in(console_port, earlier, table),
        None => Err(PlanFault::WrongType(Key::Carrier)),
    }
}

/// Reads the carriers in order, each checked against those before it.
fn row_list(
    console_port: u16,
    values: &[Value],
) -> Result<BoundedList<CarrierRow, MOST_CARRIERS>, PlanFault>
    requires { length values.now ≤ MOST_CARRIERS }
    ensures gives { result ≡ in_turn (carrier_of_item console_port) [] (items_view values.now) }
    ensures count { IfOk result (λ rows. length rows ≡ length values.now) }
    ensures each { IfOk result (All IsCarrierRow) }
    ensures apart { IfOk result (AreApart console_port) }
    ensures of_key { IfErr result IsOfKey }
{
    let mut rows = BoundedList::new();
    for value in values {
        let row = row_from(console_port, rows.as_slice(), value)?;
        rows.push(row);
    }
    Ok(rows)
}

/// Reads the carriers from an array. The error is `OutOfRange` if there are fewer or more than a site may have, else as
/// in `row_list`.
fn carriers_from(
    console_port: u16,
    values: &[Value],
) -> Result<BoundedList<CarrierRow, MOST_CARRIERS>, PlanFault>
    ensures gives { result ≡ carriers_of_items console_port (items_view values.now) }
    ensures limits { IfOk result (AreCarriers console_port) }
    ensures of_key { IfErr result IsOfKey }
{
    if !has_count(values, Key::Carrier) {
        return Err(PlanFault::OutOfRange(Key::Carrier));
    }
    row_list(console_port, values)
}

/// Reads the carriers, in the file's order. None of them has the console's port.
#[tactic(auto, unfolding(crate::specs::Carriers::carriers_of))]
pub fn carriers_in(table: &Table) -> Result<BoundedList<CarrierRow, MOST_CARRIERS>, PlanFault>
    ensures gives { result ≡ carriers_of (table_view table.now) }
    ensures limits { (port : ℕ) → Ok port ≡ number_at_key (table_view table.now) Key.ConsolePort
        → IfOk result (AreCarriers port) }
    ensures of_key { IfErr result IsOfKey }
{
    let console_port = number_at(table, Key::ConsolePort)? as u16;
    let array = array_at(table, Key::Carrier)?;
    carriers_from(console_port, array.as_slice())
}
