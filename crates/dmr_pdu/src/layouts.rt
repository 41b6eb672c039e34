//! The table of layouts: the place of each field of each PDU in ten octets. The table is used in both directions, and
//! for the names of the fields in words.

ghost use Rattle.std.specs.Prelude.{◌≡◌, ◌+◌, ◌-◌, ◌*◌, ◌%◌, ◌<◌, ◌≤◌, ◌^◌, Some, IfSome};
ghost use Rattle.std.specs.Prelude.{if◌then◌else◌};
ghost use Rattle.dmr_bits.specs.Bits.{field_of, IsOctets};
ghost use Rattle.dmr_pdu.specs.declared.pdu.Pdu.{Pdu as APdu};
ghost use Rattle.dmr_pdu.specs.Layout.{IsLaidOut, SpellsPdu};
ghost use Rattle.dmr_pdu.specs.Rows.{HasNumber};
ghost use Rattle.dmr_pdu.specs.Reading.{read_as, bit_of, channel};

use crate::display::{FieldValue, show_all, show_octets};
use crate::numbers::{Address, Kind, Number, Reason, SystemCode};
use crate::pdu::Pdu;
use crate::slots::{Lpcn, SlotNo};
use dmr_bits::Octets10;
use std::fmt;

/// The place of a number in ten octets: its first bit, and its width in bits. Bit 0 is the most significant bit of
/// octet 0.
#[derive(Clone, Copy)]
struct FieldPlace {
    first: u32,
    width: u32,
}

/// The table of layouts (TS 102 361-4, clause 7.1.1). The layouts of C_ALOHA, P_CLEAR and C_MOVE and the fixed bits are
/// this project's profile. Each PDU has its first octet (LB 1, PF 0, the opcode), its name, and the rows after the first
/// two octets. A row is the first bit, the width, and the field. Bits without a field are 0, and so is octet 1, the
/// feature set.
///
/// `layouts!(direction, of)` hands the whole table to the macro `direction`, after `of` and a semicolon. A crate that
/// reads the table in a direction of its own writes such a macro.
#[macro_export]
macro_rules! layouts {
    ($direction:ident, $($of:tt)*) => {
        $direction! { $($of)*;
            Aloha = 0x99, "C_ALOHA" {
                16, 2;
                18, 1 => sync: bool;
                19, 3 => version: Number;
                22, 1 => offset: bool;
                23, 1 => active: bool;
                24, 5 => mask: Number;
                29, 2 => function: Number;
                31, 4 => nrand_wait: Number;
                35, 1 => register: bool;
                36, 4 => backoff: Number;
                40, 16 => system: SystemCode;
                56, 24 => address: Address;
            }
            Ahoy = 0x9C, "C_AHOY" {
                16, 7 => options: Number;
                23, 2;
                25, 1 => group: bool;
                26, 2;
                28, 4 => kind: Kind;
                32, 24 => called: Address;
                56, 24 => calling: Address;
            }
            Random = 0x9F, "C_RAND" {
                16, 7 => options: Number;
                23, 5 => flags: Number;
                28, 4 => kind: Kind;
                32, 24 => target: Address;
                56, 24 => source: Address;
            }
            Ackd = 0xA0, "C_ACKD" {
                16, 7 => info: Number;
                23, 8 => reason: Reason;
                31, 1 => spare: bool;
                32, 24 => target: Address;
                56, 24 => additional: Address;
            }
            Acku = 0xA1, "C_ACKU" {
                16, 7 => info: Number;
                23, 8 => reason: Reason;
                31, 1 => spare: bool;
                32, 24 => target: Address;
                56, 24 => additional: Address;
            }
            Clear = 0xAE, "P_CLEAR" {
                16, 12 => lpcn: Lpcn;
                28, 3;
                31, 1 => group: bool;
                32, 24 => target: Address;
                56, 24 => source: Address;
            }
            PvGrant = 0xB0, "PV_GRANT" {
                16, 12 => lpcn: Lpcn;
                28, 1 => slot: SlotNo;
                29, 3;
                32, 24 => target: Address;
                56, 24 => source: Address;
            }
            TvGrant = 0xB1, "TV_GRANT" {
                16, 12 => lpcn: Lpcn;
                28, 1 => slot: SlotNo;
                29, 1 => late: bool;
                30, 2;
                32, 24 => target: Address;
                56, 24 => source: Address;
            }
            Move = 0xB9, "C_MOVE" {
                16, 19;
                35, 1 => register: bool;
                36, 4 => backoff: Number;
                40, 4;
                44, 12 => lpcn: Lpcn;
                56, 24;
            }
        }
    };
}

/// True if the rows of each layout fill the 64 bits after octet 1, each bit once.
macro_rules! rows_fill {
    ($of:expr; $($name:ident = $opcode:literal, $called:literal { $($first:literal, $width:literal $(=> $field:ident: $type:ident)?;)* })*) => {
        $of $(&& 0 $(+ $width)* == 64 && 0 $(| ((1_u64 << $width) - 1) << (80 - $first - $width))* == u64::MAX)*
    };
}

const _: () = prove!(layouts!(rows_fill, true));

/// The number in a row: that of its field, or else 0.
macro_rules! number {
    () => {
        0
    };
    ($field:ident: bool) => {
        number_of($field)
    };
    ($field:ident: $type:ident) => {
        $field.get()
    };
}

/// The number of 64 bits that the rows after octet 1 make.
macro_rules! packed {
    ($($first:literal, $width:literal $(=> $field:ident: $type:ident)?;)*) => {
        0 $(| placed(number!($($field: $type)?), FieldPlace { first: $first, width: $width }))*
    };
}

/// The octets of a PDU, by the rows of its layout.
macro_rules! octets_of {
    ($pdu:expr; $($name:ident = $opcode:literal, $called:literal { $($first:literal, $width:literal $(=> $field:ident: $type:ident)?;)* })*) => {
        match *$pdu {
            $(Pdu::$name { $($($field,)?)* } => write_rows($opcode, packed!($($first, $width $(=> $field: $type)?;)*)),)*
            Pdu::Other(octets) => copy_of(&octets),
        }
    };
}

/// The field in a row.
macro_rules! field_at {
    (bool, $octets:expr, $first:literal, $width:literal) => {
        flag_at($octets, $first)
    };
    (Lpcn, $octets:expr, $first:literal, $width:literal) => {
        channel_at($octets, $first)?
    };
    ($type:ident, $octets:expr, $first:literal, $width:literal) => {
        $type::new(number_at($octets, FieldPlace { first: $first, width: $width }))
    };
}

/// The PDU with the fields of ten octets, by the rows of the layout with their opcode.
macro_rules! pdu_of {
    ($octets:expr; $($name:ident = $opcode:literal, $called:literal { $($first:literal, $width:literal $(=> $field:ident: $type:ident)?;)* })*) => {
        match opcode_of($octets) {
            $($opcode => {
                $($(let $field = field_at!($type, $octets, $first, $width);)?)*
                pdu_if_equal(Pdu::$name { $($($field,)?)* }, $octets, packed!($($first, $width $(=> $field: $type)?;)*))
            })*
            _ => None,
        }
    };
}

/// The name of a PDU: that of its layout, or `OTHER`.
macro_rules! name_of {
    ($pdu:expr; $($name:ident = $opcode:literal, $called:literal { $($rows:tt)* })*) => {
        match $pdu {
            $(Pdu::$name { .. } => $called,)*
            Pdu::Other(_) => "OTHER",
        }
    };
}

/// The value of a field, as it is written in words.
macro_rules! shown {
    ($field:ident: bool) => {
        FieldValue::Number(number_of(*$field))
    };
    ($field:ident: Kind) => {
        FieldValue::Kind(*$field)
    };
    ($field:ident: Reason) => {
        FieldValue::Reason(*$field)
    };
    ($field:ident: $type:ident) => {
        FieldValue::Number($field.get())
    };
}

/// Writes the fields of a PDU, by the rows of its layout.
macro_rules! shown_rows {
    (($pdu:expr, $f:expr); $($name:ident = $opcode:literal, $called:literal { $($first:literal, $width:literal $(=> $field:ident: $type:ident)?;)* })*) => {
        match $pdu {
            $(Pdu::$name { $($($field,)?)* } => show_all(&[$($((stringify!($field), shown!($field: $type)),)?)*], $f),)*
            Pdu::Other(octets) => show_octets(octets, $f),
        }
    };
}

/// Returns the name of a PDU's layout; `OTHER` for other octets.
pub(crate) fn layout_name(pdu: &Pdu) -> &'static str {
    layouts!(name_of, pdu)
}

/// Writes ` name=value` for each field of a PDU, in the order of its layout. For `Other` it writes the ten octets.
pub(crate) fn show_fields<W: fmt::Write>(pdu: &Pdu, f: &mut fmt::Formatter<W>) -> fmt::Result {
    layouts!(shown_rows, (pdu, f))
}

/// Returns the octets of a PDU: those of its layout, or those that `Other` carries.
#[tactic(auto, unfolding(crate::specs::Layout::SpellsPdu, crate::specs::Layout::layout, crate::specs::Layout::IsListed, crate::specs::Layout::HasChannel))]
pub(crate) fn write_pdu(pdu: &Pdu) -> Octets10
    ensures octets { IsOctets 10 result }
    ensures is { SpellsPdu pdu.now result }
{
    layouts!(octets_of, pdu)
}

/// Returns the PDU of the table that is laid out in ten octets. `None` if there is no such PDU: the first octet is not
/// that of a layout, a fixed bit is not as listed, or a channel number is 0 or 4095.
#[tactic(auto, unfolding(crate::specs::Reading::read_as, crate::specs::Layout::layout, crate::specs::Layout::IsListed, crate::specs::Layout::HasChannel))]
pub(crate) fn read_pdu(octets: &Octets10) -> Option<Pdu>
    ensures found { IfSome result (λ pdu. IsLaidOut pdu octets.now) }
    ensures only { (pdu : APdu) → IsLaidOut pdu octets.now → result ≡ Some pdu }
{
    layouts!(pdu_of, octets)
}

/// Returns the ten octets of an opcode and of the rows after octet 1, which is 0.
fn write_rows(opcode: u8, number: u64) -> Octets10
    ensures octets { IsOctets 10 result }
    ensures is { (pdu : APdu) → HasNumber pdu opcode number → SpellsPdu pdu result }
{
    let [a, b, c, d, e, f, g, h] = number.to_be_bytes();
    [opcode, 0, a, b, c, d, e, f, g, h]
}

/// Returns this PDU, whose fields were read in ten octets, if its own octets are these. `number` has its rows.
fn pdu_if_equal(pdu: Pdu, octets: &Octets10, number: u64) -> Option<Pdu>
    requires read { read_as (field_of octets.now 0 8) octets.now ≡ Some pdu }
    requires number { HasNumber pdu (field_of octets.now 0 8) number }
    ensures found { IfSome result (λ pdu. IsLaidOut pdu octets.now) }
    ensures only { (pdu : APdu) → IsLaidOut pdu octets.now → result ≡ Some pdu }
{
    if octets[1] == 0 && rows_of(octets) == number {
        Some(pdu)
    } else {
        None
    }
}

/// Returns the number of 64 bits that has this number at a place after octet 1, and otherwise zeroes.
fn placed(number: u32, place: FieldPlace) -> u64
    requires width { 1 ≤ place.width }
    requires after { 16 ≤ place.first }
    requires inside { place.first + place.width ≤ 80 }
    ensures { result ≡ number * 2 ^ (80 - place.first - place.width) % 2 ^ 64 }
{
    u64::from(number) << (80 - place.first - place.width)
}

/// Returns a bit as a number.
fn number_of(flag: bool) -> u32
    ensures value { result ≡ (if flag then 1 else 0) }
    ensures range { result < 2 }
{
    if flag { 1 } else { 0 }
}

/// Returns the first octet.
fn opcode_of(octets: &Octets10) -> u8
    ensures { result ≡ field_of octets.now 0 8 }
{
    octets[0]
}

/// Returns the octets after octet 1 as one number of 64 bits.
fn rows_of(octets: &Octets10) -> u64
    ensures { result ≡ field_of octets.now 16 64 }
{
    let mut rows = [0; 8];
    rows.copy_from_slice(&octets[2..]);
    u64::from_be_bytes(rows)
}

/// Returns the number at a place after octet 1.
fn number_at(octets: &Octets10, place: FieldPlace) -> u32
    requires width { (1 ≤ place.width) × (place.width ≤ 32) }
    requires after { 16 ≤ place.first }
    requires inside { place.first + place.width ≤ 80 }
    ensures value { result ≡ field_of octets.now place.first place.width }
    ensures fits { result < 2 ^ place.width }
{
    let number = rows_of(octets) >> (80 - place.first - place.width);
    (number & ((1 << place.width) - 1)) as u32
}

/// Returns the bit at a place after octet 1.
fn flag_at(octets: &Octets10, first: u32) -> bool
    requires after { 16 ≤ first }
    requires inside { first < 80 }
    ensures { result ≡ bit_of octets.now first }
{
    number_at(octets, FieldPlace { first, width: 1 }) == 1
}

/// Returns the channel whose 12 bits begin at a bit after octet 1, or `None` if its number is 0 or 4095.
fn channel_at(octets: &Octets10, first: u32) -> Option<Lpcn>
    requires after { 16 ≤ first }
    requires inside { first + 12 ≤ 80 }
    ensures { result ≡ channel (field_of octets.now first 12) }
{
    Lpcn::try_new(number_at(octets, FieldPlace { first, width: 12 }))
}

/// Returns a copy of the octets. Its contract says that there are ten, each below 256.
fn copy_of(octets: &Octets10) -> Octets10
    ensures octets { IsOctets 10 result }
    ensures same { result ≡ octets.now }
{
    let mut copy = [0; 10];
    copy.copy_from_slice(octets);
    copy
}
