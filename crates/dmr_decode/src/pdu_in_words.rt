//! A PDU in words, as it is printed: its name, and `name=value` for each field. A missing field is 0, but `lpcn` must
//! be there. `OTHER` has ten octets in digits.

use crate::fault::TaskFault;
use dmr_pdu::{Kind, Lpcn, Pdu, Reason, layouts};

/// The lines of [`FIELDS`], by the rows of the layouts.
macro_rules! lines_of {
    (; $($variant:ident = $opcode:literal, $called:literal { $($first:literal, $width:literal $(=> $field:ident: $type:ident)?;)* })*) => {
        concat!($($($($called, " ", $opcode, " ", stringify!($field), " ", $first, " ", $width, " ", stringify!($type), "\n",)?)*)*)
    };
}

/// The fields of all PDUs, each on a line. The line has the name of the PDU, the first octet of that PDU, and the
/// field's name, first bit, width in bits and type.
const FIELDS: &str = layouts!(lines_of,);

/// Returns the word of a line at a place, or an empty text if the line has fewer words.
fn word_at(line: &str, place: usize) -> &str {
    line.split(' ').nth(place).unwrap_or("")
}

/// Returns the number at a place of a line, or 0 if there is none.
fn number_at(line: &str, place: usize) -> u32 {
    word_at(line, place).parse::<u32>().unwrap_or(0)
}

/// Returns whether a line has a field of the PDU with this name.
fn is_of(line: &str, pdu: &str) -> bool {
    word_at(line, 0) == pdu
}

/// Returns the PDU that the words of a text mean. The error is why they mean none.
pub fn pdu_of<'a>(text: &'a str) -> Result<Pdu, TaskFault<'a>> {
    let Some(name) = text.split_whitespace().next() else {
        return Err(TaskFault::NoName);
    };
    if name == "OTHER" {
        return pdu_of_digits(text);
    }
    let Some(opcode) = opcode_of(name) else {
        return Err(TaskFault::NoSuchPdu(name));
    };
    for word in text.split_whitespace().skip(1) {
        if !has_field(name, word) {
            return Err(TaskFault::NoSuchField(word));
        }
    }
    pdu_of_fields(name, opcode, text)
}

/// Returns the first octet of the PDU with this name.
fn opcode_of(name: &str) -> Option<u8> {
    for line in FIELDS.lines() {
        if is_of(line, name) {
            return u8::try_from(number_at(line, 1)).ok();
        }
    }
    None
}

/// Returns whether a word is `name=value` for a field of a PDU.
fn has_field(pdu: &str, word: &str) -> bool {
    let Some((name, _)) = word.split_once('=') else {
        return false;
    };
    for line in FIELDS.lines() {
        if is_of(line, pdu) && word_at(line, 2) == name {
            return true;
        }
    }
    false
}

/// Returns the PDU with a name and a first octet, and with the values that are in a text.
fn pdu_of_fields<'a>(name: &str, opcode: u8, text: &str) -> Result<Pdu, TaskFault<'a>> {
    let mut number = 0;
    for line in FIELDS.lines() {
        if is_of(line, name) {
            let Some(value) = value_in(line, text) else {
                return Err(TaskFault::BadValue(word_at(line, 2)));
            };
            let after = 80u32
                .saturating_sub(number_at(line, 3))
                .saturating_sub(number_at(line, 4));
            number |= u64::from(value) << (after % 64);
        }
    }
    let [a, b, c, d, e, f, g, h] = number.to_be_bytes();
    Ok(Pdu::from_octets(&[opcode, 0, a, b, c, d, e, f, g, h]))
}

/// Returns the value of a line's field in a text, or `None` if it is bad.
fn value_in(line: &str, text: &str) -> Option<u32> {
    let given = text_in(word_at(line, 2), text);
    let number = number_in(given, 1 << (number_at(line, 4) % 32));
    match word_at(line, 5) {
        "Kind" => kind_called(given).or(number),
        "Reason" => reason_called(given).or(number),
        "Lpcn" => channel_of(number),
        _ => number,
    }
}

/// Returns a number that is a channel's.
fn channel_of(number: Option<u32>) -> Option<u32> {
    Some(Lpcn::try_new(number?)?.get())
}

/// Returns the text of a field, or `0` if it is missing.
fn text_in<'a>(name: &str, text: &'a str) -> &'a str {
    for word in text.split_whitespace() {
        if let Some((given, value)) = word.split_once('=') {
            if given == name {
                return value;
            }
        }
    }
    "0"
}

/// Returns the number that a text is, if it is below a bound.
fn number_in(text: &str, bound: u32) -> Option<u32> {
    match text.parse::<u32>() {
        Ok(number) if number < bound => Some(number),
        _ => None,
    }
}

/// Returns the number of the service kind with a name.
fn kind_called(name: &str) -> Option<u32> {
    for number in 0..16u32 {
        if Kind::new(number).name() == Some(name) {
            return Some(number);
        }
    }
    None
}

/// Returns the number of the reason with a name.
fn reason_called(name: &str) -> Option<u32> {
    for number in 0..256u32 {
        if Reason::new(number).name() == Some(name) {
            return Some(number);
        }
    }
    None
}

/// Returns the PDU of any ten octets, which are in digits after the name.
fn pdu_of_digits<'a>(text: &str) -> Result<Pdu, TaskFault<'a>> {
    let mut octets = [0; 10];
    let mut words = text.split_whitespace().skip(1);
    match (words.next(), words.next()) {
        (Some(digits), None) if hex::decode_to_slice(digits, &mut octets).is_ok() => {
            Ok(Pdu::from_octets(&octets))
        }
        _ => Err(TaskFault::BadValue("OTHER")),
    }
}
