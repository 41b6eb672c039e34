//! Reads and writes the words that all listeners share: radios, slots, PDUs, asks, lines and calls.
//!
//! `C.S` is slot S of carrier C. A talkgroup has a `g` before its number. An ask is `R T OPTIONS ATTEMPT`, a line is `R
//! T` and a call is `C.S R T`, with R the calling radio and T its target.

use dmr_calls::{Ask, Call, Line};
use dmr_pdu::{Address, CarrierNo, OutOfMemory, Pdu, Slot, SlotNo};

/// Replaces the value of `place` and drops the old value.
pub fn replace_with<T: Drop>(place: &mut T, value: T) {
    *place = value;
}

/// Splits words into the first word and the words after it.
pub fn cut(words: &str) -> (&str, &str) {
    words.split_once(' ').unwrap_or((words, ""))
}

/// Returns the address with this number.
pub fn address_of(digits: &str) -> Option<Address> {
    Address::try_new(digits.parse::<u32>().ok()?)
}

/// Returns the carrier with this number.
pub fn carrier_of(digits: &str) -> Option<CarrierNo> {
    CarrierNo::try_new(digits.parse::<u32>().ok()?)
}

/// Returns the slot that is written `C.S`.
pub fn slot_of(place: &str) -> Option<Slot> {
    let (carrier, slot) = place.split_once('.')?;
    Some(Slot {
        carrier: carrier_of(carrier)?,
        slot: SlotNo::try_new(slot.parse::<u32>().ok()?)?,
    })
}

/// Returns the PDU that is written as twenty hexadecimal digits.
pub fn pdu_of(digits: &str) -> Option<Pdu> {
    let mut octets = [0; 10];
    let mut left = digits;
    for octet in &mut octets {
        *octet = u8::from_str_radix(left.get(0..2)?, 16).ok()?;
        left = left.get(2..)?;
    }
    if left.is_empty() {
        Some(Pdu::from_octets(&octets))
    } else {
        None
    }
}

/// Writes a decimal number.
pub fn write_number(said: &mut String, number: usize) -> Result<(), OutOfMemory> {
    write!(said, "{number}")
}

/// Writes a word and a slot.
pub fn write_slot(said: &mut String, word: &str, slot: &Slot) -> Result<(), OutOfMemory> {
    write!(said, "{word}{}.{}", slot.carrier, slot.slot)
}

/// Writes a word, a slot and a PDU that is sent or queued there.
pub fn write_sent(
    said: &mut String,
    word: &str,
    slot: &Slot,
    pdu: &Pdu,
) -> Result<(), OutOfMemory> {
    write_slot(said, word, slot)?;
    said.push_str(" ")?;
    write_pdu(said, pdu)
}

/// Writes a PDU by its octets.
pub fn write_pdu(said: &mut String, pdu: &Pdu) -> Result<(), OutOfMemory> {
    for octet in pdu.to_octets() {
        write!(said, "{octet:02X}")?;
    }
    Ok(())
}

/// Writes a word and an ask.
pub fn write_ask(said: &mut String, word: &str, ask: &Ask) -> Result<(), OutOfMemory> {
    let options = ask.options.get();
    write!(
        said,
        "{word}{} {} {options} {}",
        ask.source, ask.target, ask.attempt
    )
}

/// Returns the mark before a target's number: `g` for a talkgroup, nothing for a radio.
fn mark_of(group: bool) -> &'static str {
    if group { "g" } else { "" }
}

/// Writes a word and a line.
pub fn write_line(said: &mut String, word: &str, line: &Line) -> Result<(), OutOfMemory> {
    let mark = mark_of(line.group);
    write!(said, "{word}{} {mark}{}", line.source, line.target)
}

/// Writes a word and a call.
pub fn write_call(said: &mut String, word: &str, call: &Call) -> Result<(), OutOfMemory> {
    write_slot(said, word, &call.slot)?;
    let mark = mark_of(call.group);
    write!(said, " {} {mark}{}", call.source, call.target)
}

/// Writes `yes` if something holds, otherwise `no`.
pub fn write_truth(said: &mut String, holds: bool) -> Result<(), OutOfMemory> {
    said.push_str(if holds { "yes" } else { "no" })
}
