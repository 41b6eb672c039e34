//! Writes the rows of lists, each with its LF.

ghost use Rattle.std.specs.Prelude.{◌≡◌, ◌+◌, ◌*◌, ◌<◌, ◌≤◌, ◌++◌, length};
ghost use Rattle.std.specs.List.{enumerate_from, flat_map};
ghost use Rattle.arrayvec.specs.ArrayString.{array_string_len};
ghost use Rattle.dmr_console.specs.Texts.{call_row, line_row, parties_text, radio_row, slot_row};
ghost use Rattle.dmr_console.specs.Texts.{slot_text, state_text};

use crate::number_text::{push_address, push_small};
use crate::printing::LONGEST_TEXT;
use arrayvec::ArrayString;
use dmr_calls::{Call, Line};
use dmr_core::{LineNo, SlotState, State};
use dmr_pdu::{Address, Slot};

/// Appends `radio R` for each radio. There must be room for 15 octets each, as there is for 16 of them.
pub fn push_radios(text: &mut ArrayString<LONGEST_TEXT>, radios: &[Address])
    requires room { array_string_len text.old + 15 * length radios.now ≤ LONGEST_TEXT }
    ensures bytes { text.new.bytes ≡ text.old.bytes ++ flat_map radio_row radios.now }
    ensures len { array_string_len text.new ≤ array_string_len text.old + 15 * length radios.now }
{
    for radio in radios {
        push_radio(text, *radio);
    }
}

/// Appends `radio R`.
fn push_radio(text: &mut ArrayString<LONGEST_TEXT>, radio: Address)
    requires { array_string_len text.old + 15 ≤ LONGEST_TEXT }
    ensures bytes { text.new.bytes ≡ text.old.bytes ++ radio_row radio }
    ensures len { array_string_len text.new ≤ array_string_len text.old + 15 }
{
    text.push_str("radio ");
    push_address(text, radio);
    text.push_str("\n");
}

/// Appends a row for each call. There must be room for 40 octets each, as there is for two of them.
pub fn push_calls(text: &mut ArrayString<LONGEST_TEXT>, calls: &[Call])
    requires { array_string_len text.old + 40 * length calls.now ≤ LONGEST_TEXT }
    ensures bytes { text.new.bytes ≡ text.old.bytes ++ flat_map call_row calls.now }
    ensures len { array_string_len text.new ≤ array_string_len text.old + 40 * length calls.now }
{
    for call in calls {
        push_call(text, call);
    }
}

/// Appends `call C S group G from R`, or `call C S radio T from R`.
fn push_call(text: &mut ArrayString<LONGEST_TEXT>, call: &Call)
    requires { array_string_len text.old + 40 ≤ LONGEST_TEXT }
    ensures bytes { text.new.bytes ≡ text.old.bytes ++ call_row call.now }
    ensures len { array_string_len text.new ≤ array_string_len text.old + 40 }
{
    text.push_str("call ");
    push_slot(text, call.slot);
    text.push_str(" ");
    push_parties(text, call.group, call.target, call.source);
    text.push_str("\n");
}

/// Appends a row for each line, the first at the place `from`. There must be room for 37 octets each, as there is for
/// 16 of them.
pub fn push_lines(text: &mut ArrayString<LONGEST_TEXT>, from: LineNo, lines: &[Line])
    requires room { array_string_len text.old + 37 * length lines.now ≤ LONGEST_TEXT }
    ensures bytes { text.new.bytes
        ≡ text.old.bytes ++ flat_map line_row (enumerate_from from lines.now) }
    ensures len { array_string_len text.new ≤ array_string_len text.old + 37 * length lines.now }
{
    let mut place = u32::from(from.get());
    for line in lines {
        push_line(text, place, line);
        place += 1;
    }
}

/// Appends `line K group G from R`, or `line K radio T from R`.
fn push_line(text: &mut ArrayString<LONGEST_TEXT>, place: u32, line: &Line)
    requires room { array_string_len text.old + 37 ≤ LONGEST_TEXT }
    requires small { place < 100 }
    ensures bytes { text.new.bytes ≡ text.old.bytes ++ line_row (place, line.now) }
    ensures len { array_string_len text.new ≤ array_string_len text.old + 37 }
{
    text.push_str("line ");
    push_small(text, place);
    text.push_str(" ");
    push_parties(text, line.group, line.target, line.source);
    text.push_str("\n");
}

/// Appends a row for each slot. There must be room for 19 octets each, as there is for 32 of them.
pub fn push_slots(text: &mut ArrayString<LONGEST_TEXT>, slots: &[SlotState])
    requires { array_string_len text.old + 19 * length slots.now ≤ LONGEST_TEXT }
    ensures bytes { text.new.bytes ≡ text.old.bytes ++ flat_map slot_row slots.now }
    ensures len { array_string_len text.new ≤ array_string_len text.old + 19 * length slots.now }
{
    for slot in slots {
        push_slot_state(text, slot);
    }
}

/// Appends `slot C S STATE`.
fn push_slot_state(text: &mut ArrayString<LONGEST_TEXT>, slot: &SlotState)
    requires { array_string_len text.old + 19 ≤ LONGEST_TEXT }
    ensures bytes { text.new.bytes ≡ text.old.bytes ++ slot_row slot.now }
    ensures len { array_string_len text.new ≤ array_string_len text.old + 19 }
{
    text.push_str("slot ");
    push_slot(text, slot.slot);
    text.push_str(" ");
    push_state(text, slot.state);
    text.push_str("\n");
}

/// Appends a slot's state.
fn push_state(text: &mut ArrayString<LONGEST_TEXT>, state: State)
    requires { array_string_len text.old + 7 ≤ LONGEST_TEXT }
    ensures bytes { text.new.bytes ≡ text.old.bytes ++ state_text state }
    ensures len { array_string_len text.new ≤ array_string_len text.old + 7 }
{
    match state {
        State::Control => text.push_str("control"),
        State::Down => text.push_str("down"),
        State::Call => text.push_str("call"),
        State::Free => text.push_str("free"),
        State::Waiting => text.push_str("waiting"),
    }
}

/// Appends `C S`.
fn push_slot(text: &mut ArrayString<LONGEST_TEXT>, slot: Slot)
    requires { array_string_len text.old + 5 ≤ LONGEST_TEXT }
    ensures bytes { text.new.bytes ≡ text.old.bytes ++ slot_text slot }
    ensures len { array_string_len text.new ≤ array_string_len text.old + 5 }
{
    push_small(text, slot.carrier.get());
    text.push_str(" ");
    push_small(text, slot.slot.get());
}

/// Appends `group G from R`, or `radio T from R`.
fn push_parties(text: &mut ArrayString<LONGEST_TEXT>, group: bool, target: Address, source: Address)
    requires { array_string_len text.old + 28 ≤ LONGEST_TEXT }
    ensures bytes { text.new.bytes ≡ text.old.bytes ++ parties_text group target source }
    ensures len { array_string_len text.new ≤ array_string_len text.old + 28 }
{
    text.push_str(if group { "group " } else { "radio " });
    push_address(text, target);
    text.push_str(" from ");
    push_address(text, source);
}
