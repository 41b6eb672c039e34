//! Writes decimal numbers.

ghost use Rattle.std.specs.Prelude.{◌≡◌, ◌+◌, ◌<◌, ◌≤◌, ◌++◌, decimal, length};
ghost use Rattle.arrayvec.specs.ArrayString.{array_string_len};

use crate::printing::LONGEST_TEXT;
use arrayvec::ArrayString;
use dmr_pdu::Address;
use itoa::Buffer;

/// Appends a number in decimal digits, at most 20. There must be room for them.
pub fn push_number(text: &mut ArrayString<LONGEST_TEXT>, number: u64)
    requires { array_string_len text.old + length (decimal number) ≤ LONGEST_TEXT }
    ensures { text.new.bytes ≡ text.old.bytes ++ decimal number }
{
    text.push_str(Buffer::new().format(number));
}

/// Appends a count. There must be room for 20 digits.
pub fn push_count(text: &mut ArrayString<LONGEST_TEXT>, count: usize)
    requires { array_string_len text.old + 20 ≤ LONGEST_TEXT }
    ensures bytes { text.new.bytes ≡ text.old.bytes ++ decimal count }
    ensures len { array_string_len text.new ≤ array_string_len text.old + 20 }
{
    push_number(text, count as u64);
}

/// Appends an address, which has at most eight digits. There must be room for eight.
pub fn push_address(text: &mut ArrayString<LONGEST_TEXT>, address: Address)
    requires { array_string_len text.old + 8 ≤ LONGEST_TEXT }
    ensures bytes { text.new.bytes ≡ text.old.bytes ++ decimal address }
    ensures len { array_string_len text.new ≤ array_string_len text.old + 8 }
{
    push_number(text, u64::from(address.get()));
}

/// Appends a number of at most two digits. There must be room for two.
pub fn push_small(text: &mut ArrayString<LONGEST_TEXT>, number: u32)
    requires room { array_string_len text.old + 2 ≤ LONGEST_TEXT }
    requires small { number < 100 }
    ensures bytes { text.new.bytes ≡ text.old.bytes ++ decimal number }
    ensures len { array_string_len text.new ≤ array_string_len text.old + 2 }
{
    push_number(text, u64::from(number));
}
