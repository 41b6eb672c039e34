//! Prints the octets that an engine has written: a line for each carrier of the plan, and the operators' text.
//!
//! The digits are made piece by piece, in a buffer of fixed length. So printing takes no memory, and cannot run out of
//! it after the first octet.

ghost use Rattle.std.specs.Prelude.{◌≡◌, ◌≤◌, ◌*◌, [], length, slice_index_or, IfErr, OnOk};
ghost use Rattle.std.specs.Io.KnownBytes.{Appends};
ghost use Rattle.hex.specs.Hex.{encode_upper};
ghost use Rattle.dmr_replay.specs.Replay.{carrier_line, digits_or_dash, printed_text};

use dmr_link::Outputs;
use dmr_pdu::CarrierNo;
use dmr_plan::Plan;
use std::io;
use std::io::Write;

/// The most octets of which digits are made at once.
const PIECE: usize = 2048;

/// The digits of numbers below 16.
const DIGITS: &[u8; 16] = b"0123456789ABCDEF";

/// Writes octets in upper case hexadecimal digits into a buffer of twice their length.
fn fill_with_digits(octets: &[u8], digits: &mut [u8])
    requires { length digits.old ≡ 2 * length octets.now }
    ensures { digits.new ≡ encode_upper octets.now }
{
    'octets: for i in 0..octets.len() {
        let octet = octets[i];
        digits[2 * i] = DIGITS[(octet >> 4) as usize];
        digits[2 * i + 1] = DIGITS[(octet & 0x0f) as usize];
    }
}

/// Prints octets in upper case hexadecimal digits.
fn print_digits<W: Write>(octets: &[u8], out: &mut W) -> io::Result<()>
    ensures { OnOk result
        (Appends (W.contents out.old) (W.contents out.new) (encode_upper octets.now)) }
{
    let mut buffer = [0u8; 2 * PIECE];
    let mut at = 0;
    while at < octets.len() {
        let count = PIECE.min(octets.len() - at);
        let digits = &mut buffer[..2 * count];
        fill_with_digits(&octets[at..at + count], digits);
        out.write_all(digits)?;
        at += count;
    }
    Ok(())
}

/// Prints octets in upper case hexadecimal digits, or `-` if there are none.
fn print_digits_or_dash<W: Write>(octets: &[u8], out: &mut W) -> io::Result<()>
    ensures { OnOk result
        (Appends (W.contents out.old) (W.contents out.new) (digits_or_dash octets.now)) }
{
    match octets {
        [] => out.write_all(b"-"),
        _ => print_digits(octets, out),
    }
}

/// Prints the line of a carrier: its number, and the octets written for it.
fn print_carrier<W: Write>(number: u32, octets: &[u8], out: &mut W) -> io::Result<()>
    ensures { OnOk result
        (Appends (W.contents out.old) (W.contents out.new) (carrier_line number octets.now)) }
{
    write!(out, "carrier {number} ")?;
    print_digits_or_dash(octets, out)?;
    out.write_all(b"\n")
}

/// Prints a line for each carrier of the plan, by number, and then the operators' text, and flushes the writer. It
/// allocates nothing. On an error the writer may have received a first part.
pub fn print_outputs<W: Write>(plan: &Plan, outputs: &Outputs, out: &mut W) -> io::Result<()>
    ensures { OnOk result (Appends (W.contents out.old) (W.contents out.new) (printed_text plan.now
        (λ c. slice_index_or outputs.now.carriers c []) outputs.now.console)) }
{
    for number in 0..16u32 {
        let carrier = CarrierNo::new(number);
        if plan.carrier_with(carrier).is_some() {
            print_carrier(number, outputs.carrier(carrier), out)?;
        }
    }
    out.write_all(outputs.console())?;
    out.flush()
}
