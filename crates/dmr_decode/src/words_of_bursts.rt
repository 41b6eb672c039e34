//! Shows what a word of 196 bits means, and which of its bits were flipped.

ghost use Rattle.std.specs.Prelude.{◌<◌};

use crate::printable::Digits;
use dmr_bits::Word196;
use dmr_bptc::decode;
use dmr_burst::{read, write};
use dmr_pdu::Pdu;
use std::io;
use std::io::Write;

/// The largest number of flipped bits that are mended.
const MENDED: u32 = 3;

/// Prints the meaning of a word: its PDU and the mended bits, or why it has none.
pub fn show_word<W: Write>(word: &Word196, out: &mut W) -> io::Result<()> {
    match read(word) {
        Some(pdu) => {
            writeln!(out, "      {pdu}")?;
            show_flips(word, &write(&pdu), out)
        }
        None => show_meaningless(word, out),
    }
}

/// Prints why a word means nothing.
fn show_meaningless<W: Write>(word: &Word196, out: &mut W) -> io::Result<()> {
    match decode(word) {
        Some(sealed) => writeln!(
            out,
            "      means nothing: the check of {} is wrong",
            Digits(&sealed)
        ),
        None => writeln!(
            out,
            "      means nothing: no codeword within {MENDED} flipped bits"
        ),
    }
}

/// Prints the places at which a word differs from the burst of its PDU.
fn show_flips<W: Write>(word: &Word196, clean: &Word196, out: &mut W) -> io::Result<()> {
    let apart = word.places_apart(clean);
    if apart > MENDED {
        writeln!(
            out,
            "      reserved cells are not 0: {apart} places differ from the burst that the site sends"
        )?;
    } else if apart > 0 {
        write!(out, "      mended:")?;
        let mut between = "";
        for place in 1..196usize {
            if word.bit(place) != clean.bit(place) {
                write!(out, "{between}")?;
                show_place(place, out)?;
                between = ",";
            }
        }
        writeln!(out)?;
    }
    if word.bit(0) {
        writeln!(out, "      place 0, which is outside the code, is 1")?;
    }
    Ok(())
}

/// Prints a place and its cell; nothing for place 0, which has no cell.
fn show_place<W: Write>(place: usize, out: &mut W) -> io::Result<()>
    requires { place < 196 }
{
    let index = 13 * place % 196;
    if index == 0 {
        return Ok(());
    }
    let (row, column) = ((index - 1) / 15, (index - 1) % 15);
    write!(out, " place {place} (row {row}, column {column})")
}

/// Prints the ten octets of a PDU, their check and its burst.
pub fn show_burst<W: Write>(pdu: &Pdu, out: &mut W) -> io::Result<()> {
    let octets = pdu.to_octets();
    let check = dmr_csbk::check_of(&octets);
    let burst = write(pdu).to_octets();
    let (digits, burst) = (Digits(&octets), Digits(&burst));
    writeln!(out, "octets {digits}\ncheck {check:04X}\nburst {burst}")
}
