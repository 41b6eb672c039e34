//! The tasks of the program, each over the text of its input.

use crate::carrier::CarrierReader;
use crate::fault::TaskFault;
use crate::kept::push;
use crate::pdu_in_words::pdu_of;
use crate::printable::Printable;
use crate::site::show_site;
use crate::words_of_bursts::{show_burst, show_word};
use dmr_bits::Word196;
use dmr_pdu::Pdu;
use std::alloc::Global;
use std::io;
use std::io::Write;

/// The most carriers of a script.
const MOST_READERS: u32 = 16;

/// Runs the task with this name over a text, and writes its output.
pub fn run<'a, W: Write>(
    alloc: Global,
    task: &str,
    text: &'a str,
    out: &mut W,
) -> Result<(), TaskFault<'a>> {
    match task {
        "carrier" | "site" | "word" | "pdu" => show_digits(alloc, task, text, out),
        "replay" => replay(alloc, text, out),
        "script" => script(alloc, text, out),
        "write" => show_pdu_of_words(text, out),
        _ => Err(TaskFault::NoSuchTask),
    }
}

/// Returns the octets of hexadecimal digits, with spaces anywhere. The error is `NotHex`, or that memory ran out.
pub fn octets_of<'a>(alloc: Global, text: &str) -> Result<Vec<u8>, TaskFault<'a>> {
    let mut digits = String::new(alloc);
    for part in text.split_whitespace() {
        digits.push_str(part)?;
    }
    match hex::decode(alloc, digits.as_str()) {
        Ok(octets) => Ok(octets),
        Err(hex::FromHexError::OutOfMemory) => Err(TaskFault::Memory),
        Err(_) => Err(TaskFault::NotHex),
    }
}

/// Shows the octets of hexadecimal digits, as the task says.
fn show_digits<'a, W: Write>(
    alloc: Global,
    task: &str,
    text: &str,
    out: &mut W,
) -> Result<(), TaskFault<'a>> {
    let octets = octets_of(alloc, text)?;
    let shown = show_octets(task, octets.as_slice(), out);
    drop(octets);
    shown
}

/// Shows octets: what a carrier sent or received, a word or a PDU, as the task says.
fn show_octets<'a, W: Write>(task: &str, octets: &[u8], out: &mut W) -> Result<(), TaskFault<'a>> {
    match task {
        "carrier" => show_carrier(octets, out),
        "site" => Ok(show_site(octets, out)?),
        "word" => show_one_word(octets, out),
        _ => show_ten(octets, out),
    }
}

/// Shows the octets that a carrier sent.
fn show_carrier<'a, W: Write>(octets: &[u8], out: &mut W) -> Result<(), TaskFault<'a>> {
    let mut reader = CarrierReader::new();
    reader.show(octets, out)?;
    Ok(reader.show_rest(out)?)
}

/// Shows the word of 25 octets.
fn show_one_word<'a, W: Write>(octets: &[u8], out: &mut W) -> Result<(), TaskFault<'a>> {
    if octets.len() != 25 {
        return Err(TaskFault::NotWord);
    }
    let mut whole = [0; 25];
    whole.copy_from_slice(octets);
    match Word196::from_octets(&whole) {
        Ok(word) => Ok(show_word(&word, out)?),
        Err(_) => Err(TaskFault::BadPad),
    }
}

/// Shows the PDU of ten octets.
fn show_ten<'a, W: Write>(octets: &[u8], out: &mut W) -> Result<(), TaskFault<'a>> {
    if octets.len() != 10 {
        return Err(TaskFault::NotTen);
    }
    let mut whole = [0; 10];
    whole.copy_from_slice(octets);
    let pdu = Pdu::from_octets(&whole);
    Ok(writeln!(out, "      {pdu}")?)
}

/// Shows the octets, check and burst of the PDU that the words of a text mean.
fn show_pdu_of_words<'a, W: Write>(text: &'a str, out: &mut W) -> Result<(), TaskFault<'a>> {
    let pdu = pdu_of(text)?;
    Ok(show_burst(&pdu, out)?)
}

/// Returns the first four words of a line. A missing word is an empty text.
fn words_of(line: &str) -> [&str; 4] {
    let mut words = line.split_whitespace();
    let mut next = [""; 4];
    for place in 0..4 {
        next[place] = words.next().unwrap_or("");
    }
    next
}

/// Shows a line as it is.
pub fn show_line<W: Write>(line: &str, out: &mut W) -> io::Result<()> {
    writeln!(out, "{}", Printable(line))
}

/// Shows the output of a replay, line by line.
fn replay<'a, W: Write>(alloc: Global, text: &str, out: &mut W) -> Result<(), TaskFault<'a>> {
    for line in text.lines() {
        match words_of(line) {
            ["carrier", number, digits, ""] if digits != "" => {
                replay_carrier(alloc, number, digits, out)?
            }
            _ => show_line(line, out)?,
        }
    }
    Ok(())
}

/// Shows the number of a carrier, and the frames of its octets. Without octets the digits are `-`.
fn replay_carrier<'a, W: Write>(
    alloc: Global,
    number: &str,
    digits: &str,
    out: &mut W,
) -> Result<(), TaskFault<'a>> {
    writeln!(out, "carrier {}", Printable(number))?;
    match digits {
        "-" => Ok(()),
        _ => show_digits(alloc, "site", digits, out),
    }
}

/// Shows the lines of a script as they are, and after each piece of a carrier's octets the frames that it completes.
fn script<'a, W: Write>(alloc: Global, text: &str, out: &mut W) -> Result<(), TaskFault<'a>> {
    let mut readers = Vec::new(alloc);
    let shown = script_lines(alloc, text, &mut readers, out);
    drop(readers);
    shown
}

/// Shows the lines of a script, with a reader for each carrier, which it adds to an empty list.
fn script_lines<'a, W: Write>(
    alloc: Global,
    text: &str,
    readers: &mut Vec<CarrierReader>,
    out: &mut W,
) -> Result<(), TaskFault<'a>> {
    for _ in 0..MOST_READERS {
        push(readers, CarrierReader::new())?;
    }
    for line in text.lines() {
        show_line(line, out)?;
        script_line(alloc, line, readers.as_mut_slice(), out)?;
    }
    Ok(())
}

/// Shows the frames that a line of a script completes.
fn script_line<'a, W: Write>(
    alloc: Global,
    line: &str,
    readers: &mut [CarrierReader],
    out: &mut W,
) -> Result<(), TaskFault<'a>> {
    let [kind, number, digits, more] = words_of(line);
    let Some(reader) = reader_of(readers, number) else {
        return Ok(());
    };
    match (kind, more) {
        ("open", "") if digits == "" => {
            *reader = CarrierReader::new();
            Ok(())
        }
        ("bytes", "") => piece(alloc, digits, reader, out),
        _ => Ok(()),
    }
}

/// Shows the frames that a piece of a carrier's octets completes.
fn piece<'a, W: Write>(
    alloc: Global,
    digits: &str,
    reader: &mut CarrierReader,
    out: &mut W,
) -> Result<(), TaskFault<'a>> {
    let octets = octets_of(alloc, digits)?;
    let shown = reader.show(octets.as_slice(), out);
    drop(octets);
    Ok(shown?)
}

/// Returns the reader of the carrier with this number.
fn reader_of<'r>(readers: &'r mut [CarrierReader], number: &str) -> Option<&'r mut CarrierReader> {
    let place = number.parse::<usize>().ok()?;
    readers.get_mut(place)
}
