//! Answers of links, and how they are written.

use super::steps::NAMED;
use crate::language::words::cut;
use dmr_core::{Command, Event};
use dmr_frames::Cause;
use dmr_link::{Deposit, Ended};
use dmr_pdu::OutOfMemory;

/// Returns the word for why a call of `serve` ended.
pub fn word_of_ended(ended: Ended) -> &'static str {
    match ended {
        Ended::Closed => "closed",
        Ended::ReadFault => "read fault",
        Ended::WriteFault => "write fault",
        Ended::BadFrame(cause) => word_of_cause(cause),
        Ended::TermOver => "term over",
        Ended::Idle => "idle",
        Ended::Paused => "paused",
        Ended::GateShut => "gate shut",
    }
}

/// Returns the word for the fault of a connection.
fn word_of_cause(cause: Cause) -> &'static str {
    match cause {
        Cause::UnknownType => "unknown type",
        Cause::BadLength => "bad length",
        Cause::BadSlot => "bad slot",
        Cause::BadPad => "bad pad",
        Cause::NoHello => "no hello",
        Cause::SecondHello => "second hello",
        Cause::BadVersion => "bad version",
        Cause::WrongCarrier => "wrong carrier",
    }
}

/// Returns the word for an event of carrier 0, of the clock or of an operator; `?` for an event of another carrier.
fn word_of_event(event: &Event) -> &'static str {
    let (carrier, word) = match event {
        Event::Up(carrier) => (carrier.get(), "up"),
        Event::Lost(carrier) => (carrier.get(), "lost"),
        Event::Heard(slot, _) => (slot.carrier.get(), "heard"),
        Event::Noise(slot) => (slot.carrier.get(), "noise"),
        Event::Active(slot) => (slot.carrier.get(), "active"),
        Event::Poll(carrier) => (carrier.get(), "poll"),
        Event::Tick => (0, "tick"),
        Event::Say(Command::Status) => (0, "status"),
        Event::Say(Command::Stay) => (0, "stay"),
        Event::Say(_) => (0, "say"),
    };
    if carrier == 0 { word } else { "?" }
}

/// Writes the events that a desk took, or `-` if there are none.
pub fn write_events(said: &mut String, calls: &[Deposit]) -> Result<(), OutOfMemory> {
    if calls.is_empty() {
        said.push_str(" -")?;
    }
    for call in calls {
        write!(said, " {}", word_of_event(&call.event))?;
    }
    Ok(())
}

/// Writes the octets that a port took: their count if the whole answer to the story's input begins with them, otherwise
/// the frames or lines that they form.
pub fn write_taken(said: &mut String, answer: &[u8], taken: &[u8]) -> Result<(), OutOfMemory> {
    if answer.starts_with(taken) {
        return write!(said, " {}", taken.len());
    }
    if taken.is_ascii() {
        return write_lines(said, taken);
    }
    write_frames(said, taken)
}

/// Writes octets as lines, with `|` instead of each LF.
fn write_lines(said: &mut String, octets: &[u8]) -> Result<(), OutOfMemory> {
    said.push_str(" ")?;
    for octet in octets {
        match octet {
            b'\n' => said.push_str("|")?,
            _ => said.push(char::from(*octet))?,
        }
    }
    Ok(())
}

/// Writes the names of the frames that octets form, and each octet after the last whole frame.
fn write_frames(said: &mut String, octets: &[u8]) -> Result<(), OutOfMemory> {
    let mut left = octets;
    for _ in 0..octets.len() {
        let Some(octet) = left.first() else {
            break;
        };
        match NAMED.iter().find(|named| left.starts_with(named.1)) {
            Some((name, frame)) => {
                write!(said, " {name}")?;
                left = left.get(frame.len()..).unwrap_or(&[]);
            }
            None => {
                write!(said, " {octet}")?;
                left = left.get(1..).unwrap_or(&[]);
            }
        }
    }
    Ok(())
}
