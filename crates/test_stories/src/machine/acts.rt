//! Answers of sites, and how they are written.
//!
//! An answer is the site's reply, if there is one, and its acts in order, with `; ` between them.
//!
//! Acts are `queue C.S PDU`, `send C.S PDU`, `fill C.S PDU`, `joined R`, `left R`, `asked R T OPTIONS ATTEMPT`, `over
//! R`, `lined R T`, `unlined R`, `began C.S R T` and `ended C.S`.
//!
//! A reply is `reply ok`, or `reply status CARRIERS RADIOS ASKS LINES CALLS`; the cases in `cases/` have the others.

use crate::language::words::{write_ask, write_call, write_line, write_sent, write_slot};
use dmr_core::{Act, Acts, Reply};
use dmr_pdu::{Address, OutOfMemory};

/// Writes a reply, if there is one, and acts.
pub fn write_acts(said: &mut String, acts: &Acts) -> Result<(), OutOfMemory> {
    if let Some(reply) = &acts.said {
        write_reply(said, reply)?;
    }
    for act in acts.list.as_slice() {
        if !said.is_empty() {
            said.push_str("; ")?;
        }
        write_act(said, act)?;
    }
    Ok(())
}

/// Writes an act.
fn write_act(said: &mut String, act: &Act) -> Result<(), OutOfMemory> {
    match act {
        Act::Queue(slot, pdu) => write_sent(said, "queue ", slot, pdu),
        Act::Send(slot, pdu) => write_sent(said, "send ", slot, pdu),
        Act::Fill(slot, pdu) => write_sent(said, "fill ", slot, pdu),
        Act::Joined(radio) => write_radio(said, "joined ", radio),
        Act::Left(radio) => write_radio(said, "left ", radio),
        Act::Asked(ask) => write_ask(said, "asked ", ask),
        Act::AskOver(source) => write_radio(said, "over ", source),
        Act::Lined(line) => write_line(said, "lined ", line),
        Act::Unlined(source) => write_radio(said, "unlined ", source),
        Act::Began(call) => write_call(said, "began ", call),
        Act::Ended(slot) => write_slot(said, "ended ", slot),
    }
}

/// Writes a word and a radio.
fn write_radio(said: &mut String, word: &str, radio: &Address) -> Result<(), OutOfMemory> {
    write!(said, "{word}{radio}")
}

/// Writes a reply: `reply ok`, the numbers of a status, or `reply` for any other.
fn write_reply(said: &mut String, reply: &Reply) -> Result<(), OutOfMemory> {
    match reply {
        Reply::Status {
            carriers,
            radios,
            asks,
            lines,
            calls,
            moving: _,
        } => write!(
            said,
            "reply status {carriers} {radios} {asks} {lines} {calls}"
        ),
        Reply::Done => said.push_str("reply ok"),
        _ => said.push_str("reply"),
    }
}
