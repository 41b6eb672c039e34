//! Inputs of sites.
//!
//! Events are `up C`, `lost C`, `poll C`, `tick`, `active C.S`, `noise C.S` and `heard C.S PDU`, and `say` with an
//! operator's command: `status`, `drop R`, `end C.S`, `move L` or `stay`.

use crate::language::words::{address_of, carrier_of, cut, pdu_of, slot_of};
use dmr_core::{Command, Event};
use dmr_pdu::Lpcn;

/// Returns the event that these words mean.
pub fn event_of(input: &str) -> Option<Event> {
    let (word, rest) = cut(input);
    match word {
        "up" => Some(Event::Up(carrier_of(rest)?)),
        "lost" => Some(Event::Lost(carrier_of(rest)?)),
        "poll" => Some(Event::Poll(carrier_of(rest)?)),
        "active" => Some(Event::Active(slot_of(rest)?)),
        "noise" => Some(Event::Noise(slot_of(rest)?)),
        "heard" => {
            let (place, pdu) = cut(rest);
            Some(Event::Heard(slot_of(place)?, pdu_of(pdu)?))
        }
        "say" => Some(Event::Say(command_of(rest)?)),
        "tick" if rest.is_empty() => Some(Event::Tick),
        _ => None,
    }
}

/// Returns the command that these words mean.
fn command_of(words: &str) -> Option<Command> {
    let (word, rest) = cut(words);
    match word {
        "status" => Some(Command::Status),
        "drop" => Some(Command::Drop(address_of(rest)?)),
        "end" => {
            let slot = slot_of(rest)?;
            Some(Command::End(slot.carrier, slot.slot))
        }
        "move" => Some(Command::Move(Lpcn::try_new(rest.parse::<u32>().ok()?)?)),
        "stay" => Some(Command::Stay),
        _ => None,
    }
}
