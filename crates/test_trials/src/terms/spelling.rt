//! Events and frames, a letter for each.

use dmr_core::{Command, Event};
use dmr_desk::Views;
use std::alloc::{AllocError, Global};

/// Groups of letters, each with the count of its repetitions.
pub type Letters = &'static [(usize, &'static str)];

/// WELCOME.
const WELCOME: &[u8] = &[0x81, 0x01, 0x01];

/// TX on slot 0 with the Fill of a quiet control slot: C_ALOHA, its ten octets 99000000111234000000.
const FILL: &[u8] = &[
    0x82, 0x1A, 0x00, 0x00, 0x3C, 0x16, 0x27, 0x11, 0x60, 0x0B, 0x78, 0x15, 0x58, 0x08, 0x90, 0x05,
    0x03, 0x05, 0x86, 0x22, 0x80, 0x42, 0x10, 0x79, 0x00, 0x5A, 0x23, 0x10,
];

/// DONE, the end of an answer to POLL.
const DONE: &[u8] = &[0x83, 0x00];

/// The reply to `status` on a site with no carrier up, no radio, ask, line or call.
const STATUS: &[u8] = b"status carriers 0 radios 0 asks 0 lines 0 calls 0 fill aloha\n";

/// Returns the letters, in order.
pub fn text_of_letters(alloc: Global, letters: Letters) -> Result<String, AllocError> {
    let mut text = String::new(alloc);
    for (times, group) in letters {
        for _ in 0..*times {
            text.push_str(*group)?;
        }
    }
    Ok(text)
}

/// Returns the octets of frames: W is WELCOME, F the TX of the Fill, D is DONE; S is the text of a quiet site's status.
pub fn octets_of(alloc: Global, letters: Letters) -> Result<Vec<u8>, AllocError> {
    let mut octets = Vec::new(alloc);
    for letter in text_of_letters(alloc, letters)?.bytes() {
        octets.extend_from_slice(match letter {
            b'W' => WELCOME,
            b'F' => FILL,
            b'D' => DONE,
            b'S' => STATUS,
            _ => b"?",
        })?;
    }
    Ok(octets)
}

/// Writes the events of an actor's view, a letter for each.
///
/// U is Up, H Heard, N Noise, P Poll and L Lost of the carrier with the actor's number. T is a tick, S the command
/// `status`, Y is `stay`, and ? is any other event.
pub fn write_letters(text: &mut String, actor: usize, views: &Views) -> Result<(), AllocError> {
    let Some(view) = views.as_slice().get(actor) else {
        return text.push_str("no view");
    };
    for deposit in view.as_slice() {
        text.push(letter_of(&deposit.event, actor))?;
    }
    Ok(())
}

/// Returns the letter of an actor's event.
fn letter_of(event: &Event, actor: usize) -> char {
    let (carrier, letter) = match event {
        Event::Up(carrier) => (carrier.get(), 'U'),
        Event::Heard(slot, _) => (slot.carrier.get(), 'H'),
        Event::Noise(slot) => (slot.carrier.get(), 'N'),
        Event::Poll(carrier) => (carrier.get(), 'P'),
        Event::Lost(carrier) => (carrier.get(), 'L'),
        Event::Tick => return 'T',
        Event::Say(Command::Status) => return 'S',
        Event::Say(Command::Stay) => return 'Y',
        _ => return '?',
    };
    if carrier as usize == actor {
        letter
    } else {
        '?'
    }
}
