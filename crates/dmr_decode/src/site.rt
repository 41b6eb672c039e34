//! Shows the octets of the site to a carrier, frame by frame.

ghost use Rattle.std.specs.Prelude.{◌≡◌, ◌++◌, IfSome};
ghost use Rattle.dmr_frames.specs.Frames.{spelling_out};

use crate::words_of_bursts::show_word;
use dmr_bits::Word196;
use dmr_frames::{FrameKind, FrameOut, Refusal, Version, write_frame};
use dmr_pdu::SlotNo;
use std::io;
use std::io::Write;

/// The first frame of octets, and the octets after it.
#[derive(Clone, Copy)]
struct Front<'a> {
    frame: FrameOut,
    rest: &'a [u8],
}

/// Prints the frames of octets that were sent to a carrier, and the first octets that begin no frame. Each is printed
/// with the number of its first octet.
pub fn show_site<W: Write>(octets: &[u8], out: &mut W) -> io::Result<()> {
    let mut rest = octets;
    for _ in 0..octets.len() {
        let begins = octets.len().saturating_sub(rest.len());
        let Some(front) = front_of(rest) else {
            break;
        };
        show_frame(begins, &front.frame, out)?;
        rest = front.rest;
    }
    if rest.len() > 0 {
        let begins = octets.len().saturating_sub(rest.len());
        let count = rest.len();
        writeln!(
            out,
            "{begins:>4}  {count} octets that begin with no whole frame to a carrier"
        )?;
    }
    Ok(())
}

/// Prints a frame, and the meaning of its word.
fn show_frame<W: Write>(begins: usize, frame: &FrameOut, out: &mut W) -> io::Result<()> {
    writeln!(out, "{begins:>4}  {frame}")?;
    match frame {
        FrameOut::Tx {
            number: _,
            slot: _,
            word,
        } => show_word(word, out),
        _ => Ok(()),
    }
}

/// Returns the first frame of octets and the rest, or `None` if they begin with no frame.
fn front_of<'a>(octets: &'a [u8]) -> Option<Front<'a>>
    // The octets are the frame's octets and then the rest.
    ensures { IfSome result
        (λ front. octets.entry.now ≡ spelling_out front.frame ++ front.rest.now) }
{
    let frame = frame_at(octets)?;
    let spelling = write_frame(&frame);
    let rest = octets.strip_prefix(spelling.as_slice())?;
    Some(Front { frame, rest })
}

/// Returns the TX with this number, if there is one, whose slot and word are in `burst`. The word has 25 octets after
/// the slot.
fn burst_of(number: Option<u8>, burst: &[u8]) -> Option<FrameOut> {
    let [slot, octets @ ..] = burst else {
        return None;
    };
    let mut word = [0; 25];
    word.copy_from_slice(octets.get(..25)?);
    Some(FrameOut::Tx {
        number,
        slot: SlotNo::try_new(u32::from(*slot))?,
        word: Word196::from_octets(&word).ok()?,
    })
}

/// Returns the TX that octets can begin with, by its length octet and the octets after it. The length decides the
/// version.
fn transmission_of(length: u8, body: &[u8]) -> Option<FrameOut> {
    for version in Version::ALL {
        if length != FrameKind::Tx.body_length(version) {
            continue;
        }
        return match body {
            [number, burst @ ..] if version.has_numbers() => burst_of(Some(*number), burst),
            burst => burst_of(None, burst),
        };
    }
    None
}

/// Returns the refusal with this octet.
fn refusal_of(octet: u8) -> Option<Refusal> {
    for refusal in [Refusal::BadVersion, Refusal::WrongCarrier] {
        if octet == refusal.octet() {
            return Some(refusal);
        }
    }
    None
}

/// Returns the frame that octets can begin with, by its type and body, and a TX also by its length.
fn frame_at(octets: &[u8]) -> Option<FrameOut> {
    let [octet, length, body @ ..] = octets else {
        return None;
    };
    match FrameKind::to_carrier(Version::NEWEST, *octet)? {
        FrameKind::Welcome => Some(FrameOut::Welcome {
            version: *body.first()?,
        }),
        FrameKind::Tx => transmission_of(*length, body),
        FrameKind::Done => Some(FrameOut::Done),
        FrameKind::Refused => Some(FrameOut::Refused(refusal_of(*body.first()?)?)),
        _ => None,
    }
}
