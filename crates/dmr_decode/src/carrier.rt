//! Shows the octets of a carrier, frame by frame. It cuts them like a controller that serves every version of the link.

use crate::words_of_bursts::show_word;
use dmr_frames::{Cutter, FrameIn, Step, Version};
use std::io;
use std::io::Write;

/// A carrier's connection: its cutter, the number of octets so far, and the place of the first octet of the incomplete
/// frame.
#[derive(Drop)]
pub struct CarrierReader {
    cutter: Cutter,
    came: usize,
    begins: usize,
    faulty: bool,
}

impl CarrierReader {
    /// Returns a connection without octets.
    pub fn new() -> CarrierReader {
        CarrierReader {
            cutter: Cutter::new(Version::NEWEST),
            came: 0,
            begins: 0,
            faulty: false,
        }
    }

    /// Prints the frames that octets complete, each with the number of its first octet, and the first fault with the
    /// number of its octet. The numbers count from 0 over the whole connection.
    pub fn show<W: Write>(&mut self, octets: &[u8], out: &mut W) -> io::Result<()> {
        for octet in octets {
            let step = self.cutter.feed_byte(*octet);
            let place = self.came;
            self.came = place.saturating_add(1);
            match step {
                Step::Need => {}
                Step::Frame(frame) => {
                    let begins = self.begins;
                    self.begins = self.came;
                    show_frame(begins, &frame, out)?;
                }
                Step::Fault(cause) => {
                    if !self.faulty {
                        self.faulty = true;
                        writeln!(out, "{place:>4}  fault at octet {octet:02X}: {cause}")?;
                    }
                }
            }
        }
        Ok(())
    }

    /// Prints the number of octets of an incomplete frame, unless there was a fault.
    pub fn show_rest<W: Write>(&self, out: &mut W) -> io::Result<()> {
        let begins = self.begins;
        let rest = self.came.saturating_sub(begins);
        if rest > 0 && !self.faulty {
            writeln!(
                out,
                "{begins:>4}  {rest} octets of a frame that isn't whole"
            )?;
        }
        Ok(())
    }
}

/// Prints a frame, and the meaning of its word.
fn show_frame<W: Write>(begins: usize, frame: &FrameIn, out: &mut W) -> io::Result<()> {
    writeln!(out, "{begins:>4}  {frame}")?;
    show_word_in(frame, out)
}

/// Prints the meaning of a frame's word, if it has one.
pub fn show_word_in<W: Write>(frame: &FrameIn, out: &mut W) -> io::Result<()> {
    match frame {
        FrameIn::Rx {
            number: _,
            slot: _,
            word,
        } => show_word(word, out),
        _ => Ok(()),
    }
}
