//! The text that the program reads: its sections, and their octets.
//!
//! A section begins with a line `%% WORD NAME` and has the lines up to the next such line. Each line means its octets
//! and an LF, except these:
//!
//! - `% TEXT` means the octets of TEXT without an LF; there, `\HH` is an octet in two hexadecimal digits.
//! - `%repeat N` .. `%end` mean the octets of the lines between them, N times.

use std::alloc::{AllocError, Global};
use std::io;
use thiserror::Error;

/// The fault of a text that was not replayed to its end.
#[derive(Debug, Drop, Error)]
pub enum CaseFault {
    /// The text is not a list of cases.
    #[error("not a list of cases")]
    NotCases,
    /// The input could not be read, or the output did not take everything.
    #[error(transparent)]
    Io(#[from] io::Error),
    /// Memory ran out.
    #[error(transparent)]
    Memory(#[from(alloc)] AllocError),
}

/// A section of a text.
#[derive(Clone, Copy)]
pub struct Section<'a> {
    /// The word of its first line, which says what the section is.
    pub word: &'a str,
    /// The name after that word.
    pub name: &'a str,
    /// The lines after the first; None if there are none.
    pub lines: Option<&'a str>,
}

/// Returns the section of a piece of a text, which begins after the `%% ` of its first line.
pub fn section_of<'a>(piece: &'a str) -> Result<Section<'a>, CaseFault> {
    let (heading, lines) = match piece.split_once('\n') {
        Some((heading, lines)) => (heading, Some(lines)),
        None => (piece, None),
    };
    match heading.split_once(' ') {
        Some((word, name)) => Ok(Section { word, name, lines }),
        None => Err(CaseFault::NotCases),
    }
}

/// Adds the octets of a text with `\HH` for an octet.
fn add_escaped(alloc: Global, octets: &mut Vec<u8>, text: &str) -> Result<(), CaseFault> {
    for (index, piece) in text.split('\\').enumerate() {
        let plain = if index == 0 {
            piece
        } else {
            let (digits, rest) = piece.split_at_checked(2).ok_or(CaseFault::NotCases)?;
            let octet = hex::decode(alloc, digits).map_err(|_| CaseFault::NotCases)?;
            octets.extend_from_slice(octet.as_slice())?;
            rest
        };
        octets.extend_from_slice(plain.as_bytes())?;
    }
    Ok(())
}

/// Repeats the octets from a place on, so that they occur `times` times, at least once.
fn repeat(alloc: Global, octets: &mut Vec<u8>, from: usize, times: u32) -> Result<(), CaseFault> {
    let (_, piece) = octets
        .as_slice()
        .split_at_checked(from)
        .ok_or(CaseFault::NotCases)?;
    let mut copy = Vec::new(alloc);
    copy.extend_from_slice(piece)?;
    for _ in 1..times {
        octets.extend_from_slice(copy.as_slice())?;
    }
    Ok(())
}

/// Returns the octets of the lines of a section.
pub fn octets_of(alloc: Global, lines: Option<&str>) -> Result<Vec<u8>, CaseFault> {
    let mut octets = Vec::new(alloc);
    let Some(lines) = lines else {
        return Ok(octets);
    };
    let mut repeated = None;
    for line in lines.split('\n') {
        match line.split_once(' ') {
            Some(("%", text)) => add_escaped(alloc, &mut octets, text)?,
            Some(("%repeat", times)) => {
                let times = times.parse::<u32>().map_err(|_| CaseFault::NotCases)?;
                repeated = Some((octets.len(), times));
            }
            _ if line == "%end" => {
                let (from, times) = repeated.ok_or(CaseFault::NotCases)?;
                repeat(alloc, &mut octets, from, times)?;
                repeated = None;
            }
            _ => {
                octets.extend_from_slice(line.as_bytes())?;
                octets.push(b'\n')?;
            }
        }
    }
    Ok(octets)
}
