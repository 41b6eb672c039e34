//! The steps of a link's port: how it answers reads and writes.
//!
//! `; ` separates the steps, and a number before a step is the count of its repetitions. Steps with octets:
//!
//! - `octets` and octets: one read returns them all. `single` and octets: one read for each. An octet is its decimal
//!   number, or the name of a frame or line, which means all its octets.
//! - `first N`: the first N octets of the story's input. `behind N`: the octets after them.
//! - `line` and a line: one read returns the line and its LF. `text` and a text: the same without LF.
//!
//! `read` and `write` say how a read or write ends: `end`, `interrupted`, `block` or `fault`. `write N` takes N octets.

use super::frames::{
    ACCEPTED, BYE, DONE, FILL, HELLO_0, OTHER_CARRIER, OTHER_VERSION, POLL, REGISTERS, WELCOME,
};
use crate::language::times_of;
use crate::language::words::cut;
use dmr_wire::{Got, Put, Step};
use std::alloc::{AllocError, Global};

/// The frames and lines that have names.
pub static NAMED: [(&str, &[u8]); 12] = [
    ("hello", HELLO_0),
    ("registers", REGISTERS),
    ("poll", POLL),
    ("bye", BYE),
    ("welcome", WELCOME),
    ("accepted", ACCEPTED),
    ("fill", FILL),
    ("done", DONE),
    ("version", OTHER_VERSION),
    ("carrier", OTHER_CARRIER),
    ("status", b"status\n"),
    ("stay", b"stay\n"),
];

/// Returns the steps that these words mean, with `input` as the story's input. Returns `None` if a word is unknown.
pub fn steps_of(alloc: Global, input: &[u8], words: &str) -> Result<Option<Vec<Step>>, AllocError> {
    let mut steps = Vec::new(alloc);
    for words in words.split("; ") {
        let (times, words) = times_of(words);
        for _ in 0..times {
            if !add_steps(alloc, &mut steps, input, words)? {
                return Ok(None);
            }
        }
    }
    Ok(Some(steps))
}

/// Adds the steps of words without `; `. Returns whether the words are known.
fn add_steps(
    alloc: Global,
    steps: &mut Vec<Step>,
    input: &[u8],
    words: &str,
) -> Result<bool, AllocError> {
    if let Some(step) = answer_of(words) {
        steps.push(step)?;
        return Ok(true);
    }
    let Some(octets) = octets_of(alloc, input, words)? else {
        return Ok(false);
    };
    if words.starts_with("single ") {
        for octet in octets.as_slice() {
            steps.push(Step::Feed(vec![in alloc; *octet]?))?;
        }
    } else {
        steps.push(Step::Feed(octets))?;
    }
    Ok(true)
}

/// Returns the step of a read or write without octets.
fn answer_of(words: &str) -> Option<Step> {
    match words {
        "read end" => Some(Step::Read(Got::End)),
        "read interrupted" => Some(Step::Read(Got::Interrupted)),
        "read block" => Some(Step::Read(Got::Block)),
        "read fault" => Some(Step::Read(Got::Fault)),
        "write interrupted" => Some(Step::Write(Put::Interrupted)),
        "write block" => Some(Step::Write(Put::Block)),
        "write fault" => Some(Step::Write(Put::Fault)),
        _ => {
            let count = words.strip_prefix("write ")?.parse::<usize>().ok()?;
            Some(Step::Write(Put::Octets(count)))
        }
    }
}

/// Returns the octets that these words mean.
fn octets_of(alloc: Global, input: &[u8], words: &str) -> Result<Option<Vec<u8>>, AllocError> {
    let (word, rest) = cut(words);
    let mut octets = Vec::new(alloc);
    let known = match word {
        "octets" | "single" => append_all(&mut octets, rest)?,
        "first" | "behind" => append_input(&mut octets, input, words)?,
        "text" | "line" => {
            octets.extend_from_slice(rest.as_bytes())?;
            true
        }
        _ => false,
    };
    if word == "line" {
        octets.push(b'\n')?;
    }
    Ok(if known { Some(octets) } else { None })
}

/// Adds the first octets of the story's input, or the octets after them.
fn append_input(octets: &mut Vec<u8>, input: &[u8], words: &str) -> Result<bool, AllocError> {
    let (word, digits) = cut(words);
    let Ok(count) = digits.parse::<usize>() else {
        return Ok(false);
    };
    let (first, behind) = input.split_at(count.min(input.len()));
    octets.extend_from_slice(if word == "first" { first } else { behind })?;
    Ok(true)
}

/// Adds the octets that these words mean, in order.
fn append_all(octets: &mut Vec<u8>, words: &str) -> Result<bool, AllocError> {
    for word in words.split(' ') {
        if let Ok(octet) = word.parse::<u8>() {
            octets.push(octet)?;
        } else if let Some((_, frame)) = NAMED.iter().find(|named| named.0 == word) {
            octets.extend_from_slice(*frame)?;
        } else {
            return Ok(false);
        }
    }
    Ok(true)
}
