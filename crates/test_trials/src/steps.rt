//! The steps of a port: how it answers its calls, in the words of `cases/README.md`. `not yet` is a call of `connect` to
//! which no connection has come.

use crate::kept::{known, push, without_rest};
use dmr_wire::{Connect, Got, MemoryPort, Put, Step, Waited};
use std::alloc::{AllocError, Global};
use std::test::Fail;

/// The room of a port's record, in answers and in octets.
const ROOM: usize = 4096;

/// Returns the port with the steps that these words mean, with `input` as the peer's input.
pub fn port_of(alloc: Global, input: &[u8], words: &str, round: usize) -> Result<MemoryPort, Fail> {
    let mut steps = Vec::new(alloc);
    let added = if words.is_empty() {
        Ok(true)
    } else {
        add_steps(alloc, &mut steps, input, words, round)
    };
    let made = MemoryPort::new(alloc, known(added, steps)?, ROOM);
    Ok(without_rest(made)?)
}

/// Adds the steps that these words mean. Returns whether the words are known.
fn add_steps(
    alloc: Global,
    steps: &mut Vec<Step>,
    input: &[u8],
    words: &str,
    round: usize,
) -> Result<bool, AllocError> {
    for words in words.split(", ") {
        let (times, words) = words.split_once(" x ").unwrap_or(("1", words));
        let Some(times) = number(times, round) else {
            return Ok(false);
        };
        for _ in 0..times {
            match step_of(alloc, input, words, round)? {
                Some(step) => push(steps, step)?,
                None => return Ok(false),
            }
        }
    }
    Ok(true)
}

/// Returns the step that these words mean.
fn step_of(
    alloc: Global,
    input: &[u8],
    words: &str,
    round: usize,
) -> Result<Option<Step>, AllocError> {
    if let Some(step) = answer_of(words, round) {
        return Ok(Some(step));
    }
    let (word, rest) = words.split_once(' ').unwrap_or((words, ""));
    if word == "hex" {
        return hex_step(alloc, rest, round);
    }
    let octets = match (word, number(rest, round)) {
        ("first", Some(count)) => input.get(..count),
        ("behind", Some(count)) => input.get(count..),
        _ => None,
    };
    match octets {
        Some(octets) => Ok(Some(Step::Feed(octets.to_vec(alloc)?))),
        None => Ok(None),
    }
}

/// Returns the step without octets that these words mean.
fn answer_of(words: &str, round: usize) -> Option<Step> {
    match words {
        "connect" => Some(Step::Connect(Connect::Ready)),
        "not yet" => Some(Step::Connect(Connect::NotYet)),
        "read end" => Some(Step::Read(Got::End)),
        "read interrupted" => Some(Step::Read(Got::Interrupted)),
        "read block" => Some(Step::Read(Got::Block)),
        "read fault" => Some(Step::Read(Got::Fault)),
        "write interrupted" => Some(Step::Write(Put::Interrupted)),
        "write block" => Some(Step::Write(Put::Block)),
        "write fault" => Some(Step::Write(Put::Fault)),
        "again" => Some(Step::Wait(Waited::Again)),
        "silent" => Some(Step::Wait(Waited::Silent)),
        _ => {
            let count = number(words.strip_prefix("write ")?, round)?;
            Some(Step::Write(Put::Octets(count)))
        }
    }
}

/// Returns the step that feeds these octets, each of two digits.
fn hex_step(alloc: Global, digits: &str, round: usize) -> Result<Option<Step>, AllocError> {
    let mut octets = Vec::new(alloc);
    let mut left = digits;
    for _ in 0..digits.len() {
        let Some((octet, rest)) = first_octet(left, round) else {
            break;
        };
        octets.push(octet)?;
        left = rest;
    }
    Ok(if left.is_empty() {
        Some(Step::Feed(octets))
    } else {
        None
    })
}

/// Returns the octet of the first two digits, and the digits after them.
fn first_octet(digits: &str, round: usize) -> Option<(u8, &str)> {
    let rest = digits.get(2..)?;
    let octet = if digits.starts_with("NN") {
        u8::try_from(round).ok()?
    } else {
        u8::from_str_radix(digits.get(0..2)?, 16).ok()?
    };
    Some((octet, rest))
}

/// Returns the number that a word means. `N` is the number of the round.
pub fn number(word: &str, round: usize) -> Option<usize> {
    if word == "N" {
        Some(round)
    } else {
        word.parse::<usize>().ok()
    }
}
