//! The language of the stories: lines of inputs, each with the expected answer.
//!
//! A line has the input, ` =>`, and the answer:
//!
//! ```text
//! heard 0.0 9F00000100005B0003E9 => began 0.1 1001 g91; queue 0.0 B100001800005B0003E9
//! poll 0 => send 0.0 B100001800005B0003E9
//! 60 tick =>
//! ```
//!
//! A number before the input is the count of its repetitions; each repetition has the same answer. Empty lines, and
//! lines that begin with `#`, are ignored. Each listener documents its own inputs and answers.
//!
//! If a part of a story begins with a line `rounds A to B` and ends with an empty line, it runs once for each round
//! from A to B. In such a part, a number followed by `+`, as in `1000+`, is raised by the number of the round.
//!
//! A PDU is written as twenty hexadecimal digits, or as eight of them and two decimal addresses, as in
//! `B1000018.91.1001`.

pub mod words;

use dmr_pdu::OutOfMemory;
use std::alloc::Global;
use std::fmt::Debug;
use std::process::Abort;

/// The thing under test: takes the inputs of a story, one at a time, and writes its answers.
pub trait Listener {
    /// Applies `input` and writes the answer to `said`; writes `?` if the input is unknown.
    fn answer_input(&mut self, input: &str, said: &mut String) -> Result<(), OutOfMemory>;
}

/// Runs the parts of a story in order and checks the answer to each line. Drops the listener at the end.
pub fn run_parts<L: Listener + Drop>(
    rt: &(impl Abort + AllocGlobal),
    mut listener: L,
    name: &str,
    parts: &[&str],
) -> Result<(), OutOfMemory> {
    for part in parts {
        run_part(rt, &mut listener, name, part)?;
    }
    Ok(())
}

/// Runs one part of a story.
pub fn run_part<L: Listener>(
    rt: &(impl Abort + AllocGlobal),
    listener: &mut L,
    name: &str,
    story: &str,
) -> Result<(), OutOfMemory> {
    for part in story.split("\n\n") {
        let (first, last, lines) = rounds_of(part).unwrap_or((0, 0, part));
        for round in first..=last {
            run_round(rt, listener, name, round, lines)?;
        }
    }
    Ok(())
}

/// Returns the first and last round of a part and its lines, or `None` if the part has no line `rounds A to B`.
fn rounds_of(part: &str) -> Option<(u32, u32, &str)> {
    let (rounds, lines) = part.strip_prefix("rounds ")?.split_once('\n')?;
    let (first, last) = rounds.split_once(" to ")?;
    Some((first.parse::<u32>().ok()?, last.parse::<u32>().ok()?, lines))
}

/// Runs lines as those of round `round`.
pub fn run_round<L: Listener>(
    rt: &(impl Abort + AllocGlobal),
    listener: &mut L,
    name: &str,
    round: u32,
    lines: &str,
) -> Result<(), OutOfMemory> {
    for line in lines.lines() {
        if !line.is_empty() && !line.starts_with('#') {
            let line = raise_numbers(rt.alloc(), round, line)?;
            run_line(rt, listener, name, line.as_str())?;
        }
    }
    Ok(())
}

/// Runs a line and checks the answer to each of its repetitions.
fn run_line<L: Listener>(
    rt: &(impl Abort + AllocGlobal),
    listener: &mut L,
    name: &str,
    line: &str,
) -> Result<(), OutOfMemory> {
    let (input, wanted) = line.split_once(" =>").unwrap_or((line, "no answer"));
    let wanted = wanted.strip_prefix(' ').unwrap_or(wanted);
    let (times, input) = times_of(input);
    for _ in 0..times {
        let mut said = String::new(rt.alloc());
        listener.answer_input(input, &mut said)?;
        expect_same(rt, name, (line, said.as_str()), (line, wanted));
    }
    Ok(())
}

/// Checks that a value is the expected one. `name` names it in a failure.
pub fn expect_same<V: Copy + PartialEq + Debug>(rt: &impl Abort, name: &str, value: V, wanted: V) {
    assert_eq!(rt; value, wanted, "{name}");
}

/// Splits an input into the count of its repetitions, 1 if the input has no count, and the rest.
pub fn times_of(input: &str) -> (u32, &str) {
    let (first, rest) = words::cut(input);
    match first.parse::<u32>() {
        Ok(times) => (times, rest),
        Err(_) => (1, input),
    }
}

/// Returns a line as it is in a round: each PDU as twenty digits, and each number with a `+` raised.
fn raise_numbers(alloc: Global, round: u32, line: &str) -> Result<String, OutOfMemory> {
    let mut text = String::new(alloc);
    for word in line.split(' ') {
        if !text.is_empty() {
            text.push_str(" ")?;
        }
        let (word, end) = match word.strip_suffix(';') {
            Some(word) => (word, ";"),
            None => (word, ""),
        };
        write_raised_word(&mut text, round, word)?;
        text.push_str(end)?;
    }
    Ok(text)
}

/// Writes a word as it is in a round.
fn write_raised_word(text: &mut String, round: u32, word: &str) -> Result<(), OutOfMemory> {
    if let Some((head, first, second)) = parse_addressed(round, word) {
        write!(text, "{head:08X}{first:06X}{second:06X}")?;
    } else if let Some(digits) = word.strip_suffix('+') {
        let (mark, digits) = match digits.strip_prefix('g') {
            Some(digits) => ("g", digits),
            None => ("", digits),
        };
        let number = digits.parse::<u32>().unwrap_or(0).saturating_add(round);
        write!(text, "{mark}{number}")?;
    } else {
        text.push_str(word)?;
    }
    Ok(())
}

/// Returns the first four octets and the two addresses of a PDU, or `None` if the word is not a PDU of that form.
fn parse_addressed(round: u32, word: &str) -> Option<(u32, u32, u32)> {
    let (head, addresses) = word.split_once('.')?;
    let (first, second) = addresses.split_once('.')?;
    Some((
        number(round, 16, head)?,
        number(round, 10, first)?,
        number(round, 10, second)?,
    ))
}

/// Returns the number of these digits, raised by the round if a `+` follows them.
fn number(round: u32, radix: u32, digits: &str) -> Option<u32> {
    let (digits, more) = match digits.strip_suffix('+') {
        Some(digits) => (digits, round),
        None => (digits, 0),
    };
    let number = if radix == 16 {
        u32::from_str_radix(digits, 16)
    } else {
        digits.parse::<u32>()
    };
    number.ok()?.checked_add(more)
}
