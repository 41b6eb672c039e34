//! Cuts the octets of a connection into pieces: a script's lines, with the octets of each `bytes` line handed in piece
//! by piece.

use std::alloc::{AllocError, Global};

/// How the octets of each line are cut.
#[derive(Clone, Copy)]
pub enum Cutting {
    /// Octet by octet.
    Octets,
    /// As two pieces, the first of this many octets; as one piece, if there are not more.
    At(usize),
}

/// Returns the parts of a line: the words before the octets of a connection, and the octets in hexadecimal digits, if
/// any.
fn parts_of(line: &str) -> (&str, &str) {
    if line.starts_with("bytes ") {
        line.split_at_checked(8).unwrap_or((line, ""))
    } else {
        (line, "")
    }
}

/// Adds a line to a script: its words, and a piece of octets.
fn add_line(script: &mut String, words: &str, digits: &str) -> Result<(), AllocError> {
    script.push_str(words)?;
    script.push_str(digits)?;
    script.push_str("\n")
}

/// Adds lines to a script, one for each octet.
fn add_octets(script: &mut String, words: &str, digits: &str) -> Result<(), AllocError> {
    let mut rest = digits;
    for _ in 0..digits.len() {
        let Some((octet, others)) = rest.split_at_checked(2) else {
            return Ok(());
        };
        add_line(script, words, octet)?;
        rest = others;
    }
    Ok(())
}

impl Cutting {
    /// Adds a line to a script, with its octets cut.
    fn add(self, script: &mut String, line: &str) -> Result<(), AllocError> {
        let (words, digits) = parts_of(line);
        let first = match self {
            Cutting::Octets if !digits.is_empty() => return add_octets(script, words, digits),
            Cutting::At(octets) => octets.saturating_mul(2),
            _ => 0,
        };
        match digits.split_at_checked(first) {
            Some((piece, rest)) if !piece.is_empty() && !rest.is_empty() => {
                add_line(script, words, piece)?;
                add_line(script, words, rest)
            }
            _ => add_line(script, words, digits),
        }
    }

    /// Returns the lines of a script with their octets cut, each with an LF.
    pub fn script(self, alloc: Global, lines: &str) -> Result<String, AllocError> {
        let mut script = String::new(alloc);
        for line in lines.split('\n') {
            self.add(&mut script, line)?;
        }
        Ok(script)
    }
}
