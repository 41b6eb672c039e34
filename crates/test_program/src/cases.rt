//! Replays the cases of a text from standard input, one after another, and prints the result of each. `ci/stored-cases`
//! writes such a text from the files in `cases/`, and what is to be printed. `sections` defines the text; `cutting`
//! hands the octets of a connection in piece by piece.
//!
//! A section `site NAME` is a site file for the cases after it. After `no-site NAME`, the site file cannot be read. A
//! section `case NAME` is the script of a case. The script of `no-script NAME` cannot be read. The script of
//! `cuttings NAME` is replayed in each cutting.
//!
//! For each case, the program prints `== NAME` and the standard output of its replay. If the replay ends with a status
//! other than 0, its standard error and `status N` follow.

mod cutting;
mod sections;

use crate::cases::cutting::Cutting;
use crate::cases::sections::{octets_of, section_of};
use dmr_replay::{OK, replay};
pub use sections::CaseFault;
use std::alloc::Global;
use std::io;
use std::io::{BufWriter, Input, Write};

/// Returns the output of a replay, with its fault and status.
fn answer_of(
    alloc: Global,
    site: &Option<Vec<u8>>,
    script: &Option<Vec<u8>>,
) -> Result<Vec<u8>, CaseFault> {
    let mut printed = Vec::new(alloc);
    let mut fault = Vec::new(alloc);
    let status = replay(
        alloc,
        "the.toml",
        slice_of(site),
        "the.txt",
        slice_of(script),
        &mut printed,
        &mut fault,
    );
    if status != OK {
        printed.extend_from_slice(fault.as_slice())?;
        writeln!(printed, "status {status}")?;
    }
    Ok(printed)
}

/// Returns the octets of a file, if it can be read.
fn slice_of(file: &Option<Vec<u8>>) -> Option<&[u8]> {
    match file {
        Some(octets) => Some(octets.as_slice()),
        None => None,
    }
}

/// Prints the answer of a case.
fn print<W: Write>(name: &str, answer: &[u8], out: &mut W) -> Result<(), CaseFault> {
    writeln!(out, "== {name}")?;
    out.write_all(answer)?;
    Ok(())
}

/// Prints the answer to the lines of a script that were cut, if it differs from `answer`.
fn print_other<W: Write>(
    alloc: Global,
    site: &Option<Vec<u8>>,
    cut: &str,
    answer: &[u8],
    out: &mut W,
) -> Result<(), CaseFault> {
    let script = octets_of(alloc, cut.strip_suffix("\n"))?;
    let other = answer_of(alloc, site, &Some(script))?;
    if other.as_slice() != answer {
        print("another answer to a cutting", other.as_slice(), out)?;
    }
    Ok(())
}

/// Prints the answer to a script, and each different answer to a cutting of it.
fn print_cuttings<W: Write>(
    alloc: Global,
    name: &str,
    site: &Option<Vec<u8>>,
    lines: &str,
    out: &mut W,
) -> Result<(), CaseFault> {
    let script = Some(octets_of(alloc, Some(lines))?);
    let answer = answer_of(alloc, site, &script)?;
    let answer = answer.as_slice();
    print(name, answer, out)?;
    let octets = Cutting::Octets.script(alloc, lines)?;
    print_other(alloc, site, octets.as_str(), answer, out)?;
    for first in 1..lines.len() {
        let cut = Cutting::At(first).script(alloc, lines)?;
        if cut.as_str().strip_suffix("\n") == Some(lines) {
            // No line has more octets than the first piece.
            return Ok(());
        }
        print_other(alloc, site, cut.as_str(), answer, out)?;
    }
    Ok(())
}

/// Reads a text from standard input, and prints the results of its cases. Fails if the text is not a list of cases, or
/// if an allocation fails.
pub fn replay_input<R: AllocGlobal + Input + Print>(rt: &R) -> Result<(), CaseFault> {
    let text = io::read_to_string(rt.alloc(), rt.reader())?;
    let mut out = BufWriter::new(rt.alloc(), io::writer(rt))?;
    let done = print_cases(rt.alloc(), text.as_str(), &mut out);
    out.flush()?;
    done
}

/// Prints the results of all cases of a text.
fn print_cases<W: Write>(alloc: Global, text: &str, out: &mut W) -> Result<(), CaseFault> {
    let pieces = text
        .strip_suffix("\n")
        .and_then(|text| text.strip_prefix("%% "));
    let mut site = None;
    for piece in pieces.ok_or(CaseFault::NotCases)?.split("\n%% ") {
        let section = section_of(piece)?;
        match section.word {
            "site" => site = Some(octets_of(alloc, section.lines)?),
            "no-site" => site = None,
            "case" => {
                let script = Some(octets_of(alloc, section.lines)?);
                let answer = answer_of(alloc, &site, &script)?;
                print(section.name, answer.as_slice(), out)?;
            }
            "no-script" => {
                let answer = answer_of(alloc, &site, &None)?;
                print(section.name, answer.as_slice(), out)?;
            }
            "cuttings" => {
                let lines = section.lines.unwrap_or("");
                print_cuttings(alloc, section.name, &site, lines, out)?;
            }
            _ => return Err(CaseFault::NotCases),
        }
    }
    Ok(())
}
