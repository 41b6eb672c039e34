//! What tests and benches ask of the libraries, as one program. It is not a part of the product.
//!
//! | arguments | what it does |
//! |---|---|
//! | none | all that the gate compares: replays the cases from standard input, makes each call that takes memory, fills what has a limit, and decodes words with flips |
//! | `--refusals` | makes each call that takes memory once (`refusals`) |
//! | `--flips` | the number of all three flips of the registration burst that are read as the registration, and the time for them |
//! | `--time` | lines "name rate count sum" of many words of each kind: words a second, the number of results, and a sum of the results |
//! | `--words KIND COUNT` | such a line of COUNT words: `clean`, with three `flips`, or `random`; `encode` prints encoding and check |
//! | `--site` | the time of an event of each load, on sites of 1, 4 and 16 carriers with 1, 256 and 4,096 radios |
//! | `--load LOAD CARRIERS RADIOS FRAMES` | a line "rate octets sum events" of one run of a load (`bench`) |
//!
//! The status is 1 if standard input is not a list of cases, if a call is wrong, or if an allocation fails.
#![tactic(auto)]

mod bench;
mod cases;
mod refusals;

use crate::bench::{BenchJob, job_of};
use crate::cases::replay_input;
use crate::refusals::{fill_all, make_calls};
use std::io::Eprint;
use std::process::ExitCode;
use std::{env, io};

/// Does all that the gate compares. Returns whether all is right.
fn run_all(rt: &HostRuntime) -> io::Result<bool> {
    if let Err(fault) = replay_input(rt) {
        eprintln!(rt; "test_program: {fault}")?;
        return Ok(false);
    }
    let right = make_calls(rt)?;
    let filled = fill_all(rt)?;
    bench::run(rt, BenchJob::Show)?;
    Ok(right && filled)
}

/// Does what the words after the program's name ask for. Returns the exit status: 2 if they ask for nothing that it
/// does.
fn run(rt: &HostRuntime, words: &[String]) -> io::Result<u8> {
    let right = match words.get(0).map(|word| word.as_str()) {
        None => run_all(rt)?,
        Some("--refusals") => make_calls(rt)?,
        Some(_) => {
            let Some(job) = job_of(words) else {
                println!(rt;
                    "usage: test_program [--refusals | --flips | --time | --words KIND COUNT | --site | --load LOAD CARRIERS RADIOS FRAMES]"
                )?;
                return Ok(2);
            };
            bench::run(rt, job)?;
            true
        }
    };
    Ok(if right { 0 } else { 1 })
}

fn main(rt: HostRuntime) -> io::Result<ExitCode> {
    let words = env::args(&rt)?.skip(1).collect::<Vec<String>>(rt.alloc())?;
    let status = run(&rt, words.as_slice())?;
    Ok(ExitCode::from(status))
}
