//! Measures how fast the code and the site are, and shows that bursts with flips are read.
//!
//! LOAD is `polls`, `registrations`, `joins`, `calls` or `busy`.

mod load;
mod timing;
mod words;

use crate::bench::load::Load;
use crate::bench::timing::{Size, time_load, time_loads};
use crate::bench::words::{
    KINDS, MANY, WordKind, show, show_all_flips, show_flips, time_decoding, time_encoding,
};
use std::io;
use std::rt::Clock;

/// What is measured or shown.
#[derive(Clone, Copy)]
pub enum BenchJob {
    /// A few words of each kind are decoded, and all patterns of three flips of the registration burst.
    Show,
    Flips,
    Time,
    Decode(WordKind, u32),
    Encode(u32),
    Site,
    Play(Load, Size),
}

/// Returns the number at a place among the words.
fn number_at(words: &[String], place: usize) -> Option<u32> {
    words.get(place)?.parse::<u32>().ok()
}

/// Returns the job of `--words KIND COUNT`.
fn words_job(words: &[String]) -> Option<BenchJob> {
    let count = number_at(words, 2)?;
    match words.get(1)?.as_str() {
        "clean" => Some(BenchJob::Decode(WordKind::Clean, count)),
        "flips" => Some(BenchJob::Decode(WordKind::Flipped, count)),
        "random" => Some(BenchJob::Decode(WordKind::Random, count)),
        "encode" => Some(BenchJob::Encode(count)),
        _ => None,
    }
}

/// Returns the job of `--load LOAD CARRIERS RADIOS FRAMES`.
fn load_job(words: &[String]) -> Option<BenchJob> {
    let load = Load::named(words.get(1)?.as_str())?;
    let size = Size {
        carriers: number_at(words, 2)?,
        radios: number_at(words, 3)?,
        frames: number_at(words, 4)?,
    };
    Some(BenchJob::Play(load, size))
}

/// Returns the job of the words after the program's name.
pub fn job_of(words: &[String]) -> Option<BenchJob> {
    match words.get(0)?.as_str() {
        "--flips" => Some(BenchJob::Flips),
        "--time" => Some(BenchJob::Time),
        "--words" => words_job(words),
        "--site" => Some(BenchJob::Site),
        "--load" => load_job(words),
        _ => None,
    }
}

/// Does a job.
pub fn run<R: Print + AllocGlobal + Clock>(rt: &R, job: BenchJob) -> io::Result<()> {
    match job {
        BenchJob::Show => {
            for kind in KINDS {
                show(rt, kind)?;
            }
            show_all_flips(rt)
        }
        BenchJob::Flips => show_flips(rt),
        BenchJob::Time => {
            for kind in KINDS {
                time_decoding(rt, kind, MANY)?;
            }
            time_encoding(rt, MANY)
        }
        BenchJob::Decode(kind, count) => time_decoding(rt, kind, count),
        BenchJob::Encode(count) => time_encoding(rt, count),
        BenchJob::Site => time_loads(rt),
        BenchJob::Play(load, size) => time_load(rt, load, size),
    }
}
