//! Shows in words what the octets of a site are, as the controller reads them.
//!
//! - `dmr_decode carrier HEX..`: the frames that a carrier sent
//! - `dmr_decode site HEX..`: the frames that a carrier received
//! - `dmr_decode word HEX`: the 25 octets of a word
//! - `dmr_decode pdu HEX`: ten octets
//! - `dmr_decode replay`: the output of a replay
//! - `dmr_decode script`: a script
//! - `dmr_decode journal [--fields] --site FILE`: the journal of a site that runs a script
//! - `dmr_decode write PDU`: the octets, check and burst of a PDU that is given in words
//!
//! `dmr_burst::read` reads the words, and `dmr_frames::Cutter` cuts the frames of carriers, so the output shows what
//! the controller makes of the octets. `words_of_bursts` shows words, `carrier` and `site` show frames, `pdu_in_words`
//! reads a PDU in words, and `tasks` connects them.
//!
//! With `--site FILE`, `carrier` and `script` also say what the controller of that site would count, ignore and answer,
//! and which frame would end a connection. No rule is written here again: `judged_carrier` and `judge` have the links
//! of `dmr_link`, which hand their events to the site of `dmr_core` at a `desk`. `verdict` names the outcome,
//! `rows` has the texts of the site's events and answers, `journal` prints its entries, and `judging` has the tasks.
//! `shown` says which of both a script is shown with, and `fault` has the messages.
#![tactic(auto)]

mod carrier;
mod desk;
mod fault;
mod journal;
mod judge;
mod judged_carrier;
mod judging;
mod kept;
mod octet_wire;
mod pdu_in_words;
mod printable;
mod rows;
mod shown;
mod site;
mod tasks;
mod verdict;
mod words_of_bursts;

ghost use Rattle.std.specs.Prelude.{◌≤◌, IfOk};

use crate::fault::TaskFault;
use crate::judging::judge;
use crate::tasks::run;
use dmr_plan::Plan;
use dmr_replay::{MEMORY, ReplayFault, plan_of};
use std::alloc::Global;
use std::fs::File;
use std::io::{BufWriter, Eprint, Read, Write};
use std::process::ExitCode;
use std::rt::{Env, Files};
use std::{env, io};

/// The text of `--help`.
const HELP: &str = "\
Says in words what the octets of a site are, as the controller reads them.

  dmr_decode carrier HEX..   what a carrier sent: frames, PDUs, mended bits, faults
  dmr_decode site HEX..      what a carrier was sent
  dmr_decode word HEX        the 25 octets of a word
  dmr_decode pdu HEX         the ten octets of a PDU
  dmr_decode replay          what `dmr_trunk --script` printed, from standard input
  dmr_decode script          a script, from standard input
  dmr_decode journal         the journal of a site for a script, from standard input; with --site
  dmr_decode write PDU       the other way: a PDU in words to its octets, check and burst

Without HEX or a PDU they are read from standard input. HEX may have spaces anywhere.
A PDU is written as it is printed. A field that is left out is 0, but lpcn has to be given:
  dmr_decode write C_RAND kind=registration target=16776902 source=1001 options=1

With a site file, carrier and script also say what the controller of that site counts,
ignores and answers, and which frame ends a connection:
  dmr_decode carrier --site site.toml HEX..
  dmr_decode script --site site.toml
and journal prints each event that the site takes, and what the site does for it,
in words, or as fields for programs:
  dmr_decode journal --site site.toml
  dmr_decode journal --fields --site site.toml

Status: 0 it was said; 1 the input is not what was named, or a file; 2 the words; 4 memory, with a site file.
";

/// The most octets of a site file: 1 MiB.
const SITE_OCTETS: u64 = 1 << 20;

/// The exit status if the input, a file or the output is at fault, or if memory runs out without a site file.
const FAULT: u8 = 1;

/// The exit status if the words are at fault.
const WORDS: u8 = 2;

/// The words of the command line: a task, the path of a site file if one is given, and the task's input, if it is given
/// in words.
#[derive(Clone, Copy)]
struct Words<'a> {
    task: &'a str,
    site: Option<&'a str>,
    rest: &'a [String],
}

/// Returns whether a task can judge its input by a site.
fn is_judged(task: &str) -> bool {
    task == "carrier" || task == "script" || task == "journal" || task == "journal --fields"
}

/// Returns the words after an option, if the words begin with it.
fn after_option<'a>(words: &'a [String], option: &str) -> Option<&'a [String]> {
    match words {
        [first, rest @ ..] if first.as_str() == option => Some(rest),
        _ => None,
    }
}

/// Reads the words of the command line. `None` if there is no task, no path after `--site`, or a site for a task that
/// has no use for it.
fn parse_words<'a>(words: &'a [String]) -> Option<Words<'a>> {
    let [task, rest @ ..] = words else {
        return None;
    };
    let (task, rest) = match after_option(rest, "--fields") {
        Some(rest) if task.as_str() == "journal" => ("journal --fields", rest),
        _ => (task.as_str(), rest),
    };
    let Some(judged) = after_option(rest, "--site") else {
        return Some(Words {
            task,
            site: None,
            rest,
        });
    };
    match judged {
        [path, rest @ ..] if is_judged(task) => Some(Words {
            task,
            site: Some(path.as_str()),
            rest,
        }),
        _ => None,
    }
}

/// Returns the input of a task: the words after its name, or standard input if there are none.
fn input_of<R: AllocGlobal + Input>(rt: &R, rest: &[String]) -> io::Result<String> {
    if rest.is_empty() {
        return io::read_to_string(rt.alloc(), rt.reader());
    }
    let mut text = String::new(rt.alloc());
    for word in rest {
        text.push_str(word.as_str())?;
        text.push(' ')?;
    }
    Ok(text)
}

/// Reads the octets of a site file: all, or one more than it may have.
fn site_octets<R: AllocGlobal + Files>(rt: &R, path: &str) -> io::Result<Vec<u8>> {
    let mut octets = Vec::new(rt.alloc());
    let mut file = File::open(rt, path)?.take(SITE_OCTETS + 1);
    file.read_to_end(&mut octets)?;
    Ok(octets)
}

/// Returns the plan of the site file at this path. The faults are the controller's.
fn plan_at<'a, R: AllocGlobal + Files>(rt: &R, path: &'a str) -> Result<Plan, TaskFault<'a>> {
    match site_octets(rt, path) {
        Ok(octets) if octets.len() as u64 > SITE_OCTETS => Err(TaskFault::LongSite(path)),
        Ok(octets) => Ok(plan_of(rt.alloc(), octets.as_slice())?),
        Err(error) if error.kind() == io::ErrorKind::OutOfMemory => {
            Err(TaskFault::Replay(ReplayFault::OutOfMemory))
        }
        Err(_) => Err(TaskFault::Replay(ReplayFault::CannotRead(path))),
    }
}

/// Runs a task over its input, with the site of a plan if one is given, and writes its output.
fn run_task<'a, W: Write>(
    alloc: Global,
    task: &'a str,
    plan: Option<&Plan>,
    text: &'a str,
    out: &mut W,
) -> Result<(), TaskFault<'a>> {
    match plan {
        None => run(alloc, task, text, out),
        Some(plan) => judge(alloc, plan, task, text, out),
    }
}

/// Returns the exit status for a fault of a task. Only with a site file memory has a status of its own.
fn status_of(fault: &TaskFault<'_>, has_site: bool) -> u8
    ensures { result ≤ 4 }
{
    match fault {
        TaskFault::NoSuchTask => WORDS,
        TaskFault::Replay(fault) => fault.status(),
        TaskFault::Memory | TaskFault::OutOfMemory if has_site => MEMORY,
        _ => FAULT,
    }
}

/// Writes why a task ended: its fault, or the help if there is no such task. Returns the exit status. A fault of standard
/// error is ignored.
fn report<R: Eprint>(rt: &R, fault: TaskFault<'_>, has_site: bool) -> u8
    ensures { result ≤ 4 }
{
    let _ = match fault {
        TaskFault::NoSuchTask => rt.eprint(HELP),
        fault => eprintln!(rt; "dmr_decode: {fault}"),
    };
    status_of(&fault, has_site)
}

/// Runs a task over its input, with the site of a plan if one is given, and writes all of its output. Returns the first
/// fault.
fn write_task<'a, W: Write>(
    alloc: Global,
    task: &'a str,
    plan: Option<&Plan>,
    text: &'a str,
    out: &mut W,
) -> Result<(), TaskFault<'a>> {
    let done = run_task(alloc, task, plan, text, out);
    let written = out.flush();
    done?;
    Ok(written?)
}

/// Does a task over its input, with the site of a plan if one is given. Prints its output, and returns the exit status.
fn do_task<R: AllocGlobal + Print + Eprint>(
    rt: &R,
    task: &str,
    plan: Option<&Plan>,
    text: &str,
) -> io::Result<u8>
    ensures { IfOk result (λ status. status ≤ 4) }
{
    let has_site = plan.is_some();
    let mut out = BufWriter::new(rt.alloc(), io::writer(rt))?;
    let written = write_task(rt.alloc(), task, plan, text, &mut out);
    drop(out);
    match written {
        Ok(()) => Ok(0),
        Err(fault) => Ok(report(rt, fault, has_site)),
    }
}

/// Does the task that the words name, and returns the exit status. A site file is read before the input.
fn do_words<R: AllocGlobal + Input + Print + Eprint + Files>(
    rt: &R,
    words: Words<'_>,
) -> io::Result<u8>
    ensures { IfOk result (λ status. status ≤ 4) }
{
    let Some(path) = words.site else {
        let text = input_of(rt, words.rest)?;
        return do_task(rt, words.task, None, text.as_str());
    };
    match plan_at(rt, path) {
        Ok(plan) => {
            let text = input_of(rt, words.rest)?;
            do_task(rt, words.task, Some(&plan), text.as_str())
        }
        Err(fault) => Ok(report(rt, fault, true)),
    }
}

/// Prints the help, and returns the exit status.
fn print_help<R: Print + Eprint>(rt: &R) -> u8
    ensures { result ≤ 4 }
{
    match rt.print(HELP) {
        Ok(()) => 0,
        Err(error) => report(rt, TaskFault::from(error), false),
    }
}

/// Does what the words of the command line ask for, and returns the exit status. `Err`: the words or the input could
/// not be read, or memory ran out.
fn run_program<R: AllocGlobal + Env + Input + Print + Eprint + Files>(rt: &R) -> io::Result<u8>
    ensures { IfOk result (λ status. status ≤ 4) }
{
    let words = env::args(rt)?.skip(1).collect::<Vec<String>>(rt.alloc())?;
    match parse_words(words.as_slice()) {
        None => Ok(report(rt, TaskFault::NoSuchTask, false)),
        Some(words) if words.task == "--help" => Ok(print_help(rt)),
        Some(words) => do_words(rt, words),
    }
}

fn main(rt: HostRuntime) -> ExitCode {
    match run_program(&rt) {
        Ok(status) => ExitCode::from(status),
        Err(error) => {
            let _ = eprintln!(rt; "dmr_decode: {error}");
            ExitCode::from(FAULT)
        }
    }
}
