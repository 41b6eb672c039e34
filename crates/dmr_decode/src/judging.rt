//! The tasks of the program with the site of a site file: they show octets with what the site's controller makes of
//! them, and print its journal.

use crate::fault::TaskFault;
use crate::journal::EntryPrinter;
use crate::judge::Judge;
use crate::printable::Printable;
use crate::rows::Form;
use crate::shown::Shown;
use crate::tasks::{octets_of, show_line};
use dmr_frames::{Cutter, FrameIn, Step};
use dmr_link::greatest_version;
use dmr_pdu::CarrierNo;
use dmr_plan::Plan;
use dmr_replay::{ReplayFault, ScriptFault, ScriptInput, read_script};
use std::alloc::Global;
use std::io;
use std::io::Write;

/// Runs the task with this name over a text, with the site of a plan, and writes its output.
pub fn judge<'a, W: Write>(
    alloc: Global,
    plan: &Plan,
    task: &str,
    text: &str,
    out: &mut W,
) -> Result<(), TaskFault<'a>> {
    let Ok(mut judge) = Judge::new(alloc, plan) else {
        return Err(TaskFault::Memory);
    };
    let done = judge_text(alloc, plan, &mut judge, task, text, out);
    drop(judge);
    done
}

/// Runs the task with this name over a text, with a judge that has no carriers yet.
fn judge_text<'a, W: Write>(
    alloc: Global,
    plan: &Plan,
    judge: &mut Judge,
    task: &str,
    text: &str,
    out: &mut W,
) -> Result<(), TaskFault<'a>> {
    judge.add_carriers(alloc, plan)?;
    let form = match task {
        "carrier" => return judge_octets(alloc, plan, judge, text, out),
        "script" => return judge_lines(alloc, judge, &mut Shown::Verdicts, text, out),
        "journal" => Form::Words,
        "journal --fields" => Form::Fields,
        _ => return Err(TaskFault::NoSuchTask),
    };
    let mut shown = Shown::Entries(EntryPrinter::new(form));
    judge_lines(alloc, judge, &mut shown, text, out)
}

/// Returns the carrier on whose port octets are judged: that which the HELLO names, if the plan has it, else the
/// control carrier.
fn carrier_of(plan: &Plan, octets: &[u8]) -> CarrierNo {
    let mut cutter = Cutter::new(greatest_version(plan));
    for octet in octets {
        match cutter.feed_byte(*octet) {
            Step::Need => {}
            Step::Frame(FrameIn::Hello { carrier, .. }) => {
                return match CarrierNo::try_new(u32::from(carrier)) {
                    Some(named) if plan.carrier_with(named).is_some() => named,
                    _ => plan.control(),
                };
            }
            Step::Frame(_) | Step::Fault(_) => return plan.control(),
        }
    }
    plan.control()
}

/// Shows the octets of a carrier's connection, judged on the port of a carrier of the plan.
fn judge_octets<'a, W: Write>(
    alloc: Global,
    plan: &Plan,
    judge: &mut Judge,
    text: &str,
    out: &mut W,
) -> Result<(), TaskFault<'a>> {
    let octets = octets_of(alloc, text)?;
    let carrier = carrier_of(plan, octets.as_slice());
    let shown = judge.show_connection(carrier, octets.as_slice(), out);
    drop(octets);
    Ok(shown?)
}

/// Shows the lines of a script, up to the first that is not a line of a script.
fn judge_lines<'a, W: Write>(
    alloc: Global,
    judge: &mut Judge,
    shown: &mut Shown,
    text: &str,
    out: &mut W,
) -> Result<(), TaskFault<'a>> {
    let Some(text) = lines_in(text) else {
        return Ok(());
    };
    let mut number = 0usize;
    for line in text.split('\n') {
        number = number.saturating_add(1);
        if !judge_line(alloc, judge, shown, line, out)? {
            return Err(TaskFault::Replay(ReplayFault::ScriptLine(number)));
        }
    }
    Ok(())
}

/// Returns a text without the LF at its end. `None` if it has no line.
fn lines_in(text: &str) -> Option<&str> {
    if text.is_empty() {
        return None;
    }
    Some(text.strip_suffix('\n').unwrap_or(text))
}

/// Shows a line of a script. Returns `false` if it is not a line of a script.
fn judge_line<'a, W: Write>(
    alloc: Global,
    judge: &mut Judge,
    shown: &mut Shown,
    line: &str,
    out: &mut W,
) -> Result<bool, TaskFault<'a>> {
    match read_script(alloc, line.as_bytes()) {
        Ok(given) => {
            let done = judge_given(alloc, judge, shown, line, given.as_slice(), out);
            drop(given);
            done?;
            Ok(true)
        }
        Err(ScriptFault::Line(_)) => {
            if matches!(shown, Shown::Verdicts) {
                let line = Printable(line);
                writeln!(out, "{line} -> fault: not a line of a script")?;
            }
            Ok(false)
        }
        Err(ScriptFault::OutOfMemory) => Err(TaskFault::Memory),
    }
}

/// Shows a line of a script, which has this input. A comment or an empty line has none.
fn judge_given<W: Write>(
    alloc: Global,
    judge: &mut Judge,
    shown: &mut Shown,
    line: &str,
    given: &[ScriptInput],
    out: &mut W,
) -> io::Result<()> {
    match (shown, given) {
        (shown, [input]) => judge.show_input(alloc, line, input, shown, out),
        (Shown::Verdicts, _) => show_line(line, out),
        (Shown::Entries(_), _) => Ok(()),
    }
}
