//! Replays a script over the site of a site file, and prints the octets written for carriers and operators.

ghost use Rattle.std.specs.Prelude.{◌≡◌, ◌⊎◌, [], IfErr, IsErrAnd, MatchResult, Ok, OnOk};
ghost use Rattle.std.specs.Prelude.{false, option_map, slice_index_or};
ghost use Rattle.std.specs.Io.KnownBytes.{Appends};
ghost use Rattle.dmr_replay.specs.Script.{given_in, script_of};
ghost use Rattle.dmr_replay.specs.Replay.{IsPrinted, Prints, ReportsFault, is_printed, outcome};
ghost use Rattle.dmr_replay.specs.Replay.{plan_in, printed_text, status_of};

use crate::checking::check_script;
use crate::printing::print_outputs;
use crate::running::outputs_of;
use crate::script::ScriptFault;
use crate::status::{FAULT, MEMORY, OK};
use dmr_link::Outputs;
use dmr_pdu::OutOfMemory;
use dmr_plan::{Plan, PlanFault};
use std::alloc::Global;
use std::io::Write;
use thiserror::Error;

/// Why a replay stopped.
#[derive(Clone, Copy, Debug, Error)]
pub enum ReplayFault<'a> {
    /// The file with this path could not be read.
    #[error("cannot read {0}")]
    CannotRead(&'a str),
    /// The site file is not accepted.
    #[error("site file: {0}")]
    SiteFile(PlanFault),
    /// The line with this number, counted from 1, is not a line of a script.
    #[error("script line {0}")]
    ScriptLine(usize),
    /// Standard output did not take all of the text.
    #[error("cannot write")]
    CannotWrite,
    /// Memory ran out.
    #[error("out of memory")]
    OutOfMemory,
}

impl ReplayFault<'_> {
    /// Returns the exit status for the fault.
    pub fn status(&self) -> u8
        ensures { result ≡ status_of self.now }
    {
        match self {
            ReplayFault::OutOfMemory => MEMORY,
            _ => FAULT,
        }
    }
}

/// Replays a script over the site of a site file, and returns the exit status.
///
/// `site` and `script` are the octets of the two files, or `None` if a file could not be read; faults call the files
/// `site_name` and `script_name`. The function prints to `out` a line for each carrier of the plan, with the octets
/// written for it, and then the operators' text. A fault of the site file is reported before one of the script, and in
/// both cases nothing is printed to `out`. A fault is written to `err` as one line. If that fails, the failure is
/// ignored. If `out` does not take the whole text, the status is `FAULT`, and `out` may have received a part of it.
pub fn replay<'a, W: Write, E: Write>(
    alloc: Global,
    site_name: &'a str,
    site: Option<&[u8]>,
    script_name: &'a str,
    script: Option<&[u8]>,
    out: &mut W,
    err: &mut E,
) -> u8
    // If the status is 0, there is a text to print, and `out` received the whole of it.
    ensures ok { result ≡ OK
        → IsPrinted
        (outcome (option_map (λ o. o.now) site.entry) (option_map (λ o. o.now) script.entry))
        (W.contents out.old) (W.contents out.new) }
    // If there is no text to print, `out` is unchanged, and by `ok` the status is not 0.
    ensures quiet { is_printed
        (outcome (option_map (λ o. o.now) site.entry) (option_map (λ o. o.now) script.entry))
        ≡ false
        → out.new ≡ out.old }
    // If memory runs out, `out` is unchanged. If the status is 0, no fault was written to `err`.
    ensures memory { result ≡ MEMORY → out.new ≡ out.old }
    ensures silent { result ≡ OK → err.new ≡ err.old }
    ensures status { (result ≡ OK) ⊎ (result ≡ FAULT) ⊎ (result ≡ MEMORY) }
{
    let printed = match printout_of(alloc, site_name, site, script_name, script) {
        Ok(printout) => print_text(&printout, out),
        Err(fault) => Err(fault),
    };
    match printed {
        Ok(()) => OK,
        Err(fault) => {
            let _ = writeln!(err, "dmr_trunk: {fault}");
            fault.status()
        }
    }
}

/// What a replay prints: the plan, whose carriers have lines, and the octets written for carriers and for operators.
#[derive(Drop)]
struct Printout {
    plan: Plan,
    outputs: Outputs,
}

/// Prints the whole text, and flushes the writer.
fn print_text<'a, W: Write>(printout: &Printout, out: &mut W) -> Result<(), ReplayFault<'a>>
    ensures whole { OnOk result (Appends (W.contents out.old) (W.contents out.new)
        (printed_text printout.now.plan
        (λ c. slice_index_or printout.now.outputs.carriers c []) printout.now.outputs.console)) }
    ensures fault { IfErr result (λ fault. fault ≡ ReplayFault.CannotWrite) }
{
    if print_outputs(&printout.plan, &printout.outputs, out).is_err() {
        return Err(ReplayFault::CannotWrite);
    }
    Ok(())
}

/// Returns what is to be printed, or the first fault.
#[tactic(auto, using(crate::proofs::ReplayLemmas::no_plan, crate::proofs::ReplayLemmas::no_lines, crate::proofs::ReplayLemmas::no_memory))]
fn printout_of<'a>(
    alloc: Global,
    site_name: &'a str,
    site: Option<&[u8]>,
    script_name: &'a str,
    script: Option<&[u8]>,
) -> Result<Printout, ReplayFault<'a>>
    ensures { MatchResult result (λ printout. outcome (option_map (λ o. o.now) site.entry)
        (option_map (λ o. o.now) script.entry)
        ≡ Prints (printed_text printout.plan
        (λ c. slice_index_or printout.outputs.carriers c []) printout.outputs.console))
        (ReportsFault site_name.now script_name.now
        (outcome (option_map (λ o. o.now) site.entry) (option_map (λ o. o.now) script.entry))) }
{
    let plan = plan_of(alloc, site.ok_or(ReplayFault::CannotRead(site_name))?)?;
    let script = script.ok_or(ReplayFault::CannotRead(script_name))?;
    check_lines(alloc, script)?;
    match outputs_of(alloc, &plan, script) {
        Ok(outputs) => Ok(Printout { plan, outputs }),
        Err(OutOfMemory) => Err(ReplayFault::OutOfMemory),
    }
}

/// Returns the plan of a site file. A file that is not UTF-8 is reported as `NotToml`.
#[tactic(auto, using(crate::proofs::ReplayLemmas::plan_in_text, crate::proofs::ReplayLemmas::plan_in_no_text))]
pub fn plan_of<'a>(alloc: Global, site: &[u8]) -> Result<Plan, ReplayFault<'a>>
    ensures { MatchResult result (λ plan. plan_in site.now ≡ Ok plan)
        (λ fault. (fault ≡ ReplayFault.OutOfMemory)
        ⊎ IsErrAnd (plan_in site.now) (λ plan_fault. fault ≡ ReplayFault.SiteFile plan_fault)) }
{
    let Ok(text) = str::from_utf8(site) else {
        return Err(ReplayFault::SiteFile(PlanFault::NotToml));
    };
    match Plan::read(alloc, text) {
        Ok(plan) => Ok(plan),
        Err(PlanFault::OutOfMemory) => Err(ReplayFault::OutOfMemory),
        Err(fault) => Err(ReplayFault::SiteFile(fault)),
    }
}

/// Checks the lines of a script. The error is the number of the first line at fault, or `OutOfMemory`.
fn check_lines<'a>(alloc: Global, script: &[u8]) -> Result<(), ReplayFault<'a>>
    ensures { MatchResult result
        (λ _. script_of script.now ≡ Ok (given_in script.now))
        (λ fault. (fault ≡ ReplayFault.OutOfMemory)
        ⊎ IsErrAnd (script_of script.now) (λ line. fault ≡ ReplayFault.ScriptLine line)) }
{
    match check_script(alloc, script) {
        Ok(()) => Ok(()),
        Err(ScriptFault::Line(number)) => Err(ReplayFault::ScriptLine(number)),
        Err(ScriptFault::OutOfMemory) => Err(ReplayFault::OutOfMemory),
    }
}
