//! The first pass over a script: checks its lines, and keeps nothing of them.

ghost use Rattle.std.specs.Prelude.{◌≡◌, ℕ, Ok, Err, IfOk, OnOk, not};
ghost use Rattle.dmr_replay.specs.Script.{given_in, is_faulty_line, script_of};

use crate::script::{ScriptFault, is_skipped, parse_line};
use dmr_pdu::OutOfMemory;
use std::alloc::Global;

/// Returns whether a line is a line of a script, or skipped.
fn is_line(alloc: Global, line: &[u8]) -> Result<bool, OutOfMemory>
    ensures { IfOk result (λ is. is ≡ not (is_faulty_line line.now)) }
{
    if is_skipped(line) {
        return Ok(true);
    }
    match parse_line(alloc, line) {
        Ok(input) => {
            let is = input.is_some();
            drop(input);
            Ok(is)
        }
        Err(OutOfMemory) => Err(OutOfMemory),
    }
}

/// Checks the lines of a script, in their order, and keeps nothing of them. The error is the number of the first line
/// at fault, or `OutOfMemory`.
pub fn check_script(alloc: Global, script: &[u8]) -> Result<(), ScriptFault>
    // At `Ok` no line is at fault.
    ensures lines { OnOk result (script_of script.now ≡ Ok (given_in script.now)) }
    // If a line number is returned, it is that of the first line at fault.
    ensures fault { (number : ℕ) → result ≡ Err (ScriptFault.Line number)
        → script_of script.now ≡ Err number }
{
    for (index, line) in script.split(|octet| *octet == b'\n').enumerate() {
        match is_line(alloc, line) {
            Ok(true) => {}
            Ok(false) => return Err(ScriptFault::Line(index + 1)),
            Err(OutOfMemory) => return Err(ScriptFault::OutOfMemory),
        }
    }
    Ok(())
}
