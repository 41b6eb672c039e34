//! The second pass over a script: runs its lines, one by one, through an engine.
//!
//! Lines are checked before (`checking::check_script`). Here each is read again, so neither the lines nor the ticks
//! that they ask for are kept in a list.

ghost use Rattle.std.specs.Prelude.{◌≡◌, ◌++◌, ◌∷◌, ℕ, List, [], IfOk, OnOk, replicate};
ghost use Rattle.std.specs.Prelude.{slice_index_or};
ghost use Rattle.std.specs.List.{filter_map};
ghost use Rattle.dmr_link.specs.Input.{Input as AnInput};
ghost use Rattle.dmr_link.specs.Inputs.{Writes};
ghost use Rattle.dmr_link.specs.State.{State};
ghost use Rattle.dmr_replay.specs.Inputs.{octets_written, operators_text};
ghost use Rattle.dmr_replay.specs.Script.{given_in, inputs_of_script, line_input, repeated_input};

use crate::script::{ScriptInput, is_skipped, parse_line};
use dmr_core::one_legal_journal;
use dmr_link::laws::steps_make_runs;
use dmr_link::{Engine, Outputs};
use dmr_pdu::OutOfMemory;
use dmr_plan::Plan;
use std::alloc::Global;

/// Processes the input of a line, as often as the line says, and appends the octets that answer it to `outputs`.
fn run_input(
    engine: &mut Engine,
    input: &ScriptInput,
    outputs: &mut Outputs,
) -> Result<(), OutOfMemory>
    ensures { OnOk result ((s : State) (before : List AnInput)
        → Writes s engine.old outputs.old before
        → Writes s engine.new outputs.new (before
        ++ replicate (repeated_input input.now).times (repeated_input input.now).input)) }
{
    for _ in 0..input.times() {
        match input.apply(engine, outputs) {
            Ok(()) => {}
            Err(OutOfMemory) => return Err(OutOfMemory),
        }
    }
    Ok(())
}

/// Processes the inputs of a line, of which there are none if it is skipped or at fault.
fn run_line(
    alloc: Global,
    engine: &mut Engine,
    line: &[u8],
    outputs: &mut Outputs,
) -> Result<(), OutOfMemory>
    ensures { OnOk result ((s : State) (before : List AnInput)
        → Writes s engine.old outputs.old before
        → Writes s engine.new outputs.new
        (before ++ inputs_of_script (filter_map line_input (line.now ∷ [])))) }
{
    if is_skipped(line) {
        return Ok(());
    }
    match parse_line(alloc, line) {
        Ok(Some(input)) => {
            let run = run_input(engine, &input, outputs);
            drop(input);
            run
        }
        Ok(None) => Ok(()),
        Err(OutOfMemory) => Err(OutOfMemory),
    }
}

/// Processes the inputs of a script's lines in their order, and returns the octets written for them.
fn run_script(alloc: Global, engine: &mut Engine, script: &[u8]) -> Result<Outputs, OutOfMemory>
    ensures { IfOk result (λ outputs. Writes engine.old engine.new outputs
        (inputs_of_script (given_in script.now))) }
{
    steps_make_runs();
    let mut outputs = Outputs::new(alloc);
    for line in script.split(|octet| *octet == b'\n') {
        match run_line(alloc, engine, line, &mut outputs) {
            Ok(()) => {}
            Err(OutOfMemory) => return Err(OutOfMemory),
        }
    }
    Ok(outputs)
}

/// Returns the output for the inputs of a script's lines, from a new site without connections. `Err`: out of memory.
pub fn outputs_of(alloc: Global, plan: &Plan, script: &[u8]) -> Result<Outputs, OutOfMemory>
    ensures carriers { IfOk result (λ outputs. (c : ℕ) → slice_index_or outputs.carriers c []
        ≡ octets_written plan.now (inputs_of_script (given_in script.now)) c) }
    ensures console { IfOk result (λ outputs. outputs.console
        ≡ operators_text plan.now (inputs_of_script (given_in script.now))) }
{
    one_legal_journal();
    steps_make_runs();
    let mut engine = Engine::new(alloc, *plan)?;
    engine.use_invariant();
    let run = run_script(alloc, &mut engine, script);
    drop(engine);
    run
}
