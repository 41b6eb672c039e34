//! Tests of engines over the common site: inputs, in one run and step by step, and the octets that the engine writes.

use crate::links::frames::{
    ACCEPTED, DONE, FILL, HELLO_0, HELLO_1, OTHER_CARRIER, POLL, REGISTERS, WELCOME,
};
use crate::site_file::{SMALL, plan_of};
use dmr_link::{Engine, Input, Outputs};
use dmr_pdu::{CarrierNo, OutOfMemory};
use std::alloc::Global;
use std::process::Abort;
use std::test::Fail;

/// Octets, in pieces that are joined.
type Pieces = &'static [&'static [u8]];

/// What an engine writes.
#[derive(Clone, Copy)]
struct Written {
    /// To carrier 0.
    first: Pieces,
    /// To carrier 1.
    second: Pieces,
    /// To operators.
    operators: Pieces,
}

/// Nothing.
const NOTHING: Written = Written {
    first: &[],
    second: &[],
    operators: &[],
};

/// The reply to `status` on a site with no carrier up, no radio, ask, line or call.
const QUIET: &[u8] = b"status carriers 0 radios 0 asks 0 lines 0 calls 0 fill aloha\n";

/// Checks that a new engine writes exactly these octets, in one run, and step by step; and that none are left once the
/// outputs are cleared.
fn check_outputs(
    rt: &(impl Abort + AllocGlobal),
    name: &str,
    inputs: &[Input<'_>],
    wanted: &Written,
) -> Result<(), Fail> {
    let outputs = outputs_of_run(rt.alloc(), inputs)?;
    check_written(rt, name, &outputs, wanted)?;
    let mut outputs = outputs_by_steps(rt.alloc(), inputs)?;
    check_written(rt, name, &outputs, wanted)?;
    outputs.clear();
    check_written(rt, name, &outputs, &NOTHING)?;
    Ok(())
}

/// Returns a new engine.
fn engine(alloc: Global) -> Result<Engine, Fail> {
    Ok(Engine::new(alloc, plan_of(alloc, SMALL)?)?)
}

/// Returns the octets that an engine writes if it takes all inputs in one run.
fn outputs_of_run(alloc: Global, inputs: &[Input<'_>]) -> Result<Outputs, Fail> {
    let mut engine = engine(alloc)?;
    match engine.run(alloc, inputs) {
        Ok(outputs) => Ok(outputs),
        Err(_) => Err("memory".into()),
    }
}

/// Returns the octets that an engine writes if it takes the inputs in steps.
fn outputs_by_steps(alloc: Global, inputs: &[Input<'_>]) -> Result<Outputs, Fail> {
    let mut engine = engine(alloc)?;
    let mut outputs = Outputs::new(alloc);
    for input in inputs.iter().copied() {
        engine.step(input, &mut outputs)?;
    }
    Ok(outputs)
}

/// Checks that exactly these octets were written for each carrier and for operators.
fn check_written(
    rt: &(impl Abort + AllocGlobal),
    name: &str,
    outputs: &Outputs,
    wanted: &Written,
) -> Result<(), OutOfMemory> {
    check_octets(rt, name, outputs.carrier(CarrierNo::new(0)), wanted.first)?;
    check_octets(rt, name, outputs.carrier(CarrierNo::new(1)), wanted.second)?;
    for number in 2..16 {
        let carrier = CarrierNo::try_new(number).unwrap_or(CarrierNo::new(0));
        assert!(rt;
            outputs.carrier(carrier).is_empty(),
            "{name}, carrier {number}"
        );
    }
    check_octets(rt, name, outputs.console(), wanted.operators)
}

/// Checks that octets are these pieces, joined.
fn check_octets(
    rt: &(impl Abort + AllocGlobal),
    name: &str,
    octets: &[u8],
    pieces: Pieces,
) -> Result<(), OutOfMemory> {
    let mut joined = Vec::new(rt.alloc());
    for piece in pieces {
        joined.extend_from_slice(*piece)?;
    }
    assert_eq!(rt; octets, joined.as_slice(), "{name}");
    Ok(())
}

#[test]
fn carriers_are_answered(rt: HostRuntime) -> Result<(), Fail> {
    let first = CarrierNo::new(0);
    let registers = [
        Input::Open(first),
        Input::Bytes(first, HELLO_0),
        Input::Bytes(first, REGISTERS),
        Input::Tick,
        Input::Bytes(first, POLL),
    ];
    let accepted = Written {
        first: &[WELCOME, ACCEPTED, DONE],
        ..NOTHING
    };
    check_outputs(&rt, "hello, registration and poll", &registers, &accepted)?;
    // A piece without octets, and later octets after a cut.
    let cut = [
        Input::Open(first),
        Input::Bytes(first, HELLO_0),
        Input::Tick,
        Input::Bytes(first, &[]),
        Input::Bytes(first, POLL),
        Input::Cut(first),
        Input::Bytes(first, POLL),
    ];
    let filled = Written {
        first: &[WELCOME, FILL, DONE],
        ..NOTHING
    };
    check_outputs(&rt, "steps with ample memory", &cut, &filled)?;
    check_outputs(&rt, "no inputs", &[], &NOTHING)
}

/// Octets and cuts have no effect without an open connection, and on a carrier that the site doesn't have. Each of two
/// carriers has its own connection.
#[test]
fn carriers_are_apart(rt: HostRuntime) -> Result<(), Fail> {
    let (first, second, unlisted) = (CarrierNo::new(0), CarrierNo::new(1), CarrierNo::new(9));
    let inputs = [
        Input::Bytes(first, HELLO_0),
        Input::Cut(first),
        Input::Open(unlisted),
        Input::Bytes(unlisted, HELLO_0),
        Input::Cut(unlisted),
        Input::Open(second),
        Input::Open(first),
        Input::Bytes(second, HELLO_1),
        Input::Bytes(first, HELLO_1),
        Input::Bytes(second, POLL),
    ];
    let wanted = Written {
        first: &[OTHER_CARRIER],
        second: &[WELCOME, DONE],
        ..NOTHING
    };
    check_outputs(&rt, "carriers apart", &inputs, &wanted)
}

/// An incomplete line survives the carriers' connections, and clock ticks.
#[test]
fn operators_are_answered(rt: HostRuntime) -> Result<(), Fail> {
    let first = CarrierNo::new(0);
    let quiet = Written {
        operators: &[QUIET],
        ..NOTHING
    };
    check_outputs(&rt, "status", &[Input::Text(b"status\n")], &quiet)?;
    let inputs = [
        Input::Text(b"sta"),
        Input::Open(first),
        Input::Bytes(first, HELLO_0),
        Input::Text(b"t"),
        Input::Cut(first),
        Input::Tick,
        Input::Text(b"us\nst"),
    ];
    let wanted = Written {
        first: &[WELCOME],
        operators: &[QUIET],
        ..NOTHING
    };
    check_outputs(&rt, "open line outlives links", &inputs, &wanted)
}
