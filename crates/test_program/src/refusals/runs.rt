//! Calls of the engine, with a story of two carriers and an operator.

use crate::refusals::calls::plan;
use crate::refusals::verdict::{Verdict, is_made, verdict_if};
use dmr_link::{Engine, Input, Outputs};
use dmr_pdu::CarrierNo;
use std::alloc::Global;

/// RX of radio 1001's registration on slot 0, and POLL.
const FIRST_JOINS: &[u8] = &[
    0x02, 0x1A, 0x00, 0x0E, 0xB4, 0x9C, 0xDF, 0x34, 0xF2, 0x74, 0x9C, 0xEC, 0xBA, 0x5C, 0xB3, 0xB7,
    0xC4, 0x0E, 0x88, 0x13, 0x8C, 0x9A, 0x38, 0xF9, 0x62, 0x48, 0xE1, 0x80, 0x03, 0x00,
];

/// RX of radio 1002's registration, and POLL.
const SECOND_JOINS: &[u8] = &[
    0x02, 0x1A, 0x00, 0x0E, 0x9C, 0x9C, 0xCF, 0x35, 0xFA, 0x76, 0x84, 0xEE, 0xCA, 0x58, 0x53, 0xA6,
    0x44, 0x2E, 0x88, 0x11, 0x8C, 0x90, 0x38, 0x6D, 0x63, 0xC8, 0xE2, 0x80, 0x03, 0x00,
];

/// RX of radio 1001's call of talkgroup 91, and POLL.
const FIRST_CALLS: &[u8] = &[
    0x02, 0x1A, 0x00, 0x02, 0xCB, 0x80, 0x23, 0x09, 0xA2, 0x15, 0x74, 0x38, 0x69, 0xDF, 0xF0, 0xB4,
    0x83, 0x0E, 0x04, 0x3E, 0x84, 0xD8, 0x00, 0xDD, 0x03, 0x90, 0x12, 0x30, 0x03, 0x00,
];

/// RX of radio 1002's call of talkgroup 91, and POLL.
const SECOND_CALLS: &[u8] = &[
    0x02, 0x1A, 0x00, 0x02, 0xE3, 0x80, 0x33, 0x08, 0xAA, 0x17, 0x6C, 0x3A, 0x19, 0xDB, 0x10, 0xA5,
    0x03, 0x2E, 0x04, 0x3C, 0x84, 0xD2, 0x00, 0x49, 0x02, 0x10, 0x11, 0x30, 0x03, 0x00,
];

/// The octets for carrier 0: WELCOME, then a TX and DONE for each POLL. The TX have two acknowledgements A00000C4, the
/// grant B1000018 and the late grant B100001C.
const PUT_OUT: &[u8] = &[
    0x81, 0x01, 0x01, 0x82, 0x1A, 0x00, 0x41, 0xC3, 0x02, 0x8A, 0x48, 0xFC, 0x8F, 0x40, 0x3D, 0xC0,
    0x6F, 0x00, 0xED, 0xA0, 0xF7, 0x83, 0xE4, 0x97, 0x54, 0x2E, 0x40, 0x5C, 0xB8, 0x3C, 0xB0, 0x83,
    0x00, 0x82, 0x1A, 0x00, 0x43, 0xC1, 0x00, 0x4A, 0x49, 0x6C, 0x8E, 0x48, 0x3C, 0xC0, 0x61, 0x40,
    0xE7, 0x60, 0xE6, 0x03, 0xD3, 0x97, 0x58, 0x2E, 0x44, 0x5C, 0x38, 0x2C, 0xD0, 0x83, 0x00, 0x82,
    0x1A, 0x00, 0x12, 0xF3, 0x00, 0xE5, 0x08, 0x74, 0x15, 0x48, 0x38, 0x40, 0x5B, 0xD0, 0xB1, 0x61,
    0x0A, 0x08, 0x20, 0x84, 0xB2, 0x20, 0x18, 0x03, 0x62, 0x90, 0x90, 0x83, 0x00, 0x82, 0x1A, 0x00,
    0x12, 0x96, 0x00, 0xAF, 0x08, 0x78, 0x15, 0x40, 0x3C, 0x10, 0x57, 0xF0, 0xB8, 0xA5, 0x19, 0x00,
    0x26, 0x84, 0xB6, 0x20, 0x54, 0x42, 0xCA, 0x92, 0xE0, 0x83, 0x00,
];

/// The octets for the operator.
const TOLD: &[u8] = b"status carriers 2 radios 2 asks 0 lines 0 calls 1 fill aloha\n";

/// Returns the story. Both carriers come up. Radios 1001 and 1002 register and call talkgroup 91, with a poll after
/// each request. Then an operator asks for the status.
fn story() -> [Input<'static>; 9] {
    let carrier = CarrierNo::new(0);
    let other = CarrierNo::new(1);
    [
        Input::Open(carrier),
        Input::Bytes(carrier, b"\x01\x04\x01\x00\x00\x01"),
        Input::Open(other),
        Input::Bytes(other, b"\x01\x04\x01\x01\x00\x02"),
        Input::Bytes(carrier, FIRST_JOINS),
        Input::Bytes(carrier, SECOND_JOINS),
        Input::Bytes(carrier, FIRST_CALLS),
        Input::Bytes(carrier, SECOND_CALLS),
        Input::Text(b"status\n"),
    ]
}

/// Returns a new engine.
fn engine(alloc: Global) -> Option<Engine> {
    Engine::new(alloc, plan(alloc)?).ok()
}

/// Makes an engine.
pub fn new_engine(alloc: Global) -> Verdict {
    let Some(plan) = plan(alloc) else {
        return Verdict::NotTried;
    };
    if is_made(Engine::new(alloc, plan)) {
        return Verdict::Done;
    }
    verdict_if(is_made(Engine::new(alloc, plan)), Verdict::Refused)
}

/// Runs an engine over the story. If memory is refused, the outputs are those of the inputs that the engine took, and
/// the remaining inputs on the same engine yield the rest.
pub fn run_engine(alloc: Global) -> Verdict {
    let Some((mut engine, other)) = engine(alloc).zip(engine(alloc)) else {
        return Verdict::NotTried;
    };
    let inputs = story();
    match engine.run(alloc, inputs.as_slice()) {
        Ok(outputs) => {
            drop(engine);
            drop(other);
            verdict_if(are_whole(&outputs, &Outputs::new(alloc)), Verdict::Done)
        }
        Err(fault) => {
            let front = inputs.get(..fault.done).unwrap_or(&[]);
            let back = inputs.get(fault.done..).unwrap_or(&[]);
            let same = writes_same(alloc, other, front, &fault.outputs);
            let whole = writes_the_rest(alloc, engine, back, &fault.outputs);
            verdict_if(same && whole, Verdict::Refused)
        }
    }
}

/// Returns the outputs of an engine for these inputs, and drops the engine. Returns `None` if memory is refused.
fn run_to_end(alloc: Global, mut engine: Engine, inputs: &[Input<'_>]) -> Option<Outputs> {
    let run = engine.run(alloc, inputs);
    drop(engine);
    run.ok()
}

/// Returns whether an engine writes the same outputs for these inputs.
fn writes_same(alloc: Global, engine: Engine, inputs: &[Input<'_>], outputs: &Outputs) -> bool {
    match run_to_end(alloc, engine, inputs) {
        Some(others) => {
            let (first, second) = (CarrierNo::new(0), CarrierNo::new(1));
            others.carrier(first) == outputs.carrier(first)
                && others.carrier(second) == outputs.carrier(second)
                && others.console() == outputs.console()
        }
        None => false,
    }
}

/// Returns whether an engine writes the rest of these outputs for these inputs.
fn writes_the_rest(alloc: Global, engine: Engine, inputs: &[Input<'_>], outputs: &Outputs) -> bool {
    match run_to_end(alloc, engine, inputs) {
        Some(rest) => are_whole(outputs, &rest),
        None => false,
    }
}

/// Returns whether outputs and later ones are together the outputs of the whole story.
fn are_whole(first: &Outputs, rest: &Outputs) -> bool {
    let (carrier, other) = (CarrierNo::new(0), CarrierNo::new(1));
    joins(first.carrier(carrier), rest.carrier(carrier), PUT_OUT)
        && joins(first.carrier(other), rest.carrier(other), b"\x81\x01\x01")
        && joins(first.console(), rest.console(), TOLD)
}

/// Returns whether octets and later ones are together a whole.
fn joins(first: &[u8], rest: &[u8], whole: &[u8]) -> bool {
    whole.starts_with(first) && whole.get(first.len()..) == Some(rest)
}
