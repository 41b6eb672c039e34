//! A gate and a pacer that report their records.

ghost use Rattle.std.specs.Prelude.{◌≡◌, ◌∷◌, ◌+◌, ◌≤◌, [], false, IfOk, Some};
ghost use Rattle.dmr_link.specs.Passages.{Passes};
ghost use Rattle.test_witness.specs.Recorders.{passage_of, passages_of_gate};

use dmr_desk::{Pace, Pacer};
use dmr_link::Gate;
use dmr_pdu::OutOfMemory;
use std::alloc::Global;

/// How a gate was passed.
#[derive(Clone, Copy, Debug, PartialEq, Eq)]
pub enum Pass {
    /// It was entered.
    Entered,
    /// It was left.
    Left,
}

/// A gate that is never shut. It reports how it was passed, until its room is used up.
#[derive(Debug, Drop)]
pub struct RecordingGate {
    passes: Vec<Pass>,
    is_over: bool,
}

impl RecordingGate {
    /// Makes a gate that was not passed yet, with room for a record of `room` passages. On an error an allocation was
    /// refused.
    pub fn new(alloc: Global, room: usize) -> Result<RecordingGate, OutOfMemory>
        ensures { IfOk result (λ gate. passages_of_gate gate ≡ Some []) }
    {
        Ok(RecordingGate {
            passes: Vec::with_capacity(alloc, room)?,
            is_over: false,
        })
    }

    /// Keeps a passage, or ends the record if there is no room.
    fn add(&mut self, pass: Pass)
        ensures { Passes (passages_of_gate self.old) (passage_of pass ∷ [])
            (passages_of_gate self.new) }
    {
        if self.is_over || self.passes.len() == self.passes.capacity() {
            self.is_over = true;
            return;
        }
        self.passes.push_reserved(pass);
    }
}

impl Gate for RecordingGate {
    ghost passed = { passages_of_gate };

    ghost shuts = { λ g h. ⊥ };

    fn enter(&mut self) -> bool {
        self.add(Pass::Entered);
        true
    }

    fn leave(&mut self) {
        self.add(Pass::Left);
    }
}

/// A pacer that reports a number of ticks as due, and then that there are no more. It says how many it reported.
#[derive(Debug, Drop)]
pub struct CountingPacer {
    /// How many ticks it has reported as due.
    pub given: u32,
    left: u32,
    ghost whole: { given + left ≤ 4294967295 },
    finished: bool,
}

impl CountingPacer {
    /// Makes a pacer of this many ticks.
    pub fn new(ticks: u32) -> CountingPacer
        ensures given { result.given ≡ 0 }
    {
        CountingPacer {
            given: 0,
            left: ticks,
            finished: false,
        }
    }
}

impl Pacer for CountingPacer {
    ghost paced = { λ p. Some (record { ticks = p.given; finished = p.finished }) };

    fn next(&mut self) -> Pace {
        if self.left == 0 {
            self.finished = true;
            return Pace::Finished;
        }
        self.left -= 1;
        self.given += 1;
        self.finished = false;
        Pace::Tick
    }
}
