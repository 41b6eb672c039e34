//! The steps of a port in memory, sorted by kind of call.

ghost use Rattle.std.specs.Prelude.{◌≡◌, ◌==◌, ◌+◌, ◌≤◌, ◌∷◌, ◌++◌, [], length, take, drop, min};
ghost use Rattle.std.specs.Prelude.{vec_len, IfOk};
ghost use Rattle.std.specs.VecDeque.{deque_len, deque_capacity};
ghost use Rattle.dmr_wire.specs.Memory.{next_got, next_octets, reads_left};
ghost use Rattle.dmr_wire.specs.Sorting.{HasRoom, IsEmpty, Follows};

use crate::port::{Connect, Waited};
use crate::step::Step;
use crate::wire::{Got, Put};
use dmr_pdu::OutOfMemory;
use std::alloc::Global;
use std::collections::VecDeque;
use std::marker::Model;

/// Octets that come in one piece. Contracts see their list.
#[derive(Debug, Drop)]
pub struct Piece {
    octets: Vec<u8>,
}

impl Model for Piece {
    ghost use Rattle.std.specs.Prelude.{ℕ, List};

    ghost Value = { List ℕ };

    ghost view = { λ p. p.octets.items };
}

impl Piece {
    /// Makes the piece of these octets.
    pub fn new(octets: Vec<u8>) -> Piece
        ensures { result ≡ octets.items }
    {
        Piece { octets }
    }

    /// Whether no octet is left.
    pub fn is_empty(&self) -> bool
        ensures { result ≡ (length self.now == 0) }
    {
        self.octets.is_empty()
    }

    /// Moves the first octets to the front of the slice, as many as the slice holds, and returns their number.
    pub fn read_into(&mut self, into: &mut [u8]) -> usize
        ensures count { result ≡ min (length self.old) (length into.old) }
        ensures given { into.new ≡ take result self.old ++ drop result into.old }
        ensures left { self.new ≡ drop result self.old }
    {
        let count = self.octets.len().min(into.len());
        into[..count].copy_from_slice(&self.octets[..count]);
        self.octets.drain(..count);
        count
    }
}

/// The answer to a read, or to several.
#[derive(Debug, Drop)]
pub enum Reading {
    /// These octets, each read as many as its slice holds.
    Feed(Piece),
    /// One read answers this, without octets.
    Says(Got),
}

/// The remaining steps, by kind, the next of each kind first.
#[derive(Debug, Drop)]
pub struct Script {
    /// Those of requests for a connection.
    pub connects: VecDeque<Connect>,
    /// Those of reads.
    pub reads: VecDeque<Reading>,
    /// Those of writes.
    pub writes: VecDeque<Put>,
    /// Those of waits.
    pub waits: VecDeque<Waited>,
}

impl Script {
    /// Makes a script without steps, with room for `count` steps of each kind. On an error an allocation was refused.
    pub fn new(alloc: Global, count: usize) -> Result<Script, OutOfMemory>
        ensures room { IfOk result (λ script. HasRoom script count) }
        ensures none { IfOk result IsEmpty }
    {
        Ok(Script {
            connects: VecDeque::with_capacity(alloc, count)?,
            reads: VecDeque::with_capacity(alloc, count)?,
            writes: VecDeque::with_capacity(alloc, count)?,
            waits: VecDeque::with_capacity(alloc, count)?,
        })
    }

    /// Appends steps, each to those of its kind. There must be room for them.
    pub fn add_all(&mut self, steps: Vec<Step>)
        requires { HasRoom self.old (vec_len steps) }
        ensures { Follows self.old self.new steps.items }
    {
        for step in steps {
            self.add(step);
        }
    }

    /// Appends a step to those of its kind. There must be room for it.
    fn add(&mut self, step: Step)
        requires { HasRoom self.old 1 }
        ensures added { Follows self.old self.new (step ∷ []) }
        ensures connects { deque_capacity self.new.connects ≡ deque_capacity self.old.connects }
        ensures reads { deque_capacity self.new.reads ≡ deque_capacity self.old.reads }
        ensures writes { deque_capacity self.new.writes ≡ deque_capacity self.old.writes }
        ensures waits { deque_capacity self.new.waits ≡ deque_capacity self.old.waits }
    {
        match step {
            Step::Connect(answer) => self.connects.push_back_reserved(answer),
            Step::Feed(octets) => {
                if !octets.is_empty() {
                    let piece = Piece::new(octets);
                    self.reads.push_back_reserved(Reading::Feed(piece));
                }
            }
            Step::Read(Got::Octets(_)) => {}
            Step::Read(answer) => self.reads.push_back_reserved(Reading::Says(answer)),
            Step::Write(answer) => self.writes.push_back_reserved(answer),
            Step::Wait(answer) => self.waits.push_back_reserved(answer),
        }
    }
}

/// Answers a read by the next item for reads: writes its octets to the front of the slice, or answers without octets.
pub fn read_next(reads: &mut VecDeque<Reading>, into: &mut [u8]) -> Got
    ensures got { result ≡ next_got reads.old.items (length into.old) }
    ensures octets { let given = next_octets reads.old.items (length into.old) in
        into.new ≡ given ++ drop (length given) into.old }
    ensures left { reads.new.items ≡ reads_left reads.old.items (length into.old) }
{
    match reads.pop_front() {
        None => Got::End,
        Some(Reading::Says(answer)) => answer,
        Some(Reading::Feed(mut piece)) => {
            let count = piece.read_into(into);
            if !piece.is_empty() {
                reads.push_front_reserved(Reading::Feed(piece));
            }
            Got::Octets(count)
        }
    }
}
