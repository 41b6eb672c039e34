//! Actors that meet: one goes on only after another has made a number of steps.

ghost use Rattle.std.specs.Prelude.{None, ⊤};

use dmr_desk::{Pace, Pacer};
use dmr_link::Gate;
use dmr_wire::{Connect, Got, MemoryPort, Port, Put, Waited, Wire};
use std::sync::atomic::{AtomicU64, Ordering};
use std::thread;
use std::time::Duration;

/// The hold of the first step of its kind.
#[derive(Clone, Copy)]
pub enum Hold {
    /// The step is not held.
    Free,
    /// The step is refused.
    Shut,
    /// The step waits for the steps of another actor.
    Until {
        /// The number of the other actor.
        actor: usize,
        /// The number of steps that the other actor must have made. An event that it deposited by its gate, with the
        /// answer, is two.
        steps: u64,
    },
}

/// The clock, and the counts of the steps of all actors, by number. `None` if no step is held or counted.
pub type Counts<'a> = Option<(&'a HostRuntime, &'a [AtomicU64])>;

/// Counts the steps of an actor, and holds the first one that can be held. An actor makes a step at each attempt to
/// enter its gate, at each exit from it, at each silence of its port, and at each question to its pacer.
#[derive(Drop)]
pub struct Meeting<'a> {
    counts: Counts<'a>,
    actor: usize,
    hold: Hold,
}

impl<'a> Meeting<'a> {
    /// Counts the steps of this actor among those of all actors.
    pub fn new(counts: Counts<'a>, actor: usize, hold: Hold) -> Self {
        Meeting {
            counts,
            actor,
            hold,
        }
    }

    /// Counts a step that cannot be held.
    fn step(&self) {
        let Some((_, steps)) = self.counts else {
            return;
        };
        if let Some(made) = steps.get(self.actor) {
            made.fetch_add(1, Ordering::SeqCst);
        }
    }

    /// Counts a step that can be held. Returns `false` if it was refused, or if the other actor did not make its steps
    /// in time.
    fn held_step(&mut self) -> bool {
        self.step();
        let hold = self.hold;
        self.hold = Hold::Free;
        match hold {
            Hold::Free => true,
            Hold::Shut => false,
            Hold::Until { actor, steps } => self.waits_for(actor, steps),
        }
    }

    /// Waits until an actor has made `steps` steps, for at most 10,000 times 1 ms. Returns whether it has.
    fn waits_for(&self, actor: usize, steps: u64) -> bool {
        let Some((rt, counts)) = self.counts else {
            return false;
        };
        let Some(made) = counts.get(actor) else {
            return false;
        };
        for _ in 0..10_000 {
            if made.load(Ordering::SeqCst) >= steps {
                return true;
            }
            thread::sleep(rt, Duration::from_millis(1));
        }
        false
    }
}

/// The actor's gate. It states no record.
impl<'a> Gate for Meeting<'a> {
    ghost passed = { λ g. None };

    ghost shuts = { λ g h. ⊤ };

    fn enter(&mut self) -> bool {
        self.held_step()
    }

    fn leave(&mut self) {
        self.step();
    }
}

/// A port in memory whose first silence can be held. It states no record.
#[derive(Drop)]
pub struct MeetingPort<'a> {
    /// The port in memory.
    pub port: MemoryPort,
    /// Holds the first silence.
    pub meeting: Meeting<'a>,
}

impl<'a> Wire for MeetingPort<'a> {
    ghost reported = { λ p. None };

    fn read(&mut self, octets: &mut [u8]) -> Got {
        self.port.read(octets)
    }

    fn write(&mut self, octets: &[u8]) -> Put {
        self.port.write(octets)
    }
}

impl<'a> Port for MeetingPort<'a> {
    fn connect(&mut self) -> Connect {
        self.port.connect()
    }

    fn wait(&mut self) -> Waited {
        let waited = self.port.wait();
        if waited == Waited::Silent {
            self.meeting.held_step();
        }
        waited
    }
}

/// A pacer with these answers, whose first answer can be held. It states no record.
#[derive(Drop)]
pub struct MeetingPacer<'a> {
    /// Its answers. After the last one it is finished.
    pub paces: &'static [Pace],
    /// Holds the first answer.
    pub meeting: Meeting<'a>,
}

impl<'a> Pacer for MeetingPacer<'a> {
    ghost paced = { λ p. None };

    fn next(&mut self) -> Pace {
        self.meeting.held_step();
        match self.paces {
            [] => Pace::Finished,
            [first, rest @ ..] => {
                self.paces = rest;
                *first
            }
        }
    }
}
