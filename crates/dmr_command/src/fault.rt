//! Why serving ended: the faults, their texts and their exit statuses.

ghost use Rattle.std.specs.Prelude.{◌≡◌, ◌⊎◌};
ghost use Rattle.dmr_command.specs.Statuses.{status_of_fault};

use crate::status::AUDIT;
use dmr_desk::{CloseFault, OpenFault, TermFault};
use dmr_replay::{FAULT, MEMORY};
use std::fmt;

/// Why serving ended, or did not begin.
#[derive(Clone, Copy, Debug, PartialEq, Eq)]
pub enum ServeFault {
    /// The program cannot listen at this port. Nothing was served.
    CannotListen(u16),
    /// A term did not begin, a thread could not be started, or the term's audit found a fault.
    Term(TermFault),
    /// Memory ran out. Nothing was served.
    OutOfMemory,
    /// There was no poll for a port, the clock or the notes. Nothing was served.
    NoPoll,
}

impl ServeFault {
    /// The exit status.
    pub fn status(&self) -> u8
        ensures is { result ≡ status_of_fault self.now }
        ensures one { (result ≡ FAULT) ⊎ (result ≡ AUDIT) ⊎ (result ≡ MEMORY) }
    {
        match self {
            ServeFault::CannotListen(_) | ServeFault::NoPoll => FAULT,
            ServeFault::Term(TermFault::NoThread | TermFault::Open(OpenFault::OutOfMemory)) => {
                MEMORY
            }
            ServeFault::Term(_) => AUDIT,
            ServeFault::OutOfMemory => MEMORY,
        }
    }
}

impl fmt::Display for ServeFault {
    fn fmt<W: fmt::Write>(&self, f: &mut fmt::Formatter<W>) -> fmt::Result {
        match self {
            ServeFault::CannotListen(port) => write!(f, "cannot listen on port {port}"),
            ServeFault::Term(fault) => write_term_fault(*fault, f),
            ServeFault::OutOfMemory => write!(f, "out of memory"),
            ServeFault::NoPoll => write!(f, "no poll"),
        }
    }
}

/// Writes the text of a term's fault.
fn write_term_fault<W: fmt::Write>(fault: TermFault, f: &mut fmt::Formatter<W>) -> fmt::Result {
    match fault {
        TermFault::Audit(CloseFault::Differs(actor)) => {
            write!(f, "audit differs at actor {actor}")
        }
        TermFault::Audit(CloseFault::SeatMissing(actor)) => {
            write!(f, "seat missing for actor {actor}")
        }
        TermFault::Early(actor) => write!(f, "early end at actor {actor}"),
        TermFault::NoThread => write!(f, "no thread"),
        TermFault::Open(OpenFault::OutOfMemory) => write!(f, "out of memory"),
        // A plan has stations and a limit with which a term can begin.
        other => write!(f, "{other}"),
    }
}
