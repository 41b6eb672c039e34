//! Why nothing is served.

use dmr_command::ServeFault;
use dmr_pdu::OutOfMemory;

/// Why serving did not begin. What was opened is closed.
#[derive(Clone, Copy, Debug, PartialEq, Eq)]
pub enum NotServed {
    /// The program cannot listen at this port.
    CannotListen(u16),
    /// There was no poll for a port, the clock or the notes.
    NoPoll,
    /// An allocation was refused.
    OutOfMemory,
}

impl From<OutOfMemory> for NotServed {
    fn from(_refused: OutOfMemory) -> NotServed {
        NotServed::OutOfMemory
    }
}

impl From<NotServed> for ServeFault {
    ghost use Rattle.std.specs.Prelude.{◌≡◌};
    ghost use Rattle.dmr_trunk.specs.Faults.{fault_of_opening};

    ghost from_gives = { λ fault result. result ≡ fault_of_opening fault };

    fn from(fault: NotServed) -> ServeFault {
        match fault {
            NotServed::CannotListen(port) => ServeFault::CannotListen(port),
            NotServed::NoPoll => ServeFault::NoPoll,
            NotServed::OutOfMemory => ServeFault::OutOfMemory,
        }
    }
}
