//! Causes: why a connection to a port ended, in words.

ghost use Rattle.std.specs.Prelude.{◌≡◌};
ghost use Rattle.dmr_port.specs.Causes.{cause_of_closing};

use crate::whose::Whose;
use dmr_frames::Cause as Fault;
use dmr_wire::{Closing, Hello};
use std::fmt;

/// Why a connection ended.
#[derive(Clone, Copy, Debug, PartialEq, Eq)]
pub enum CloseCause {
    /// The other side ended its output.
    EndOfInput,
    /// A read failed, for example because the other side reset the connection.
    ReadFault,
    /// A write failed.
    WriteFault,
    /// The other side did not read, and no more octets could be written to it.
    NotRead,
    /// No octet came for as long as the site file allows.
    Silence,
    /// No whole HELLO came for as long as the site file allows.
    NoHello,
    /// A line of an operator did not end for as long as the site file allows.
    OpenLine,
    /// A newcomer that sent this carrier's HELLO took the connection's place.
    Displaced,
    /// The connection to the operators' port began with a method of HTTP and a space.
    Http,
    /// The carrier said BYE.
    Bye,
    /// The carrier broke the link's rules.
    LinkFault(Fault),
    /// The carrier's HELLO, with these numbers, was refused on this port.
    Refused {
        /// Why it was refused.
        fault: Fault,
        /// The numbers of the HELLO.
        hello: Hello,
        /// The port.
        whose: Whose,
    },
    /// The controller ended the connection, or could not serve it, and no other cause is known.
    Controller,
}

impl CloseCause {
    /// Returns the cause for a link's report of how it closed the connection to a port.
    pub fn of_closing(closing: Closing, whose: Whose) -> CloseCause
        ensures { result ≡ cause_of_closing closing whose }
    {
        match closing {
            Closing::Over => CloseCause::Controller,
            Closing::Bye => CloseCause::Bye,
            Closing::ReadFailed => CloseCause::ReadFault,
            Closing::WriteFailed => CloseCause::WriteFault,
            Closing::Bad(fault) => CloseCause::LinkFault(fault),
            Closing::Refused(fault, hello) => CloseCause::Refused {
                fault,
                hello,
                whose,
            },
        }
    }
}

impl fmt::Display for CloseCause {
    fn fmt<W: fmt::Write>(&self, f: &mut fmt::Formatter<W>) -> fmt::Result {
        match self {
            CloseCause::EndOfInput => write!(f, "end of input"),
            CloseCause::ReadFault => write!(f, "a read failed"),
            CloseCause::WriteFault => write!(f, "a write failed"),
            CloseCause::NotRead => write!(f, "what was written was not read"),
            CloseCause::Silence => write!(f, "silence"),
            CloseCause::NoHello => write!(f, "no HELLO"),
            CloseCause::OpenLine => write!(f, "a line did not end"),
            CloseCause::Displaced => write!(f, "displaced by a newcomer"),
            CloseCause::Http => write!(f, "a request of HTTP"),
            CloseCause::Bye => write!(f, "BYE"),
            CloseCause::LinkFault(fault) => write!(f, "link fault: {fault}"),
            CloseCause::Refused {
                fault,
                hello,
                whose,
            } => {
                write!(f, "link fault: {fault} (")?;
                write_numbers(*fault, *hello, *whose, f)?;
                write!(f, ")")
            }
            CloseCause::Controller => write!(f, "by the controller"),
        }
    }
}

/// Writes the numbers for which a HELLO was refused: its version; or its carrier and channel, and those of the port.
fn write_numbers<W: fmt::Write>(
    fault: Fault,
    hello: Hello,
    whose: Whose,
    f: &mut fmt::Formatter<W>,
) -> fmt::Result {
    match (fault, whose) {
        (Fault::WrongCarrier, Whose::Carrier { number, lpcn }) => write!(
            f,
            "carrier {}, LPCN {} came; carrier {number}, LPCN {lpcn} expected",
            hello.carrier, hello.lpcn
        ),
        _ => write!(f, "version {} came", hello.version),
    }
}
