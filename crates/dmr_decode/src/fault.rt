//! Why a task ended, in words for people.

use crate::printable::Printable;
use dmr_replay::ReplayFault;
use std::alloc::{AllocError, AllocFailed};
use std::{fmt, io};

/// The fault of a task.
#[derive(Clone, Copy)]
pub enum TaskFault<'a> {
    /// No task has the name.
    NoSuchTask,
    /// The input is not hexadecimal digits, two for each octet.
    NotHex,
    /// The input is not the 25 octets of a word.
    NotWord,
    /// One of the four bits after a word is 1.
    BadPad,
    /// The input is not ten octets.
    NotTen,
    /// The input is not a PDU in words, since there are no words.
    NoName,
    /// No PDU has this name.
    NoSuchPdu(&'a str),
    /// The PDU has no field of the name before the `=`, or there is no `=`.
    NoSuchField(&'a str),
    /// The value of this field is not a number or the name of a value, is out of its range, or is `lpcn` and missing.
    /// Of `OTHER`: its word is not ten octets.
    BadValue(&'a str),
    /// The site file is at fault, memory ran out while it was read, or a line of the script of a judged session is at
    /// fault.
    Replay(ReplayFault<'a>),
    /// The site file with this path is too long.
    LongSite(&'a str),
    /// The output could not be written in full.
    CannotWrite,
    /// Memory ran out while the output was made.
    OutOfMemory,
    /// Memory ran out before that.
    Memory,
}

impl<'a> TaskFault<'a> {
    /// Returns the text of the fault, and the part of the input that comes after it.
    fn text(&self) -> (&'static str, &'a str) {
        match *self {
            TaskFault::NoSuchTask => ("there is no such task", ""),
            TaskFault::NotHex => ("not hexadecimal digits, two an octet", ""),
            TaskFault::NotWord => ("not the 25 octets of a word", ""),
            TaskFault::BadPad => ("not a word: its last four bits are not 0", ""),
            TaskFault::NotTen => ("not ten octets", ""),
            TaskFault::NoName => ("a PDU begins with its name", ""),
            TaskFault::NoSuchPdu(name) => ("no PDU is called ", name),
            TaskFault::NoSuchField(word) => ("the PDU has no such field: ", word),
            TaskFault::BadValue(name) => ("no value, or out of range: ", name),
            TaskFault::CannotWrite => ("cannot write", ""),
            TaskFault::OutOfMemory => ("out of memory", ""),
            TaskFault::Memory => ("memory allocation failed", ""),
            TaskFault::Replay(_) | TaskFault::LongSite(_) => ("", ""),
        }
    }
}

impl fmt::Display for TaskFault<'_> {
    fn fmt<W: fmt::Write>(&self, f: &mut fmt::Formatter<W>) -> fmt::Result {
        match self {
            TaskFault::Replay(fault) => write!(f, "{fault}"),
            TaskFault::LongSite(path) => write!(f, "{path} has more than 1 MiB"),
            fault => {
                let (text, input) = fault.text();
                write!(f, "{text}{}", Printable(input))
            }
        }
    }
}

impl<'a> From<ReplayFault<'a>> for TaskFault<'a> {
    fn from(fault: ReplayFault<'a>) -> Self {
        TaskFault::Replay(fault)
    }
}

impl From<io::Error> for TaskFault<'_> {
    fn from(error: io::Error) -> Self {
        match error.kind() {
            io::ErrorKind::OutOfMemory => TaskFault::OutOfMemory,
            _ => TaskFault::CannotWrite,
        }
    }
}

impl From<AllocError> for TaskFault<'_> {
    fn from(_refused: AllocError) -> Self {
        TaskFault::Memory
    }
}

impl<T: Drop> From<AllocFailed<T>> for TaskFault<'_> {
    fn from(_refused: AllocFailed<T>) -> Self {
        TaskFault::Memory
    }
}
