//! The faults of a site file.

use crate::key::Key;
use thiserror::Error;

/// Why a site file is not accepted: its first fault, in the order in which keys are checked ([`Key`]). A fault has no
/// other effect.
#[derive(Clone, Copy, PartialEq, Eq, Debug, Error)]
pub enum PlanFault {
    /// The text breaks the grammar of TOML or has a key twice, or a whole number is not from -2^63 to 2^63 - 1. A key
    /// of more than 80 parts, and more than 80 arrays and inline tables in one another, have this fault too.
    #[error("not TOML")]
    NotToml,
    /// The key is required and missing.
    #[error("missing {0}")]
    Missing(Key),
    /// The value at the key, or an item of its array, is of another type. This is also the fault of an inner array of
    /// `radios` without exactly two numbers, and of an `address` without exactly four.
    #[error("wrong type {0}")]
    WrongType(Key),
    /// A number, or the count of an array, is out of the key's range. This is also the fault of a range of radios whose
    /// first address is above its last, and of a control carrier that is not in the file.
    #[error("out of range {0}")]
    OutOfRange(Key),
    /// The number is one of an earlier place from which it must differ.
    #[error("repeated {0}")]
    Repeated(Key),
    /// An allocation was refused while the text was parsed.
    #[error("out of memory")]
    OutOfMemory,
}
