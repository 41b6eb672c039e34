//! The owner of a port.

use dmr_pdu::{CarrierNo, Lpcn};
use std::fmt;

/// The owner of a port.
#[derive(Clone, Copy, Debug, PartialEq, Eq)]
pub enum Whose {
    /// A carrier: its number within the site, and the channel number of its slots, as the site file has them.
    Carrier {
        /// The carrier's number.
        number: CarrierNo,
        /// The channel number.
        lpcn: Lpcn,
    },
    /// The operators.
    Console,
}

impl fmt::Display for Whose {
    fn fmt<W: fmt::Write>(&self, f: &mut fmt::Formatter<W>) -> fmt::Result {
        match self {
            Whose::Carrier { number, lpcn: _ } => write!(f, "carrier {number}"),
            Whose::Console => write!(f, "console"),
        }
    }
}
