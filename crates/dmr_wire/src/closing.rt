//! How a link's connection was closed, as reported to its port.

use dmr_frames::Cause;

/// How a link's connection was closed (this project's profile).
#[derive(Clone, Copy, Debug, PartialEq, Eq)]
pub enum Closing {
    /// The connection's input ended, or the link cut it. Also the value before the first connection.
    Over,
    /// The carrier said BYE.
    Bye,
    /// A read failed, or was interrupted 17 times in a row.
    ReadFailed,
    /// A write failed, would have blocked, took no octet, or was interrupted 17 times in a row.
    WriteFailed,
    /// The carrier sent octets that break the link's rules.
    Bad(Cause),
    /// The carrier's HELLO was refused for this cause, which is BadVersion or WrongCarrier. These are its numbers.
    Refused(Cause, Hello),
}

/// The numbers of a HELLO as received; their ranges were not checked.
#[derive(Clone, Copy, Debug, PartialEq, Eq)]
pub struct Hello {
    /// The version of the link format that the carrier speaks.
    pub version: u8,
    /// The carrier's number within the site.
    pub carrier: u8,
    /// The logical physical channel number of its slots.
    pub lpcn: u16,
}
