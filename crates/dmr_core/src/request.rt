//! A request that was received on the control slot.

use dmr_pdu::{Address, Options};

/// The fields of a C_RAND other than its flags and service kind (TS 102 361-4, clause 7.1.1).
#[derive(Clone, Copy, Debug, PartialEq, Eq)]
pub struct Request {
    /// The service options.
    pub options: Options,
    /// The radio that sends the request.
    pub source: Address,
    /// The radio, talkgroup or service that it calls.
    pub target: Address,
}
