//! Why events are not recorded.

use thiserror::Error;

/// Why events were not recorded. Nothing was appended. The number is the place of the event in the journal, counted
/// from 0; each earlier event can be recorded.
#[derive(Clone, Copy, PartialEq, Eq, Debug, Error)]
pub enum RecordingFault {
    /// The event has a carrier that the plan does not have.
    #[error("event {0} has a carrier that is not in the plan")]
    NotOfPlan(usize),
    /// The event is the Up of a carrier that is up already.
    #[error("event {0} is the Up of a carrier that is up already")]
    AlreadyUp(usize),
    /// The event has a carrier that is not up.
    #[error("event {0} has a carrier that is not up")]
    NotUp(usize),
    /// The event is a PDU that is not read from the burst that it is written as.
    #[error("event {0} has a PDU that no burst means")]
    NotHeard(usize),
    /// The event is a command that is not read from the line that it is written as: `drop 0`.
    #[error("event {0} has a command that no line means")]
    NotSaid(usize),
    /// Memory ran out.
    #[error("out of memory")]
    OutOfMemory,
}
