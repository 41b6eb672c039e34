//! Why a desk is not opened, or returns no report, or a term fails.

use thiserror::Error;

/// Why a desk is not opened: the first fault that applies. `open` returns the site unchanged; the blank is used up.
#[derive(Clone, Copy, PartialEq, Eq, Debug, Error)]
pub enum OpenFault {
    /// The limit of the journal is not in the range 1 to 100,000.
    #[error("a journal has room for 1 to 100,000 entries")]
    BadLimit,
    /// The number of actors is not in the range 1 to 18.
    #[error("a desk has 1 to 18 actors")]
    BadActors,
    /// An allocation was refused.
    #[error("out of memory")]
    OutOfMemory,
}

/// Why a desk returns no report: the first fault that applies, with the least such actor. The desk, with its site and
/// journal, and the seats are lost.
#[derive(Clone, Copy, PartialEq, Eq, Debug, Error)]
pub enum CloseFault {
    /// The call received no seat of this actor, which is one of the desk's.
    #[error("the seat of actor {0} is missing")]
    SeatMissing(u8),
    /// The deposits of this actor's seat differ from the journal's list for the actor. It is proved that the site, the
    /// limit and the number of actors in the lock are those that the desk was opened with.
    #[error("the seat of actor {0} differs from the journal")]
    Differs(u8),
}

/// Why there is no term: the first fault that applies. The function says what is left of the arguments.
#[derive(Clone, Copy, PartialEq, Eq, Debug, Error)]
pub enum TermFault {
    /// The stations are not one for each carrier of the plan, in the order of their numbers. No thread was started.
    #[error("there is not one station for each carrier, by number")]
    BadStations,
    /// The desk was not opened, or there was no memory for the workers' results. No thread was started.
    #[error("the desk was not opened: {0}")]
    Open(OpenFault),
    /// A thread could not be started. The desk then took no further event, and each started worker has ended, when it
    /// next asked whether the term is over. The events that the workers had deposited are lost with the site.
    #[error("a thread could not be started")]
    NoThread,
    /// The workers have ended, and the desk returned no report. It is proved that no seat is missing.
    #[error("no report: {0}")]
    Audit(CloseFault),
    /// The workers have ended, and this actor, the least such, received the answer that the term is over while the
    /// journal was below its limit.
    #[error("actor {0} was told too early that the term is over")]
    Early(u8),
}
