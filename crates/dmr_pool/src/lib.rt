//! The slots of a trunked site: which carriers are up, which slots calls hold, which PDUs wait, and which slots are
//! free.
//!
//! A carrier has two slots (TS 102 361-1, clause 4.2). Slot 0 of the plan's control carrier is the control slot; each
//! other slot can carry a call. By this project's profile, a slot is free for a call if all of these hold:
//!
//! - its carrier is in the plan and up;
//! - it is not the control slot;
//! - no call holds it;
//! - no PDU waits for it;
//! - no grant of it waits for the control slot.
//!
//! A [`Pool`] allocates its memory when it is made, and none later. The calls themselves are in `dmr_calls`.
#![tactic(auto)]

mod limits;
mod marks;
mod outbox;
mod outboxes;
mod pool;

pub use limits::limits_are_stated;
pub use outbox::MOST_PDUS_OF_A_SLOT;
pub use pool::{Full, Pool};
