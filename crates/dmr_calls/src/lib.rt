//! The asks, lines and calls of a site (TS 102 361-4).
//!
//! An ask is an individual call whose target has yet to answer a C_AHOY. A line is a request that waits for
//! a free slot. A call is active on a slot. [`Calls`] keeps them in order and counts their ticks. It allocates its
//! memory when it is made, and none later. The registered radios are in `dmr_registry`, and the PDUs that wait for
//! slots in `dmr_pool`.
#![tactic(auto)]

mod answer;
mod ask;
mod call;
mod calls;
mod limits;
mod line;
mod party;
mod ticks;
mod turns;

pub use answer::{Counts, Due, Engagement, Full};
pub use ask::{ActiveAsk, Ask};
pub use call::{ActiveCall, Call};
pub use calls::{Calls, MOST_ASKS, MOST_CALLS, MOST_LINES};
pub use limits::limits_are_stated;
pub use line::Line;
pub use turns::talkgroup_calls_take_turns;
