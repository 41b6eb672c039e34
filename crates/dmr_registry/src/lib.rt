//! The registered radios of a site.
//!
//! A radio registers before it may call, and remains registered until it leaves or an operator drops it (TS 102 361-4;
//! the drop is this project's profile). A [`Registry`] is the set of those radios, in the order in which they joined.
//! It allocates its memory when it is made, and none later.
#![tactic(auto)]

mod limits;
mod registry;

pub use limits::limits_are_stated;
pub use registry::{Full, MOST_RADIOS, Registry};
