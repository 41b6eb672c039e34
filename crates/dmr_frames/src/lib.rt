//! Link frames of versions 1 and 2 (this project's profile): the octets that a carrier and the site exchange.
//!
//! A frame is a type octet, a length octet that counts its body's octets, and the body. A `Cutter` takes a carrier's
//! octets one by one, so it does not matter in which pieces they come, and returns each frame at its last octet.
//! `append_spelling` and `write_frame` spell the frames that go to a carrier. Nothing here allocates memory.
//!
//! The versions differ in RX and TX, which in version 2 have a number octet before the slot. The first frame of a
//! connection is of version
//! 1. If it is a HELLO of version 2, and version 2 is served, those after it are of version 2.
#![tactic(auto)]

mod cutter;
mod frame;
pub mod laws;
mod table;
mod version;
mod whole;
mod write;

pub use cutter::{Cutter, Step};
pub use frame::{Cause, FrameIn, FrameOut, LONGEST_FRAME, Refusal};
pub use table::{Field, FrameKind, FrameRow};
pub use version::{FrameTable, Version};
pub use whole::whole_frame;
pub use write::{append_spelling, write_frame};
