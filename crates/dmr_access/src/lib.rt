//! Random access to a site: the noise on the control slot, and the PDU that fills it.
//!
//! When no PDU waits for the control slot, it carries C_ALOHA. C_ALOHA invites radios to random access, and its backoff
//! is the number of slots over which they spread their tries (TS 102 361-4). While the control channel is to be moved,
//! C_MOVE takes its place, with the same backoff. In every fourth Fill, a late entry takes the place of C_ALOHA if a
//! talkgroup call is active.
//!
//! How the backoff follows the noise is this project's profile. It is the plan's lowest backoff plus the number of
//! Noises that count, but at most the plan's highest. A Noise on the control slot counts if it came after the control
//! carrier's last Up and fewer than 32 of its Polls came since. At most 15 Noises are counted between two Polls; since
//! no plan has a higher backoff, that changes none.
#![tactic(auto)]

mod access;

pub use access::Access;
