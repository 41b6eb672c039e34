//! Tests of a serving port over sockets in memory: peers that hold, flood, leave and wait, by scripts.
//!
//! The crate holds only tests. It is above the crate that it tests, since a crate with tests is proved twice.
#![tactic(auto)]

#[cfg(test)]
mod ports;
