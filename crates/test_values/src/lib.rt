//! Tests with worked values of the crates below the engine: bits, codes, bursts, PDUs, small types, frames, ports in
//! memory, console lines and replies.
//!
//! The crate holds only tests. They are above the crates that they test, since a crate with tests is proved twice.
#![tactic(auto)]

#[cfg(test)]
mod bits;
#[cfg(test)]
mod bptc;
#[cfg(test)]
mod bursts;
#[cfg(test)]
mod console;
#[cfg(test)]
mod csbk;
#[cfg(test)]
mod frames;
#[cfg(test)]
mod lines;
#[cfg(test)]
mod pdus;
#[cfg(test)]
mod small_types;
#[cfg(test)]
mod wire;
