//! The steps that a port in memory answers by.

use crate::port::{Connect, Waited};
use crate::wire::{Got, Put};

/// The answer of a port in memory to the next call of one kind. The steps of a kind answer the calls of that kind in
/// order, whatever calls of other kinds come in between.
#[derive(Debug, Drop, PartialEq, Eq)]
pub enum Step {
    /// The next connect answers this.
    Connect(Connect),
    /// The next reads return these octets, each read as many as its slice holds. An empty feed is skipped.
    Feed(Vec<u8>),
    /// The next read answers this, without octets. `Octets` would need some, so it is skipped; use `Feed`.
    Read(Got),
    /// The next write answers this. `Octets(n)` takes n octets, or the whole slice if that is shorter; 0 takes none.
    Write(Put),
    /// The next wait answers this.
    Wait(Waited),
}
