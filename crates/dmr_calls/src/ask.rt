//! Asks: open questions to called radios.

use dmr_pdu::{Address, Options};
use dmr_table::Keyed;

/// An ask: C_AHOY to the target of an individual call was queued, and its C_ACKU is awaited (TS 102 361-4, clause
/// 7.1.1).
#[derive(Clone, Copy, Debug, PartialEq, Eq)]
pub struct Ask {
    /// The radio that calls.
    pub source: Address,
    /// The radio that is called, to which the C_AHOY goes.
    pub target: Address,
    /// The service options of the call.
    pub options: Options,
    /// The number of this C_AHOY to the target, from 1.
    pub attempt: u8,
}

/// An active ask with its ticks.
#[derive(Clone, Copy, Debug, PartialEq, Eq)]
pub struct ActiveAsk {
    /// The ask.
    pub ask: Ask,
    /// The ticks since its C_AHOY was queued; the count stays at 65,535.
    pub waited: u16,
}

/// The key of an ask is its source.
impl Keyed for ActiveAsk {
    ghost key_of = { λ a. a.ask.source };

    fn key(&self) -> u32 {
        self.ask.source.get()
    }
}
