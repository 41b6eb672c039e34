//! The answers of [`Calls`](crate::Calls).

use crate::ask::Ask;
use crate::call::Call;
use crate::line::Line;
use dmr_pdu::Slot;

/// No place is left: `MOST_ASKS` asks, `MOST_LINES` lines or `MOST_CALLS` calls are active.
#[derive(Clone, Copy, Debug, PartialEq, Eq)]
pub struct Full;

/// The call, ask or line that engages a radio.
#[derive(Clone, Copy, Debug, PartialEq, Eq)]
pub enum Engagement {
    /// A call of the radio, or an individual call to it.
    CallOf(Call),
    /// An ask of the radio, or to it.
    AskOf(Ask),
    /// A line of the radio, or an individual line to it.
    LineOf(Line),
}

/// The call, ask and line that are due.
#[derive(Clone, Copy, Debug, PartialEq, Eq)]
pub struct Due {
    /// The slot of the call to end.
    pub call: Option<Slot>,
    /// The ask whose C_AHOY was not answered in time.
    pub ask: Option<Ask>,
    /// The line to serve first.
    pub line: Option<Line>,
}

/// The numbers of active asks, lines and calls.
#[derive(Clone, Copy, Debug, PartialEq, Eq)]
pub struct Counts {
    /// The asks: 0 to 32.
    pub asks: usize,
    /// The lines: 0 to 32.
    pub lines: usize,
    /// The calls: 0 to 31.
    pub calls: usize,
}
