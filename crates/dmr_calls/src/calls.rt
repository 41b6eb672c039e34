//! The asks, lines and calls of a site: their limits, ticks and counts. Each kind has its own module below.

ghost use Rattle.std.specs.Prelude.{◌≡◌, ◌↔◌, [], length, IsTrue, IfOk, is_some};
ghost use Rattle.dmr_calls.specs.ActiveLists.{no_active_lists, AreWithinLimits};
ghost use Rattle.dmr_calls.specs.Asks.{HaveOwnSources};
ghost use Rattle.dmr_calls.specs.Engaged.{engagement_of, is_engaged};
ghost use Rattle.dmr_calls.specs.Due.{after_tick, due_of};
ghost use Rattle.dmr_calls.specs.Same.{are_same};

mod active_calls;
mod after;
mod asks;
mod lines;

use crate::answer::{Counts, Due, Engagement};
use crate::ask::ActiveAsk;
use crate::call::ActiveCall;
use crate::line::Line;
use crate::ticks::{age_asks, age_calls};
use dmr_pdu::{Address, OutOfMemory};
use dmr_table::KeyedTable;
use std::alloc::Global;
use std::marker::Model;

/// The most asks that are active at a time: 32, by this project's profile.
pub const MOST_ASKS: usize = 32;

/// The most lines that are active at a time: 32, by this project's profile.
pub const MOST_LINES: usize = 32;

/// The most calls that are active at a time: 31, one for each slot of 16 carriers except the control slot.
pub const MOST_CALLS: usize = 31;

/// The asks, lines and calls of a site.
///
/// Contracts see three lists. The asks are in the order of their last C_AHOY, oldest first. The lines are in the order
/// in which they were added, and the calls in the order in which they began. Asks and calls have their ticks.
#[derive(Drop)]
pub struct Calls {
    asks: KeyedTable<ActiveAsk, MOST_ASKS>,
    lines: KeyedTable<Line, MOST_LINES>,
    calls: KeyedTable<ActiveCall, MOST_CALLS>,
}

impl Model for Calls {
    ghost use Rattle.dmr_calls.specs.ActiveLists.{ActiveLists};
    ghost use Rattle.dmr_calls.specs.Asks.{HaveOwnSources};
    ghost use Rattle.dmr_calls.specs.Slots.{AreOnSlots};

    ghost Value = { ActiveLists };

    ghost view = { λ c. record { asks = c.asks; lines = c.lines; calls = c.calls } };

    ghost invariant = { λ c. HaveOwnSources c.asks × AreOnSlots c.calls };
}

impl Calls {
    /// Makes an empty value, and allocates the memory for all asks, lines and calls. Returns `OutOfMemory` if the
    /// allocation fails.
    pub fn new(alloc: Global) -> Result<Calls, OutOfMemory>
        ensures { IfOk result (λ calls. calls ≡ no_active_lists) }
    {
        let asks = KeyedTable::new(alloc)?;
        let lines = KeyedTable::new(alloc)?;
        let calls = KeyedTable::new(alloc)?;
        Ok(Calls { asks, lines, calls })
    }

    /// Makes a copy with memory of its own. Returns `OutOfMemory` if the allocation fails.
    pub fn try_clone(&self, alloc: Global) -> Result<Calls, OutOfMemory>
        ensures { IfOk result (λ copy. copy ≡ self.now) }
    {
        let asks = self.asks.try_clone(alloc)?;
        let lines = self.lines.try_clone(alloc)?;
        let calls = self.calls.try_clone(alloc)?;
        Ok(Calls { asks, lines, calls })
    }

    /// Does nothing. A proof calls it to use the limits, and that no radio has two asks.
    pub fn use_invariant(&self)
        ensures few { AreWithinLimits self.now }
        ensures own { HaveOwnSources self.now.asks }
    {
        let _ = (self.asks.len(), self.lines.len(), self.calls.len());
    }

    /// The first call, or else the first ask, or else the first line to which a radio is a party.
    ///
    /// A radio is a party to its own requests, and to individual ones whose target it is. Returns `None` exactly if it
    /// is a party to nothing.
    pub fn engaged(&self, radio: Address) -> Option<Engagement>
        ensures value { result ≡ engagement_of self.now radio }
        ensures some { is_some result ≡ is_engaged self.now radio }
    {
        if let Some(call) = self.call_of(radio) {
            return Some(Engagement::CallOf(call));
        }
        if let Some(ask) = self.ask_with(radio) {
            return Some(Engagement::AskOf(ask));
        }
        if let Some(line) = self.line_with(radio) {
            return Some(Engagement::LineOf(line));
        }
        None
    }

    /// Counts a tick for each ask and call, and returns the call, ask and line that are due. Nothing is removed: the
    /// caller does that.
    pub fn tick(&mut self, hang: u16, maximum: u16, ahoy_wait: u16) -> Due
        ensures due { result ≡ due_of (after_tick self.old) hang maximum ahoy_wait }
        ensures counted { self.new ≡ after_tick self.old }
    {
        self.count_tick();
        self.due(hang, maximum, ahoy_wait)
    }

    /// Adds one tick to the waiting time of each ask, and to the age and the quiet time of each call.
    pub fn count_tick(&mut self)
        ensures { self.new ≡ after_tick self.old }
    {
        age_asks(&mut self.asks);
        age_calls(&mut self.calls);
    }

    /// The call, ask and line that are due.
    ///
    /// The call is the first that was quiet for `hang` ticks or more, or is `maximum` ticks old or more; its slot is
    /// returned. The ask is the first one, if its C_AHOY is `ahoy_wait` ticks old or more. The line is the first one.
    pub fn due(&self, hang: u16, maximum: u16, ahoy_wait: u16) -> Due
        ensures { result ≡ due_of self.now hang maximum ahoy_wait }
    {
        Due {
            call: self.due_call(hang, maximum),
            ask: self.due_ask(ahoy_wait),
            line: self.first_line(),
        }
    }

    /// Removes all asks and lines.
    pub fn clear_waiting(&mut self)
        ensures { self.new ≡ record self.old { asks = []; lines = [] } }
    {
        self.asks.clear();
        self.lines.clear();
    }

    /// The numbers of asks, lines and calls.
    pub fn counts(&self) -> Counts
        ensures { result ≡ record {
          asks = length self.now.asks;
          lines = length self.now.lines;
          calls = length self.now.calls;
        } }
    {
        Counts {
            asks: self.asks.len(),
            lines: self.lines.len(),
            calls: self.calls.len(),
        }
    }

    /// Reports whether two values have the same asks, lines and calls.
    fn is_same(&self, other: &Calls) -> bool
        ensures { result ≡ are_same self.now other.now }
    {
        self.asks.as_slice() == other.asks.as_slice()
            && self.lines.as_slice() == other.lines.as_slice()
            && self.calls.as_slice() == other.calls.as_slice()
    }
}

/// Two values are equal if they have the same asks, lines and calls in the same order, with the same ticks.
impl PartialEq for Calls {
    ghost use Rattle.std.specs.Cmp.{partial_equiv_from_equiv};
    ghost use Rattle.dmr_calls.specs.Same.{are_same, are_same-equivalence};

    ghost eq = { are_same };

    ghost laws = { partial_equiv_from_equiv are_same-equivalence };

    fn eq(&self, other: &Self) -> bool
        ensures gives { result ≡ are_same self.now other.now }
        ensures same { IsTrue result ↔ (self.now ≡ other.now) }
    {
        self.is_same(other)
    }
}

impl Eq for Calls {
    ghost use Rattle.dmr_calls.specs.Same.{are_same-equivalence};

    ghost laws = { are_same-equivalence };
}
