//! The asks.

ghost use Rattle.std.specs.Prelude.{◌≡◌, ◌<◌, [], ◌∷◌, ◌++◌, length, is_err};
ghost use Rattle.dmr_calls.specs.declared.calls.TheConstants.{MOST_ASKS};
ghost use Rattle.dmr_calls.specs.Asks.{new_active_ask, others_than, has_no_place, with_ask, ask_of};
ghost use Rattle.dmr_calls.specs.Asks.{ask_to, has_own_ask, without_ask_to};
ghost use Rattle.dmr_calls.specs.Engaged.{ask_with};
ghost use Rattle.dmr_calls.specs.Due.{due_ask};

use super::{Calls, MOST_ASKS};
use crate::answer::Full;
use crate::ask::{ActiveAsk, Ask};
use crate::party::is_party;
use dmr_pdu::Address;

impl Calls {
    /// Adds an ask whose C_AHOY was queued now, after the others. It replaces the ask of the same source, if there is
    /// one.
    ///
    /// If `MOST_ASKS` asks of other sources are active, returns `Full` and changes nothing.
    pub fn ask(&mut self, ask: Ask) -> Result<(), Full>
        ensures full { is_err result ≡ has_no_place self.old.asks ask.source }
        ensures asks { self.new ≡ record self.old { asks = with_ask self.old.asks ask } }
    {
        if self.asks_of_others(ask.source) >= MOST_ASKS {
            return Err(Full);
        }
        self.add_ask(&ask);
        Ok(())
    }

    /// Adds an ask whose C_AHOY was queued now, after the others. It replaces the ask of the same source, if there is
    /// one.
    ///
    /// There must be a place for it: fewer than `MOST_ASKS` asks of other sources are active.
    // Out of line: an event without such an act then does not prepare for it.
    #[inline(never)]
    pub fn add_ask(&mut self, ask: &Ask)
        requires { length (others_than ask.now.source self.old.asks) < MOST_ASKS }
        ensures { self.new ≡ record self.old {
          asks = others_than ask.now.source self.old.asks ++ new_active_ask ask.now ∷ [];
        } }
    {
        self.ask_over(ask.source);
        self.asks.push(ActiveAsk {
            ask: *ask,
            waited: 0,
        });
    }

    /// Removes the ask of a radio, if there is one.
    // Out of line: an event without such an act then does not prepare for it.
    #[inline(never)]
    pub fn ask_over(&mut self, source: Address)
        ensures { self.new ≡ record self.old { asks = others_than source self.old.asks } }
    {
        self.asks.remove(source.get());
    }

    /// Removes the first ask to a radio that answered, and returns it. If there is none, returns `None` and changes
    /// nothing.
    pub fn answer(&mut self, target: Address) -> Option<Ask>
        ensures ask { result ≡ ask_to self.old.asks target }
        ensures asks { self.new ≡ record self.old { asks = without_ask_to self.old.asks target } }
    {
        let first = self.ask_to(target)?;
        self.ask_over(first.source);
        Some(first)
    }

    /// The first ask to a radio.
    pub fn ask_to(&self, target: Address) -> Option<Ask>
        ensures { result ≡ ask_to self.now.asks target }
    {
        let found = self
            .asks
            .as_slice()
            .iter()
            .find(|a| a.ask.target == target)?;
        Some(found.ask)
    }

    /// The ask of a radio.
    pub fn ask_of(&self, source: Address) -> Option<Ask>
        ensures { result ≡ ask_of self.now.asks source }
    {
        let found = self.asks.find(source.get())?;
        Some(found.ask)
    }

    /// Reports whether the ask of the source is to the target.
    pub fn has_own_ask(&self, source: Address, target: Address) -> bool
        ensures { result ≡ has_own_ask self.now.asks source target }
    {
        let Some(own) = self.asks.find(source.get()) else {
            return false;
        };
        own.ask.target == target
    }

    /// The first ask to which a radio is a party.
    pub(super) fn ask_with(&self, radio: Address) -> Option<Ask>
        ensures { result ≡ ask_with self.now.asks radio }
    {
        let found = self
            .asks
            .as_slice()
            .iter()
            .find(|a| is_party(radio, false, a.ask.source, a.ask.target))?;
        Some(found.ask)
    }

    /// The first ask, if it has waited `ahoy_wait` ticks or more.
    pub(super) fn due_ask(&self, ahoy_wait: u16) -> Option<Ask>
        ensures { result ≡ due_ask ahoy_wait self.now.asks }
    {
        let first = self.asks.as_slice().first()?;
        if first.waited >= ahoy_wait {
            Some(first.ask)
        } else {
            None
        }
    }

    /// The number of asks of other sources.
    fn asks_of_others(&self, source: Address) -> usize
        ensures { result ≡ length (others_than source self.now.asks) }
    {
        self.asks.len() - usize::from(self.asks.has(source.get()))
    }
}
