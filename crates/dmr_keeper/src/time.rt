//! The time of a term, and records with it.

ghost use Rattle.std.specs.Prelude.{◌≡◌};
ghost use Rattle.dmr_keeper.specs.Times.{time_of_tick};

use crate::records::Records;

/// The time of a term: when it ended, and how long its ticks are.
#[derive(Clone, Copy, Debug, PartialEq, Eq)]
pub struct TermTime {
    /// The time of day at the end of the term, in milliseconds since 1970.
    pub ended: u64,
    /// The length of a tick, in milliseconds.
    pub tick_ms: u32,
}

impl TermTime {
    /// The time of day of a tick, in milliseconds since 1970, if the clock of the site went evenly.
    ///
    /// `last` is the number of the last tick of the term, and `tick` that of the tick, both counted over all terms. The
    /// tick is `last - tick` ticks before the end of the term, and a later one at its end. A time before 1970 is 0.
    pub fn of_tick(&self, last: u64, tick: u64) -> u64
        ensures { result ≡ time_of_tick self.now last tick }
    {
        let since = last.saturating_sub(tick);
        self.ended
            .saturating_sub(since.saturating_mul(u64::from(self.tick_ms)))
    }
}

/// The records of a term, with its time.
#[derive(Drop)]
pub struct TimedRecords {
    /// The records.
    pub records: Records,
    /// When the term ended, and how long its ticks are.
    pub time: TermTime,
}
