//! The row of a term, as the rows of its calls and events need it.

ghost use Rattle.std.specs.Prelude.{◌≡◌};
ghost use Rattle.dmr_keeper.specs.Times.{time_of_tick};
ghost use Rattle.dmr_records.specs.Statements.{row_of_term};

use dmr_keeper::{TermTime, TimedRecords};

/// The number of a term's row, and what the times of its calls and events are computed from.
#[derive(Clone, Copy, Debug, PartialEq, Eq)]
pub struct TermRow {
    /// The number of the row.
    pub number: u64,
    /// The last tick of the term, counted over all terms.
    pub last_tick: u64,
    /// The time of the term.
    pub time: TermTime,
}

impl TermRow {
    /// The row of a term to which the file gave this number.
    pub fn new(number: u64, term: &TimedRecords) -> TermRow
        ensures { result ≡ row_of_term number term.now }
    {
        TermRow {
            number,
            last_tick: term.records.after.ticks(),
            time: term.time,
        }
    }

    /// The time of day of a tick of the term, in milliseconds since 1970.
    pub fn time_of(&self, tick: u64) -> u64
        ensures { result ≡ time_of_tick self.now.time self.now.last_tick tick }
    {
        self.time.of_tick(self.last_tick, tick)
    }
}
