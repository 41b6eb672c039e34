//! When the site's clock ticks: the decision, for any reading of the system's clock.

ghost use Rattle.std.specs.Prelude.{◌≡◌, ◌*◌, None, Some};
ghost use Rattle.dmr_trunk.specs.Beat.{beat_due, start_after};

/// The nanoseconds of a millisecond.
pub const MILLISECOND: u64 = 1_000_000;

/// The most nanoseconds by which a tick may be late, if the ticks that were missed meanwhile are made up for.
const MOST_LATE: u64 = 1_000_000_000;

/// What is due when the clock is asked for a tick.
#[derive(Clone, Copy, Debug, PartialEq, Eq)]
pub enum Beat {
    /// No tick is due yet. The next one is due in this many nanoseconds.
    NotYet(u64),
    /// A tick is due.
    Tick,
    /// A tick is due. It is late by this many nanoseconds, more than a second, so the clock was delayed.
    Delayed(u64),
}

/// The ticks of a clock. Times are nanoseconds since any start.
#[derive(Clone, Copy, Debug, PartialEq, Eq)]
pub struct Ticks {
    /// How long a tick lasts.
    pub tick: u64,
    /// The time from which the next tick counts; `None` before the clock was first read.
    pub from: Option<u64>,
}

/// Returns what is due now, and the time from which the next tick counts after that, if the next one counted from
/// `from`.
fn beat_from(from: u64, now: u64, tick: u64) -> (Beat, u64)
    ensures beat { result.0 ≡ beat_due (Some from) now tick }
    ensures start { result.1 ≡ start_after (Some from) now tick }
{
    let waited = now.saturating_sub(from);
    if waited < tick {
        return (Beat::NotYet(tick - waited), from);
    }
    let late = waited - tick;
    if late > MOST_LATE {
        (Beat::Delayed(late), now)
    } else {
        (Beat::Tick, from + tick)
    }
}

impl Ticks {
    /// Makes ticks of `tick_ms` milliseconds. The first is due one tick after the first reading of the clock.
    pub fn new(tick_ms: u16) -> Ticks
        ensures { result ≡ record { tick = tick_ms * 1000000; from = None } }
    {
        Ticks {
            tick: u64::from(tick_ms) * MILLISECOND,
            from: None,
        }
    }

    /// Returns what is due now. No tick comes early, and each is due one tick after the one before it was due. If a
    /// tick is more than a second late, those that were missed after it are dropped, and the next one is due one tick
    /// from now.
    pub fn ask(&mut self, now: u64) -> Beat
        ensures beat { result ≡ beat_due self.old.from now self.old.tick }
        ensures after { self.new
            ≡ record self.old { from = Some (start_after self.old.from now self.old.tick) } }
    {
        let Some(from) = self.from else {
            self.from = Some(now);
            return Beat::NotYet(self.tick);
        };
        let (beat, start) = beat_from(from, now, self.tick);
        self.from = Some(start);
        beat
    }
}
