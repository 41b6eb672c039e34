//! The site's clock.

ghost use Rattle.std.specs.Prelude.{◌≡◌, ◌*◌, None, Some};
ghost use Rattle.dmr_trunk.specs.Beat.{beat_due, pace_of, start_after};

use crate::beat::{Beat, MILLISECOND, Ticks};
use crate::clock::nanoseconds;
use crate::notes::Notes;
use crate::wakers::ClockWait;
use dmr_desk::{Pace, Pacer};
use dmr_port::{NoteLimit, NoteVerdict};
use log::Log;
use std::thread;
use std::time::{Clock, Duration};

/// Reports a tick each time that the time of one has passed, by the system's monotonic clock ([`Ticks::ask`]). If the
/// clock was delayed, for example because the process was stopped, it notes for how long. The end of a term ends a wait
/// for a tick.
#[derive(Drop)]
pub struct ClockPacer<'a, R> {
    rt: &'a R,
    ticks: Ticks,
    notes: Notes<'a, R>,
    limit: NoteLimit,
    wait: ClockWait<'a>,
}

impl<'a, R: Clock + Log> ClockPacer<'a, R> {
    /// Makes a pacer with ticks of `tick_ms` milliseconds. The first is due one tick after the first call.
    pub fn new(
        rt: &'a R,
        tick_ms: u16,
        notes: Notes<'a, R>,
        wait: ClockWait<'a>,
    ) -> ClockPacer<'a, R>
        ensures { result.ticks ≡ record { tick = tick_ms * 1000000; from = None } }
    {
        ClockPacer {
            rt,
            ticks: Ticks::new(tick_ms),
            notes,
            limit: NoteLimit::new(),
            wait,
        }
    }

    /// Notes in milliseconds how late a tick is, unless there were too many such notes. `now` and `late` are
    /// nanoseconds.
    fn note_delay(&mut self, now: u64, late: u64)
        ensures { self.new.ticks ≡ self.old.ticks }
    {
        let milliseconds = late / MILLISECOND;
        match self.limit.count(now / MILLISECOND) {
            NoteVerdict::Write => self.notes.clock_delayed(milliseconds),
            NoteVerdict::WriteAfter(count) => {
                self.notes.more(count, "the clock");
                self.notes.clock_delayed(milliseconds);
            }
            NoteVerdict::Drop => {}
        }
    }

    /// The pacer's answer at a time.
    fn pace_at(&mut self, now: u64) -> Pace
        ensures pace { result ≡ pace_of (beat_due self.old.ticks.from now self.old.ticks.tick) }
        ensures ticks { self.new.ticks ≡ record {
          tick = self.old.ticks.tick;
          from = Some (start_after self.old.ticks.from now self.old.ticks.tick);
        } }
    {
        match self.ticks.ask(now) {
            Beat::NotYet(left) => {
                self.wait.wait(self.rt, left);
                Pace::NotYet
            }
            Beat::Tick => Pace::Tick,
            Beat::Delayed(late) => {
                self.note_delay(now, late);
                Pace::Tick
            }
        }
    }
}

impl<R: Clock + Log> Pacer for ClockPacer<'_, R> {
    ghost paced = { λ pacer. None };

    fn next(&mut self) -> Pace
        ensures tick { self.new.ticks.tick ≡ self.old.ticks.tick }
    {
        match nanoseconds(self.rt) {
            Some(now) => self.pace_at(now),
            // If the clock cannot be read, the pacer sleeps for the time of a tick.
            None => {
                thread::sleep(self.rt, Duration::from_nanos(self.ticks.tick));
                Pace::Tick
            }
        }
    }

    fn term_over(&mut self)
        ensures ticks { self.new.ticks ≡ self.old.ticks }
    {
        self.wait.wake_all();
    }
}
