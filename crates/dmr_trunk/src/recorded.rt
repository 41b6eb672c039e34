//! Making the records of terms from their journals.

ghost use Rattle.std.specs.Prelude.{◌≡◌, option_map};
ghost use Rattle.dmr_trunk.specs.Stored.{HasMade, HasMadeIfWanted};

use crate::clock::time_of_day;
use crate::notes::Notes;
use dmr_core::Entry;
use dmr_keeper::{Recorder, RecordsFault, TimedRecords};
use dmr_plan::Plan;
use log::Log;
use std::alloc::Global;
use std::sync::Wait;
use std::thread;
use std::time::{Clock, Duration};

/// How many seconds to wait before records are made again for which there was no memory.
const PAUSE: u64 = 1;

/// What makes the records of terms, one term after another.
#[derive(Drop)]
pub struct RecordMaker<'a, R> {
    rt: &'a R,
    alloc: Global,
    /// What is carried from term to term.
    pub recorder: Recorder,
    notes: Notes<'a, R>,
}

impl<'a, R: Log + Clock + Wait> RecordMaker<'a, R> {
    /// Makes records of terms that follow what the recorder carries.
    pub fn new(
        rt: &'a R,
        alloc: Global,
        recorder: Recorder,
        notes: Notes<'a, R>,
    ) -> RecordMaker<'a, R>
        ensures { result.recorder ≡ recorder }
    {
        RecordMaker {
            rt,
            alloc,
            recorder,
            notes,
        }
    }

    /// Makes the records of the term that follows. If there is no memory for them, notes so and tries again each
    /// second, until there is. Returns `None` only if the ticks of all terms do not fit in 64 bits.
    fn record(&mut self, plan: &Plan, journal: &[Entry]) -> Option<TimedRecords>
        ensures { HasMade plan.now self.old.recorder.carried journal.now result
            self.new.recorder.carried }
    {
        let ended = time_of_day(self.rt);
        let mut noted = false;
        for _ in self.rt.forever() {
            match self.recorder.add(self.alloc, plan, journal, ended) {
                Ok(()) => return self.recorder.take(),
                Err(RecordsFault::TicksFull) => {
                    self.notes.no_records();
                    return None;
                }
                Err(RecordsFault::OutOfMemory) => {
                    if !noted {
                        self.notes.no_memory_for_records();
                    }
                    noted = true;
                    thread::sleep(self.rt, Duration::from_secs(PAUSE));
                }
            }
        }
        unreachable!()
    }
}

/// Makes the records of the term that follows, if there is a maker.
pub fn records_of_term<R: Log + Clock + Wait>(
    maker: &mut Option<RecordMaker<'_, R>>,
    plan: &Plan,
    journal: &[Entry],
) -> Option<TimedRecords>
    ensures { HasMadeIfWanted plan.now (option_map (λ m. m.recorder.carried) maker.old) journal.now
        result (option_map (λ m. m.recorder.carried) maker.new) }
{
    match maker {
        Some(maker) => maker.record(plan, journal),
        None => None,
    }
}
