//! Reads the records of one term after another.

ghost use Rattle.std.specs.Prelude.{◌≡◌, ◌+◌, ◌≤◌, ◌^◌, ◌↔◌, IfErr, IfOk, IsSomeAnd, None, OnErr, OnOk};
ghost use Rattle.dmr_keeper.specs.Carried.{carried_after};
ghost use Rattle.dmr_keeper.specs.Records.{AreRecords};
ghost use Rattle.dmr_keeper.specs.Ticks.{ticks_in};

use crate::carried::Carried;
use crate::records::{Records, RecordsFault, records_of};
use crate::time::{TermTime, TimedRecords};
use dmr_core::Entry;
use dmr_pdu::OutOfMemory;
use dmr_plan::Plan;
use std::alloc::Global;
use std::marker::Model;
use std::mem::replace;

/// Reads the records of each term, one term after another. Contracts see what it hands on to the term that follows, and
/// the records of the last term until they are taken.
#[derive(Drop)]
pub struct Recorder {
    carried: Carried,
    newest: Option<TimedRecords>,
}

impl Model for Recorder {
    ghost use Rattle.dmr_keeper.specs.Recording.{Recording};

    ghost Value = { Recording };

    ghost view = { λ recorder. record { carried = recorder.carried; newest = recorder.newest } };
}

/// The records of a term, and a copy of what they hand on to the next one.
fn records_and_carried(
    alloc: Global,
    plan: &Plan,
    before: &Carried,
    journal: &[Entry],
) -> Result<(Records, Carried), RecordsFault>
    ensures records { IfOk result (λ made. AreRecords plan.now before.now journal.now made.0) }
    ensures after { IfOk result (λ made. made.1 ≡ carried_after plan.now before.now journal.now) }
    ensures full { IfErr result (λ fault. (fault ≡ RecordsFault.TicksFull)
        ↔ (2 ^ 64 ≤ before.now.ticks + ticks_in journal.now)) }
{
    let records = records_of(alloc, plan, before, journal)?;
    match records.after.try_clone(alloc) {
        Ok(after) => Ok((records, after)),
        Err(OutOfMemory) => Err(RecordsFault::OutOfMemory),
    }
}

impl Recorder {
    /// Makes a recorder for the terms that follow this state. It has no records yet.
    pub fn new(carried: Carried) -> Recorder
        ensures { result ≡ record { carried = carried; newest = None } }
    {
        Recorder {
            carried,
            newest: None,
        }
    }

    /// Reads the records of the term that follows, as [`records_of`] does. They are the newest from then on, and those
    /// that were not taken are dropped.
    ///
    /// `ended` is the time of day at the end of the term, in milliseconds since 1970. `plan` is the plan of the site.
    ///
    /// # Errors
    ///
    /// Those of [`records_of`]. Nothing has changed then, so the same call can be made again.
    pub fn add(
        &mut self,
        alloc: Global,
        plan: &Plan,
        journal: &[Entry],
        ended: u64,
    ) -> Result<(), RecordsFault>
        ensures records { OnOk result (IsSomeAnd self.new.newest
            (λ term. AreRecords plan.now self.old.carried journal.now term.records)) }
        ensures time { OnOk result (IsSomeAnd self.new.newest
            (λ term. term.time ≡ record { ended = ended; tick_ms = plan.now.serving.tick_ms })) }
        ensures carried { OnOk result
            (self.new.carried ≡ carried_after plan.now self.old.carried journal.now) }
        ensures same { OnErr result (self.new ≡ self.old) }
        ensures full { IfErr result (λ fault. (fault ≡ RecordsFault.TicksFull)
            ↔ (2 ^ 64 ≤ self.old.carried.ticks + ticks_in journal.now)) }
    {
        let (records, carried) = records_and_carried(alloc, plan, &self.carried, journal)?;
        let time = TermTime {
            ended,
            tick_ms: u32::from(plan.tick_ms()),
        };
        drop(replace(&mut self.carried, carried));
        drop(self.newest.replace(TimedRecords { records, time }));
        Ok(())
    }

    /// Takes the newest records, if they were not taken before.
    pub fn take(&mut self) -> Option<TimedRecords>
        ensures newest { result ≡ self.old.newest }
        ensures taken { self.new.newest ≡ None }
        ensures carried { self.new.carried ≡ self.old.carried }
    {
        self.newest.take()
    }
}
