//! The records of a term.

ghost use Rattle.std.specs.Prelude.{◌≡◌, ◌+◌, ◌<◌, ◌≤◌, ◌^◌, ◌↔◌, IfErr, IfOk, MatchOption};
ghost use Rattle.dmr_keeper.specs.Calls.{ended_in, open_after};
ghost use Rattle.dmr_keeper.specs.Carried.{carried_after};
ghost use Rattle.dmr_keeper.specs.Lines.{lines_after, most_waiting};
ghost use Rattle.dmr_keeper.specs.Records.{AreRecords};
ghost use Rattle.dmr_keeper.specs.Registered.{registered_after};
ghost use Rattle.dmr_keeper.specs.Ticks.{ticks_in};

use crate::calls::EndedCall;
use crate::carried::Carried;
use crate::carriers::{CarrierCounts, counts_of_carriers};
use crate::changes::{Change, changes_of};
use crate::counts::{TermCounts, count_ticks, counts_of};
use crate::notes::{TimedOccurrence, notes_of};
use crate::registered::apply_to_registered;
use crate::walk::apply_journal;
use dmr_core::Entry;
use dmr_pdu::OutOfMemory;
use dmr_plan::Plan;
use std::alloc::Global;
use thiserror::Error;

/// The records of a term, for its operator.
#[derive(Drop)]
pub struct Records {
    /// The calls that ended in the term, in the order in which they ended. Those that an event ends together are in the
    /// order in which they began.
    pub calls: Vec<EndedCall>,
    /// The changes of registration, oldest first.
    pub changes: Vec<Change>,
    /// The notes, oldest first. Of one entry, that of its event comes first.
    pub notes: Vec<TimedOccurrence>,
    /// The counts of the term.
    pub counts: TermCounts,
    /// The counts of each carrier of which the journal has an entry, lowest number first.
    pub carriers: Vec<CarrierCounts>,
    /// What is handed on to the next term: also the registered radios in the order of joining, and the calls that are
    /// open.
    pub after: Carried,
}

/// Why there are no records of a term.
#[derive(Clone, Copy, Debug, PartialEq, Eq, Error)]
pub enum RecordsFault {
    /// The ticks of all terms do not fit in 64 bits.
    #[error("the ticks of all terms do not fit in 64 bits")]
    TicksFull,
    /// Memory ran out.
    #[error("out of memory")]
    OutOfMemory,
}

/// The ticks after a journal. `None` if they do not fit in 64 bits.
fn ticks_after(ticks: u64, journal: &[Entry]) -> Option<u64>
    ensures { MatchOption result (2 ^ 64 ≤ ticks + ticks_in journal.now)
        (λ after. after ≡ ticks + ticks_in journal.now) }
{
    ticks.checked_add(count_ticks(journal) as u64)
}

/// Reads the records of a journal whose ticks fit: `after` are the ticks up to its end.
fn read_records(
    alloc: Global,
    plan: &Plan,
    before: &Carried,
    journal: &[Entry],
    after: u64,
) -> Result<Records, OutOfMemory>
    requires { after ≡ before.now.ticks + ticks_in journal.now }
    ensures { IfOk result (AreRecords plan.now before.now journal.now) }
{
    let ticks = before.ticks();
    let mut calls = Vec::from_slice(alloc, before.calls())?;
    let mut lines = Vec::from_slice(alloc, before.lines())?;
    let mut registered = Vec::from_slice(alloc, before.registered())?;
    let mut ended = Vec::new(alloc);
    let most_lines = apply_journal(plan, ticks, journal, &mut lines, &mut calls, &mut ended)?;
    apply_to_registered(journal, &mut registered)?;
    let changes = changes_of(alloc, ticks, journal)?;
    let notes = notes_of(alloc, plan, ticks, journal)?;
    let carriers = counts_of_carriers(alloc, journal)?;
    let counts = counts_of(journal, ended.len(), most_lines);
    Ok(Records {
        calls: ended,
        changes,
        notes,
        counts,
        carriers,
        after: Carried {
            ticks: after,
            calls,
            lines,
            registered,
        },
    })
}

/// Reads the records of a term from its journal, oldest entry first, and from what is carried from the terms before it.
///
/// `plan` is the plan of the site. The function allocates the records and changes nothing, so after an error the same
/// call can be made again.
///
/// # Errors
///
/// - [`RecordsFault::TicksFull`]: the ticks of all terms, with those of this journal, do not fit in 64 bits. A site
///   with a tick of a millisecond counts that many in 584 million years.
/// - [`RecordsFault::OutOfMemory`]: an allocation was refused.
pub fn records_of(
    alloc: Global,
    plan: &Plan,
    before: &Carried,
    journal: &[Entry],
) -> Result<Records, RecordsFault>
    ensures records { IfOk result (AreRecords plan.now before.now journal.now) }
    ensures full { IfErr result (λ fault. (fault ≡ RecordsFault.TicksFull)
        ↔ (2 ^ 64 ≤ before.now.ticks + ticks_in journal.now)) }
{
    let Some(after) = ticks_after(before.ticks(), journal) else {
        return Err(RecordsFault::TicksFull);
    };
    match read_records(alloc, plan, before, journal, after) {
        Ok(records) => Ok(records),
        Err(OutOfMemory) => Err(RecordsFault::OutOfMemory),
    }
}
