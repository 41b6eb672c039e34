//! Keeping the records of terms: a store receives them in a thread of its own, while terms go on.

ghost use Rattle.std.specs.Prelude.{◌≡◌, ◌++◌, [], true, Option, List, None, IfErr, IfOk, IfSome, IsOk};
ghost use Rattle.dmr_keeper.specs.declared.time.TimedRecords.{TimedRecords as TermRecords};
ghost use Rattle.dmr_keeper.specs.Handing.{AreHandedOver, IsRefused, newest};
ghost use Rattle.dmr_keeper.specs.Kept.{Kept};
ghost use Rattle.dmr_trunk.specs.Stored.{ArePassedOn, GoOn, IsAtEnd, held, is_idle, waiting_with};

use crate::holding::{HandOver, Keeping, Writer};
use crate::notes::Notes;
use dmr_keeper::{KeepFault, Keeper, RecordQueue, TimedRecords};
use log::Log;
use std::snapshot::Snapshot;
use std::sync::Wait;
use std::sync::atomic::{AtomicBool, Ordering};
use std::thread::{Scope, Threads};

impl<K: Keeper + Drop> Keeping<K> {
    /// The store when nothing waits for it: it refused nothing.
    fn at_rest(self) -> Keeping<K>
        ensures { result ≡ record { keeper = self.keeper; queue = self.queue; fault = None } }
    {
        let Keeping { keeper, queue, .. } = self;
        Keeping {
            keeper,
            queue,
            fault: None,
        }
    }

    /// Hands the store what waits, oldest term first, until it refuses some. If there is no fault then, nothing waits.
    pub fn hand_over(self) -> Keeping<K>
        ensures handed { AreHandedOver (K.kept self.keeper) self.queue result.queue
            (K.kept result.keeper) }
        ensures all { result.fault ≡ None → result.queue ≡ [] }
        ensures refused { IfSome result.fault
            (IsRefused K.kept K.refuses self.keeper self.queue result.queue) }
    {
        let Keeping {
            mut keeper,
            mut queue,
            ..
        } = self;
        let fault = queue.hand_over(&mut keeper).err();
        Keeping {
            keeper,
            queue,
            fault,
        }
    }
}

/// The records of the terms that have ended since the store was last handed some.
#[derive(Drop)]
pub struct WaitingRecords {
    /// The records, oldest term first.
    pub queue: RecordQueue,
    /// Why the store last refused records, as far as it was noted.
    noted: Option<KeepFault>,
    /// Of how many terms the records were lost since a note last said so.
    lost: u64,
}

impl WaitingRecords {
    /// Begins with no records.
    pub fn new(queue: RecordQueue) -> WaitingRecords
        ensures { result.queue ≡ queue }
    {
        WaitingRecords {
            queue,
            noted: None,
            lost: 0,
        }
    }

    /// Counts terms whose records are lost. The first of them is noted.
    fn count_lost<R: Log>(&mut self, lost: u64, notes: &mut Notes<'_, R>)
        ensures { self.new.queue ≡ self.old.queue }
    {
        if lost > 0 && self.lost == 0 {
            notes.records_lost();
        }
        self.lost = self.lost.saturating_add(lost);
    }

    /// Adds the records of a term, if there are any. If there is no room for them, the oldest are lost.
    pub fn add<R: Log>(&mut self, made: Option<TimedRecords>, notes: &mut Notes<'_, R>)
        ensures { self.new.queue ≡ waiting_with self.old.queue made }
    {
        if let Some(term) = made {
            if let Some(oldest) = self.queue.add(term) {
                drop(oldest);
                self.count_lost(1, notes);
            }
        }
    }

    /// Moves all records to the store's. They come after those that it refused. If there is no room for all, the oldest
    /// are lost.
    fn move_to<R: Log>(&mut self, queue: &mut RecordQueue, notes: &mut Notes<'_, R>)
        ensures moved { queue.new ≡ newest (queue.old ++ self.old.queue) }
        ensures none { self.new.queue ≡ [] }
    {
        let lost = queue.append(&mut self.queue);
        self.count_lost(lost as u64, notes);
    }

    /// Notes what came of handing records over: a fault that is not the one before, or that there is none any more. The
    /// second note also comes if records were lost although none were refused, since the store was slow.
    fn note<R: Log>(&mut self, fault: Option<KeepFault>, notes: &mut Notes<'_, R>)
        ensures { self.new.queue ≡ self.old.queue }
    {
        if fault == self.noted && (fault.is_some() || self.lost == 0) {
            return;
        }
        self.noted = fault;
        match fault {
            Some(fault) => notes.cannot_keep(fault),
            None => {
                notes.kept_again(self.lost);
                self.lost = 0;
            }
        }
    }
}

/// Starts a thread that hands the store what waits for it, if anything does. It sets `written` at its end. If no thread
/// can be started, hands it over before it returns.
fn start_writing<'s, E, K>(
    scope: &'s Scope<'s, E>,
    written: &'s AtomicBool,
    keeping: Keeping<K>,
) -> Writer<K>
where
    K: Keeper + Send + Drop + 's,
    ensures goes_on { GoOn keeping.queue (K.kept keeping.keeper) (held result).queue
        (K.kept (held result).keeper) }
    ensures idle { is_idle result ≡ true → (before : Option Kept) (all : List TermRecords)
        → ArePassedOn before all keeping.queue (K.kept keeping.keeper)
        → IsAtEnd K.kept K.refuses before all (held result).queue (held result).fault }
{
    if keeping.queue.is_empty() {
        return Writer::Idle(keeping.at_rest());
    }
    written.store(false, Ordering::SeqCst);
    let promise = HandOver(Snapshot::of(&keeping));
    match scope.spawn_with(
        promise,
        move || -> Keeping<K>
            ensures { AreHandedOver (K.kept keeping.keeper) keeping.queue result.queue
                (K.kept result.keeper) × (result.fault ≡ None → result.queue ≡ [])
                × IfSome result.fault
                (IsRefused K.kept K.refuses keeping.keeper keeping.queue result.queue) }
        {
            let back = keeping.hand_over();
            written.store(true, Ordering::SeqCst);
            back
        },
    ) {
        Ok(child) => Writer::Busy(child),
        Err(refused) => Writer::Idle((refused.value)()),
    }
}

/// Takes the store back, unless a thread still writes to it: then the writer is as it was.
fn take_back<K, R>(rt: &R, written: &AtomicBool, writer: Writer<K>) -> Result<Keeping<K>, Writer<K>>
where
    K: Keeper + Send + Drop,
    R: Threads,
    ensures back { IfOk result (λ keeping. AreHandedOver (K.kept (held writer).keeper)
        (held writer).queue keeping.queue (K.kept keeping.keeper)) }
    ensures busy { IfErr result (λ busy. busy ≡ writer) }
    ensures idle { is_idle writer ≡ true → IsOk result }
{
    match writer {
        Writer::Idle(keeping) => Ok(keeping),
        Writer::Busy(child) => {
            if !written.load(Ordering::SeqCst) {
                return Err(Writer::Busy(child));
            }
            Ok(child.join(rt))
        }
    }
}

/// Waits until no thread writes to the store, and takes it back.
fn wait_for<K, R>(rt: &R, writer: Writer<K>) -> Keeping<K>
where
    K: Keeper + Send + Drop,
    R: Threads,
    ensures { AreHandedOver (K.kept (held writer).keeper) (held writer).queue result.queue
        (K.kept result.keeper) }
{
    match writer {
        Writer::Idle(keeping) => keeping,
        Writer::Busy(child) => child.join(rt),
    }
}

/// Goes on at the end of a term, with the records that wait. If the thread that writes has ended, or there is none, a
/// thread is started for what waits now. Nobody waits for a thread here; if none can be started, the store is called
/// here. If no thread writes then, no records wait, or the store has just refused them.
pub fn go_on<'s, E, K, R>(
    rt: &R,
    scope: &'s Scope<'s, E>,
    written: &'s AtomicBool,
    writer: Writer<K>,
    waiting: &mut WaitingRecords,
    notes: &mut Notes<'_, R>,
) -> Writer<K>
where
    K: Keeper + Send + Drop + 's,
    R: Log + Threads,
    ensures goes_on { GoOn ((held writer).queue ++ waiting.old.queue)
        (K.kept (held writer).keeper) ((held result).queue ++ waiting.new.queue)
        (K.kept (held result).keeper) }
    ensures moved { is_idle writer ≡ true → waiting.new.queue ≡ [] }
    ensures idle { is_idle result ≡ true → (before : Option Kept) (all : List TermRecords)
        → ArePassedOn before all ((held writer).queue ++ waiting.old.queue)
        (K.kept (held writer).keeper)
        → IsAtEnd K.kept K.refuses before all (held result).queue (held result).fault }
{
    match take_back(rt, written, writer) {
        Err(busy) => busy,
        Ok(mut keeping) => {
            waiting.note(keeping.fault, notes);
            waiting.move_to(&mut keeping.queue, notes);
            start_writing(scope, written, keeping)
        }
    }
}

/// Hands the store all that waits at the end, after the thread that writes has ended. It waits for both.
pub fn hand_over_rest<K, R>(
    rt: &R,
    writer: Writer<K>,
    mut waiting: WaitingRecords,
    notes: &mut Notes<'_, R>,
) -> Keeping<K>
where
    K: Keeper + Send + Drop,
    R: Log + Threads,
    ensures goes_on { GoOn ((held writer).queue ++ waiting.queue) (K.kept (held writer).keeper)
        result.queue (K.kept result.keeper) }
    ensures end { (before : Option Kept) (all : List TermRecords)
        → ArePassedOn before all ((held writer).queue ++ waiting.queue)
        (K.kept (held writer).keeper)
        → IsAtEnd K.kept K.refuses before all result.queue result.fault }
{
    let mut keeping = wait_for(rt, writer);
    waiting.move_to(&mut keeping.queue, notes);
    let keeping = keeping.hand_over();
    waiting.note(keeping.fault, notes);
    keeping
}
