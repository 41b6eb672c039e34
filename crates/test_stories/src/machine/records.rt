//! The records of a site's terms.
//!
//! Inputs are the events of a site (`events`), which have no answer here, and these:
//!
//! - `term` ends a term. The answer has the calls that ended in it.
//! - `changes`, `notes`, `counts` and `carriers` ask for those of the last term.
//! - `open` asks for the calls that are open at its end, `radios` for the registered radios.
//! - `restart` makes a new site of the same plan. The radios are registered that were so at the end of the last term.
//!   Ticks begin again at 0.
//! - `refuse` has the store refuse records from then on, and `accept` has it keep them.
//! - `waiting` asks how many terms' records wait for the store, and how many were lost.
//! - `kept` asks the store for the calls that ended in all terms. Their number of changes, of notes and of terms
//!   follows, and the number of registered radios.
//! - `all carriers` asks the store for the counts of carriers in all terms.
//! - `day N` asks for the time of day of tick N, by the last term if the store has kept it.
//!
//! The records of a term go to the store through an outbox. The first term ends at 1,700,000,000,000 milliseconds since
//! 1970, and each later one a minute after the one before it.
//!
//! The items of an answer have `, ` between them:
//!
//! - a call that ended: `C.S R T A to B CAUSE`, with the ticks A and B at which it began and ended; then `waited N`, if
//!   its request waited for N ticks
//! - a change: `KIND R at A`
//! - a note: `WORDS at A`
//! - an open call: `C.S R T since A`
//! - a radio: `R`
//! - the counts of a carrier: `C`, and those of polls, bursts, noise and activity
//!
//! The counts are those of entries, bursts, requests, noise, activity, polls, ticks, commands, grants, late entries,
//! registrations, refusals, calls that began, calls that ended, and the most lines.

mod answers;
mod shelf;

use super::events::event_of;
use crate::language::words::{cut, replace_with};
use crate::language::{Listener, run_parts};
use crate::site_file::{SMALL, plan_of};
use answers::{
    write_carriers, write_changes, write_counts, write_ended, write_kept, write_notes, write_open,
    write_radios,
};
use dmr_core::{Acts, Entry, Event, Site};
use dmr_keeper::{
    Carried, Forget, InMemory, Keeper, RecordQueue, Recorder, Records, TimedRecords, records_of,
};
use dmr_pdu::OutOfMemory;
use shelf::Shelf;
use std::alloc::Global;
use std::process::Abort;
use std::test::Fail;

/// The time of day at the end of the first term, in milliseconds since 1970.
const FIRST_END: u64 = 1_700_000_000_000;

/// From the end of a term to that of the next one, in milliseconds.
const MINUTE: u64 = 60_000;

/// A site, the journal of its term, the records of its last term, and those of all terms.
#[derive(Drop)]
struct Terms {
    site: Site,
    journal: Vec<Entry>,
    last: Records,
    recorder: Recorder,
    outbox: RecordQueue,
    shelf: Shelf,
    ended: u64,
    lost: usize,
    alloc: Global,
}

/// A story of terms.
struct SiteStory {
    /// The name in a failure.
    name: &'static str,
    /// The changes of the common site file.
    site: &'static str,
    /// The parts of the story, in order.
    input: &'static [&'static str],
}

/// The carriers come up, and six radios are registered.
const SIX_RADIOS: &str = "\
up 0 =>
up 1 =>

rounds 1001 to 1006
heard 0.0 9F00020E.16776902.0+ =>
poll 0 =>

";

/// Three calls: radio 1001 talks to talkgroup 91, 1002 to 92 and 1003 to 93.
const THREE_CALLS: &str = "\
heard 0.0 9F000001.91.1001 =>
poll 0 =>
heard 0.0 9F000001.92.1002 =>
poll 0 =>
heard 0.0 9F000001.93.1003 =>
poll 0 =>
";

static STORIES: [SiteStory; 7] = [
    // Calls begin in one term and end in later ones, each for another cause, and each is recorded once. After a restart
    // the radios that were registered still are, and ticks begin at 0.
    SiteStory {
        name: "calls over the end of a term",
        site: SMALL,
        input: &[
            SIX_RADIOS,
            "\
term =>
radios => 1001, 1002, 1003, 1004, 1005, 1006
10 tick =>
",
            THREE_CALLS,
            "\
term =>
open => 0.1 1001 g91 since 10, 1.0 1002 g92 since 10, 1.1 1003 g93 since 10
99 tick =>
active 1.0 =>
active 1.1 =>
tick =>
term => 0.1 1001 g91 10 to 110 hang time
open => 1.0 1002 g92 since 10, 1.1 1003 g93 since 10
heard 0.0 9F00000EFFFEC60003EA =>
say drop 1003 =>
term => 1.0 1002 g92 10 to 110 radio left, 1.1 1003 g93 10 to 110 dropped
changes => left 1002 at 110, dropped 1003 at 110
notes => drop 1003 done at 110
radios => 1001, 1004, 1005, 1006
open =>
restart =>
say drop 1002 =>
say drop 1006 =>
term =>
notes => drop 1002 not registered at 0, drop 1006 done at 0
radios => 1001, 1004, 1005
kept => 0.1 1001 g91 10 to 110 hang time, 1.0 1002 g92 10 to 110 radio left, 1.1 1003 g93 10 to 110 dropped, \
    9 changes, 5 notes, 5 terms, 3 radios
",
        ],
    },
    // While the store refuses records, they wait. Then it keeps them, oldest term first: the call that began in a term
    // whose records waited is kept once. Tick 14 is 5
    // ticks of 60 ms before the end of the fourth term.
    SiteStory {
        name: "records that wait",
        site: "hang = 100 / hang = 5",
        input: &[
            SIX_RADIOS,
            "\
term =>
waiting => 0 waiting, 0 lost
kept => 6 changes, 2 notes, 1 terms, 6 radios
day 0 => 1700000000000
7 tick =>
",
            THREE_CALLS,
            "\
refuse =>
3 tick =>
say drop 1006 =>
4 tick =>
term => 0.1 1001 g91 7 to 12 hang time, 1.0 1002 g92 7 to 13 hang time, 1.1 1003 g93 7 to 14 hang time
waiting => 1 waiting, 0 lost
poll 0 =>
heard 0.0 9F000001.91.1001 =>
poll 0 =>
term =>
waiting => 2 waiting, 0 lost
kept => 6 changes, 2 notes, 1 terms, 6 radios
accept =>
5 tick =>
term => 0.1 1001 g91 14 to 19 hang time
waiting => 0 waiting, 0 lost
kept => 0.1 1001 g91 7 to 12 hang time, 1.0 1002 g92 7 to 13 hang time, 1.1 1003 g93 7 to 14 hang time, \
    0.1 1001 g91 14 to 19 hang time, 7 changes, 3 notes, 4 terms, 5 radios
day 19 => 1700000180000
day 14 => 1700000179700
day 20 => 1700000180000
",
        ],
    },
    // The records of 1,000 terms may wait. The oldest of 1,001 are lost, here those of the registrations.
    SiteStory {
        name: "an outbox that is full",
        site: SMALL,
        input: &[
            "refuse =>\n",
            SIX_RADIOS,
            "\
term =>
say drop 1001 =>
term =>
waiting => 2 waiting, 0 lost

rounds 1 to 998
term =>

waiting => 1000 waiting, 0 lost
say drop 1002 =>
term =>
waiting => 1000 waiting, 1 lost
accept =>
term =>
waiting => 0 waiting, 2 lost
kept => 1 changes, 1 notes, 1000 terms, 4 radios
",
        ],
    },
    // An operator ends a call, a carrier is lost or comes up again, and a call reaches the maximum. Of calls that an
    // event ends together, the one that began first is recorded first.
    SiteStory {
        name: "calls that are ended",
        site: SMALL,
        input: &[
            SIX_RADIOS,
            THREE_CALLS,
            "\
7 tick =>
say end 0.1 =>
lost 1 =>
term => 0.1 1001 g91 0 to 7 operator, 1.0 1002 g92 0 to 7 carrier lost, 1.1 1003 g93 0 to 7 carrier lost
notes => up 0 at 0, up 1 at 0, end 0 1 done at 7, lost 1 at 7
poll 0 =>
up 1 =>
heard 0.0 9F000001.91.1001 =>
heard 0.0 9F000001.92.1002 =>
poll 0 =>
poll 0 =>
up 1 =>
term => 1.0 1002 g92 7 to 7 carrier lost
open => 0.1 1001 g91 since 7

rounds 1 to 30
99 tick =>
active 0.1 =>

29 tick =>
term =>
tick =>
term => 0.1 1001 g91 7 to 3007 maximum
",
        ],
    },
    // If a call reaches the hang time and the maximum with one tick, the cause is the hang time.
    SiteStory {
        name: "hang time and maximum at once",
        site: "maximum = 3000 / maximum = 100",
        input: &[
            SIX_RADIOS,
            THREE_CALLS,
            "\
50 tick =>
active 1.0 =>
50 tick =>
tick =>
tick =>
term => 0.1 1001 g91 0 to 100 hang time, 1.0 1002 g92 0 to 101 maximum, 1.1 1003 g93 0 to 102 hang time
",
        ],
    },
    // Refusals, commands that change nothing, and the counts. Of seven polls three send what waits, and the fourth fill
    // is a late entry.
    SiteStory {
        name: "notes and counts",
        site: SMALL,
        input: &[
            SIX_RADIOS,
            "\
term =>
changes => joined 1001 at 0, joined 1002 at 0, joined 1003 at 0, joined 1004 at 0, joined 1005 at 0, joined 1006 at 0
notes => up 0 at 0, up 1 at 0
counts => 14 6 6 0 0 6 0 0 0 0 6 0 0 0 0
heard 0.0 9F000001.95.1001 =>
tick =>
heard 0.0 9F00020E.16776902.2001 =>
say drop 1999 =>
say end 0.1 =>
say end 7.0 =>
say move 9 =>
say stay =>
say status =>
noise 0.0 =>
",
            THREE_CALLS,
            "\
heard 0.0 9F000001.94.1004 =>
heard 0.1 9F000001.94.1005 =>
active 0.1 =>
term =>
notes => refused 1001 95 47 at 0, refused 2001 16776902 43 at 1, drop 1999 not registered at 1, \
    end 0 1 no call at 1, end 7 0 no carrier at 1, move 9 done at 1, stay done at 1
counts => 19 7 7 1 1 3 1 6 3 0 0 2 3 0 1
changes =>
say drop 1004 =>
term =>
counts => 1 0 0 0 0 0 0 1 0 0 0 0 0 0 1
7 poll 0 =>
term =>
counts => 7 0 0 0 0 7 0 0 0 1 0 0 0 0 0
",
        ],
    },
    // Radio 1005 asks for the talkgroup to which 1001 talks: it joins that call, with one note for four copies of the
    // grant. The repeated request of 1001 has no note, and the late entry that is sent then has none. 1004 waits over
    // the ends of two terms. Then its call has the ticks of the wait.
    SiteStory {
        name: "waits and joined calls",
        site: "grant_copies = 1 / grant_copies = 4",
        input: &[
            SIX_RADIOS,
            "\
term =>
carriers => 0 6 6 0 0, 1 0 0 0 0
5 tick =>
",
            THREE_CALLS,
            "\
heard 0.0 9F000001.94.1004 =>
heard 0.0 9F000001.91.1005 =>
heard 0.0 9F000001.91.1001 =>
noise 1.0 =>
active 0.1 =>
term =>
notes => joined 1005 91 0.1 at 5
carriers => 0 3 6 0 1, 1 0 0 1 0
all carriers => 0 6 6 0 0, 1 0 0 0 0, 0 3 6 0 1, 1 0 0 1 0
22 poll 0 =>
term =>
notes =>
carriers => 0 22 0 0 0
3 tick =>
say end 0.1 =>
poll 0 =>
tick =>
say end 0.1 =>
term => 0.1 1001 g91 5 to 8 operator, 0.1 1004 g94 9 to 9 operator waited 4
open => 1.0 1002 g92 since 5, 1.1 1003 g93 since 5
",
        ],
    },
];

#[test]
fn records_of_terms(rt: HostRuntime) -> Result<(), Fail> {
    for story in &STORIES {
        tell_terms(&rt, story)?;
    }
    Ok(())
}

/// Runs a story.
fn tell_terms(rt: &(impl Abort + AllocGlobal), story: &SiteStory) -> Result<(), Fail> {
    let terms = terms_of(rt.alloc(), story.site)?;
    run_parts(rt, terms, story.name, story.input)?;
    Ok(())
}

/// Returns a site of the site file with changes, before its first term.
fn terms_of(alloc: Global, changes: &str) -> Result<Terms, Fail> {
    let plan = plan_of(alloc, changes)?;
    let start = Carried::new(alloc);
    let Ok(last) = records_of(alloc, &plan, &start, &[]) else {
        return Err("records of no entries".into());
    };
    let Ok(outbox) = RecordQueue::new(alloc) else {
        drop(last);
        return Err("an outbox".into());
    };
    match Site::new(alloc, plan) {
        Ok(site) => Ok(terms_from(alloc, site, last, outbox)),
        Err(refused) => {
            drop(last);
            drop(outbox);
            Err(refused.into())
        }
    }
}

/// Returns these, before the first term.
fn terms_from(alloc: Global, site: Site, last: Records, outbox: RecordQueue) -> Terms {
    Terms {
        site,
        journal: Vec::new(alloc),
        last,
        recorder: Recorder::new(Carried::new(alloc)),
        outbox,
        shelf: Shelf {
            store: InMemory::new(alloc),
            is_refusing: false,
        },
        ended: FIRST_END,
        lost: 0,
        alloc,
    }
}

impl Listener for Terms {
    fn answer_input(&mut self, input: &str, said: &mut String) -> Result<(), OutOfMemory> {
        match input {
            "term" => self.end_term(said),
            "changes" => write_changes(said, self.last.changes.as_slice()),
            "notes" => write_notes(said, self.last.notes.as_slice()),
            "counts" => write_counts(said, &self.last.counts),
            "carriers" => write_carriers(said, self.last.carriers.as_slice()),
            "all carriers" => write_carriers(said, self.shelf.store.carriers()),
            "open" => write_open(said, self.last.after.calls()),
            "radios" => write_radios(said, self.last.after.registered()),
            "kept" => write_kept(said, &self.shelf.store),
            "waiting" => write!(said, "{} waiting, {} lost", self.outbox.len(), self.lost),
            "refuse" => self.set_refusing(true),
            "accept" => self.set_refusing(false),
            "restart" => self.restart(),
            _ => self.answer_other(input, said),
        }
    }
}

/// Returns the tick that `day N` names.
fn tick_of(input: &str) -> Option<u64> {
    match cut(input) {
        ("day", digits) => digits.parse::<u64>().ok(),
        _ => None,
    }
}

/// Writes the time of day of a tick of the last term that was kept.
fn write_day(said: &mut String, store: &InMemory, last: u64, tick: u64) -> Result<(), OutOfMemory> {
    match store.times().last() {
        Some(time) => write!(said, "{}", time.of_tick(last, tick)),
        None => said.push_str("none"),
    }
}

/// The entry of an event and its answer.
fn entry_of(event: &Event, acts: &Acts) -> Entry {
    Entry {
        actor: 0,
        event: *event,
        acts: *acts,
    }
}

/// Adds a copy of an item to a list.
fn push_copy<T: Copy>(list: &mut Vec<T>, item: &T) -> Result<(), OutOfMemory> {
    list.push(*item)?;
    Ok(())
}

/// Enters an event and its answer into a journal.
fn enter(site: &mut Site, journal: &mut Vec<Entry>, event: &Event) -> Result<(), OutOfMemory> {
    let acts = site.apply(*event);
    push_copy(journal, &entry_of(event, &acts))
}

impl Terms {
    /// Answers an input with words of its own: an event, or `day N`.
    fn answer_other(&mut self, input: &str, said: &mut String) -> Result<(), OutOfMemory> {
        match event_of(input) {
            Some(event) => enter(&mut self.site, &mut self.journal, &event),
            None => match tick_of(input) {
                Some(tick) => write_day(said, &self.shelf.store, self.last.after.ticks(), tick),
                None => said.push_str("?"),
            },
        }
    }

    /// Has the store refuse records, or keep them.
    fn set_refusing(&mut self, is_refusing: bool) -> Result<(), OutOfMemory> {
        self.shelf.is_refusing = is_refusing;
        Ok(())
    }

    /// Has the records begin with the radios that were registered at the end of the last term.
    fn restart_records(&mut self) -> Result<(), OutOfMemory> {
        let start = Carried::with_registered(self.alloc, self.last.after.registered())?;
        let first = Carried::with_registered(self.alloc, self.last.after.registered())?;
        replace_with(&mut self.last.after, start);
        replace_with(&mut self.recorder, Recorder::new(first));
        Ok(())
    }

    /// Makes a new site, with the radios registered that were so at the end of the last term.
    fn restart(&mut self) -> Result<(), OutOfMemory> {
        let site = Site::with_registered(
            self.alloc,
            *self.site.plan(),
            self.last.after.registered(),
        )?;
        replace_with(&mut self.site, site);
        self.restart_records()
    }

    /// Hands the records of the term to the outbox, and what waits there to the store. Reports whether there were such
    /// records.
    fn hand_over(&mut self) -> bool {
        let (alloc, plan) = (self.alloc, self.site.plan());
        let added = self
            .recorder
            .add(alloc, plan, self.journal.as_slice(), self.ended);
        self.ended = self.ended.saturating_add(MINUTE);
        let Some(term) = self.recorder.take() else {
            return false;
        };
        let forgot = is_kept(&mut Forget, &term);
        if let Some(lost) = self.outbox.add(term) {
            drop(lost);
            self.lost = self.lost.saturating_add(1);
        }
        let handed = self.outbox.hand_over(&mut self.shelf);
        forgot && added.is_ok() && handed.is_ok() == self.outbox.is_empty()
    }

    /// Ends the term, and writes the calls that ended in it.
    fn end_term(&mut self, said: &mut String) -> Result<(), OutOfMemory> {
        match records_of(
            self.alloc,
            self.site.plan(),
            &self.last.after,
            self.journal.as_slice(),
        ) {
            Ok(records) => replace_with(&mut self.last, records),
            Err(_) => said.push_str("?")?,
        }
        if !self.hand_over() {
            said.push_str("not kept")?;
        }
        self.journal.clear();
        write_ended(said, self.last.calls.as_slice())
    }
}

/// Hands the records of a term to a store, and reports whether it kept them.
fn is_kept<K: Keeper>(store: &mut K, term: &TimedRecords) -> bool {
    store.keep(term).is_ok()
}
