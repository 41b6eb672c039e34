//! Terms of a site of two carriers, over ports in memory.
//!
//! Each term ends by itself under every schedule, since a hold ends after some seconds. The expected octets follow from
//! the frames of the link profile and the texts of the console. An independent coder computed the one burst.

pub mod meeting;
pub mod spelling;
pub mod stage;
pub mod stories;

use self::spelling::{Letters, octets_of, text_of_letters, write_letters};
use self::stage::{Opening, TermOutcome, TermStage, new_stage, next_stage, octets_taken, run};
use self::stories::{ExpectedEnd, HUNDRED_POLLS, NOTHING_COMES, STORIES, TermStory};
use crate::kept::{expect_same, keep};
use dmr_desk::{OpenFault, Refused, TermFault, Views, try_term};
use std::process::Abort;
use std::sync::Wait;
use std::sync::atomic::AtomicU64;
use std::test::Fail;
use std::thread::Threads;

/// Runs terms one after the other, each with the expected part of each actor.
#[test]
fn terms(rt: HostRuntime) -> Result<(), Fail> {
    for story in STORIES.iter() {
        // The counts of the steps of two carriers and the ticker.
        let steps = [AtomicU64::new(0), AtomicU64::new(0), AtomicU64::new(0)];
        let counts = Some((&rt, steps.as_slice()));
        run_story(&rt, new_stage(rt.alloc(), counts, &story.opening)?, story)?;
    }
    Ok(())
}

/// Runs the terms of a story from this stage on.
fn run_story<R: Abort + AllocGlobal + Wait + Threads + Sync>(
    rt: &R,
    mut stage: TermStage<'_>,
    story: &TermStory,
) -> Result<(), Fail> {
    for want in story.terms {
        stage = run_expected(rt, stage, story.name, want)?;
    }
    drop(stage);
    Ok(())
}

/// Runs a term, and compares it with the expected result. Returns the stage of the next term.
fn run_expected<'a, R: Abort + AllocGlobal + Wait + Threads + Sync>(
    rt: &R,
    stage: TermStage<'a>,
    name: &str,
    want: &ExpectedEnd,
) -> Result<TermStage<'a>, Fail> {
    match try_term(rt, rt.alloc(), want.limit, stage) {
        Ok(outcome) => {
            let compared = compare(rt, name, &outcome, want);
            Ok(next_stage(rt.alloc(), keep(compared, outcome)?))
        }
        Err(refused) => {
            let Refused { fault, left, ended } = refused;
            drop(ended);
            let bad_limit = TermFault::Open(OpenFault::BadLimit);
            expect_same(rt, name, want.limit, fault, bad_limit);
            expect_same(rt, name, want.limit, want.actors.len(), 0);
            Ok(left.ok_or("the stage")?)
        }
    }
}

/// Compares a term with the expected result.
fn compare(
    rt: &(impl Abort + AllocGlobal),
    name: &str,
    outcome: &TermOutcome<'_>,
    want: &ExpectedEnd,
) -> Result<(), Fail> {
    let entries = outcome.report.journal.as_slice().len();
    expect_same(rt, name, "entries", entries, want.entries);
    let actors = outcome.report.views.len();
    expect_same(rt, name, "actors", actors, want.actors.len());
    for (actor, (ending, events, octets)) in want.actors.iter().enumerate() {
        if ending.is_some() {
            let ended = outcome.ends.as_slice().get(actor).copied();
            expect_same(rt, name, actor, ended, *ending);
        }
        let taken = octets_taken(outcome.stations.as_slice(), &outcome.console, actor);
        compare_part(
            rt,
            name,
            actor,
            &outcome.report.views,
            taken,
            (*events, *octets),
        )?;
    }
    Ok(())
}

/// Compares the events of an actor, and the octets that its port has taken, with the expected ones.
pub fn compare_part(
    rt: &(impl Abort + AllocGlobal),
    name: &str,
    actor: usize,
    views: &Views,
    taken: &[u8],
    want: (Letters, Letters),
) -> Result<(), Fail> {
    let mut letters = String::new(rt.alloc());
    write_letters(&mut letters, actor, views)?;
    let events = text_of_letters(rt.alloc(), want.0)?;
    expect_same(rt, name, actor, letters.as_str(), events.as_str());
    let octets = octets_of(rt.alloc(), want.1)?;
    expect_same(rt, name, actor, taken, octets.as_slice());
    Ok(())
}

/// With every limit, carrier 0's link is served to its end in as many terms as its 102 entries need. The events and the
/// octets are the same with every limit.
#[test]
fn every_limit(rt: HostRuntime) -> Result<(), Fail> {
    let events = text_of_letters(rt.alloc(), &[(1, "U"), (100, "P"), (1, "L")])?;
    let octets = octets_of(rt.alloc(), &[(1, "W"), (100, "FD")])?;
    for limit in 1..=102 {
        let stage = new_stage(rt.alloc(), None, &HUNDRED_POLLS)?;
        let counts = (limit, 101 / limit + 1);
        check_limit(&rt, stage, counts, events.as_str(), octets.as_slice())?;
    }
    Ok(())
}

/// Runs terms of a limit, as many as are needed: `counts` has the limit and their number. Carrier 0's link is live
/// before the last one has ended, and not live then.
fn check_limit<R: Abort + AllocGlobal + Wait + Threads + Sync>(
    rt: &R,
    mut stage: TermStage<'_>,
    counts: (usize, usize),
    events: &str,
    octets: &[u8],
) -> Result<(), Fail> {
    let (limit, terms) = counts;
    let mut letters = String::new(rt.alloc());
    for term in 1..=terms {
        stage = serve_term(rt, stage, &mut letters, limit)?;
        let is_live = stage.stations.iter().any(|station| station.link.live());
        expect_same(rt, "live", limit, is_live, term < terms);
    }
    expect_same(rt, "events", limit, letters.as_str(), events);
    let taken = octets_taken(stage.stations.as_slice(), &stage.console, 0);
    expect_same(rt, "octets", limit, taken, octets);
    drop(stage);
    Ok(())
}

/// Runs a term, and adds the events of carrier 0. Returns the stage of the next term.
fn serve_term<'a, R: AllocGlobal + Wait + Threads + Sync>(
    rt: &R,
    stage: TermStage<'a>,
    letters: &mut String,
    limit: usize,
) -> Result<TermStage<'a>, Fail> {
    let outcome = run(rt, rt.alloc(), stage, limit)?;
    let written = write_letters(letters, 0, &outcome.report.views);
    Ok(next_stage(rt.alloc(), keep(written, outcome)?))
}

/// The numbers of stations, a limit, and the fault of the term.
static REFUSALS: [(&[u8], usize, TermFault); 9] = [
    (&[], 0, TermFault::BadStations),
    (&[0], 0, TermFault::BadStations),
    (&[1], 100, TermFault::BadStations),
    (&[1, 0], 100_001, TermFault::BadStations),
    (&[0, 0], 100, TermFault::BadStations),
    (&[0, 1, 1], 100, TermFault::BadStations),
    (&[0, 1, 2], 100, TermFault::BadStations),
    (&[0, 1], 0, TermFault::Open(OpenFault::BadLimit)),
    (&[0, 1], 100_001, TermFault::Open(OpenFault::BadLimit)),
];

/// Stations that do not have the numbers of the plan's carriers are refused before the limit is checked; then bad
/// limits are.
#[test]
fn refusals(rt: HostRuntime) -> Result<(), Fail> {
    for (numbers, limit, want) in &REFUSALS {
        let opening = Opening {
            numbers: *numbers,
            ..NOTHING_COMES
        };
        let stage = new_stage(rt.alloc(), None, &opening)?;
        let fault = run(&rt, rt.alloc(), stage, *limit).err();
        expect_same(&rt, "refused", *limit, fault, Some(*want));
    }
    Ok(())
}
