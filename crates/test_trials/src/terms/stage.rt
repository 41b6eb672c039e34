//! A site of two carriers with its stations, pacer and console, from term to term.

use super::meeting::{Counts, Hold, Meeting, MeetingPacer, MeetingPort};
use super::stories::NO_CARRIER;
use crate::kept::{both, keep, push};
use crate::site::quiet_site;
use crate::steps::port_of;
use dmr_desk::{
    ConsoleStation, Pace, Report, Service, SpareLists, Station, Term, TermFault, run_term,
};
use dmr_frames::Version;
use dmr_link::{ConsoleLink, Link};
use dmr_pdu::{CarrierNo, Lpcn};
use dmr_wire::MemoryPort;
use std::alloc::Global;
use std::sync::Wait;
use std::test::Fail;
use std::thread::Threads;

/// The console's number among the actors.
pub const CONSOLE: usize = 3;

/// The input of a carrier, and its holds.
#[derive(Clone, Copy)]
pub struct Carrier<'a> {
    /// The steps of its port.
    pub steps: &'a str,
    /// The hold of the first entry of its gate.
    pub gate: Hold,
    /// The hold of the first silence of its port.
    pub wait: Hold,
}

/// The state at the beginning of the first term.
#[derive(Clone, Copy)]
pub struct Opening<'a> {
    /// The numbers of the carriers that have a station.
    pub numbers: &'a [u8],
    /// The first of these carriers.
    pub first: Carrier<'a>,
    /// The second one. Others have no input.
    pub second: Carrier<'a>,
    /// The greatest version of the link that is served.
    pub greatest: Version,
    /// The answers of the pacer.
    pub paces: &'static [Pace],
    /// The hold of the pacer's first answer.
    pub pacer: Hold,
    /// The steps of the console's port.
    pub operator: &'a str,
    /// The input of which steps name a part, and the number that `N` means in steps.
    pub input: (&'a [u8], usize),
}

/// A carrier's station.
pub type CarrierStation<'a> = Station<MeetingPort<'a>, Meeting<'a>>;

/// The state that one term hands to the next.
pub type TermStage<'a> = Service<MeetingPort<'a>, Meeting<'a>, MeetingPacer<'a>, MemoryPort>;

/// The result of a term.
pub type TermOutcome<'a> = Term<CarrierStation<'a>, MeetingPacer<'a>, ConsoleStation<MemoryPort>>;

/// Returns the station of the carrier with this number.
fn station_of<'a>(
    alloc: Global,
    counts: Counts<'a>,
    number: u8,
    carrier: &Carrier<'_>,
    opening: &Opening<'_>,
) -> Result<CarrierStation<'a>, Fail> {
    let (input, round) = opening.input;
    let port = port_of(alloc, input, carrier.steps, round)?;
    let place = u32::from(number % 16);
    let actor = usize::from(number);
    Ok(Station {
        link: Link::new(
            CarrierNo::new(place),
            Lpcn::new(place + 1),
            opening.greatest,
        ),
        port: MeetingPort {
            port,
            meeting: Meeting::new(counts, actor, carrier.wait),
        },
        gate: Meeting::new(counts, actor, carrier.gate),
    })
}

/// Adds the stations.
fn add_stations<'a>(
    alloc: Global,
    counts: Counts<'a>,
    stations: &mut Vec<CarrierStation<'a>>,
    opening: &Opening<'_>,
) -> Result<(), Fail> {
    for (place, number) in opening.numbers.iter().enumerate() {
        let carrier = match place {
            0 => &opening.first,
            1 => &opening.second,
            _ => &NO_CARRIER,
        };
        let station = station_of(alloc, counts, *number, carrier, opening)?;
        push(stations, station)?;
    }
    Ok(())
}

/// Returns the stage of the first term, with a site on which nothing is up.
pub fn new_stage<'a>(
    alloc: Global,
    counts: Counts<'a>,
    opening: &Opening<'_>,
) -> Result<TermStage<'a>, Fail> {
    let mut stations = Vec::new(alloc);
    let added = add_stations(alloc, counts, &mut stations, opening);
    let stations = keep(added, stations)?;
    let (input, round) = opening.input;
    let (stations, port) = both(stations, port_of(alloc, input, opening.operator, round))?;
    let ((stations, port), site) = both((stations, port), quiet_site(alloc))?;
    Ok(Service {
        site,
        stations,
        pacer: MeetingPacer {
            paces: opening.paces,
            meeting: Meeting::new(counts, 2, opening.pacer),
        },
        console: ConsoleStation {
            link: ConsoleLink::new(),
            port,
        },
        spare: SpareLists::new(alloc),
    })
}

/// Returns the stage of the term after this one.
pub fn next_stage<'a>(alloc: Global, outcome: TermOutcome<'a>) -> TermStage<'a> {
    let Term {
        report,
        stations,
        pacer,
        console,
        ..
    } = outcome;
    let Report {
        site,
        journal,
        views,
    } = report;
    drop(journal);
    drop(views);
    Service {
        site,
        stations,
        pacer,
        console,
        spare: SpareLists::new(alloc),
    }
}

/// Runs a term.
pub fn run<'a, R: Wait + Threads + Sync>(
    rt: &R,
    alloc: Global,
    stage: TermStage<'a>,
    limit: usize,
) -> Result<TermOutcome<'a>, TermFault> {
    let Service {
        site,
        stations,
        pacer,
        console,
        spare,
    } = stage;
    drop(spare);
    run_term(rt, alloc, site, limit, stations, pacer, console)
}

/// Returns the port of an actor. The ticker has none.
pub fn port_of_actor<'b>(
    stations: &'b [CarrierStation<'_>],
    console: &'b ConsoleStation<MemoryPort>,
    actor: usize,
) -> Option<&'b MemoryPort> {
    if actor == CONSOLE {
        Some(&console.port)
    } else {
        Some(&stations.get(actor)?.port.port)
    }
}

/// Returns all octets that the port of an actor has taken.
pub fn octets_taken<'b>(
    stations: &'b [CarrierStation<'_>],
    console: &'b ConsoleStation<MemoryPort>,
    actor: usize,
) -> &'b [u8] {
    match port_of_actor(stations, console, actor) {
        Some(port) => port.taken(),
        None => &[],
    }
}
