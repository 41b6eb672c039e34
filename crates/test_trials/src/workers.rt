//! The workers of a carrier, the ticker and the console, called one after the other in one thread. Each has a seat at
//! the same desk.

ghost use Rattle.dmr_desk.specs.Opening.{IsBlankFor};
ghost use Rattle.dmr_desk.specs.Seats.{opened};

use crate::kept::{both, expect_same, three};
use crate::site::quiet_site;
use crate::terms::compare_part;
use crate::terms::spelling::Letters;
use crate::terms::stage::{CONSOLE, Carrier, Opening, TermStage, new_stage, octets_taken};
use crate::terms::stories::{NO_CARRIER, NOTHING_COMES};
use dmr_core::Site;
use dmr_desk::{
    DeskLedger, Ending, PARTS, Pace, Report, Seat, SeatAt, SharedDesk, work_carrier, work_console,
    work_ticker,
};
use std::alloc::Global;
use std::marker::Brand;
use std::process::Abort;
use std::sync::Wait;
use std::sync::ledger::Blank;
use std::test::Fail;

/// The number of an actor in a term that has its port, the events of its view, and the octets that its port took. The
/// ticker has no port.
const WANTED: [(usize, (Letters, Letters)); 3] = [
    (0, (&[(1, "UPPL")], &[(1, "WFDFD")])),
    (2, (&[(3, "T")], &[])),
    (CONSOLE, (&[(1, "S")], &[(1, "S")])),
];

/// A carrier that sends HELLO and two POLLs, three ticks, and an operator who asks for the status.
const OPENING: Opening<'static> = Opening {
    numbers: &[0],
    first: Carrier {
        steps: "not yet, connect, read block, again, hex 010401000001, 2 x hex 0300, read end",
        ..NO_CARRIER
    },
    paces: &[Pace::Tick, Pace::Tick, Pace::Tick],
    operator: "connect, hex 7374617475730A",
    ..NOTHING_COMES
};

/// Why each worker ended: the carrier's, the ticker's and the console's.
type Ends = [Ending; 3];

/// Runs the three workers, each with its seat, and returns the seats.
fn serve_all<L: DeskLedger, R: Wait>(
    rt: &R,
    desk: &SharedDesk<L>,
    seats: (Seat<L>, Seat<L>, Seat<L>),
    served: &mut TermStage<'_>,
) -> (Ends, [Seat<L>; 3]) {
    let (first, second, third) = seats;
    let mut carrier_at = SeatAt::new(rt, desk, first);
    let mut ticker_at = SeatAt::new(rt, desk, second);
    let mut console_at = SeatAt::new(rt, desk, third);
    let mut ends = [Ending::TermOver; 3];
    for station in served.stations.iter_mut() {
        ends[0] = work_carrier(rt, station, &mut carrier_at);
    }
    ends[1] = work_ticker(rt, &mut served.pacer, &mut ticker_at);
    ends[2] = work_console(rt, &mut served.console, &mut console_at);
    let seats = [
        carrier_at.into_seat(),
        ticker_at.into_seat(),
        console_at.into_seat(),
    ];
    (ends, seats)
}

/// Runs the three workers at a desk for three actors, and closes the desk.
fn work_over<L: DeskLedger, R: Wait>(
    rt: &R,
    alloc: Global,
    blank: Blank,
    site: Site,
    served: &mut TermStage<'_>,
) -> Option<(Ends, Report)>
    requires { IsBlankFor L.name L.parts L.desk (opened site 100 3) blank }
{
    let (desk, seats) = SharedDesk::<L>::open(alloc, blank, site, 100, 3).ok()?;
    let (desk, seats) = Some(desk).zip(three(seats))?;
    let (ends, seats) = serve_all(rt, &desk, seats, served);
    let (desk, seats) = Some(desk).zip(Vec::from_array(alloc, seats).ok())?;
    Some((ends, desk.close(rt, seats).ok()?))
}

/// Runs the three workers, with a ledger of their own.
fn work_all<R: Wait>(
    rt: &R,
    alloc: Global,
    site: Site,
    served: &mut TermStage<'_>,
) -> Option<(Ends, Report)> {
    work_over::<Brand, R>(rt, alloc, Blank::new(PARTS), site, served)
}

/// Each worker ends when its port or its pacer has no more. The events of the carrier and of the operator, and the
/// ticks, are deposited, and the answers are written.
#[test]
fn workers(rt: HostRuntime) -> Result<(), Fail> {
    let served = new_stage(rt.alloc(), None, &OPENING)?;
    let (mut served, site) = both(served, quiet_site(rt.alloc()))?;
    let worked = work_all(&rt, rt.alloc(), site, &mut served).ok_or("a report");
    let (served, (ends, report)) = both(served, worked)?;
    let compared = compare(&rt, &served, &report);
    drop(served);
    drop(report);
    expect_same(&rt, "workers", "ends", ends, [Ending::Finished; 3]);
    compared
}

/// Compares the events that were deposited and the octets that were written with the expected ones.
fn compare(
    rt: &(impl Abort + AllocGlobal),
    served: &TermStage<'_>,
    report: &Report,
) -> Result<(), Fail> {
    let entries = report.journal.as_slice().len();
    expect_same(rt, "workers", "entries", entries, 8);
    for (view, (actor, want)) in WANTED.iter().enumerate() {
        let taken = octets_taken(served.stations.as_slice(), &served.console, *actor);
        compare_part(rt, "workers", view, &report.views, taken, *want)?;
    }
    Ok(())
}
