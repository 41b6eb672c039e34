//! Desks that are opened, shared by two threads, refused, filled and closed.

ghost use Rattle.dmr_desk.specs.Opening.{IsBlankFor};
ghost use Rattle.dmr_desk.specs.Seats.{opened};

use crate::kept::{both, expect_same};
use crate::site::quiet_site;
use dmr_core::{Command, Event, Reply, Site};
use dmr_desk::{Book, CloseFault, DeskLedger, OpenFault, PARTS, Report, Seat, SeatAt, SharedDesk};
use dmr_link::{Desk, TermOver};
use dmr_pdu::CarrierNo;
use std::alloc::Global;
use std::marker::Brand;
use std::process::Abort;
use std::sync::Wait;
use std::sync::ledger::Blank;
use std::test::Fail;
use std::thread;
use std::thread::Threads;

/// The outcome of a desk.
#[derive(Clone, Copy, Debug, PartialEq)]
enum DeskOutcome {
    /// It was not opened, and it returned a site that is as before.
    NotOpened(OpenFault),
    /// It was not opened, and it returned another site.
    OtherSite,
    /// It returned no report.
    NotClosed(CloseFault),
    /// The report has this number of entries and of views.
    Closed(usize, usize),
}

/// Opens a desk, deposits nothing, returns the first `kept` seats to it, and closes it. Returns the site if the desk is
/// not opened.
fn open_and_close<L: DeskLedger, R: Wait>(
    rt: &R,
    alloc: Global,
    blank: Blank,
    site: Site,
    limit: usize,
    actors: u8,
    kept: usize,
) -> Result<DeskOutcome, (OpenFault, Site)>
    requires { IsBlankFor L.name L.parts L.desk (opened site limit actors) blank }
{
    let (desk, mut seats) = SharedDesk::<L>::open(alloc, blank, site, limit, actors)?;
    seats.truncate(kept);
    match desk.close(rt, seats) {
        Ok(report) => {
            let (entries, views) = (report.journal.as_slice().len(), report.views.len());
            drop(report);
            Ok(DeskOutcome::Closed(entries, views))
        }
        Err(fault) => Ok(DeskOutcome::NotClosed(fault)),
    }
}

/// Calls `open_and_close` with a ledger of its own. A site that is returned has to be equal to `other`, and to answer a
/// poll of carrier 0 in the same way.
fn outcome_of<R: Wait>(
    rt: &R,
    alloc: Global,
    site: Site,
    other: &mut Site,
    limit: usize,
    actors: u8,
    kept: usize,
) -> DeskOutcome {
    let closed = open_and_close::<Brand, R>(
        rt,
        alloc,
        Blank::new(PARTS),
        site,
        limit,
        actors,
        kept,
    );
    match closed {
        Ok(outcome) => outcome,
        Err((fault, mut back)) => {
            let is_same = are_alike(&mut back, other);
            drop(back);
            if is_same {
                DeskOutcome::NotOpened(fault)
            } else {
                DeskOutcome::OtherSite
            }
        }
    }
}

/// Returns whether two sites are equal, answer a poll of carrier 0 in the same way, and are equal afterwards.
fn are_alike(site: &mut Site, other: &mut Site) -> bool {
    *site == *other && answer_alike(site, other) && *site == *other
}

/// Returns whether two sites answer a poll of carrier 0 in the same way.
fn answer_alike(site: &mut Site, other: &mut Site) -> bool {
    let carrier = CarrierNo::new(0);
    site.apply(Event::Poll(carrier)) == other.apply(Event::Poll(carrier))
}

/// Returns a site on which carrier 0 is up.
fn site_with_carrier(alloc: Global) -> Result<Site, Fail> {
    let mut site = quiet_site(alloc)?;
    site.apply(Event::Up(CarrierNo::new(0)));
    Ok(site)
}

/// The limit of a desk, its number of actors, the number of seats that are returned to it, and the outcome.
static DESKS: [(usize, u8, usize, DeskOutcome); 12] = [
    (0, 4, 4, DeskOutcome::NotOpened(OpenFault::BadLimit)),
    (0, 0, 4, DeskOutcome::NotOpened(OpenFault::BadLimit)),
    (100_001, 0, 4, DeskOutcome::NotOpened(OpenFault::BadLimit)),
    (100_001, 4, 4, DeskOutcome::NotOpened(OpenFault::BadLimit)),
    (10, 0, 0, DeskOutcome::NotOpened(OpenFault::BadActors)),
    (10, 19, 19, DeskOutcome::NotOpened(OpenFault::BadActors)),
    (1, 0, 0, DeskOutcome::NotOpened(OpenFault::BadActors)),
    (100_000, 19, 0, DeskOutcome::NotOpened(OpenFault::BadActors)),
    (10, 4, 3, DeskOutcome::NotClosed(CloseFault::SeatMissing(3))),
    (10, 4, 4, DeskOutcome::Closed(0, 4)),
    (10, 18, 18, DeskOutcome::Closed(0, 18)),
    (100_000, 1, 1, DeskOutcome::Closed(0, 1)),
];

/// A desk opens with a limit of 1 to 100,000 entries and 1 to 18 actors. It closes only with all its seats. If it is not
/// opened, it returns its site, which answers all later events as before.
#[test]
fn opens_and_closes(rt: HostRuntime) -> Result<(), Fail> {
    for (limit, actors, kept, want) in &DESKS {
        let site = site_with_carrier(rt.alloc())?;
        let (site, mut other) = both(site, site_with_carrier(rt.alloc()))?;
        let outcome = outcome_of(&rt, rt.alloc(), site, &mut other, *limit, *actors, *kept);
        drop(other);
        expect_same(&rt, "desk", *limit, outcome, *want);
    }
    Ok(())
}

/// A book of one entry takes one event.
#[test]
fn book_of_one_entry(rt: HostRuntime) -> Result<(), Fail> {
    let made = Book::new(rt.alloc(), quiet_site(rt.alloc())?, 1);
    let mut book = made.ok().expect(&rt, "memory");
    check_book(&rt, &mut book);
    drop(book);
    Ok(())
}

/// Checks that a book of one entry takes one event.
fn check_book(rt: &impl Abort, book: &mut Book) {
    let acts = book.apply(7, Event::Say(Command::Stay)).expect(rt, "room");
    expect_same(rt, "book", "reply", acts.said, Some(Reply::Done));
    let over = book.apply(7, Event::Tick).err();
    expect_same(rt, "book", "over", over, Some(TermOver { entries: 1 }));
    expect_same(rt, "book", "entries", book.as_slice().len(), 1);
    expect_same(rt, "book", "actor", book.as_slice()[0].actor, 7);
}

/// Fills a desk with room for three events from two seats, and checks that it refuses a fourth. Each seat adds to the
/// same journal and asks the same site: an operator at the second seat is answered that the carrier of the first is up.
fn fill<L: DeskLedger, R: Wait + Abort>(
    rt: &R,
    desk: &SharedDesk<L>,
    first: &mut Seat<L>,
    second: &mut Seat<L>,
) {
    for event in &carrier_events() {
        expect_same(rt, "desk", "over", desk.over(rt), false);
        expect_same(
            rt,
            "desk",
            "taken",
            desk.deposit(rt, first, *event).is_ok(),
            true,
        );
    }
    let said = match desk.deposit(rt, second, Event::Say(Command::Status)) {
        Ok(acts) => acts.said,
        Err(_) => None,
    };
    let want = Reply::Status {
        carriers: 1,
        radios: 0,
        asks: 0,
        lines: 0,
        calls: 0,
        moving: None,
    };
    expect_same(rt, "desk", "reply", said, Some(want));
    let over = desk.deposit(rt, first, Event::Tick).err();
    expect_same(rt, "desk", "refused", over, Some(TermOver { entries: 3 }));
    expect_same(rt, "desk", "over", desk.over(rt), true);
    expect_same(rt, "desk", "deposits", first.deposits().len(), 2);
}

/// Returns two events: carrier 0 comes up, and polls.
fn carrier_events() -> [Event; 2] {
    [Event::Up(CarrierNo::new(0)), Event::Poll(CarrierNo::new(0))]
}

/// Returns the report of a desk that is filled. `None` if the desk cannot be opened or closed.
fn filled<L: DeskLedger, R: Wait + Abort>(
    rt: &R,
    alloc: Global,
    blank: Blank,
    site: Site,
) -> Option<Report>
    requires { IsBlankFor L.name L.parts L.desk (opened site 3 2) blank }
{
    let (desk, mut seats) = SharedDesk::<L>::open(alloc, blank, site, 3, 2).ok()?;
    if let [first, second] = seats.as_mut_slice() {
        fill(rt, &desk, first, second);
    }
    desk.close(rt, seats).ok()
}

/// Calls `filled` with a ledger of its own.
fn report_of_filled<R: Wait + Abort>(rt: &R, alloc: Global, site: Site) -> Option<Report> {
    filled::<Brand, R>(rt, alloc, Blank::new(PARTS), site)
}

/// An event that a full journal refuses changes neither the seat nor the site.
#[test]
fn an_event_that_is_refused(rt: HostRuntime) -> Result<(), Fail> {
    let site = quiet_site(rt.alloc())?;
    let (site, mut other) = both(site, quiet_site(rt.alloc()))?;
    for event in &carrier_events() {
        other.apply(*event);
    }
    other.apply(Event::Say(Command::Status));
    let report = report_of_filled(&rt, rt.alloc(), site).ok_or("a report");
    let (other, report) = both(other, report)?;
    let entries = report.journal.as_slice().len();
    let is_same = report.site == other;
    drop(report);
    drop(other);
    expect_same(&rt, "report", "entries", entries, 3);
    expect_same(&rt, "report", "site", is_same, true);
    Ok(())
}

/// Deposits an event from a seat, `times` times or until the term is over, and returns the seat.
fn deposit_all<L: DeskLedger, R: Wait>(
    rt: &R,
    desk: &SharedDesk<L>,
    seat: Seat<L>,
    event: &Event,
    times: u32,
) -> Seat<L> {
    let mut at = SeatAt::new(rt, desk, seat);
    for _ in 0..times {
        if at.over() || at.deposit(*event).is_err() {
            break;
        }
    }
    at.into_seat()
}

/// Returns the report of a desk at which two threads deposit at the same time, each an event of its own, up to a
/// thousand times. `None` if the desk cannot be opened or closed.
fn at_once<L: DeskLedger + Send + Sync, R: Wait + Threads + Sync>(
    rt: &R,
    alloc: Global,
    blank: Blank,
    site: Site,
    limit: usize,
) -> Option<Report>
    requires { IsBlankFor L.name L.parts L.desk (opened site limit 2) blank }
{
    let (desk, mut seats) = SharedDesk::<L>::open(alloc, blank, site, limit, 2).ok()?;
    let (desk, (seat_1, seat_0)) = Some(desk).zip(seats.pop().zip(seats.pop()))?;
    let shared = &desk;
    let up = Event::Up(CarrierNo::new(0));
    let (seat_0, seat_1) = thread::join(
        rt,
        move || deposit_all(rt, shared, seat_0, &up, 1000),
        move || deposit_all(rt, shared, seat_1, &Event::Tick, 1000),
    );
    let (desk, seats) = Some(desk).zip(Vec::from_array(alloc, [seat_1, seat_0]).ok())?;
    desk.close(rt, seats).ok()
}

/// Calls `at_once` with a ledger of its own.
fn two_at_once<R: Wait + Threads + Sync>(
    rt: &R,
    alloc: Global,
    site: Site,
    limit: usize,
) -> Option<Report> {
    at_once::<Brand, R>(rt, alloc, Blank::new(PARTS), site, limit)
}

/// The journal has exactly the deposits of both threads. If the limit is too low for all of them, the journal is filled
/// to the limit.
#[test]
fn two_threads(rt: HostRuntime) -> Result<(), Fail> {
    for (limit, want) in [(2000, 2000), (1500, 1500)] {
        let site = quiet_site(rt.alloc())?;
        let report = two_at_once(&rt, rt.alloc(), site, limit).ok_or("a report")?;
        check_report(&rt, &report, want);
        drop(report);
    }
    Ok(())
}

/// Checks the number of entries of the journal, which two actors have deposited.
fn check_report(rt: &impl Abort, report: &Report, want: usize) {
    let entries = report.journal.as_slice().len();
    expect_same(rt, "two threads", "entries", entries, want);
    expect_same(rt, "two threads", "views", report.views.len(), 2);
    let mut told = 0;
    for view in report.views.as_slice() {
        told = view.as_slice().len().saturating_add(told);
    }
    expect_same(rt, "two threads", "deposits", told, want);
}
