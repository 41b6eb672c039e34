//! The work of each actor at its seat.

ghost use Rattle.std.specs.Prelude.{◌≡◌, []};
ghost use Rattle.dmr_desk.specs.Crew.{IsTicked, IsWorkDone};

use crate::at::SeatAt;
use crate::desk::SharedDesk;
use crate::desk_ledger::DeskLedger;
use crate::ending::Ending;
use crate::pace::{Pacer, work_ticker};
use crate::seat::Seat;
use crate::station::Serving;
use crate::work::work_station;
use std::snapshot::Snapshot;
use std::sync::Wait;
use std::thread::Promise;

/// The result of a link's worker.
#[derive(Drop)]
pub struct LinkWork<S, L: DeskLedger> {
    /// The station.
    pub station: S,
    /// The seat.
    pub seat: Seat<L>,
    /// Why the worker ended.
    pub ending: Ending,
}

/// The ticker's result.
#[derive(Drop)]
pub struct TickerWork<T, L: DeskLedger> {
    /// The pacer.
    pub pacer: T,
    /// The seat.
    pub seat: Seat<L>,
    /// Why the ticker ended.
    pub ending: Ending,
}

/// The promise that the worker of this station does its work, with a new seat of this actor.
#[derive(Drop)]
pub struct LinkPromise<S>(pub Snapshot<S>, pub u8);

impl<S: Serving, L: DeskLedger> Promise<LinkWork<S, L>> for LinkPromise<S> {
    ghost kept_by = { λ p r. IsWorkDone S.Serving p.1 p.0.value r };
}

/// The promise that the ticker does its work with this pacer, and a new seat of this actor.
#[derive(Drop)]
pub struct TickerPromise<T>(pub Snapshot<T>, pub u8);

impl<T: Pacer, L: DeskLedger> Promise<TickerWork<T, L>> for TickerPromise<T> {
    ghost kept_by = { λ p r. IsTicked T.Pacer p.1 p.0.value r };
}

/// Serves a station from a new seat. If the term is over, the station's port receives that.
pub fn work_from_seat<S: Serving, L: DeskLedger, R: Wait>(
    rt: &R,
    desk: &SharedDesk<L>,
    station: S,
    seat: Seat<L>,
) -> LinkWork<S, L>
    requires { seat.deposits ≡ [] }
    ensures { IsWorkDone S.Serving seat.actor station result }
{
    let mut station = station;
    let mut at = SeatAt::new(rt, desk, seat);
    let ending = work_station(rt, &mut station, &mut at);
    if ending == Ending::TermOver {
        station.report_term_over();
    }
    LinkWork {
        station,
        seat: at.into_seat(),
        ending,
    }
}

/// Deposits ticks from a new seat. If the term is over, the pacer receives that.
pub fn tick_from_seat<T: Pacer, L: DeskLedger, R: Wait>(
    rt: &R,
    desk: &SharedDesk<L>,
    pacer: T,
    seat: Seat<L>,
) -> TickerWork<T, L>
    requires { seat.deposits ≡ [] }
    ensures { IsTicked T.Pacer seat.actor pacer result }
{
    let mut pacer = pacer;
    let mut at = SeatAt::new(rt, desk, seat);
    let ending = work_ticker(rt, &mut pacer, &mut at);
    if ending == Ending::TermOver {
        pacer.term_over();
    }
    TickerWork {
        pacer,
        seat: at.into_seat(),
        ending,
    }
}
