//! The threads of a term.

ghost use Rattle.std.specs.Prelude.{◌≡◌, ◌≤◌, ◌+◌, ℕ, [], All, IfSome, true, vec_capacity, vec_len};
ghost use Rattle.dmr_desk.specs.Crew.{AllDone, AllWorked, IsTicked, IsWorkDone};
ghost use Rattle.dmr_desk.specs.Seats.{empty_seats};
ghost use Rattle.dmr_desk.specs.Term.{AreNew, are_new, is_new};

use crate::actors::{
    LinkPromise, LinkWork, TickerPromise, TickerWork, tick_from_seat, work_from_seat,
};
use crate::desk::SharedDesk;
use crate::desk_ledger::DeskLedger;
use crate::pace::Pacer;
use crate::seat::Seat;
use crate::station::Serving;
use std::snapshot::Snapshot;
use std::sync::Wait;
use std::thread;
use std::thread::{Scope, Threads};

/// The pacer and the console, with their seats.
#[derive(Drop)]
pub struct TickerAndConsole<T, C, L: DeskLedger> {
    /// The pacer.
    pub pacer: T,
    /// The ticker's seat.
    pub pacer_seat: Seat<L>,
    /// The console.
    pub console: C,
    /// The console's seat.
    pub console_seat: Seat<L>,
}

/// The results of all workers.
#[derive(Drop)]
pub struct AllWork<S, T, C, L: DeskLedger> {
    /// The results of the carriers' workers, in the order of their stations.
    pub carriers: Vec<LinkWork<S, L>>,
    /// The ticker's result.
    pub ticker: TickerWork<T, L>,
    /// The result of the console's worker.
    pub console: LinkWork<C, L>,
}

/// Starts the console's worker, and waits for it. If no thread can be started, abandons the desk and returns `None`.
fn run_console<'s, E, C, L, R>(
    rt: &'s R,
    scope: &'s Scope<'s, E>,
    desk: &'s SharedDesk<L>,
    station: C,
    seat: Seat<L>,
) -> Option<LinkWork<C, L>>
where
    C: Serving + Send + Drop + 's,
    L: DeskLedger + Send + Sync + 's,
    R: Wait + Threads + Sync,
    requires { seat.deposits ≡ [] }
    ensures { IfSome result (IsWorkDone C.Serving seat.actor station) }
{
    let promise = LinkPromise(Snapshot::of(&station), seat.actor());
    match scope.spawn_with(
        promise,
        move || -> LinkWork<C, L>
            requires { seat.deposits ≡ [] }
            ensures { IsWorkDone C.Serving seat.actor station result }
        { work_from_seat(rt, desk, station, seat) },
    ) {
        Ok(child) => Some(child.join(rt)),
        Err(_) => {
            desk.abandon(rt);
            None
        }
    }
}

/// Starts the ticker and the console's worker, and waits for both. If a thread cannot be started, abandons the desk, so
/// that started ones end, and returns `None`. The console, if it is left, receives that the term is over.
fn run_ticker_and_console<'s, E, S, T, C, L, R>(
    rt: &'s R,
    scope: &'s Scope<'s, E>,
    desk: &'s SharedDesk<L>,
    others: TickerAndConsole<T, C, L>,
    carriers: Vec<LinkWork<S, L>>,
) -> Option<AllWork<S, T, C, L>>
where
    S: Serving + Send + Drop + 's,
    T: Pacer + Send + Drop + 's,
    C: Serving + Send + Drop + 's,
    L: DeskLedger + Send + Sync + 's,
    R: Wait + Threads + Sync,
    requires pacer { others.pacer_seat.deposits ≡ [] }
    requires console { others.console_seat.deposits ≡ [] }
    ensures carriers { IfSome result (λ r. r.carriers ≡ carriers) }
    ensures ticker { IfSome result (λ r. IsTicked T.Pacer others.pacer_seat.actor others.pacer r.ticker) }
    ensures console { IfSome result (λ r. IsWorkDone C.Serving others.console_seat.actor others.console r.console) }
{
    let TickerAndConsole {
        pacer,
        pacer_seat,
        console,
        console_seat,
    } = others;
    let promise = TickerPromise(Snapshot::of(&pacer), pacer_seat.actor());
    match scope.spawn_with(
        promise,
        move || -> TickerWork<T, L>
            requires { pacer_seat.deposits ≡ [] }
            ensures { IsTicked T.Pacer pacer_seat.actor pacer result }
        { tick_from_seat(rt, desk, pacer, pacer_seat) },
    ) {
        Ok(child) => {
            let console = run_console(rt, scope, desk, console, console_seat);
            let ticker = child.join(rt);
            match console {
                Some(console) => Some(AllWork {
                    carriers,
                    ticker,
                    console,
                }),
                None => None,
            }
        }
        Err(_) => {
            desk.abandon(rt);
            let mut console = console;
            console.report_term_over();
            None
        }
    }
}

/// Reports to the pacer that the term is over, although it was not started. A started worker that waits may be woken.
fn report_to_pacer<T: Pacer + Drop, C: Drop, L: DeskLedger>(others: TickerAndConsole<T, C, L>) {
    let mut others = others;
    others.pacer.term_over();
}

/// Starts the first station's worker, runs the rest, and waits for the worker. So the workers start in the order of
/// their stations, and the ticker and the console's worker last. If a thread could not be started, returns `None`; the
/// desk was abandoned, and all started threads have ended. Unless the ticker had been started, the pacer or the console
/// received that the term is over.
fn run_stations<'s, E, S, T, C, L, R>(
    rt: &'s R,
    scope: &'s Scope<'s, E>,
    desk: &'s SharedDesk<L>,
    mut stations: Vec<S>,
    mut seats: Vec<Seat<L>>,
    others: TickerAndConsole<T, C, L>,
    room: Vec<LinkWork<S, L>>,
) -> Option<AllWork<S, T, C, L>>
where
    S: Serving + Send + Drop + 's,
    T: Pacer + Send + Drop + 's,
    C: Serving + Send + Drop + 's,
    L: DeskLedger + Send + Sync + 's,
    R: Wait + Threads + Sync,
    requires each { vec_len seats ≡ vec_len stations }
    requires new { All (λ seat. seat.deposits ≡ []) seats.items }
    requires pacer { others.pacer_seat.deposits ≡ [] }
    requires console { others.console_seat.deposits ≡ [] }
    requires empty { room.items ≡ [] }
    requires room { vec_len stations ≤ vec_capacity room }
    // The seats are numbered from any number on.
    ensures carriers { (first : ℕ) → AreNew first seats.items
        → IfSome result (λ r. AllDone S.Serving first stations.items r.carriers.items) }
    ensures len { IfSome result (λ r. vec_len r.carriers ≡ vec_len stations) }
    ensures room { IfSome result (λ r. vec_capacity r.carriers ≡ vec_capacity room) }
    ensures ticker { IfSome result (λ r. IsTicked T.Pacer others.pacer_seat.actor others.pacer r.ticker) }
    ensures console { IfSome result (λ r. IsWorkDone C.Serving others.console_seat.actor others.console r.console) }
{
    if stations.is_empty() {
        return run_ticker_and_console(rt, scope, desk, others, room);
    }
    let station = stations.remove(0);
    let seat = seats.remove(0);
    let promise = LinkPromise(Snapshot::of(&station), seat.actor());
    match scope.spawn_with(
        promise,
        move || -> LinkWork<S, L>
            requires { seat.deposits ≡ [] }
            ensures { IsWorkDone S.Serving seat.actor station result }
        { work_from_seat(rt, desk, station, seat) },
    ) {
        Ok(child) => {
            let rest = run_stations(rt, scope, desk, stations, seats, others, room);
            let work = child.join(rt);
            match rest {
                Some(mut all) => {
                    let Ok(()) = all.carriers.insert(0, work) else {
                        unreachable!()
                    };
                    Some(all)
                }
                None => None,
            }
        }
        Err(_) => {
            desk.abandon(rt);
            report_to_pacer(others);
            None
        }
    }
}

/// The crew of a term: the stations, the pacer and the console, a new seat for each, and room for the results.
#[derive(Drop)]
pub struct Workers<S, T, C, L: DeskLedger> {
    /// The stations.
    pub stations: Vec<S>,
    /// Their seats.
    pub seats: Vec<Seat<L>>,
    /// The pacer and the console.
    pub others: TickerAndConsole<T, C, L>,
    /// Room for the results of the stations' workers.
    pub room: Vec<LinkWork<S, L>>,
    ghost each: { vec_len seats ≡ vec_len stations },
    ghost new: { are_new 0 seats.items ≡ true },
    ghost pacer: { is_new (vec_len stations) others.pacer_seat ≡ true },
    ghost console: { is_new (vec_len stations + 1) others.console_seat ≡ true },
    ghost empty: { vec_len room ≡ 0 },
    ghost fits: { vec_len stations ≤ vec_capacity room },
}

/// Starts the workers of the whole crew, and waits for them. If a thread could not be started, returns `None`; the desk
/// was abandoned, and all started threads have ended.
fn run_crew<'s, E, S, T, C, L, R>(
    rt: &'s R,
    scope: &'s Scope<'s, E>,
    desk: &'s SharedDesk<L>,
    crew: Workers<S, T, C, L>,
) -> Option<AllWork<S, T, C, L>>
where
    S: Serving + Send + Drop + 's,
    T: Pacer + Send + Drop + 's,
    C: Serving + Send + Drop + 's,
    L: DeskLedger + Send + Sync + 's,
    R: Wait + Threads + Sync,
    ensures { IfSome result
        (AllWorked S.Serving T.Pacer C.Serving crew.stations.items crew.others.pacer crew.others.console) }
{
    let Workers {
        stations,
        seats,
        others,
        room,
    } = crew;
    run_stations(rt, scope, desk, stations, seats, others, room)
}

/// Runs the workers of the whole crew, each in a thread of its own, as [`run_threads`] does.
fn run_workers<S, T, C, L, R>(
    rt: &R,
    desk: &SharedDesk<L>,
    crew: Workers<S, T, C, L>,
) -> Option<AllWork<S, T, C, L>>
where
    S: Serving + Send + Drop,
    T: Pacer + Send + Drop,
    C: Serving + Send + Drop,
    L: DeskLedger + Send + Sync,
    R: Wait + Threads + Sync,
    ensures { IfSome result
        (AllWorked S.Serving T.Pacer C.Serving crew.stations.items crew.others.pacer crew.others.console) }
{
    thread::scope(thread::scope_env(), rt, move |scope| {
        run_crew(rt, scope, desk, crew)
    })
}

/// Runs the workers, each in a thread of its own, and waits for them. Each has a new seat: one for each station, then
/// the ticker's, then the console's. `room` is for the results of the stations' workers. If a thread could not be
/// started, returns `None`. Then the desk was abandoned, each started worker ended when it next asked whether the term
/// is over, and what was handed in is lost.
pub fn run_threads<S, T, C, L, R>(
    rt: &R,
    desk: &SharedDesk<L>,
    stations: Vec<S>,
    mut seats: Vec<Seat<L>>,
    pacer: T,
    console: C,
    room: Vec<LinkWork<S, L>>,
) -> Option<AllWork<S, T, C, L>>
where
    S: Serving + Send + Drop,
    T: Pacer + Send + Drop,
    C: Serving + Send + Drop,
    L: DeskLedger + Send + Sync,
    R: Wait + Threads + Sync,
    requires seats { seats.items ≡ empty_seats (vec_len stations + 2) }
    requires empty { room.items ≡ [] }
    requires room { vec_len stations ≤ vec_capacity room }
    ensures { IfSome result (AllWorked S.Serving T.Pacer C.Serving stations.items pacer console) }
{
    let console_seat = seats.pop()?;
    let pacer_seat = seats.pop()?;
    let others = TickerAndConsole {
        pacer,
        pacer_seat,
        console,
        console_seat,
    };
    let crew = Workers {
        stations,
        seats,
        others,
        room,
    };
    run_workers(rt, desk, crew)
}
