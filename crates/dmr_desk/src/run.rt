//! Running a term.

ghost use Rattle.std.specs.Prelude.{◌≡◌, ◌+◌, ◌-◌, ◌≤◌, ◌↔◌, ℕ, [], IfErr, IfOk, IsTrue, OnOk};
ghost use Rattle.std.specs.Prelude.{Some, map, option_map, slice_get, vec_capacity, vec_len};
ghost use Rattle.dmr_desk.specs.Crew.{HasRoom, IsTermAt, end_of, start_of};
ghost use Rattle.dmr_desk.specs.Opening.{IsBlankFor, IsLimit};
ghost use Rattle.dmr_desk.specs.Refusing.{IsEndAt, IsFaultFor, IsTermFault};
ghost use Rattle.dmr_desk.specs.Refusing.{carrier_of_peer, left_at, numbers_from};
ghost use Rattle.dmr_desk.specs.Seats.{opened};
ghost use Rattle.dmr_desk.specs.Service.{AreShut, console_of, end_at, start_at, states_of};
ghost use Rattle.dmr_desk.specs.Term.{IsTerm, start_of_term};
ghost use Rattle.dmr_desk.specs.Terms.{Fits};

use crate::actors::LinkWork;
use crate::desk::SharedDesk;
use crate::desk_ledger::DeskLedger;
use crate::ending::Ending;
use crate::fault::{OpenFault, TermFault};
use crate::limits::{MOST_ENTRIES, PARTS};
use crate::pace::Pacer;
use crate::service::{Refused, Service};
use crate::spare::SpareLists;
use crate::station::{ConsoleStation, Serving, Station};
use crate::term::{FailedTerm, HandedBack, Term, close_term};
use crate::threads::run_threads;
use arrayvec::ArrayVec;
use dmr_core::Site;
use dmr_link::Gate;
use dmr_pdu::{CarrierNo, OutOfMemory};
use dmr_plan::Plan;
use dmr_wire::Port;
use std::alloc::Global;
use std::marker::Brand;
use std::sync::Wait;
use std::sync::ledger::Blank;
use std::thread::Threads;

/// Whether these are the stations of the plan's carriers among the last `many` carrier numbers, in the order of their
/// numbers.
fn are_stations<P, G>(plan: &Plan, many: u32, stations: &[Station<P, G>]) -> bool
    requires { many ≤ 16 }
    ensures { IsTrue result
        ↔ (map (λ s. carrier_of_peer s.link.who) stations.now
        ≡ map (λ n. Some n) (numbers_from plan.now many (16 - many))) }
{
    if many == 0 {
        return stations.is_empty();
    }
    let number = CarrierNo::new(16 - many);
    if plan.carrier_with(number).is_none() {
        return are_stations(plan, many - 1, stations);
    }
    match stations {
        [] => false,
        [first, rest @ ..] => {
            if first.link.carrier() != number {
                return false;
            }
            are_stations(plan, many - 1, rest)
        }
    }
}

/// Allocates room for the results of the workers of `stations` stations, the ticker and the console. On an error an
/// allocation was refused.
fn room_for<S: Drop, L: DeskLedger>(
    alloc: Global,
    stations: usize,
) -> Result<(Vec<LinkWork<S, L>>, HandedBack<S, L>), OutOfMemory>
    requires few { stations ≤ 16 }
    ensures room { IfOk result (λ r. (r.0.items ≡ []) × (stations ≤ vec_capacity r.0)) }
    ensures back { IfOk result (λ r. HasRoom stations r.1) }
{
    let room = Vec::with_capacity(alloc, stations)?;
    let back = HandedBack {
        stations: Vec::with_capacity(alloc, stations)?,
        seats: Vec::with_capacity(alloc, stations + 2)?,
        ends: ArrayVec::new(),
    };
    Ok((room, back))
}

/// A term over a ledger, of at most 16 stations. All memory is allocated before a thread is started, so the service is
/// handed back as it was if an allocation is refused. Otherwise an error says that a thread could not be started, or
/// that the desk returned no report, or that a worker ended early.
fn run_over<P, G, T, C, L, R>(
    rt: &R,
    alloc: Global,
    blank: Blank,
    limit: usize,
    service: Service<P, G, T, C>,
) -> Result<Term<Station<P, G>, T, ConsoleStation<C>>, Refused<P, G, T, C>>
where
    P: Port + Send + Drop,
    G: Gate + Send + Drop,
    T: Pacer + Send + Drop,
    C: Port + Send + Drop,
    L: DeskLedger + Send + Sync,
    R: Wait + Threads + Sync,
    requires blank { IsBlankFor L.name L.parts L.desk
        (opened service.site limit (vec_len service.stations + 2)) blank }
    requires few { vec_len service.stations ≤ 16 }
    requires limit { IsLimit limit }
    ensures term { IfOk result (IsTermAt ⟦<Station<P, G> as Serving>⟧ T.Pacer
        ⟦<ConsoleStation<C> as Serving>⟧ L.desk service.stations.items service.pacer service.console) }
    ensures fault { IfErr result (λ refused. IsFaultFor
        (start_at P.reported G.passed T.paced C.reported limit service) refused.fault) }
    ensures left { IfErr result (λ refused. refused.left ≡ left_at refused.fault service) }
    ensures ended { IfErr result (λ refused. IsEndAt (start_of ⟦<Station<P, G> as Serving>⟧ T.Pacer
        ⟦<ConsoleStation<C> as Serving>⟧ L.desk service.stations.items service.pacer service.console)
        refused.fault (option_map (end_of ⟦<Station<P, G> as Serving>⟧ T.Pacer
        ⟦<ConsoleStation<C> as Serving>⟧) refused.ended)) }
{
    let Service {
        site,
        stations,
        pacer,
        console,
        mut spare,
    } = service;
    let count = stations.len();
    let Ok((room, back)) = room_for(alloc, count) else {
        return Err(Refused {
            fault: TermFault::Open(OpenFault::OutOfMemory),
            left: Some(Service {
                site,
                stations,
                pacer,
                console,
                spare,
            }),
            ended: None,
        });
    };
    let actors = count as u8 + 2;
    let (desk, seats) = match SharedDesk::<L>::open_with(
        alloc, blank, site, limit, actors, &mut spare,
    ) {
        Ok(opened) => opened,
        Err(site) => {
            drop(room);
            drop(back);
            return Err(Refused {
                fault: TermFault::Open(OpenFault::OutOfMemory),
                left: Some(Service {
                    site,
                    stations,
                    pacer,
                    console,
                    spare,
                }),
                ended: None,
            });
        }
    };
    drop(spare);
    let Some(all) = run_threads(rt, &desk, stations, seats, pacer, console, room) else {
        drop(desk);
        drop(back);
        return Err(Refused {
            fault: TermFault::NoThread,
            left: None,
            ended: None,
        });
    };
    match close_term(rt, desk, limit, all, back) {
        Ok(term) => Ok(term),
        Err(failed) => {
            let FailedTerm { fault, ended } = failed;
            Err(Refused {
                fault,
                left: None,
                ended,
            })
        }
    }
}

/// Runs a term, as [`run_term`] does, from a service. If no thread was started, the error hands back the service as it
/// was: at `BadStations`, and at `Open`, so if memory ran out. The same term can then be tried again. If all workers
/// have ended, at `Early` and at `Audit`, it hands back the term as they left it. At `NoThread` the service is lost.
pub fn try_term<P, G, T, C, R>(
    rt: &R,
    alloc: Global,
    limit: usize,
    service: Service<P, G, T, C>,
) -> Result<Term<Station<P, G>, T, ConsoleStation<C>>, Refused<P, G, T, C>>
where
    P: Port + Send + Drop,
    G: Gate + Send + Drop,
    T: Pacer + Send + Drop,
    C: Port + Send + Drop,
    R: Wait + Threads + Sync,
    ensures term { IfOk result (λ t. IsTerm
        (start_at P.reported G.passed T.paced C.reported limit service)
        (end_at P.reported G.passed T.paced C.reported t)) }
    ensures shut { IfOk result (AreShut G.shuts) }
    ensures open { IfOk result
        (λ t. slice_get t.ends.items (vec_len service.stations + 1) ≡ Some Ending.GateShut → ⊥) }
    ensures fault { IfErr result (λ refused. IsTermFault
        (start_at P.reported G.passed T.paced C.reported limit service) refused.fault) }
    // All of the service is as it was: the site, the links' states and the ports' records among the rest.
    ensures left { IfErr result (λ refused. refused.left ≡ left_at refused.fault service) }
    // At `Early` and `Audit`, a term that this start can have. That it is the one that ran is read in the body: no value
    // shows that threads were started.
    ensures ended { IfErr result (λ refused. IsEndAt
        (start_at P.reported G.passed T.paced C.reported limit service) refused.fault
        (option_map (end_at P.reported G.passed T.paced C.reported) refused.ended)) }
    ensures fits { OnOk result (Fits (start_at P.reported G.passed T.paced C.reported limit service)) }
{
    if !are_stations(service.site.plan(), 16, service.stations.as_slice()) {
        return Err(Refused {
            fault: TermFault::BadStations,
            left: Some(service),
            ended: None,
        });
    }
    if limit == 0 || limit > MOST_ENTRIES {
        return Err(Refused {
            fault: TermFault::Open(OpenFault::BadLimit),
            left: Some(service),
            ended: None,
        });
    }
    run_over::<P, G, T, C, Brand, R>(rt, alloc, Blank::new(PARTS), limit, service)
}

/// Runs a term at one desk: a worker for each station, one for the ticker and one for the console, each in a thread of
/// its own. The desk's journal may have `limit` entries (1 to 100,000). There is one station for each carrier of the
/// plan, in the order of their numbers. The actors are the stations, then the ticker, then the console. When all
/// workers have ended, the term is over: the desk is closed, and its journal is compared with the answers that each
/// worker received. All memory is allocated before a thread is started, and the call waits for each started thread. If
/// a thread cannot be started, the desk takes no further event. Each started worker then ends when it next asks whether
/// the term is over; no clause says how soon. The error is the first fault that applies, in the order of [`TermFault`];
/// all arguments are used up. [`try_term`] hands them back if no thread was started.
pub fn run_term<P, G, T, C, R>(
    rt: &R,
    alloc: Global,
    site: Site,
    limit: usize,
    stations: Vec<Station<P, G>>,
    pacer: T,
    console: ConsoleStation<C>,
) -> Result<Term<Station<P, G>, T, ConsoleStation<C>>, TermFault>
where
    P: Port + Send + Drop,
    G: Gate + Send + Drop,
    T: Pacer + Send + Drop,
    C: Port + Send + Drop,
    R: Wait + Threads + Sync,
    ensures term { IfOk result (λ t. IsTerm (start_of_term site limit
        (states_of P.reported G.passed stations.items) (T.paced pacer)
        (console_of C.reported console))
        (end_at P.reported G.passed T.paced C.reported t)) }
    ensures shut { IfOk result (AreShut G.shuts) }
    ensures open { IfOk result (λ t. slice_get t.ends.items (vec_len stations + 1)
        ≡ Some Ending.GateShut → ⊥) }
    ensures fault { IfErr result (IsTermFault (start_of_term site limit
        (states_of P.reported G.passed stations.items) (T.paced pacer)
        (console_of C.reported console))) }
    ensures fits { OnOk result (Fits (start_of_term site limit
        (states_of P.reported G.passed stations.items) (T.paced pacer)
        (console_of C.reported console))) }
{
    let service = Service {
        site,
        stations,
        pacer,
        console,
        spare: SpareLists::new(alloc),
    };
    match try_term(rt, alloc, limit, service) {
        Ok(term) => Ok(term),
        Err(refused) => {
            let Refused { fault, left, ended } = refused;
            drop(left);
            drop(ended);
            Err(fault)
        }
    }
}
