//! Opening what the first term of a site runs with: its polls, its ports, its clock and its site.

ghost use Rattle.std.specs.Prelude.{◌≡◌, ◌++◌, ◌∷◌, [], ◌*◌, ℕ, IfOk, List, None, Ok, OnOk, vec_len};
ghost use Rattle.dmr_desk.specs.Refusing.{carrier_numbers};
ghost use Rattle.dmr_desk.specs.Terms.{Fits};
ghost use Rattle.dmr_trunk.specs.Faults.{fault_of_listening};
ghost use Rattle.dmr_trunk.specs.Opened.{AreNewStations, IsFirstService, IsNewConsole};
ghost use Rattle.dmr_trunk.specs.Opened.{IsNewPort, IsNewStation, start_of, with_number};

use crate::mio_sockets::{ListenFault, MioSockets};
use crate::not_served::NotServed;
use crate::notes::Notes;
use crate::pacer::ClockPacer;
use crate::port_watch::PortWatch;
use crate::wakers::{ClockWait, PollFault, Polls, Wakers, open_polls};
use dmr_command::listen_address;
use dmr_core::Site;
use dmr_desk::{ConsoleStation, Service, SpareLists, Station};
use dmr_link::{ConsoleLink, Link, OpenGate, greatest_version};
use dmr_pdu::{Address, CarrierNo};
use dmr_plan::{CarrierRow, Plan};
use dmr_port::{PortSettings, ServingPort, Whose};
use log::Log;
use mio::Poll;
use std::alloc::Global;
use std::net::{Net, SocketAddr};
use std::time::Clock;

/// A port over TCP.
type TcpPort<'a, R> = ServingPort<MioSockets<'a, R>, PortWatch<'a, R>>;

/// A carrier's station.
pub type CarrierAt<'a, R> = Station<TcpPort<'a, R>, OpenGate>;

/// The console's station.
pub type ConsoleAt<'a, R> = ConsoleStation<TcpPort<'a, R>>;

/// The state that continues from term to term.
pub type SiteService<'a, R> = Service<TcpPort<'a, R>, OpenGate, ClockPacer<'a, R>, TcpPort<'a, R>>;

/// Notes why a port cannot listen, and returns why nothing is served then.
fn fault_of_port<R: Log>(
    mut notes: Notes<'_, R>,
    whose: Whose,
    address: SocketAddr,
    port: u16,
    fault: ListenFault,
) -> NotServed
    ensures { result ≡ fault_of_listening port fault }
{
    match fault {
        ListenFault::CannotListen(error) => {
            notes.cannot_listen(whose, address, &error);
            NotServed::CannotListen(port)
        }
        ListenFault::NoPoll(error) => {
            notes.cannot_poll(&error);
            NotServed::NoPoll
        }
        ListenFault::OutOfMemory => NotServed::OutOfMemory,
    }
}

/// Whether the owner of a port is the control carrier of the plan.
fn is_control(plan: &Plan, whose: &Whose) -> bool {
    match whose {
        Whose::Carrier { number, .. } => *number == plan.control(),
        Whose::Console => false,
    }
}

/// Makes the port over sockets that listen.
fn make_port<'a, R: Net + Log + Clock>(
    rt: &'a R,
    alloc: Global,
    plan: &Plan,
    whose: Whose,
    notes: Notes<'a, R>,
    sockets: MioSockets<'a, R>,
) -> Result<TcpPort<'a, R>, NotServed>
    requires newcomers { vec_len sockets.newcomers ≡ 0 }
    requires connection { sockets.connection ≡ None }
    ensures { IfOk result (IsNewPort plan.now whose) }
{
    let is_control = is_control(plan, &whose);
    let settings = PortSettings {
        whose,
        greatest: greatest_version(plan),
        silence: plan.silence(),
    };
    let watch = PortWatch::new(rt, alloc, &settings, is_control, sockets.address, notes);
    match ServingPort::new(alloc, sockets, watch, settings) {
        Ok(opened) => Ok(opened),
        Err(refused) => {
            drop(refused);
            Err(NotServed::OutOfMemory)
        }
    }
}

/// Opens a port of the plan.
fn open_port<'a, R: Net + Log + Clock>(
    rt: &'a R,
    alloc: Global,
    polls: &mut Polls<'a>,
    plan: &Plan,
    whose: Whose,
    port: u16,
) -> Result<TcpPort<'a, R>, NotServed>
    ensures { IfOk result (IsNewPort plan.now whose) }
{
    let notes = Notes::new(rt, alloc)?;
    let address = listen_address(plan, port);
    let Some(poll) = polls.polls.pop() else {
        return Err(NotServed::NoPoll);
    };
    match MioSockets::listen(rt, alloc, poll, polls.wakers, address) {
        Ok(sockets) => make_port(rt, alloc, plan, whose, notes, sockets),
        Err(fault) => Err(fault_of_port(notes, whose, address, port, fault)),
    }
}

/// Opens the station of a carrier on its channel, which listens at its port.
fn open_station<'a, R: Net + Log + Clock>(
    rt: &'a R,
    alloc: Global,
    polls: &mut Polls<'a>,
    plan: &Plan,
    carrier: CarrierNo,
    row: &CarrierRow,
) -> Result<CarrierAt<'a, R>, NotServed>
    ensures { IfOk result (IsNewStation plan.now carrier row.now.lpcn) }
{
    let whose = Whose::Carrier {
        number: carrier,
        lpcn: row.lpcn,
    };
    let port = open_port(rt, alloc, polls, plan, whose, row.port)?;
    Ok(Station {
        link: Link::new(carrier, row.lpcn, greatest_version(plan)),
        port,
        gate: OpenGate,
    })
}

/// Returns what was opened now, with what was opened before, which is dropped if the former was not opened. It is generic,
/// since a function that drops something that holds much is expensive to prove.
pub fn beside<T: Drop, U>(before: T, opened: Result<U, NotServed>) -> Result<(T, U), NotServed>
    ensures { IfOk result (λ both. (both.0 ≡ before) × (opened ≡ Ok both.1)) }
{
    match opened {
        Ok(now) => Ok((before, now)),
        Err(fault) => {
            drop(before);
            Err(fault)
        }
    }
}

/// Does what [`beside`] does, for something and a list.
fn beside_list<T: Drop, S: Drop, U>(
    before: T,
    list: Vec<S>,
    opened: Result<U, NotServed>,
) -> Result<(T, Vec<S>, U), NotServed>
    ensures { IfOk result
        (λ all. (all.0 ≡ before) × (all.1 ≡ list) × (opened ≡ Ok all.2)) }
{
    match opened {
        Ok(now) => Ok((before, list, now)),
        Err(fault) => {
            drop(before);
            drop(list);
            Err(fault)
        }
    }
}

/// Appends an item to a list. It is generic, for the same reason.
fn push_to<T: Drop>(list: &mut Vec<T>, item: T) -> Result<(), NotServed>
    ensures { OnOk result (list.new.items ≡ list.old.items ++ item ∷ []) }
{
    match list.push(item) {
        Ok(()) => Ok(()),
        Err(_) => Err(NotServed::OutOfMemory),
    }
}

/// Opens the station of a carrier, if the plan has it, and appends it to the others.
fn open_next<'a, R: Net + Log + Clock>(
    rt: &'a R,
    alloc: Global,
    polls: &mut Polls<'a>,
    plan: &Plan,
    carrier: CarrierNo,
    stations: &mut Vec<CarrierAt<'a, R>>,
) -> Result<(), NotServed>
    ensures { OnOk result ((numbers : List ℕ) → AreNewStations plan.now numbers stations.old.items
        → AreNewStations plan.now (with_number plan.now numbers carrier) stations.new.items) }
{
    let Some(row) = plan.carrier_with(carrier) else {
        return Ok(());
    };
    let station = open_station(rt, alloc, polls, plan, carrier, &row)?;
    push_to(stations, station)
}

/// Opens a station for each carrier of the plan, by number, and appends them to an empty list.
fn fill_stations<'a, R: Net + Log + Clock>(
    rt: &'a R,
    alloc: Global,
    polls: &mut Polls<'a>,
    plan: &Plan,
    stations: &mut Vec<CarrierAt<'a, R>>,
) -> Result<(), NotServed>
    requires { stations.old.items ≡ [] }
    ensures { OnOk result
        (AreNewStations plan.now (carrier_numbers plan.now) stations.new.items) }
{
    for number in 0..16u32 {
        open_next(rt, alloc, polls, plan, CarrierNo::new(number), stations)?;
    }
    Ok(())
}

/// Opens a station for each carrier of the plan, by number, which it appends to an empty list, and then the console's port.
fn open_listening<'a, R: Net + Log + Clock>(
    rt: &'a R,
    alloc: Global,
    polls: &mut Polls<'a>,
    plan: &Plan,
    stations: &mut Vec<CarrierAt<'a, R>>,
) -> Result<TcpPort<'a, R>, NotServed>
    requires { stations.old.items ≡ [] }
    ensures stations { OnOk result
        (AreNewStations plan.now (carrier_numbers plan.now) stations.new.items) }
    ensures console { IfOk result (IsNewPort plan.now Whose.Console) }
{
    fill_stations(rt, alloc, polls, plan, stations)?;
    open_port(rt, alloc, polls, plan, Whose::Console, plan.console_port())
}

/// Opens the clock. It has notes of its own, since it is asked in a thread of its own.
fn open_pacer<'a, R: Net + Log + Clock>(
    rt: &'a R,
    alloc: Global,
    polls: &mut Polls<'a>,
    plan: &Plan,
) -> Result<ClockPacer<'a, R>, NotServed>
    ensures { IfOk result
        (λ pacer. pacer.ticks ≡ record { tick = plan.now.serving.tick_ms * 1000000; from = None }) }
{
    let Some(poll) = polls.polls.pop() else {
        return Err(NotServed::NoPoll);
    };
    let Some(wait) = ClockWait::new(alloc, poll, polls.wakers) else {
        return Err(NotServed::OutOfMemory);
    };
    Ok(ClockPacer::new(rt, plan.tick_ms(), Notes::new(rt, alloc)?, wait))
}

/// What is opened for the first term.
#[derive(Drop)]
struct Opened<'a, R: Log + Clock> {
    stations: Vec<CarrierAt<'a, R>>,
    pacer: ClockPacer<'a, R>,
    console: ConsoleAt<'a, R>,
}

/// Opens the stations, the clock and the console for the first term. The ports have no connection.
fn open_ports<'a, R: Net + Log + Clock>(
    rt: &'a R,
    alloc: Global,
    polls: &mut Polls<'a>,
    plan: &Plan,
) -> Result<Opened<'a, R>, NotServed>
    ensures ticks { IfOk result (λ opened. opened.pacer.ticks
        ≡ record { tick = plan.now.serving.tick_ms * 1000000; from = None }) }
    ensures stations { IfOk result
        (λ opened. AreNewStations plan.now (carrier_numbers plan.now) opened.stations.items) }
    ensures console { IfOk result (λ opened. IsNewConsole plan.now opened.console) }
{
    let pacer = open_pacer(rt, alloc, polls, plan)?;
    let mut stations = Vec::new(alloc);
    let port = open_listening(rt, alloc, polls, plan, &mut stations);
    let (pacer, stations, port) = beside_list(pacer, stations, port)?;
    Ok(Opened {
        stations,
        pacer,
        console: ConsoleStation {
            link: ConsoleLink::new(),
            port,
        },
    })
}

/// Makes the state for the first term: a site with nothing active on which those of these radios are registered that
/// the plan lists, and ports without a connection. On an error what was opened is closed.
pub fn open_service<'a, R: Net + Log + Clock>(
    rt: &'a R,
    alloc: Global,
    polls: &mut Polls<'a>,
    plan: &Plan,
    radios: &[Address],
) -> Result<SiteService<'a, R>, NotServed>
    ensures first { IfOk result (IsFirstService plan.now radios.now) }
    // The first term does not fail for its stations or its limit.
    ensures fits { IfOk result (λ service. Fits (start_of service)) }
{
    plan.use_invariant();
    let site = Site::with_registered(alloc, *plan, radios)?;
    let (site, opened) = beside(site, open_ports(rt, alloc, polls, plan))?;
    let Opened {
        stations,
        pacer,
        console,
    } = opened;
    Ok(Service {
        site,
        stations,
        pacer,
        console,
        spare: SpareLists::new(alloc),
    })
}

/// Makes a poll for each port of the plan and for its clock, and the wakers of all. If the system refuses one, notes
/// why. On an error what was opened is closed.
pub fn open_wakers<R: Net + Log>(
    rt: &R,
    alloc: Global,
    plan: &Plan,
) -> Result<(Wakers, Vec<Poll>), NotServed> {
    match open_polls(rt, alloc, plan.carrier().len() + 2) {
        Ok(opened) => Ok(opened),
        Err(PollFault::NoPoll(error)) => {
            let mut notes = Notes::new(rt, alloc)?;
            notes.cannot_poll(&error);
            Err(NotServed::NoPoll)
        }
        Err(PollFault::OutOfMemory) => Err(NotServed::OutOfMemory),
    }
}
