//! Serving: a site over TCP, term by term.

ghost use Rattle.std.specs.Prelude.{◌≡◌, Err, IfErr, IfOk, IsOk, IsOkAnd, MatchResult, None};
ghost use Rattle.dmr_keeper.specs.Carried.{starting_with};
ghost use Rattle.dmr_trunk.specs.Faults.{IsServeFault};
ghost use Rattle.dmr_trunk.specs.Scripts.{BeginsIfAsked};
ghost use Rattle.dmr_trunk.specs.Served.{HasLeft, IsSiteServed};
ghost use Rattle.dmr_trunk.specs.Stored.{AreNewBooks, carried_if_wanted};
ghost use Rattle.std.specs.Prelude.{option_map};

use crate::ends::Connections;
use crate::holding::Keeping;
use crate::keeping::WaitingRecords;
use crate::not_served::NotServed;
use crate::notes::Notes;
use crate::opening::{CarrierAt, ConsoleAt, SiteService, beside, open_service, open_wakers};
use crate::pacer::ClockPacer;
use crate::recorded::RecordMaker;
use crate::row::{Books, Ran, Stopped, serve_service};
use crate::script::{RecordingFile, Script};
use crate::scripted::{Scripted, SiteRecording};
use crate::term_log::TermLog;
use crate::wakers::{Polls, Wakers};
use dmr_command::ServeFault;
use dmr_core::Site;
use dmr_desk::{ConsoleStation, Observer, Pacer, Service, Station, Term};
use dmr_keeper::{Carried, Forget, Keeper, RecordQueue, Recorder, TermCounts};
use dmr_link::Gate;
use dmr_pdu::Address;
use dmr_plan::Plan;
use dmr_wire::Port;
use log::Log;
use std::alloc::Global;
use std::net::Net;
use std::sync::Wait;
use std::thread::Threads;
use std::time::Clock;

/// Notes the addresses at which the ports listen.
fn note_listening<R: Log + Clock>(service: &SiteService<'_, R>, log: &mut TermLog<'_, R>) {
    for station in service.stations.iter() {
        log.note_listening(station.port.notes());
    }
    log.note_listening(service.console.port.notes());
}

/// Returns the connections of all ports so far.
fn connections_of<R: Log + Clock>(
    stations: &[CarrierAt<'_, R>],
    console: &ConsoleAt<'_, R>,
) -> Connections {
    let mut connections = console.port.notes().connections;
    for station in stations {
        connections.add_all(&station.port.notes().connections);
    }
    connections
}

/// The log notes each term that was audited. It reports no record.
impl<'a, R: Log + Clock> Observer<CarrierAt<'a, R>, ClockPacer<'a, R>, ConsoleAt<'a, R>>
    for TermLog<'a, R> {
    ghost seen = { λ log. None };

    fn ended(&mut self, term: &Term<CarrierAt<'a, R>, ClockPacer<'a, R>, ConsoleAt<'a, R>>) {
        let counts = TermCounts::of_entries(term.report.journal.as_slice());
        let connections = connections_of(term.stations.as_slice(), &term.console);
        self.note_term(counts, &connections);
    }
}

/// What makes the records of a site's terms.
fn make_records<'a, R: Net + Log + Clock + Wait>(
    rt: &'a R,
    alloc: Global,
    site: &Site,
) -> Result<RecordMaker<'a, R>, NotServed>
    ensures { IfOk result
        (λ maker. maker.recorder.carried ≡ starting_with site.now.facts.registered) }
{
    let carried = Carried::with_registered(alloc, site.registered())?;
    let (carried, notes) = beside(carried, Notes::new(rt, alloc))?;
    Ok(RecordMaker::new(rt, alloc, Recorder::new(carried), notes))
}

/// What makes the records of a site's terms, if the store asks for any.
fn maker_if_wanted<'a, K: Keeper, R: Net + Log + Clock + Wait>(
    rt: &'a R,
    alloc: Global,
    site: &Site,
    keeper: &K,
) -> Result<Option<RecordMaker<'a, R>>, NotServed>
    ensures { IfOk result (λ maker. option_map (λ m. m.recorder.carried) maker
        ≡ carried_if_wanted (K.wants keeper.now) site.now.facts.registered) }
{
    if keeper.wants_records() {
        Ok(Some(make_records(rt, alloc, site)?))
    } else {
        Ok(None)
    }
}

/// What becomes of the records of a site's terms: they are made if the store asks for any, and none wait yet.
fn open_books<'a, K: Keeper + Drop, R: Net + Log + Clock + Wait>(
    rt: &'a R,
    alloc: Global,
    site: &Site,
    keeper: K,
) -> Result<Books<'a, K, R>, NotServed>
    ensures { IfOk result (AreNewBooks K.wants site.now.facts.registered keeper) }
{
    let waiting = RecordQueue::new(alloc)?;
    let queue = RecordQueue::new(alloc)?;
    let maker = maker_if_wanted(rt, alloc, site, &keeper)?;
    Ok(Books {
        maker,
        waiting: WaitingRecords::new(waiting),
        keeping: Keeping {
            keeper,
            queue,
            fault: None,
        },
    })
}

/// Begins the recording of a site, if there is a script.
fn begin_recording<'a, W: Script + Drop, R: Net + Log>(
    rt: &'a R,
    alloc: Global,
    site: &Site,
    script: Option<W>,
) -> Result<Option<SiteRecording<'a, W, R>>, NotServed>
    ensures { IfOk result (BeginsIfAsked W.appended W.refuses site.now.plan
        site.now.facts.registered script) }
{
    match script {
        Some(script) => {
            let notes = Notes::new(rt, alloc)?;
            let plan = *site.plan();
            Ok(Some(SiteRecording::begin(alloc, plan, site.registered(), script, notes)))
        }
        None => Ok(None),
    }
}

/// The log of a site's terms, and what records them.
type LogAndScript<'a, W, R> = Scripted<'a, TermLog<'a, R>, W, R>;

/// The observer of a site's terms: the log, and what records them if there is a script.
fn observe<'a, W, R>(
    rt: &'a R,
    alloc: Global,
    wakers: &'a Wakers,
    service: &SiteService<'a, R>,
    script: Option<W>,
) -> Result<LogAndScript<'a, W, R>, NotServed>
where
    W: Script + Drop,
    R: Net + Log + Clock + Wait,
    ensures { IfOk result (λ log. BeginsIfAsked W.appended W.refuses service.now.site.plan
        service.now.site.facts.registered script log.recording) }
{
    let mut log = TermLog::new(rt, Notes::new(rt, alloc)?, wakers);
    note_listening(service, &mut log);
    let recording = begin_recording(rt, alloc, &service.site, script);
    let (log, recording) = beside(log, recording)?;
    Ok(Scripted {
        observer: log,
        recording,
    })
}

/// Opens what the terms need in addition to their service: the books, and the observer.
fn open_rest<'a, K, W, R>(
    rt: &'a R,
    alloc: Global,
    wakers: &'a Wakers,
    service: &SiteService<'a, R>,
    keeper: K,
    script: Option<W>,
) -> Result<(Books<'a, K, R>, LogAndScript<'a, W, R>), NotServed>
where
    K: Keeper + Drop,
    W: Script + Drop,
    R: Net + Log + Clock + Wait,
    ensures books { IfOk result
        (λ rest. AreNewBooks K.wants service.now.site.facts.registered keeper rest.0) }
    ensures recording { IfOk result (λ rest. BeginsIfAsked W.appended W.refuses
        service.now.site.plan service.now.site.facts.registered script rest.1.recording) }
{
    let books = open_books(rt, alloc, &service.site, keeper)?;
    let (books, observer) = beside(books, observe(rt, alloc, wakers, service, script))?;
    Ok((books, observer))
}

/// What remains when serving has ended.
#[derive(Drop)]
pub struct Remains<K> {
    /// Why the terms stopped, if one of them failed.
    pub result: Result<(), Stopped>,
    /// The store, with the records that it refused.
    pub keeping: Keeping<K>,
}

impl<K: Drop> Remains<K> {
    /// Returns the fault of the term that failed, if one did. Drops the store.
    pub fn into_result(self) -> Result<(), ServeFault>
        ensures { MatchResult self.result (λ _. IsOk result)
            (λ stopped. result ≡ Err (ServeFault.Term stopped.fault)) }
    {
        let Remains { result, keeping } = self;
        drop(keeping);
        match result {
            Ok(()) => Ok(()),
            Err(stopped) => Err(ServeFault::Term(stopped.fault)),
        }
    }
}

/// Drops what a row of terms left, except for the store, and notes why they stopped, if they did. It is generic, since a
/// function that drops a service is expensive to prove.
fn end_service<S: Drop, O: Drop, K, R: Log>(
    ran: Ran<S, O, K>,
    notes: &mut Notes<'_, R>,
) -> Remains<K>
    ensures keeping { result.keeping ≡ ran.keeping }
    ensures ended { MatchResult ran.result (λ _. IsOk result.result)
        (λ stopped. result.result ≡ Err stopped) }
{
    let Ran {
        result,
        observer,
        keeping,
    } = ran;
    drop(observer);
    match result {
        Ok(last) => {
            drop(last);
            Remains {
                result: Ok(()),
                keeping,
            }
        }
        Err(stopped) => {
            notes.note_stopped(stopped.done);
            Remains {
                result: Err(stopped),
                keeping,
            }
        }
    }
}

/// Runs the terms of a service, if the rest of what they need was opened, and drops what they left, except for the store. It
/// is generic in what a service holds: a function that owns a service, and can end while it does, is expensive to prove. A
/// call of this one is cheap.
fn serve_opened<'a, P, G, T, C, O, K, R>(
    rt: &R,
    alloc: Global,
    service: Service<P, G, T, C>,
    rest: Result<(Books<'a, K, R>, O), NotServed>,
    notes: &mut Notes<'a, R>,
    terms: u32,
) -> Result<Remains<K>, NotServed>
where
    P: Port + Send + Drop,
    G: Gate + Send + Drop,
    T: Pacer + Send + Drop,
    C: Port + Send + Drop,
    O: Observer<Station<P, G>, T, ConsoleStation<C>> + Drop,
    K: Keeper + Send + Drop,
    R: Log + Clock + Wait + Threads + Sync,
    ensures { IfOk result (λ left. IsOkAnd rest.entry (λ r. HasLeft P.reported G.passed T.paced
        C.reported O.seen K.kept K.refuses service r.1 r.0 terms left)) }
{
    match rest {
        Ok((books, observer)) => {
            let ran = serve_service(rt, alloc, service, observer, books, notes, terms);
            Ok(end_service(ran, notes))
        }
        Err(fault) => {
            drop(service);
            Err(fault)
        }
    }
}

/// Serves the site of a plan, whose ports and clock have these polls and wakers. Opens the ports, and runs the terms.
fn serve_woken<'a, K, W, R>(
    rt: &'a R,
    alloc: Global,
    mut polls: Polls<'a>,
    plan: &Plan,
    terms: u32,
    keeper: K,
    radios: &[Address],
    script: Option<W>,
) -> Result<Remains<K>, NotServed>
where
    K: Keeper + Send + Drop,
    W: Script + Drop,
    R: Net + Log + Clock + Wait + Threads + Sync,
    ensures { IfOk result (IsSiteServed R K.kept K.refuses K.wants plan.now radios.now keeper terms) }
{
    let mut notes = Notes::new(rt, alloc)?;
    match open_service(rt, alloc, &mut polls, plan, radios) {
        Ok(service) => {
            let rest = open_rest(rt, alloc, polls.wakers, &service, keeper, script);
            serve_opened(rt, alloc, service, rest, &mut notes, terms)
        }
        Err(fault) => Err(fault),
    }
}

/// Serves the site of a plan over TCP, as [`serve`] does, and has a store keep the records of its terms. At the start
/// those of `radios` are registered that the plan lists, in their order; after a restart these are the ones that the
/// store has. A store that fails does not stop serving: its fault is noted, and the records wait for the next term.
/// They are lost only while those of 1,000 later terms wait. If there is a script, each term's journal is appended to
/// it. If that fails, the recording ends, and it is noted why. On an error nothing was served, and the store is lost.
pub fn serve_kept<K, W, R>(
    rt: &R,
    alloc: Global,
    plan: Plan,
    terms: u32,
    keeper: K,
    radios: &[Address],
    script: Option<W>,
) -> Result<Remains<K>, NotServed>
where
    K: Keeper + Send + Drop,
    W: Script + Drop,
    R: Net + Log + Clock + Wait + Threads + Sync,
    ensures { IfOk result (IsSiteServed R K.kept K.refuses K.wants plan radios.now keeper terms) }
{
    let (wakers, polls) = open_wakers(rt, alloc, &plan)?;
    let polls = Polls {
        wakers: &wakers,
        polls,
    };
    serve_woken(rt, alloc, polls, &plan, terms, keeper, radios, script)
}

/// Serves the site of a plan over TCP. Listens at each carrier's port, by number, and at the console's, and runs
/// `terms` terms, one after another; 0 means forever. Each term has at most the plan's number of entries. Links,
/// connections and the site continue from term to term ([`serve_service`]). Each term's journal is audited, then
/// dropped. If there is no memory for the first term, the fault is the term's `OutOfMemory`; a later term is tried
/// again each second. Nothing is kept ([`serve_kept`] keeps records).
pub fn serve<R: Net + Log + Clock + Wait + Threads + Sync>(
    rt: &R,
    alloc: Global,
    plan: Plan,
    terms: u32,
) -> Result<(), ServeFault>
    // No fault says that stations, a limit or actors do not fit, or that a seat is missing.
    ensures { IfErr result IsServeFault }
{
    let script: Option<RecordingFile<'_>> = None;
    serve_kept(rt, alloc, plan, terms, Forget, &[], script)?.into_result()
}
