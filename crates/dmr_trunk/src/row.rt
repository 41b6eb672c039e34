//! A row of terms, as serving runs it: as many as were asked for, or without end. If there is no memory for a term, it
//! is tried again. Meanwhile the records of earlier terms are handed to a store.

ghost use Rattle.std.specs.Prelude.{◌≡◌, ◌↔◌, IfErr, IfOk, IsSome, IsTrue, OnOk, Some};
ghost use Rattle.dmr_desk.specs.declared.fault.OpenFault.TheVariants.{OutOfMemory};
ghost use Rattle.dmr_desk.specs.declared.fault.TermFault.TheVariants.{Open};
ghost use Rattle.dmr_desk.specs.Refusing.{IsTermFault};
ghost use Rattle.dmr_desk.specs.Service.{end_at, start_at};
ghost use Rattle.dmr_desk.specs.Term.{IsTerm};
ghost use Rattle.dmr_desk.specs.Terms.{Fits};
ghost use Rattle.dmr_trunk.specs.Served.{HasServed, terms_asked};

use crate::holding::{Keeping, Writer};
use crate::keeping::{WaitingRecords, go_on, hand_over_rest};
use crate::notes::Notes;
use crate::recorded::{RecordMaker, records_of_term};
use dmr_desk::{
    ConsoleStation, Observer, OpenFault, Pacer, Refused, Service, Station, Term, TermFault,
    try_term,
};
use dmr_keeper::Keeper;
use dmr_link::Gate;
use dmr_wire::Port;
use log::Log;
use std::alloc::Global;
use std::sync::Wait;
use std::sync::atomic::AtomicBool;
use std::thread;
use std::thread::{Scope, Threads};
use std::time::{Clock, Duration};

/// How many seconds serving waits before it tries a term again for which there was no memory.
const PAUSE: u64 = 1;

/// Why serving stopped.
#[derive(Clone, Copy, Debug)]
pub struct Stopped {
    /// The number of terms before the one that failed. They ended and were audited.
    pub done: u64,
    /// Why the term failed.
    pub fault: TermFault,
}

/// How many terms `--terms` asks for: 0 asks for terms without end. That is the greatest number of 64 bits, which no
/// run lives to see.
fn terms_asked(terms: u32) -> u64
    ensures { result ≡ terms_asked terms }
{
    if terms == 0 {
        u64::MAX
    } else {
        u64::from(terms)
    }
}

/// Whether a fault says that there was no memory for a term.
fn is_out_of_memory(fault: TermFault) -> bool
    ensures { IsTrue result ↔ (fault ≡ Open OutOfMemory) }
{
    fault == TermFault::Open(OpenFault::OutOfMemory)
}

/// Returns the service to try a term again with: if there was no memory for the term, and `done` terms ran before, not
/// 0. Otherwise returns the term's fault, and drops what is left.
fn service_to_retry<P: Drop, G: Drop, T: Drop, C: Drop>(
    refused: Refused<P, G, T, C>,
    done: u64,
) -> Result<Service<P, G, T, C>, TermFault>
    requires { refused.fault ≡ Open OutOfMemory → IsSome refused.left }
    ensures left { IfOk result (λ service. refused.left ≡ Some service) }
    ensures fault { IfErr result (λ fault. fault ≡ refused.fault) }
    ensures memory { IfErr result (λ fault. fault ≡ Open OutOfMemory → done ≡ 0) }
{
    let Refused { fault, left, ended } = refused;
    drop(ended);
    match left {
        Some(service) => {
            if done > 0 && is_out_of_memory(fault) {
                return Ok(service);
            }
            drop(service);
            Err(fault)
        }
        None => Err(fault),
    }
}

/// Runs the next term, after `done` terms. If there is no memory for it, notes so and tries it again each second, until
/// there is; ports are not served meanwhile. Only the first term is not tried again.
fn run_next<P, G, T, C, R>(
    rt: &R,
    alloc: Global,
    limit: usize,
    mut service: Service<P, G, T, C>,
    notes: &mut Notes<'_, R>,
    done: u64,
) -> Result<Term<Station<P, G>, T, ConsoleStation<C>>, TermFault>
where
    P: Port + Send + Drop,
    G: Gate + Send + Drop,
    T: Pacer + Send + Drop,
    C: Port + Send + Drop,
    R: Log + Clock + Wait + Threads + Sync,
    ensures term { IfOk result (λ term. IsTerm
        (start_at P.reported G.passed T.paced C.reported limit service)
        (end_at P.reported G.passed T.paced C.reported term)) }
    ensures fits { OnOk result (Fits (start_at P.reported G.passed T.paced C.reported limit service)) }
    ensures fault { IfErr result
        (IsTermFault (start_at P.reported G.passed T.paced C.reported limit service)) }
    ensures memory { IfErr result (λ fault. fault ≡ Open OutOfMemory → done ≡ 0) }
{
    let mut tries = 0u64;
    for _ in rt.forever() {
        service = match try_term(rt, alloc, limit, service) {
            Ok(term) => {
                if tries > 0 {
                    notes.note_memory(tries);
                }
                return Ok(term);
            }
            Err(refused) => match service_to_retry(refused, done) {
                Ok(left) => left,
                Err(fault) => return Err(fault),
            },
        };
        if tries == 0 {
            notes.note_no_memory(done);
        }
        tries = tries.saturating_add(1);
        thread::sleep(rt, Duration::from_secs(PAUSE));
    }
    unreachable!()
}

/// What becomes of the records of terms.
#[derive(Drop)]
pub struct Books<'a, K, R> {
    /// What makes them. `None` if the store keeps none.
    pub maker: Option<RecordMaker<'a, R>>,
    /// Those that wait.
    pub waiting: WaitingRecords,
    /// The store.
    pub keeping: Keeping<K>,
}

/// What became of a row of terms.
#[derive(Drop)]
pub struct Ran<S, O, K> {
    /// The service that the last term left, or why there is none.
    pub result: Result<S, Stopped>,
    /// The observer of the terms.
    pub observer: O,
    /// The store, with the records that it refused.
    pub keeping: Keeping<K>,
}

/// Does what [`serve_service`] does, with threads of a scope for the store. `written` is set while none runs.
fn serve_in<'a, 's, E, P, G, T, C, O, K, R>(
    rt: &'s R,
    scope: &'s Scope<'s, E>,
    written: &'s AtomicBool,
    alloc: &Global,
    mut service: Service<P, G, T, C>,
    mut observer: O,
    books: Books<'a, K, R>,
    notes: &mut Notes<'a, R>,
    terms: u32,
) -> Ran<Service<P, G, T, C>, O, K>
where
    P: Port + Send + Drop,
    G: Gate + Send + Drop,
    T: Pacer + Send + Drop,
    C: Port + Send + Drop,
    O: Observer<Station<P, G>, T, ConsoleStation<C>> + Drop,
    K: Keeper + Send + Drop + 's,
    R: Log + Clock + Wait + Threads + Sync,
    ensures { HasServed P.reported G.passed T.paced C.reported O.seen K.kept K.refuses service
        observer books.entry terms result }
{
    let plan = *service.site.plan();
    let limit = plan.term_entries() as usize;
    let Books {
        mut maker,
        mut waiting,
        keeping,
    } = books;
    let mut writer = Writer::Idle(keeping);
    for done in 0..terms_asked(terms) {
        let term = match run_next(rt, *alloc, limit, service, notes, done) {
            Ok(term) => term,
            Err(fault) => {
                return Ran {
                    result: Err(Stopped { done, fault }),
                    observer,
                    keeping: hand_over_rest(rt, writer, waiting, notes),
                };
            }
        };
        observer.ended(&term);
        let made = records_of_term(&mut maker, &plan, term.report.journal.as_slice());
        service = term.into_service();
        waiting.add(made, notes);
        writer = go_on(rt, scope, written, writer, &mut waiting, notes);
    }
    Ran {
        result: Ok(service),
        observer,
        keeping: hand_over_rest(rt, writer, waiting, notes),
    }
}

/// Does what [`serve_service`] does, in a scope of its own.
fn serve_beside<'a, P, G, T, C, O, K, R>(
    rt: &R,
    written: &AtomicBool,
    alloc: Global,
    service: Service<P, G, T, C>,
    observer: O,
    books: Books<'a, K, R>,
    notes: &mut Notes<'a, R>,
    terms: u32,
) -> Ran<Service<P, G, T, C>, O, K>
where
    P: Port + Send + Drop,
    G: Gate + Send + Drop,
    T: Pacer + Send + Drop,
    C: Port + Send + Drop,
    O: Observer<Station<P, G>, T, ConsoleStation<C>> + Drop,
    K: Keeper + Send + Drop,
    R: Log + Clock + Wait + Threads + Sync,
    ensures { HasServed P.reported G.passed T.paced C.reported O.seen K.kept K.refuses service
        observer books.entry terms result }
{
    thread::scope(
        thread::scope_env(),
        rt,
        move |scope|
            ensures { HasServed P.reported G.passed T.paced C.reported O.seen K.kept K.refuses service
                observer books.entry terms result }
        {
            serve_in(
                rt, scope, written, &alloc, service, observer, books, notes, terms,
            )
        },
    )
}

/// Runs `terms` terms in a row from a service; 0 means forever. Each term has at most the plan's number of entries. The
/// call stops at the first term that fails, and the error has the number of the terms before it. If there is no memory
/// for a term after the first, it is tried again each second. The function is generic in all that reports a record, so
/// the clauses speak of what the ports, the gates, the pacer, the observer and the store report.
///
/// The observer sees each term. Then its records are made from its journal, if there is a maker, and wait. Without
/// memory for them that is tried again each second, and the next term waits. A thread hands them to the store while
/// later terms run. If no thread can be started, they are handed over here, and the next term waits. What the store
/// refuses it is handed again after a later term. A term's records are lost only while those of 1,000 later terms wait.
/// Before the call returns, the store is handed what still waits, once. On an error the service is lost.
pub fn serve_service<'a, P, G, T, C, O, K, R>(
    rt: &R,
    alloc: Global,
    service: Service<P, G, T, C>,
    observer: O,
    books: Books<'a, K, R>,
    notes: &mut Notes<'a, R>,
    terms: u32,
) -> Ran<Service<P, G, T, C>, O, K>
where
    P: Port + Send + Drop,
    G: Gate + Send + Drop,
    T: Pacer + Send + Drop,
    C: Port + Send + Drop,
    O: Observer<Station<P, G>, T, ConsoleStation<C>> + Drop,
    K: Keeper + Send + Drop,
    R: Log + Clock + Wait + Threads + Sync,
    ensures { HasServed P.reported G.passed T.paced C.reported O.seen K.kept K.refuses service
        observer books.entry terms result }
{
    let written = AtomicBool::new(true);
    serve_beside(rt, &written, alloc, service, observer, books, notes, terms)
}
