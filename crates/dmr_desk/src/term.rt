//! A term: the workers of a site, each in a thread of its own, at one desk.

ghost use Rattle.std.specs.Prelude.{◌≡◌, ◌+◌, ◌≤◌, ◌<◌, ◌++◌, ◌∷◌, [], IfOk, IfErr, length, map};
ghost use Rattle.std.specs.Prelude.{Some, option_map, true, vec_capacity, vec_len};
ghost use Rattle.arrayvec.specs.ArrayVec.{array_vec_len};
ghost use Rattle.dmr_desk.specs.Crew.{AllWorked, HasRoom, IsTermAt, end_of, start_of};
ghost use Rattle.dmr_desk.specs.Limits.{most_actors};
ghost use Rattle.dmr_desk.specs.Refusing.{IsEndAt, early_actor, first_over, is_late};

use crate::actors::LinkWork;
use crate::desk::SharedDesk;
use crate::desk_ledger::DeskLedger;
use crate::ending::Ending;
use crate::fault::TermFault;
use crate::limits::MOST_ACTORS;
use crate::pace::Pacer;
use crate::report::{Journal, Report, Unreported};
use crate::seat::Seat;
use crate::station::Serving;
use crate::threads::AllWork;
use arrayvec::ArrayVec;
use std::thread::Threads;

/// The result of a term. All its workers have ended, and the desk returned its report. A term that failed with `Audit`
/// has what the desk kept as its report.
#[derive(Drop)]
pub struct Term<S, T, C> {
    /// The site, the journal, and each actor's events with their answers.
    pub report: Report,
    /// Why each actor's worker ended, by number: the stations, the ticker, the console.
    pub ends: ArrayVec<Ending, MOST_ACTORS>,
    /// The stations, in the order of the call.
    pub stations: Vec<S>,
    /// The pacer.
    pub pacer: T,
    /// The console.
    pub console: C,
}

/// Why a term whose threads were started is not returned, with what its workers left.
#[derive(Drop)]
pub struct FailedTerm<S, T, C> {
    /// The first fault that applies.
    pub fault: TermFault,
    /// The term as its workers left it, if they have ended: at `Early` and at `Audit`.
    pub ended: Option<Term<S, T, C>>,
}

/// The number of the first worker that ended because the term was over; numbers begin with `from`.
fn first_term_over(from: u8, ends: &[Ending]) -> Option<u8>
    requires { from + length ends.now < 256 }
    ensures { result ≡ first_over from ends.now }
{
    match ends {
        [] => None,
        [Ending::TermOver, ..] => Some(from),
        [_, rest @ ..] => first_term_over(from + 1, rest),
    }
}

/// The least actor that ended because the term was over although the journal is below its limit.
fn find_early_actor(
    journal: &Journal,
    limit: usize,
    ends: &ArrayVec<Ending, MOST_ACTORS>,
) -> Option<u8>
    ensures { result ≡ early_actor (length journal.now) limit ends.now.items }
{
    if journal.as_slice().len() < limit {
        first_term_over(0, ends.as_slice())
    } else {
        None
    }
}

/// The workers' results, each kind in a list of its own.
#[derive(Drop)]
pub struct HandedBack<S, L: DeskLedger> {
    /// The stations.
    pub stations: Vec<S>,
    /// The seats.
    pub seats: Vec<Seat<L>>,
    /// Why each worker ended.
    pub ends: ArrayVec<Ending, MOST_ACTORS>,
}

/// Splits the results of the carriers' workers, and appends them to `back`.
fn split_works<S: Drop, L: DeskLedger>(
    mut works: Vec<LinkWork<S, L>>,
    back: HandedBack<S, L>,
) -> HandedBack<S, L>
    requires stations { vec_len back.stations + vec_len works ≤ vec_capacity back.stations }
    requires seats { vec_len back.seats + vec_len works ≤ vec_capacity back.seats }
    requires ends { array_vec_len back.ends + vec_len works ≤ most_actors }
    ensures stations { result.stations.items
        ≡ back.stations.items ++ map (λ w. w.station) works.items }
    ensures seats { result.seats.items ≡ back.seats.items ++ map (λ w. w.seat) works.items }
    ensures ends { result.ends.items ≡ back.ends.items ++ map (λ w. w.ending) works.items }
    ensures len { vec_len result.stations ≡ vec_len back.stations + vec_len works }
    ensures seats_len { vec_len result.seats ≡ vec_len back.seats + vec_len works }
    ensures ends_len { array_vec_len result.ends ≡ array_vec_len back.ends + vec_len works }
    ensures capacity { vec_capacity result.stations ≡ vec_capacity back.stations }
    ensures seats_capacity { vec_capacity result.seats ≡ vec_capacity back.seats }
{
    let Some(work) = works.pop() else {
        return back;
    };
    let LinkWork {
        station,
        seat,
        ending,
    } = work;
    let mut back = split_works(works, back);
    back.stations.push_reserved(station);
    back.seats.push_reserved(seat);
    back.ends.push(ending);
    back
}

/// Splits the results of all workers: the carriers', then the ticker's, then the console's.
fn split_all_works<S: Drop, T: Drop, C: Drop, L: DeskLedger>(
    all: AllWork<S, T, C, L>,
    back: HandedBack<S, L>,
) -> (HandedBack<S, L>, T, C)
    requires { HasRoom (vec_len all.carriers) back }
    ensures stations { result.0.stations.items ≡ map (λ w. w.station) all.carriers.items }
    ensures seats { result.0.seats.items
        ≡ map (λ w. w.seat) all.carriers.items ++ all.ticker.seat ∷ all.console.seat ∷ [] }
    ensures ends { result.0.ends.items
        ≡ map (λ w. w.ending) all.carriers.items ++ all.ticker.ending ∷ all.console.ending ∷ [] }
    ensures pacer { result.1 ≡ all.ticker.pacer }
    ensures console { result.2 ≡ all.console.station }
{
    let AllWork {
        carriers,
        ticker,
        console,
    } = all;
    let mut back = split_works(carriers, back);
    back.seats.push_reserved(ticker.seat);
    back.seats.push_reserved(console.seat);
    back.ends.push(ticker.ending);
    back.ends.push(console.ending);
    (back, ticker.pacer, console.station)
}

/// A term that failed, as its workers left it. It is a call of its own because a value of this size that one function
/// puts at two places of its result takes LLVM minutes.
#[inline(never)]
fn failed_term<S: Drop, T: Drop, C: Drop>(
    fault: TermFault,
    ended: Term<S, T, C>,
) -> FailedTerm<S, T, C>
    ensures fault { result.fault ≡ fault }
    ensures ended { result.ended ≡ Some ended }
{
    FailedTerm {
        fault,
        ended: Some(ended),
    }
}

/// Closes the desk with the workers' seats. `back` has room for their results. On an error the desk returned no report,
/// or else a worker ended early; the error names the least such actor, and has the term as the workers left it.
#[inline(never)]
pub fn close_term<S, T, C, L, R>(
    rt: &R,
    desk: SharedDesk<L>,
    limit: usize,
    all: AllWork<S, T, C, L>,
    back: HandedBack<S, L>,
) -> Result<Term<S, T, C>, FailedTerm<S, T, C>>
where
    S: Serving + Drop,
    T: Pacer + Drop,
    C: Serving + Drop,
    L: DeskLedger,
    R: Threads + Sync,
    requires whole { L.parts ≡ most_actors }
    requires limit { desk.limit ≡ limit }
    requires actors { desk.actors ≡ vec_len all.carriers + 2 }
    requires room { HasRoom (vec_len all.carriers) back }
    ensures term { IfOk result (λ t. (stations : _) (pacer : _) (console : _)
        → AllWorked S.Serving T.Pacer C.Serving stations pacer console all
        → IsTermAt S.Serving T.Pacer C.Serving desk stations pacer console t) }
    ensures ended { IfErr result (λ failed. (stations : _) (pacer : _) (console : _)
        → AllWorked S.Serving T.Pacer C.Serving stations pacer console all
        → IsEndAt (start_of S.Serving T.Pacer C.Serving desk stations pacer console) failed.fault
        (option_map (end_of S.Serving T.Pacer C.Serving) failed.ended)) }
    ensures late { IfErr result (λ failed. is_late failed.fault ≡ true) }
{
    let (back, pacer, console) = split_all_works(all, back);
    let HandedBack {
        stations,
        seats,
        ends,
    } = back;
    match desk.close_in_threads(rt, seats) {
        Ok(report) => {
            let early = find_early_actor(&report.journal, limit, &ends);
            let term = Term {
                report,
                ends,
                stations,
                pacer,
                console,
            };
            match early {
                Some(actor) => Err(failed_term(TermFault::Early(actor), term)),
                None => Ok(term),
            }
        }
        Err(unreported) => {
            let Unreported { fault, kept } = unreported;
            match kept {
                Some(report) => Err(failed_term(
                    TermFault::Audit(fault),
                    Term {
                        report,
                        ends,
                        stations,
                        pacer,
                        console,
                    },
                )),
                None => Err(FailedTerm {
                    fault: TermFault::Audit(fault),
                    ended: None,
                }),
            }
        }
    }
}
