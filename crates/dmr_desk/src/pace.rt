//! The ticker: its pacer and its work.

ghost use Rattle.std.specs.Prelude.{◌≡◌, Option, Some};
ghost use Rattle.dmr_desk.specs.Pace.{Paced, FollowsPace, Ticking, TicksOn, Ticks};
ghost use Rattle.dmr_desk.specs.Work.{SaidOver};

use crate::ending::Ending;
use dmr_core::Event;
use dmr_link::Desk;
use std::sync::Wait;

/// A pacer's answer when it is asked for a tick.
#[derive(Clone, Copy, Debug, PartialEq, Eq)]
pub enum Pace {
    /// A tick is due.
    Tick,
    /// No tick is due yet. The pacer may be asked again.
    NotYet,
    /// No tick will be due any more.
    Finished,
}

/// Decides when a tick is due.
pub trait Pacer {
    /// If the pacer reports it: the number of ticks so far, and whether its last answer was that there are no more. It
    /// may stop reporting at any call, and then never reports again.
    ghost paced: { Self → Option Paced };

    /// Waits for the next tick, as long as it decides to, and says whether the tick is due.
    fn next(&mut self) -> Pace
        ensures { FollowsPace (paced self.old) result (paced self.new) };

    /// Receives that the term is over: the ticker has ended because of it, or is not started. Other workers of the term
    /// may still wait, so a pacer that can wake them does so. By default it does nothing.
    fn term_over(&mut self)
        ensures { Self.paced self.new ≡ Self.paced self.old }
    {}
}

/// Asks the pacer once, and deposits a tick if one is due. Returns `Some` if the work has ended.
fn tick_once<T: Pacer, D: Desk>(pacer: &mut T, desk: &mut D) -> Option<Ending>
    ensures actor { D.actor desk.new ≡ D.actor desk.old }
    ensures ticks { (before : _) (calls : _)
        → Ticking before calls (T.paced pacer.old) (D.calls desk.old)
        → TicksOn before calls (T.paced pacer.new) (D.calls desk.new) result }
    ensures over { result ≡ Some Ending.TermOver → SaidOver D.Desk desk.new }
{
    if desk.over() {
        return Some(Ending::TermOver);
    }
    match pacer.next() {
        Pace::Tick => match desk.deposit(Event::Tick) {
            Ok(_) => None,
            Err(_) => Some(Ending::TermOver),
        },
        Pace::NotYet => None,
        Pace::Finished => Some(Ending::Finished),
    }
}

/// Deposits a tick whenever the pacer says that one is due, until the pacer has no more or the term is over. A tick
/// that the desk does not take is dropped. Before each question to the pacer, the ticker asks the desk whether the term
/// is over.
pub fn work_ticker<R: Wait, T: Pacer, D: Desk>(rt: &R, pacer: &mut T, desk: &mut D) -> Ending
    ensures actor { D.actor desk.new ≡ D.actor desk.old }
    ensures ticks { Ticks (T.paced pacer.old) (D.calls desk.old) (T.paced pacer.new)
        (D.calls desk.new) result }
    ensures over { result ≡ Ending.TermOver → SaidOver D.Desk desk.new }
{
    for _ in rt.forever() {
        if let Some(ending) = tick_once(pacer, desk) {
            return ending;
        }
    }
    unreachable!()
}
