//! The workers of links: one for each carrier, and one for the console. What a poll does not run is marked
//! `#[inline(never)]`: its code then does not lie between that of a poll.

ghost use Rattle.std.specs.Prelude.{◌≡◌, true, false, None, Some};
ghost use Rattle.dmr_link.specs.LinkSteps.{is_live};
ghost use Rattle.dmr_desk.specs.Crew.{Goes, moment_of};
ghost use Rattle.dmr_desk.specs.Work.{IsAboutToWait, IsAtWork, SaidOver, WorksUntil, moment};
ghost use Rattle.dmr_desk.specs.Work.{station_state};

use crate::ending::Ending;
use crate::station::{ConsoleStation, Serving, Station};
use dmr_link::{Desk, Ended, Gate};
use dmr_wire::{Connect, Port, Waited};
use std::sync::Wait;

/// Asks the port once for a connection, and opens it if there is one. Returns `Some` if the work has ended.
#[inline(never)]
fn ask_for_connection<S: Serving, D: Desk>(station: &mut S, desk: &mut D) -> Option<Ending>
    requires { is_live (S.state station.old).link ≡ false }
    ensures actor { D.actor desk.new ≡ D.actor desk.old }
    ensures goes { Goes IsAtWork S.Serving D.Desk station.old desk.old station.new desk.new result }
    ensures shut { result ≡ Some Ending.GateShut → ⊥ }
    ensures over { result ≡ Some Ending.TermOver → (before : _) × D.ends before desk.new }
{
    if desk.over() {
        return Some(Ending::TermOver);
    }
    match station.connect() {
        Connect::Ready => {
            station.open();
            None
        }
        Connect::NotYet => None,
        Connect::Finished => Some(Ending::Finished),
    }
}

/// Waits after a read that would block. If the other side was silent, cuts the link and reports that to the port.
/// Returns `Some` if the work has ended.
fn wait_for_port<S: Serving, D: Desk>(station: &mut S, desk: &mut D) -> Option<Ending>
    requires { is_live (S.state station.old).link ≡ true }
    ensures actor { D.actor desk.new ≡ D.actor desk.old }
    ensures goes { Goes IsAboutToWait S.Serving D.Desk station.old desk.old station.new desk.new result }
    ensures shut { result ≡ Some Ending.GateShut → ⊥ }
    ensures over { result ≡ Some Ending.TermOver → SaidOver D.Desk desk.new }
{
    if desk.over() {
        return Some(Ending::TermOver);
    }
    match station.wait() {
        Waited::Again => None,
        Waited::Silent => match station.cut(desk) {
            Ok(()) => {
                station.report_closing();
                None
            }
            Err(_) => Some(Ending::TermOver),
        },
    }
}

/// Serves the link once. Waits if a read would block; if the connection was closed, reports to the port how. Returns
/// `Some` if the work has ended.
fn serve_once<S: Serving, D: Desk>(station: &mut S, desk: &mut D) -> Option<Ending>
    requires { is_live (S.state station.old).link ≡ true }
    ensures actor { D.actor desk.new ≡ D.actor desk.old }
    ensures goes { Goes IsAtWork S.Serving D.Desk station.old desk.old station.new desk.new result }
    ensures shut { result ≡ Some Ending.GateShut → S.shut station.new }
    ensures over { result ≡ Some Ending.TermOver → SaidOver D.Desk desk.new }
{
    if desk.over() {
        return Some(Ending::TermOver);
    }
    match station.serve(desk) {
        Ended::Idle => wait_for_port(station, desk),
        Ended::TermOver => Some(Ending::TermOver),
        Ended::GateShut => Some(Ending::GateShut),
        Ended::Paused => None,
        // The connection is closed, so the next step asks for another.
        _ => {
            station.report_closing();
            None
        }
    }
}

/// Serves a station's connections, one after another, until the work has ended. Each step serves the link if it is
/// live, and otherwise asks for a connection.
pub fn work_station<R: Wait, S: Serving, D: Desk>(rt: &R, station: &mut S, desk: &mut D) -> Ending
    ensures actor { D.actor desk.new ≡ D.actor desk.old }
    ensures works { WorksUntil (moment_of S.Serving D.Desk station.old desk.old)
        (moment_of S.Serving D.Desk station.new desk.new) result }
    ensures shut { result ≡ Ending.GateShut → S.shut station.new }
    ensures over { result ≡ Ending.TermOver → SaidOver D.Desk desk.new }
{
    for _ in rt.forever() {
        let ended = if station.live() {
            serve_once(station, desk)
        } else {
            ask_for_connection(station, desk)
        };
        if let Some(ending) = ended {
            return ending;
        }
    }
    unreachable!()
}

/// Serves a carrier's connections, one after another, until its port has no more of them, its gate is shut, or the term
/// is over. Before each request for a connection, each call of `serve` and each wait, the worker asks the desk whether
/// the term is over. It reports to the port how each connection was closed (`Port::closed`) before it asks for the
/// next.
pub fn work_carrier<R: Wait, P: Port, G: Gate, D: Desk>(
    rt: &R,
    station: &mut Station<P, G>,
    desk: &mut D,
) -> Ending
    ensures actor { D.actor desk.new ≡ D.actor desk.old }
    ensures works { WorksUntil (moment (station_state station.old.link
        (P.reported station.old.port) (G.passed station.old.gate)) (D.calls desk.old)
        (D.questions desk.old)) (moment (station_state station.new.link
        (P.reported station.new.port) (G.passed station.new.gate)) (D.calls desk.new)
        (D.questions desk.new)) result }
    ensures shut { result ≡ Ending.GateShut → (before : _) × G.shuts before station.new.gate }
    ensures over { result ≡ Ending.TermOver → SaidOver D.Desk desk.new }
{
    work_station(rt, station, desk)
}

/// Serves the console's connections, one after another, until its port has no more of them, or the term is over. Before
/// each request for a connection, each call of `serve` and each wait, the worker asks the desk whether the term is
/// over. It reports to the port how each connection was closed (`Port::closed`) before it asks for the next.
pub fn work_console<R: Wait, P: Port, D: Desk>(
    rt: &R,
    station: &mut ConsoleStation<P>,
    desk: &mut D,
) -> Ending
    ensures actor { D.actor desk.new ≡ D.actor desk.old }
    ensures works { WorksUntil (moment (station_state station.old.link
        (P.reported station.old.port) None) (D.calls desk.old) (D.questions desk.old))
        (moment (station_state station.new.link (P.reported station.new.port) None)
        (D.calls desk.new) (D.questions desk.new)) result }
    ensures open { result ≡ Ending.GateShut → ⊥ }
    ensures over { result ≡ Ending.TermOver → SaidOver D.Desk desk.new }
{
    work_station(rt, station, desk)
}
