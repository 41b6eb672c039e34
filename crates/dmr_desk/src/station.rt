//! Stations: a link with its port, and its gate if it has one.

ghost use Rattle.std.specs.Prelude.{◌≡◌, true, false, not, [], ◌∷◌, IfOk, IfErr, List};
ghost use Rattle.dmr_wire.specs.Answers.{Reports, of_connect, of_wait};
ghost use Rattle.dmr_link.specs.Sessions.{Session, new_session, HasPast, IsOver, Serves, Cuts};
ghost use Rattle.dmr_link.specs.LinkSteps.{is_live};
ghost use Rattle.dmr_link.specs.Desks.{HasRefused, HasRefusedWith};
ghost use Rattle.dmr_desk.specs.Work.{StationState, Answers, ChangesLink, sides_at};

use dmr_link::{ConsoleLink, Desk, Ended, Gate, Link, TermOver};
use dmr_wire::{Connect, Port, Waited};

/// A carrier's link, its port, and its gate.
#[derive(Drop)]
pub struct Station<P, G> {
    /// The link.
    pub link: Link,
    /// The port.
    pub port: P,
    /// The gate.
    pub gate: G,
}

/// The console's link, and its port.
#[derive(Drop)]
pub struct ConsoleStation<P> {
    /// The link.
    pub link: ConsoleLink,
    /// The port.
    pub port: P,
}

/// A station that a worker serves. Contracts see its state (`StationState`).
pub trait Serving {
    /// The link, and the records that its port and its gate report. A console has no gate, and reports nothing of one.
    ghost state: { Self → StationState };

    /// The gate was shut at the last try to pass it.
    ghost shut: { Self → Type 0 };

    /// Whether the link is live.
    fn live(&self) -> bool
        ensures { result ≡ is_live (state self.now).link };

    /// Asks the port for the next connection.
    fn connect(&mut self) -> Connect
        ensures { Answers (state self.old) (of_connect result) (state self.new) };

    /// Begins a connection.
    fn open(&mut self)
        requires { is_live (state self.old).link ≡ false }
        ensures turns { ChangesLink (state self.old) (state self.new) }
        ensures stands { (past : List Session) → HasPast (state self.old).link past
            → HasPast (state self.new).link (new_session ∷ past) };

    /// Serves the link until it has to stop.
    fn serve<D: Desk>(&mut self, desk: &mut D) -> Ended
        ensures actor { D.actor desk.new ≡ D.actor desk.old }
        ensures questions { D.questions desk.new ≡ D.questions desk.old }
        ensures serves { Serves (state self.old).link (state self.new).link
            (sides_at (state self.old) (D.calls desk.old))
            (sides_at (state self.new) (D.calls desk.new)) result }
        ensures over { result ≡ Ended.TermOver → HasRefused D.Desk desk.new }
        ensures shut { result ≡ Ended.GateShut → shut self.new };

    /// Waits on the port.
    fn wait(&mut self) -> Waited
        ensures { Answers (state self.old) (of_wait result) (state self.new) };

    /// Cuts a live link, and hands in its pending events. On an error the term is over. The link is cut all the same,
    /// and keeps the remaining events.
    fn cut<D: Desk>(&mut self, desk: &mut D) -> Result<(), TermOver>
        requires { is_live (state self.old).link ≡ true }
        ensures actor { D.actor desk.new ≡ D.actor desk.old }
        ensures questions { D.questions desk.new ≡ D.questions desk.old }
        ensures turns { ChangesLink (state self.old) (state self.new) }
        ensures cuts { Cuts (state self.old).link (state self.new).link (D.calls desk.old)
            (D.calls desk.new) }
        ensures done { IfOk result (λ _. IsOver (state self.new).link) }
        ensures over { IfErr result (λ over. HasRefusedWith D.Desk over desk.new) };

    /// Reports to the port how the link's connection was closed.
    fn report_closing(&mut self)
        ensures { state self.new ≡ state self.old };

    /// Reports to the port that the term is over: the worker has ended because of it, or is not started.
    fn report_term_over(&mut self)
        ensures state { state self.new ≡ state self.old }
        ensures shut { shut self.old → shut self.new };
}

impl<P: Port, G: Gate> Serving for Station<P, G> {
    ghost use Rattle.dmr_desk.specs.Work.{station_state as state_of};

    ghost state = { λ s. state_of s.link (P.reported s.port) (G.passed s.gate) };

    ghost shut = { λ s. (before : _) × G.shuts before s.gate };

    fn live(&self) -> bool {
        self.link.live()
    }

    fn connect(&mut self) -> Connect {
        self.port.connect()
    }

    fn open(&mut self) {
        self.link.open();
    }

    fn serve<D: Desk>(&mut self, desk: &mut D) -> Ended {
        self.link.serve(&mut self.port, desk, &mut self.gate)
    }

    fn wait(&mut self) -> Waited {
        self.port.wait()
    }

    #[inline(never)]
    fn cut<D: Desk>(&mut self, desk: &mut D) -> Result<(), TermOver> {
        self.link.cut(desk)
    }

    #[inline(never)]
    fn report_closing(&mut self) {
        self.port.closed(self.link.closing());
    }

    fn report_term_over(&mut self) {
        self.port.term_over();
    }
}

impl<P: Port> Serving for ConsoleStation<P> {
    ghost use Rattle.std.specs.Prelude.{None};
    ghost use Rattle.dmr_desk.specs.Work.{station_state as state_of};

    ghost state = { λ s. state_of s.link (P.reported s.port) None };

    ghost shut = { λ s. ⊥ };

    fn live(&self) -> bool {
        self.link.live()
    }

    fn connect(&mut self) -> Connect {
        self.port.connect()
    }

    fn open(&mut self) {
        self.link.use_invariant();
        self.link.open();
        self.link.use_invariant();
    }

    fn serve<D: Desk>(&mut self, desk: &mut D) -> Ended {
        self.link.serve(&mut self.port, desk)
    }

    fn wait(&mut self) -> Waited {
        self.port.wait()
    }

    fn cut<D: Desk>(&mut self, desk: &mut D) -> Result<(), TermOver> {
        self.link.cut(desk)
    }

    fn report_closing(&mut self) {
        self.port.closed(self.link.closing());
    }

    fn report_term_over(&mut self) {
        self.port.term_over();
    }
}
