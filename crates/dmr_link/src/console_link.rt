//! The operators' link serves the console's connections, one after another, between a port and a desk.

ghost use Rattle.std.specs.Prelude.{◌≡◌, List, [], None, not, true, false};
ghost use Rattle.dmr_frames.specs.declared.frame.Cause.{Cause};
ghost use Rattle.dmr_link.specs.Closing.{ended_of};
ghost use Rattle.dmr_link.specs.Cutting.{CutsOff, Opens};
ghost use Rattle.dmr_link.specs.Desks.{HasRefused, KeepsDesk};
ghost use Rattle.dmr_link.specs.Sessions.{Session, HasPast, sides, Serves};
ghost use Rattle.dmr_link.specs.LinkSteps.{is_live};
ghost use Rattle.dmr_link.specs.declared.stream.Peer.TheVariants.{Operator};

use crate::answers::Answer;
use crate::desk::{Desk, OpenGate, TermOver};
use crate::ended::Ended;
use crate::link_state::LinkState;
use crate::stream::Peer;
use dmr_wire::{Closing, Wire};
use std::marker::Model;

/// Serves the console's connections, one after another, between a port and a desk. It is a [`Link`](crate::Link) with
/// lines and replies in place of frames. An operator is not a carrier: there is no Lost, no line closes a connection,
/// and there is no gate. A link has one connection or none. It keeps everything that a desk has not taken: a command,
/// and octets of the last read that are not yet processed. After a failed write or a cut these octets mean nothing.
/// Contracts see this state, and the connections that a link has had (`HasPast`).
#[derive(Drop)]
pub struct ConsoleLink {
    state: LinkState,
    // The newest answer. It is kept to spare each answer a room of its own.
    answer: Answer,
}

impl Model for ConsoleLink {
    ghost use Rattle.std.specs.Prelude.{◌≡◌, List};
    ghost use Rattle.dmr_link.specs.declared.stream.Peer.TheVariants.{Operator};
    ghost use Rattle.dmr_link.specs.declared.link_state.LinkState.{LinkState as ALinkState};
    ghost use Rattle.dmr_link.specs.Sessions.{Session, HasPast};

    ghost Value = { ALinkState };

    ghost view = { λ l. l.state };

    ghost invariant = { λ l. (l.state.who ≡ Operator)
        × ((past : List Session) × HasPast l.state past) };
}

impl ConsoleLink {
    /// Creates a link with no connection. `serve` returns `Closed` until `open`.
    pub fn new() -> ConsoleLink
        ensures who { result.who ≡ Operator }
        ensures past { HasPast result [] }
    {
        ConsoleLink {
            state: LinkState::new(Peer::Operator),
            answer: Answer::none(),
        }
    }

    /// Returns whether a connection is open, or a command of it is pending.
    pub fn live(&self) -> bool
        ensures { result ≡ is_live self.now }
    {
        self.state.is_live()
    }

    /// Returns how the connection was closed: by the end of its input, a fault or a cut. While a connection is open, it
    /// is how the one before was closed.
    pub fn closing(&self) -> Closing
        ensures { result ≡ self.now.closing }
    {
        self.state.closing
    }

    /// Does nothing. A proof that calls it learns that the peer of every console link is an operator, and that the link
    /// has a past (`HasPast`).
    pub fn use_invariant(&self)
        ensures who { self.now.who ≡ Operator }
        ensures past { (past : List Session) × HasPast self.now past }
    {
        let _ = &self.state;
    }

    /// Begins a connection with no open line: the open line of an earlier connection has no effect. Returns `false` if
    /// the link is live, and nothing has changed then.
    pub fn open(&mut self) -> bool
        ensures { Opens self.old self.new result }
    {
        if self.state.is_live() {
            return false;
        }
        self.state.begin_connection();
        true
    }

    /// Serves the connection until the link has to stop, and returns why, but never `BadFrame` or `GateShut`. The link
    /// hands in a pending command, reads lines, hands in their commands, and writes the replies. [`Ended`] says what is
    /// left. If a line is too long or not a command, the operator receives an error, and the connection goes on. A call
    /// makes at most [`MOST_READS`](crate::MOST_READS) reads, of at most 64 octets each. It tries an interrupted read
    /// or write again, at most [`MOST_INTERRUPTIONS`](crate::MOST_INTERRUPTIONS) times in a row. After a cut it neither
    /// reads nor writes.
    pub fn serve<W: Wire, D: Desk>(&mut self, port: &mut W, desk: &mut D) -> Ended
        ensures keeps { KeepsDesk D.Desk desk.old desk.new }
        ensures serves { Serves self.old self.new
            (sides (W.reported port.old) (D.calls desk.old) None)
            (sides (W.reported port.new) (D.calls desk.new) None) result }
        ensures over { result ≡ Ended.TermOver → HasRefused D.Desk desk.new }
        ensures open { result ≡ Ended.GateShut → ⊥ }
        ensures no_cause { (cause : Cause) → result ≡ Ended.BadFrame cause → ⊥ }
        // A link that is not live returns how its connection was closed, and touches nothing.
        ensures ended { is_live self.old ≡ false
            → (result ≡ ended_of self.old.closing) × (self.new ≡ self.old) × (port.new ≡ port.old)
            × (desk.new ≡ desk.old) }
    {
        if !self.state.is_live() {
            return Ended::from(self.state.closing);
        }
        self.state
            .serve_connection(&mut self.answer, port, desk, &mut OpenGate)
    }

    /// Cuts the connection, and hands in the command that is kept. It writes nothing, and an open line has no effect,
    /// nor have octets that were read and not yet processed. After that, `serve` returns `Closed` until `open`. `Err`:
    /// the term is over. The link is cut all the same, and the next `cut` or `serve` hands in the command. A link that
    /// is not live does not change.
    pub fn cut<D: Desk>(&mut self, desk: &mut D) -> Result<(), TermOver>
        ensures { CutsOff D.Desk self.old self.new desk.old desk.new result }
    {
        if !self.state.is_live() {
            return Ok(());
        }
        self.state.cut_connection();
        self.state.flush_pending(&mut self.answer, desk)
    }
}

/// Creates a link with no connection.
impl Default for ConsoleLink {
    ghost use Rattle.std.specs.Prelude.{◌≡◌, []};
    ghost use Rattle.dmr_link.specs.Sessions.{HasPast};

    ghost is_default = { λ l. HasPast l [] };

    fn default() -> Self {
        ConsoleLink::new()
    }
}
