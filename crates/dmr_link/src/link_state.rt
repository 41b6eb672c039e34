//! The state that a link keeps of its connection, and the steps of its work.

ghost use Rattle.std.specs.Prelude.{◌≡◌, ◌+◌, ◌<◌, ◌≤◌, List, [], Option, Some, None};
ghost use Rattle.std.specs.Prelude.{option_map, length, true, false, IfOk, IfErr};
ghost use Rattle.dmr_wire.specs.Answers.{Answer as PortAnswer};
ghost use Rattle.dmr_link.specs.declared.desk.Deposit.{Deposit as ADeposit};
ghost use Rattle.dmr_link.specs.Desks.{HasRefusedWith, KeepsDesk};
ghost use Rattle.dmr_link.specs.Happenings.{Outside, Disordered, stage_after};
ghost use Rattle.dmr_link.specs.Limits.{most_interruptions};
ghost use Rattle.dmr_link.specs.Moves.{Moves, moment};
ghost use Rattle.dmr_link.specs.Notices.{notice_meant, peer_notice};
ghost use Rattle.dmr_link.specs.Passages.{Passage};
ghost use Rattle.dmr_link.specs.Peers.{answer_text, peer_notice_text, next_after_answer};
ghost use Rattle.dmr_link.specs.Peers.{numbering_of};
ghost use Rattle.dmr_link.specs.Sessions.{IsQuiet, IsClosed, sides};
ghost use Rattle.dmr_link.specs.LinkSteps.{with_outcome, TakesPiece, peer_notice_of, closed_as};
ghost use Rattle.dmr_link.specs.LinkSteps.{first_pending, nothing_pending, is_live, pending_weight};
ghost use Rattle.dmr_link.specs.LinkSteps.{Replies, IsHeld, IsSettled, row_then, row_after};
ghost use Rattle.dmr_link.specs.LinkSteps.{with_next, stage_then_read, HasTurned, Listens};
ghost use Rattle.dmr_link.specs.LinkSteps.{HandsIn, HasReason, MayRead, Steps, moment_of};
ghost use Rattle.dmr_link.specs.LinkSteps.{cut_state, with_new_connection};

use crate::answers::Answer;
use crate::connection::Outcome;
use crate::desk::{Desk, Gate, TermOver};
use crate::ended::Ended;
use crate::limits::{MOST_INTERRUPTIONS, MOST_READS};
use crate::notices::{Notice, PeerNotice, SiteNotice};
use crate::pending::Pending;
use crate::stream::{Peer, Stream};
use crate::unread::Unread;
use crate::writing::{write_answer, write_peer_answer};
use dmr_wire::{Closing, Got, Wire};

/// The state that a link keeps of its connection.
#[derive(Drop)]
pub struct LinkState {
    /// The peer.
    pub who: Peer,
    /// The connection.
    pub connection: Stream,
    /// The events that no desk has taken yet.
    pub pending: Pending,
    /// Whether the connection was cut. After a cut nothing is written on it.
    pub is_cut: bool,
    /// The octets that were read and are not yet processed.
    pub unread: Unread,
    /// How the connection was closed.
    pub closing: Closing,
}

impl LinkState {
    /// Returns the state of a link with no connection.
    pub fn new(who: Peer) -> LinkState
        ensures who { result.who ≡ who }
        ensures connection { IsClosed result.connection }
        ensures pending { result.pending ≡ nothing_pending }
        ensures closing { result.closing ≡ Closing.Over }
    {
        LinkState {
            who,
            connection: Stream::Closed,
            pending: Pending::none(),
            is_cut: false,
            unread: Unread::new(),
            closing: Closing::Over,
        }
    }

    /// Closes the connection. If its carrier was up, its Lost becomes pending.
    fn close(&mut self, closing: Closing)
        ensures { self.new ≡ closed_as self.old closing }
    {
        self.pending.lost = self.connection.carrier_up();
        self.connection = Stream::Closed;
        self.closing = closing;
    }

    /// Keeps the outcome of octets. A notice for the site is kept; a notice for the peer alone is returned.
    fn keep_outcome(&mut self, outcome: &Outcome) -> Option<PeerNotice>
        ensures kept { self.new ≡ with_outcome self.old (option_map notice_meant outcome.now.notice)
            outcome.now.closing }
        ensures alone { option_map peer_notice result
            ≡ peer_notice_of (option_map notice_meant outcome.now.notice) }
    {
        if let Some(closing) = outcome.closing {
            self.closing = closing;
        }
        match outcome.notice {
            Some(Notice::Site(notice)) => {
                self.pending.kept = Some(notice);
                None
            }
            Some(Notice::Peer(notice)) => Some(notice),
            None => None,
        }
    }

    /// Processes unread octets up to the end of the next frame or line, up to a fault, or all of them. A notice for the
    /// site is kept; a notice for the peer alone is returned.
    fn receive(&mut self) -> Option<PeerNotice>
        requires { 0 < length self.old.unread }
        ensures { TakesPiece self.old self.new (option_map peer_notice result) }
    {
        let (count, outcome) = self.connection.receive(self.unread.as_slice());
        self.unread.skip(count);
        self.keep_outcome(&outcome)
    }

    /// Returns whether a connection is open, or an event of it is pending.
    pub fn is_live(&self) -> bool
        ensures { result ≡ is_live self.now }
    {
        self.connection.is_open() || self.pending.first().is_some()
    }

    /// Writes the answer to a notice, unless the connection was cut. If a write fails, it closes the connection.
    fn answer_peer<W: Wire>(&mut self, notice: &SiteNotice, answer: &mut Answer, port: &mut W)
        ensures { Replies self.old.is_cut self.old (W.reported port.old)
            (answer_text (numbering_of self.old.connection) notice.now answer.old.acts)
            (with_next self.old
            (next_after_answer (numbering_of self.old.connection) notice.now answer.old.acts))
            self.new (W.reported port.new) }
    {
        if self.is_cut {
            return;
        }
        let Answer { acts, room } = answer;
        let mut numbering = self.connection.numbering();
        if write_answer(port, room, &mut numbering, notice, acts) {
            self.connection.set_numbering(numbering);
        } else {
            self.close(Closing::WriteFailed);
        }
    }

    /// Writes the answer to a notice for the peer alone. If a write fails, the connection is closed for that, even if
    /// its octets closed it before.
    fn answer_peer_notice<W: Wire>(&mut self, notice: &PeerNotice, port: &mut W)
        ensures { Replies false self.old (W.reported port.old)
            (peer_notice_text (peer_notice notice.now)) self.old self.new (W.reported port.new) }
    {
        if !write_peer_answer(port, notice) {
            self.close(Closing::WriteFailed);
        }
    }

    /// Hands in the first pending notice through the gate, and writes its answer before it leaves the gate.
    /// `Err`: the gate is shut or the term is over, and the notice is still pending.
    fn deposit_first<W: Wire, D: Desk, G: Gate>(
        &mut self,
        notice: &SiteNotice,
        answer: &mut Answer,
        port: &mut W,
        desk: &mut D,
        gate: &mut G,
    ) -> Result<(), Ended>
        requires { first_pending self.old.pending ≡ Some notice.now }
        ensures step { Steps W.Wire D.Desk G.Gate self.old port.old desk.old gate.old self.new port.new
            desk.new gate.new result }
        ensures stops { IsHeld result self.new
            (pending_weight self.new.pending < pending_weight self.old.pending) }
        ensures unread { self.new.unread ≡ self.old.unread }
    {
        if !gate.enter() {
            return Err(Ended::GateShut);
        }
        match notice.hand_in(desk, &mut answer.acts) {
            Err(over) => {
                gate.leave();
                Err(Ended::from(over))
            }
            Ok(()) => {
                self.pending.remove_first();
                self.answer_peer(notice, answer, port);
                gate.leave();
                Ok(())
            }
        }
    }

    /// Hands in all pending notices, in order. `Err` says why it stopped, or how the connection was closed if it is not
    /// open afterwards.
    // Out of line: a link on which nothing is pending then only looks.
    #[inline(never)]
    fn deposit_all<W: Wire, D: Desk, G: Gate>(
        &mut self,
        answer: &mut Answer,
        port: &mut W,
        desk: &mut D,
        gate: &mut G,
    ) -> Result<(), Ended>
        ensures { HandsIn W.Wire D.Desk G.Gate self.old port.old desk.old gate.old self.new port.new
            desk.new gate.new result }
    {
        while let Some(notice) = self.pending.first() {
            self.deposit_first(&notice, answer, port, desk, gate)?;
        }
        if self.connection.is_open() {
            return Ok(());
        }
        Err(Ended::from(self.closing))
    }

    /// Returns whether a connection is open, and nothing is pending.
    fn is_quiet(&self) -> bool
        ensures { result ≡ true → IsQuiet self.now }
    {
        self.connection.is_open() && self.pending.is_empty()
    }

    /// Does the same as [`deposit_all`](LinkState::deposit_all), and does not call it if the connection is open and nothing
    /// is pending.
    fn deposit_pending<W: Wire, D: Desk, G: Gate>(
        &mut self,
        answer: &mut Answer,
        port: &mut W,
        desk: &mut D,
        gate: &mut G,
    ) -> Result<(), Ended>
        ensures { HandsIn W.Wire D.Desk G.Gate self.old port.old desk.old gate.old self.new port.new
            desk.new gate.new result }
    {
        if self.is_quiet() {
            return Ok(());
        }
        self.deposit_all(answer, port, desk, gate)
    }

    /// Processes unread octets up to the end of the next frame or line, up to a fault, or all of them. An event that
    /// they produce is kept. The answer to another notice is written.
    fn take_unread<W: Wire>(&mut self, port: &mut W)
        requires some { 0 < length self.old.unread }
        requires quiet { IsQuiet self.old }
        ensures moves { (calls : List ADeposit) (passed : Option (List Passage))
            → Moves (moment self.old (sides (W.reported port.old) calls passed) 0 Outside)
            (moment self.new (sides (W.reported port.new) calls passed) 0 Outside) 0 }
        ensures fewer { length self.new.unread < length self.old.unread }
    {
        if let Some(notice) = self.receive() {
            self.answer_peer_notice(&notice, port);
        }
    }

    /// Hands in all pending notices, and processes all unread octets. `Err` says why it stopped.
    fn process_unread<W: Wire, D: Desk, G: Gate>(
        &mut self,
        answer: &mut Answer,
        port: &mut W,
        desk: &mut D,
        gate: &mut G,
    ) -> Result<(), Ended>
        ensures step { Steps W.Wire D.Desk G.Gate self.old port.old desk.old gate.old self.new port.new
            desk.new gate.new result }
        ensures stops { IsSettled result self.new }
        ensures all { IfOk result (λ _. self.new.unread ≡ []) }
    {
        self.deposit_pending(answer, port, desk, gate)?;
        while !self.unread.is_empty() {
            self.take_unread(port);
            self.deposit_pending(answer, port, desk, gate)?;
        }
        Ok(())
    }

    /// Reads once. Returns how many reads were interrupted last, in a row; `None` if the read would block.
    /// `row` is that number before the read. The number starts again at 0 if the read closes the connection.
    fn read_once<W: Wire>(&mut self, row: usize, port: &mut W) -> Option<usize>
        requires { MayRead self.old row }
        ensures moves { (calls : List ADeposit) (passed : Option (List Passage))
            → Moves (moment self.old (sides (W.reported port.old) calls passed) row Outside)
            (moment self.new (sides (W.reported port.new) calls passed) (row_then result)
            (stage_then_read result)) 1 }
        ensures few { row_then result ≤ most_interruptions }
        ensures same { (result ≡ Some 0 → ⊥) → self.new ≡ self.old }
    {
        match self.unread.fill(port) {
            Got::Octets(_) => Some(0),
            Got::End => {
                self.close(Closing::Over);
                Some(0)
            }
            Got::Interrupted => {
                if row < MOST_INTERRUPTIONS {
                    return Some(row + 1);
                }
                self.close(Closing::ReadFailed);
                Some(0)
            }
            Got::Block => None,
            Got::Fault => {
                self.close(Closing::ReadFailed);
                Some(0)
            }
        }
    }

    /// Reads once, and processes all octets received. Returns how many reads were interrupted last, in a row, or why it
    /// stopped. `row` is that number before the read.
    fn read_and_process<W: Wire, D: Desk, G: Gate>(
        &mut self,
        row: usize,
        answer: &mut Answer,
        port: &mut W,
        desk: &mut D,
        gate: &mut G,
    ) -> Result<usize, Ended>
        requires { MayRead self.old row }
        ensures keeps { KeepsDesk D.Desk desk.old desk.new }
        ensures moves { Moves (moment_of W.Wire D.Desk G.Gate self.old port.old desk.old gate.old row Outside)
            (moment_of W.Wire D.Desk G.Gate self.new port.new desk.new gate.new (row_after result)
            (stage_after result)) 1 }
        ensures stops { HasTurned result self.new }
        ensures why { IfErr result (HasReason D.Desk desk.new G.Gate gate.new) }
    {
        let Some(row) = self.read_once(row, port) else {
            return Err(Ended::Idle);
        };
        if row > 0 {
            return Ok(row);
        }
        self.process_unread(answer, port, desk, gate)?;
        Ok(0)
    }

    /// Works until it has to stop, or has made the most reads of one call. Returns why. `answer` becomes the newest answer.
    pub fn serve_connection<W: Wire, D: Desk, G: Gate>(
        &mut self,
        answer: &mut Answer,
        port: &mut W,
        desk: &mut D,
        gate: &mut G,
    ) -> Ended
        ensures keeps { KeepsDesk D.Desk desk.old desk.new }
        ensures works { Listens self.old self.new
            (sides (W.reported port.old) (D.calls desk.old) (G.passed gate.old))
            (sides (W.reported port.new) (D.calls desk.new) (G.passed gate.new)) result }
        ensures why { HasReason D.Desk desk.new G.Gate gate.new result }
    {
        if let Err(stop) = self.process_unread(answer, port, desk, gate) {
            return stop;
        }
        let mut row = 0;
        for _ in 0..MOST_READS {
            match self.read_and_process(row, answer, port, desk, gate) {
                Ok(next) => row = next,
                Err(stop) => return stop,
            }
        }
        Ended::Paused
    }

    /// Begins a connection.
    pub fn begin_connection(&mut self)
        ensures { self.new ≡ with_new_connection self.old }
    {
        self.connection = Stream::open(self.who);
        self.is_cut = false;
        self.unread.clear();
    }

    /// Cuts the connection. If its carrier was up, its Lost becomes pending.
    pub fn cut_connection(&mut self)
        ensures { self.new ≡ cut_state self.old }
    {
        if self.pending.lost.is_none() {
            self.pending.lost = self.connection.carrier_up();
        }
        self.connection = Stream::Closed;
        self.is_cut = true;
        self.closing = Closing::Over;
    }

    /// Hands in all pending notices, in order, and writes nothing. `Err`: the term is over, and the remaining notices
    /// are still pending.
    pub fn flush_pending<D: Desk>(
        &mut self,
        answer: &mut Answer,
        desk: &mut D,
    ) -> Result<(), TermOver>
        requires { self.old.is_cut ≡ true }
        ensures keeps { KeepsDesk D.Desk desk.old desk.new }
        ensures moves { (reported : Option (List PortAnswer)) (passed : Option (List Passage))
            → Moves (moment self.old (sides reported (D.calls desk.old) passed) 0 Disordered)
            (moment self.new (sides reported (D.calls desk.new) passed) 0 Disordered) 0 }
        ensures ok { IfOk result (λ _. (self.new.pending.kept ≡ None)
            × (self.new.pending.lost ≡ None)) }
        ensures over { IfErr result (λ over. HasRefusedWith D.Desk over desk.new) }
        ensures live { IfErr result (λ _. is_live self.new ≡ true) }
        ensures connection { self.new.connection ≡ self.old.connection }
        ensures closing { self.new.closing ≡ self.old.closing }
    {
        while let Some(notice) = self.pending.first() {
            notice.hand_in(desk, &mut answer.acts)?;
            self.pending.remove_first();
        }
        Ok(())
    }
}
