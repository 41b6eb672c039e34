//! A link's peer, and the effect of octets from the peer.

ghost use Rattle.std.specs.Prelude.{◌≡◌, ◌<◌, length, take};
ghost use Rattle.dmr_link.specs.Meaning.{IsPiece};
ghost use Rattle.dmr_link.specs.Notices.{notices_meant};
ghost use Rattle.dmr_link.specs.Peers.{opened_for, is_going, up_of, all_produce, closes_by};
ghost use Rattle.dmr_link.specs.Peers.{left_after, numbered, numbering_of};

use crate::carrier_state::CarrierState;
use crate::connection::{CarrierIdentity, Outcome, open_outcome};
use crate::console::receive_line;
use crate::numbering::Numbering;
use dmr_console::LineCutter;
use dmr_pdu::CarrierNo;

/// The peer of a link.
#[derive(Clone, Copy, Debug, PartialEq, Eq)]
pub enum Peer {
    /// A carrier, which sends frames.
    Carrier(CarrierIdentity),
    /// An operator, who sends lines.
    Operator,
}

/// A link's connection, after its octets so far.
#[derive(Drop)]
pub enum Stream {
    /// No connection is open: octets mean nothing.
    Closed,
    /// The state of a carrier's connection.
    Frames(CarrierState),
    /// An operator's connection, with the octets that are kept of the open line.
    Lines(LineCutter),
}

impl Stream {
    /// Returns a connection of this peer that has just begun.
    pub fn open(peer: Peer) -> Stream
        ensures { result ≡ opened_for peer }
    {
        match peer {
            Peer::Carrier(who) => Stream::Frames(CarrierState::open(who)),
            Peer::Operator => Stream::Lines(LineCutter::new()),
        }
    }

    /// Returns whether a connection is open.
    pub fn is_open(&self) -> bool
        ensures { result ≡ is_going self.now }
    {
        match self {
            Stream::Closed => false,
            Stream::Frames(state) => state.connection.is_open(),
            Stream::Lines(_) => true,
        }
    }

    /// Returns the carrier of the connection, if it is up.
    pub fn carrier_up(&self) -> Option<CarrierNo>
        ensures { result ≡ up_of self.now }
    {
        match self {
            Stream::Frames(state) => state.connection.carrier_up(&state.who),
            Stream::Closed | Stream::Lines(_) => None,
        }
    }

    /// Returns the number of the next TX; none if TX have no numbers, or if no TX is sent on this connection.
    pub fn numbering(&self) -> Numbering
        ensures { result ≡ numbering_of self.now }
    {
        match self {
            Stream::Frames(state) => state.numbering,
            Stream::Closed | Stream::Lines(_) => Numbering::new(),
        }
    }

    /// Sets the number of the next TX. If no TX is sent on this connection, nothing changes.
    pub fn set_numbering(&mut self, next: Numbering)
        ensures { self.new ≡ numbered self.old next }
    {
        if let Stream::Frames(state) = self {
            state.numbering = next;
        }
    }

    /// Takes octets up to the end of the next frame or line, up to a fault, or all of them. Returns how many it took,
    /// the notice that these produce, if any, and how they close the connection, if they do. No octet of an operator
    /// closes a connection.
    pub fn receive(&mut self, octets: &[u8]) -> (usize, Outcome)
        requires { 0 < length octets.now }
        ensures piece { IsPiece result.0 octets.now }
        ensures notice { all_produce self.old (take result.0 octets.now)
            ≡ notices_meant result.1.notice }
        ensures closing { result.1.closing ≡ closes_by self.old (take result.0 octets.now) }
        ensures stream { self.new ≡ left_after self.old (take result.0 octets.now) }
    {
        match self {
            Stream::Closed => (octets.len(), Outcome::NOTHING),
            Stream::Frames(state) => state.connection.receive(&state.who, octets),
            Stream::Lines(cutter) => {
                let (count, notice) = receive_line(cutter, octets);
                (count, open_outcome(notice))
            }
        }
    }
}
