//! The connection that a port serves.

ghost use Rattle.std.specs.Prelude.{◌≡◌, ◌<◌, ◌≤◌, ◌↔◌, ◌++◌, ◌||◌, [], true, false, not, length};
ghost use Rattle.std.specs.Prelude.{take, Some, None, IsTrue};
ghost use Rattle.std.specs.Option.{is_some, option_or};
ghost use Rattle.dmr_port.specs.FirstOctets.{IsHello, begins_http};
ghost use Rattle.dmr_port.specs.Patience.{new_patience};
ghost use Rattle.dmr_port.specs.PortState.{HasWaitedFor, answer_of_write, connection_after_write};
ghost use Rattle.dmr_port.specs.PortState.{connection_of, waited_by};
ghost use Rattle.dmr_port.specs.Served.{HearsOctets, after_read, after_wait, cause_of_served};

use crate::cause::CloseCause;
use crate::first_octets::FirstOctets;
use crate::patience::Patience;
use crate::sockets::Ready;
use dmr_wire::{Got, Put};
use std::net::SocketAddr;

/// The connection that a port serves, as far as the port has to know it.
#[derive(Debug, Drop)]
pub struct Served {
    /// The other side's address.
    pub from: SocketAddr,
    /// How long the port has waited for it.
    pub patience: Patience,
    /// Its first octets.
    pub first: FirstOctets,
    /// The system may have octets to read. It has none after a read of fewer octets than were asked for, until a wait
    /// finds the connection ready.
    pub may_read: bool,
    /// The other side has ended its output. The system may not report that again, so reads ask it until they find the
    /// end.
    pub input_closed: bool,
    /// Why the connection ended, once that is known.
    pub ended: Option<CloseCause>,
}

impl Served {
    /// Makes a connection that has just begun to be served. On a carrier's port a HELLO is expected.
    pub fn new(from: SocketAddr, is_carrier: bool) -> Served
        ensures patience { result.patience ≡ new_patience is_carrier }
        ensures first { result.first.octets.items ≡ [] }
        ensures reads { result.may_read ≡ true }
        ensures ended { result.ended ≡ None }
    {
        Served {
            from,
            patience: Patience::new(is_carrier),
            first: FirstOctets::new(),
            may_read: true,
            input_closed: false,
            ended: None,
        }
    }

    /// Keeps why the link closed the connection, unless the port has already noted its end.
    pub fn keep_cause(&mut self, cause: CloseCause)
        ensures { self.new ≡ record self.old { ended = option_or self.old.ended (Some cause) } }
    {
        self.ended = self.ended.or(Some(cause));
    }

    /// Returns whether a read has to ask the system.
    pub fn has_to_ask(&self) -> bool
        ensures { result ≡ (self.now.may_read || self.now.input_closed) }
    {
        self.may_read || self.input_closed
    }

    /// Notes the system's answer to a read of at most `asked` octets.
    pub fn note_read(&mut self, got: Got, asked: usize)
        ensures { self.new ≡ after_read got asked self.old }
    {
        match got {
            Got::Octets(count) => self.may_read = count == asked,
            Got::End => self.ended = Some(CloseCause::EndOfInput),
            Got::Interrupted => {}
            Got::Block => self.may_read = false,
            Got::Fault => self.ended = Some(CloseCause::ReadFault),
        }
    }

    /// Notes the answer to a write, and returns the link's answer: if there was no room for an octet, the write would
    /// block. That ends the connection, as a fault does.
    pub fn note_write(&mut self, put: Put) -> Put
        ensures answer { result ≡ answer_of_write put }
        ensures connection { connection_of self.new
            ≡ connection_after_write result (connection_of self.old) }
    {
        match put {
            Put::Octets(0) | Put::Block => {
                self.ended = Some(CloseCause::NotRead);
                Put::Block
            }
            Put::Fault => {
                self.ended = Some(CloseCause::WriteFault);
                Put::Fault
            }
            Put::Octets(count) => Put::Octets(count),
            Put::Interrupted => Put::Interrupted,
        }
    }

    /// Notes octets that came. Returns whether the link may have them. It may not if the connection to the operators'
    /// port begins with a request of HTTP; then the connection has ended.
    pub fn note_octets(&mut self, octets: &[u8], is_carrier: bool) -> bool
        requires { 0 < length octets.now }
        ensures first { self.new.first.octets.items
            ≡ take 8 (self.old.first.octets.items ++ octets.now) }
        ensures given { result ≡ (is_carrier || not (begins_http self.new.first.octets.items)) }
        ensures heard { result ≡ true → HearsOctets octets.now is_carrier self.old self.new }
        ensures http { result ≡ false
            → self.new ≡ record self.old { first = self.new.first; ended = Some CloseCause.Http } }
    {
        self.first.add(octets);
        if !is_carrier && self.first.is_http() {
            self.ended = Some(CloseCause::Http);
            return false;
        }
        let has_hello = self.has_awaited_hello();
        self.patience.note_octets(octets, has_hello, !is_carrier);
        true
    }

    /// Returns whether the first octets are the HELLO that is expected. If none is expected, or none any more, the
    /// answer makes no difference, and nobody looks.
    fn has_awaited_hello(&self) -> bool
        ensures { is_some self.now.patience.hello ≡ true
            → IsTrue result ↔ IsHello (take 6 self.now.first.octets.items) }
    {
        self.patience.hello.is_some() && self.first.is_hello()
    }

    /// Notes that no octet is kept any more. While octets were kept, the system did not report octets to read.
    pub fn note_all_sent(&mut self)
        ensures { self.new ≡ record self.old {
          patience = record self.old.patience { unread = 0 };
          may_read = true;
        } }
    {
        self.patience.note_all_sent();
        self.may_read = true;
    }

    /// Notes what a wait of this many milliseconds found. `keeps`: octets are kept.
    fn note_wait(&mut self, ready: Ready, milliseconds: u32, keeps: bool)
        ensures { self.new ≡ after_wait ready milliseconds keeps self.old }
    {
        self.patience.count_wait(milliseconds, keeps);
        self.may_read = self.may_read || ready.connection;
        self.input_closed = self.input_closed || ready.input_closed;
    }

    /// Returns why the connection is given up after a wait, if it is. `keeps`: octets are kept. `ready`: the connection
    /// can now be read; or if octets are kept, written. `is_claimed`: a newcomer has sent a HELLO for this carrier.
    fn cause_after_wait(
        &self,
        silence: u16,
        keeps: bool,
        ready: bool,
        is_claimed: bool,
    ) -> Option<CloseCause>
        ensures { result ≡ cause_of_served silence keeps ready is_claimed self.now.patience }
    {
        if is_claimed && self.patience.is_displaceable() {
            return Some(CloseCause::Displaced);
        }
        self.patience.cause_after_wait(silence, keeps, ready)
    }

    /// Notes what a wait of this many milliseconds found, and returns why the connection is given up, if it is. Then
    /// that is why it ended. `keeps`: octets are kept. `is_claimed`: a newcomer has sent a HELLO for this carrier.
    #[tactic(auto, using(crate::proofs::ServedLemmas::goes_on, crate::proofs::ServedLemmas::is_given_up))]
    pub fn end_wait(
        &mut self,
        ready: Ready,
        milliseconds: u32,
        keeps: bool,
        silence: u16,
        is_claimed: bool,
    ) -> Option<CloseCause>
        ensures { HasWaitedFor silence milliseconds keeps ready.connection is_claimed
            (connection_of self.old) (connection_of self.new) (waited_by result) }
    {
        self.note_wait(ready, milliseconds, keeps);
        let cause = self.cause_after_wait(silence, keeps, ready.connection, is_claimed);
        if cause.is_some() {
            self.ended = cause;
        }
        cause
    }
}
