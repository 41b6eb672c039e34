//! Octets that were written to a connection and are kept until its other side takes them.

ghost use Rattle.std.specs.Prelude.{◌≡◌, ◌≢◌, ◌<◌, ◌≤◌, ◌+◌, ◌-◌, [], ◌++◌, List, ℕ, true, length};
ghost use Rattle.std.specs.Prelude.{take, drop, min, IfOk, nat_eq};
ghost use Rattle.dmr_wire.specs.Answers.{PutWithin};
ghost use Rattle.dmr_port.specs.Sockets.{KeepsNewcomers, taken_by};
ghost use Rattle.dmr_port.specs.Unsent.{PassesOctets, count_put};

use crate::sockets::Sockets;
use circular_buffer::HeapCircularBuffer;
use dmr_pdu::OutOfMemory;
use dmr_wire::Put;
use std::alloc::Global;
use std::marker::Model;

/// The most octets that are kept. A link reads 64 octets at once, and the answer to each has at most 1,024 octets, so
/// the answers to one read fit.
const ROOM: usize = 65_536;

/// What became of the kept octets when they were sent.
#[derive(Clone, Copy, Debug, PartialEq, Eq)]
pub enum Sent {
    /// The connection took all of them; none is left.
    All,
    /// Some are left, and the connection takes no more of them now.
    Part,
    /// The connection has failed.
    Fault,
}

/// The octets that are kept to be sent on a connection, oldest first. Contracts see their list.
#[derive(Drop)]
pub struct Unsent {
    octets: HeapCircularBuffer<u8>,
}

impl Model for Unsent {
    ghost use Rattle.std.specs.Prelude.{◌≡◌, ℕ, List};

    ghost Value = { List ℕ };

    ghost view = { λ u. u.octets.items };

    ghost invariant = { λ u. u.octets.capacity ≡ 65536 };
}

impl Unsent {
    /// Allocates room for all octets that may ever be kept.
    pub fn new(alloc: Global) -> Result<Unsent, OutOfMemory>
        ensures { IfOk result (λ unsent. unsent ≡ []) }
    {
        let octets = HeapCircularBuffer::with_capacity(alloc, ROOM)?;
        Ok(Unsent { octets })
    }

    /// Whether no octet is kept.
    pub fn is_empty(&self) -> bool
        ensures { result ≡ nat_eq (length self.now) 0 }
    {
        self.octets.is_empty()
    }

    /// Drops the kept octets: the connection has ended.
    pub fn clear(&mut self)
        ensures { self.new ≡ [] }
    {
        self.octets.clear();
    }

    /// Appends the first octets to the kept ones, as many as there is room for, and returns their number.
    #[inline(never)]
    fn keep(&mut self, octets: &[u8]) -> usize
        ensures count { result ≡ min (length octets.now) (65536 - length self.old) }
        ensures octets { self.new ≡ self.old ++ take result octets.now }
    {
        self.octets.fill_from_slice(octets)
    }

    /// Writes octets after the kept ones. If none are kept, it writes to the connection, and returns that answer unless
    /// it is `Block`. Else it keeps octets, as many as there is room for. `Octets` counts those that were taken or
    /// kept, the first of the slice; the others have still to be written. With any other answer none was taken, and the
    /// kept octets are unchanged.
    #[tactic(auto, using(crate::proofs::UnsentLemmas::passes_at_once, crate::proofs::UnsentLemmas::passes_kept))]
    pub fn write<S: Sockets>(&mut self, sockets: &mut S, octets: &[u8]) -> Put
        requires connection { (S.state sockets.old).is_open ≡ true }
        requires some { 0 < length octets.now }
        ensures within { PutWithin result (length octets.now) }
        ensures passes { PassesOctets (S.state sockets.old).log self.old
            (taken_by result octets.now) (S.state sockets.new).log self.new }
        ensures connection { (S.state sockets.new).is_open ≡ true }
        ensures newcomers { KeepsNewcomers (S.state sockets.old) (S.state sockets.new) }
    {
        if self.is_empty() {
            match sockets.write(octets) {
                Put::Block => {}
                put => return put,
            }
        }
        Put::Octets(self.keep(octets))
    }

    /// Sends the kept octets, as many as the connection takes, without waiting.
    #[tactic(auto, using(crate::proofs::UnsentLemmas::passes_nothing, crate::proofs::UnsentLemmas::passes_on))]
    #[inline(never)]
    pub fn send_all<S: Sockets>(&mut self, sockets: &mut S) -> Sent
        requires { (S.state sockets.old).is_open ≡ true }
        ensures passes { PassesOctets (S.state sockets.old).log self.old []
            (S.state sockets.new).log self.new }
        ensures all { result ≡ Sent.All → self.new ≡ [] }
        ensures part { result ≡ Sent.Part → self.new ≢ [] }
        ensures connection { (S.state sockets.new).is_open ≡ true }
        ensures newcomers { KeepsNewcomers (S.state sockets.old) (S.state sockets.new) }
    {
        while !self.is_empty() {
            match self.send_once(sockets) {
                Put::Octets(count) => {
                    if count == 0 {
                        return Sent::Part;
                    }
                }
                Put::Interrupted | Put::Block => return Sent::Part,
                Put::Fault => return Sent::Fault,
            }
        }
        Sent::All
    }

    /// Writes kept octets once, from the oldest on. `Octets` counts those that the connection took. With any other
    /// answer it took none.
    #[tactic(auto, using(crate::proofs::UnsentLemmas::passes_front, crate::proofs::UnsentLemmas::passes_none))]
    fn send_once<S: Sockets>(&mut self, sockets: &mut S) -> Put
        requires connection { (S.state sockets.old).is_open ≡ true }
        requires some { self.old ≢ [] }
        ensures passes { PassesOctets (S.state sockets.old).log self.old []
            (S.state sockets.new).log self.new }
        ensures left { length self.new + count_put result ≡ length self.old }
        ensures connection { (S.state sockets.new).is_open ≡ true }
        ensures newcomers { KeepsNewcomers (S.state sockets.old) (S.state sockets.new) }
    {
        let put = sockets.write(self.oldest());
        if let Put::Octets(count) = put {
            self.forget(count);
        }
        put
    }

    /// The oldest kept octets, as many as are in one piece.
    fn oldest(&self) -> &[u8]
        ensures begins { (rest : List ℕ) × (result.now ++ rest ≡ self.now) }
        ensures some { self.now ≢ [] → 0 < length result.now }
    {
        let (oldest, others) = self.octets.as_slices();
        if oldest.is_empty() { others } else { oldest }
    }

    /// Drops the oldest octets, which the connection took.
    fn forget(&mut self, count: usize)
        requires { count ≤ length self.old }
        ensures { self.new ≡ drop count self.old }
    {
        self.octets.truncate_front(self.octets.len() - count);
    }
}
