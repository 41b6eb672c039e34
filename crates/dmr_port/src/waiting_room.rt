//! The newcomers that wait while another connection is served.

ghost use Rattle.std.specs.Prelude.{◌≡◌, ◌+◌, ◌<◌, ◌≤◌, ◌++◌, [], ◌∷◌, length, IfSome, position};
ghost use Rattle.std.specs.Prelude.{remove, slice_index_or, slice_set};
ghost use Rattle.arrayvec.specs.ArrayVec.{array_vec_len};
ghost use Rattle.dmr_port.specs.WaitingRoom.{place_of_claimant, place_of_next, place_of_refused};
ghost use Rattle.dmr_port.specs.WaitingRoom.{place_of_stranger};

use arrayvec::ArrayVec;
use std::net::{IpAddr, Ipv4Addr, SocketAddr};

/// The most newcomers that wait after a call of the port (this project's profile). One more may wait within a call.
pub const MOST_WAITING: usize = 8;

/// The most newcomers at once.
const ROOM: usize = 9;

/// A connection that was accepted and is not yet served.
#[derive(Clone, Copy, Debug, PartialEq, Eq)]
pub struct Newcomer {
    /// The other side's address.
    pub from: SocketAddr,
    /// It has sent a HELLO for this port's carrier.
    pub has_hello: bool,
}

impl Default for Newcomer {
    fn default() -> Newcomer {
        Newcomer {
            from: SocketAddr::new(IpAddr::V4(Ipv4Addr::new(0, 0, 0, 0)), 0),
            has_hello: false,
        }
    }
}

/// The newcomers, oldest first, each at the place that the sockets have it at.
#[derive(Debug, Drop)]
pub struct WaitingRoom {
    newcomers: ArrayVec<Newcomer, ROOM>,
}

impl WaitingRoom {
    /// Makes a room in which nobody waits.
    pub fn new() -> WaitingRoom
        ensures { result.newcomers.items ≡ [] }
    {
        WaitingRoom {
            newcomers: ArrayVec::new(),
        }
    }

    /// The number of newcomers.
    pub fn len(&self) -> usize
        ensures { result ≡ array_vec_len self.now.newcomers }
    {
        self.newcomers.len()
    }

    /// The newcomer at a place.
    pub fn at(&self, place: usize) -> Newcomer
        requires { place < array_vec_len self.now.newcomers }
        ensures { result ≡ slice_index_or self.now.newcomers.items place result }
    {
        self.newcomers.as_slice()[place]
    }

    /// Adds a newcomer at the last place.
    pub fn add(&mut self, newcomer: Newcomer)
        requires { array_vec_len self.old.newcomers < 9 }
        ensures newcomers { self.new.newcomers.items ≡ self.old.newcomers.items ++ newcomer ∷ [] }
        ensures len { array_vec_len self.new.newcomers ≡ array_vec_len self.old.newcomers + 1 }
    {
        self.newcomers.push(newcomer);
    }

    /// Replaces what is known of the newcomer at a place.
    pub fn set(&mut self, place: usize, newcomer: Newcomer)
        requires { place < array_vec_len self.old.newcomers }
        ensures newcomers { self.new.newcomers.items
            ≡ slice_set self.old.newcomers.items place newcomer }
        ensures len { array_vec_len self.new.newcomers ≡ array_vec_len self.old.newcomers }
    {
        self.newcomers.as_mut_slice()[place] = newcomer;
    }

    /// Removes the newcomer at a place. Those after it move one place to the front.
    pub fn remove(&mut self, place: usize) -> Newcomer
        requires { place < array_vec_len self.old.newcomers }
        ensures newcomer { result ≡ slice_index_or self.old.newcomers.items place result }
        ensures newcomers { self.new.newcomers.items ≡ remove self.old.newcomers.items place }
        ensures len { array_vec_len self.new.newcomers + 1 ≡ array_vec_len self.old.newcomers }
    {
        self.newcomers.remove(place)
    }

    /// Returns the place of the newcomer that is closed when there are too many: the oldest that has sent no HELLO for
    /// this carrier. If all have sent one, it is the newest. Nobody sends a HELLO to the operators' port, so there it
    /// is the newest: first come, first served.
    pub fn place_of_refused(&self, by_hello: bool) -> usize
        requires { 0 < array_vec_len self.now.newcomers }
        ensures refused { result ≡ place_of_refused by_hello self.now.newcomers.items }
        ensures within { result < array_vec_len self.now.newcomers }
    {
        let newest = self.newcomers.len() - 1;
        if !by_hello {
            return newest;
        }
        match self.place_of_stranger() {
            Some(place) => place,
            None => newest,
        }
    }

    /// Returns the place of the oldest newcomer that has sent no HELLO for this carrier, if there is one.
    fn place_of_stranger(&self) -> Option<usize>
        ensures stranger { result ≡ place_of_stranger self.now.newcomers.items }
        ensures within { IfSome result (λ place. place < array_vec_len self.now.newcomers) }
    {
        self.newcomers.as_slice().iter().position(|n| !n.has_hello)
    }

    /// Returns the place of the oldest newcomer that has sent a HELLO for this carrier, if one has.
    pub fn place_of_claimant(&self) -> Option<usize>
        ensures claimant { result ≡ place_of_claimant self.now.newcomers.items }
        ensures within { IfSome result (λ place. place < array_vec_len self.now.newcomers) }
    {
        self.newcomers.as_slice().iter().position(|n| n.has_hello)
    }

    /// Returns the place of the newcomer that is served next: the oldest that has sent a HELLO for this carrier, and if
    /// none has, the oldest. `None` if nobody waits.
    pub fn place_of_next(&self) -> Option<usize>
        ensures next { result ≡ place_of_next self.now.newcomers.items }
        ensures within { IfSome result (λ place. place < array_vec_len self.now.newcomers) }
    {
        match self.place_of_claimant() {
            Some(place) => Some(place),
            None if self.newcomers.is_empty() => None,
            None => Some(0),
        }
    }
}
