//! Newcomers: looking at what they have sent, and closing one when there are too many.

ghost use Rattle.std.specs.Prelude.{◌≡◌, ◌+◌, ◌<◌, ◌≤◌, true, false, length};
ghost use Rattle.arrayvec.specs.ArrayVec.{array_vec_len};
ghost use Rattle.dmr_port.specs.Newcomers.{HasNewcomersOf, IsKnownAs};
ghost use Rattle.dmr_port.specs.Sockets.{KeepsConnection, PeekedWithin};

use crate::first_octets::HELLO_OCTETS;
use crate::settings::PortSettings;
use crate::sockets::{Peeked, Sockets};
use crate::waiting_room::{MOST_WAITING, Newcomer, WaitingRoom};
use std::net::SocketAddr;

/// Returns what is known of a newcomer without a HELLO after a look at its first octets, or `None` if its connection
/// has ended.
fn newcomer_after(
    newcomer: Newcomer,
    peeked: Peeked,
    octets: &[u8],
    settings: &PortSettings,
) -> Option<Newcomer>
    requires new { newcomer.has_hello ≡ false }
    requires within { PeekedWithin peeked (length octets.now) }
    ensures { IsKnownAs settings.now newcomer peeked octets.now result }
{
    match peeked {
        Peeked::Octets(count) => Some(Newcomer {
            from: newcomer.from,
            has_hello: settings.is_claim(&octets[..count]),
        }),
        Peeked::Nothing => Some(newcomer),
        Peeked::Ended => None,
    }
}

/// Looks at the newcomer at a place, unless it is known to have sent a HELLO for this carrier. Closes it if its
/// connection has ended. Returns whether it still waits.
#[tactic(auto, using(crate::proofs::NewcomersLemmas::known_looked, crate::proofs::NewcomersLemmas::known_ended))]
fn look_at<S: Sockets>(
    sockets: &mut S,
    room: &mut WaitingRoom,
    settings: &PortSettings,
    place: usize,
) -> bool
    requires place { place < array_vec_len room.old.newcomers }
    requires room { HasNewcomersOf settings.now room.old (S.state sockets.old) }
    ensures room { HasNewcomersOf settings.now room.new (S.state sockets.new) }
    ensures stays { result ≡ true
        → array_vec_len room.new.newcomers ≡ array_vec_len room.old.newcomers }
    ensures goes { result ≡ false
        → array_vec_len room.new.newcomers + 1 ≡ array_vec_len room.old.newcomers }
    ensures connection { KeepsConnection (S.state sockets.old) (S.state sockets.new) }
{
    let newcomer = room.at(place);
    if newcomer.has_hello {
        return true;
    }
    let mut octets = [0; HELLO_OCTETS];
    let peeked = sockets.peek(place, &mut octets);
    match newcomer_after(newcomer, peeked, &octets, settings) {
        Some(known) => {
            room.set(place, known);
            true
        }
        None => {
            sockets.refuse(place);
            room.remove(place);
            false
        }
    }
}

/// Looks at all newcomers that are not known to have sent a HELLO for this carrier. Closes those whose connections have
/// ended.
pub fn look_at_all<S: Sockets>(sockets: &mut S, room: &mut WaitingRoom, settings: &PortSettings)
    requires room { HasNewcomersOf settings.now room.old (S.state sockets.old) }
    ensures room { HasNewcomersOf settings.now room.new (S.state sockets.new) }
    ensures few { array_vec_len room.new.newcomers ≤ array_vec_len room.old.newcomers }
    ensures connection { KeepsConnection (S.state sockets.old) (S.state sockets.new) }
{
    let mut place = 0;
    while place < room.len() {
        if look_at(sockets, room, settings, place) {
            place += 1;
        }
    }
}

/// Closes a newcomer if more wait than may: after a look at all of them, the one whose place is
/// [`WaitingRoom::place_of_refused`]. Returns its address, or `None` if there was room, or the look made room.
#[tactic(auto, using(crate::proofs::NewcomersLemmas::known_removed))]
pub fn make_room<S: Sockets>(
    sockets: &mut S,
    room: &mut WaitingRoom,
    settings: &PortSettings,
) -> Option<SocketAddr>
    requires room { HasNewcomersOf settings.now room.old (S.state sockets.old) }
    requires few { array_vec_len room.old.newcomers ≤ 9 }
    ensures room { HasNewcomersOf settings.now room.new (S.state sockets.new) }
    ensures few { array_vec_len room.new.newcomers ≤ 8 }
    ensures connection { KeepsConnection (S.state sockets.old) (S.state sockets.new) }
{
    if room.len() <= MOST_WAITING {
        return None;
    }
    look_at_all(sockets, room, settings);
    if room.len() <= MOST_WAITING {
        return None;
    }
    let place = room.place_of_refused(settings.is_carrier());
    sockets.refuse(place);
    Some(room.remove(place).from)
}
