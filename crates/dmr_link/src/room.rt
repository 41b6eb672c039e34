//! Computes the most octets that can answer a piece of input before it is processed, and makes room for them in a text.
//! Nothing else in this crate makes a text grow.

ghost use Rattle.std.specs.Prelude.{◌≡◌, ◌+◌, ◌<◌, ◌≤◌, ◌^◌, ◌-◌, ◌/◌, ◌&&◌, Bool, true, min};
ghost use Rattle.std.specs.Prelude.{nat_le, vec_len, vec_capacity, OnOk, OnErr};
ghost use Rattle.dmr_link.specs.Notices.{notices_meant};
ghost use Rattle.dmr_link.specs.Notices.{site_notice};
ghost use Rattle.dmr_link.specs.Room.{MakesRoom, most_in, most_of, most_to_poll};
ghost use Rattle.dmr_link.specs.Room.{numbered_after_all};
ghost use Rattle.dmr_link.specs.Steps.{notices_of_octets};
ghost use Rattle.dmr_link.specs.Zeros.{is_up_between, zeros_in};
ghost use Rattle.dmr_link.specs.declared.connection.CarrierIdentity.{CarrierIdentity as AnIdentity};

use crate::connection::{CarrierIdentity, Connection};
use crate::notices::{Notice, PeerNotice, SiteNotice};
use dmr_core::Event;
use dmr_pdu::OutOfMemory;

/// The length of WELCOME, and of REFUSED, which answer a HELLO: type, length, and a version or a refusal.
const ANSWER_TO_HELLO: usize = 3;

/// The most octets that answer a POLL, in whichever version.
const MOST_FOR_POLL: usize = 60;

/// Returns the most octets that answer a POLL: a TX in each of two slots, and DONE. A TX is one octet longer if it has
/// a number.
fn most_for_poll(numbered: bool) -> usize
    ensures { result ≡ most_to_poll numbered }
{
    if numbered { 60 } else { 58 }
}

/// Returns the most octets of the site's answer to a notice. `numbered` is whether TX are numbered before it.
fn most_for_site_notice(notice: &SiteNotice, numbered: bool) -> usize
    ensures { result ≡ most_of numbered (site_notice notice.now) }
{
    match notice {
        SiteNotice::Accepted(..) => ANSWER_TO_HELLO,
        SiteNotice::Happened(Event::Poll(_)) => most_for_poll(numbered),
        SiteNotice::Happened(_) => 0,
    }
}

/// Returns the most octets that answer a notice; 0 without one. `numbered` is whether TX are numbered before it.
fn most_for_notice(notice: &Option<Notice>, numbered: bool) -> usize
    ensures { result ≡ most_in numbered (notices_meant notice.now) }
{
    match notice {
        Some(Notice::Site(notice)) => most_for_site_notice(notice, numbered),
        Some(Notice::Peer(PeerNotice::Refused(..))) => ANSWER_TO_HELLO,
        Some(Notice::Peer(PeerNotice::Rejected(_))) | None => 0,
    }
}

/// Returns whether TX are numbered after a notice. The version of a HELLO that is accepted decides; any other notice
/// leaves `numbered`.
#[tactic(auto, using(crate::proofs::NumbersFollowVersions::numbers_by_version))]
fn is_numbered_after(notice: &Option<Notice>, numbered: bool) -> bool
    ensures { result
        ≡ numbered_after_all numbered (notices_meant notice.now) }
{
    match notice {
        Some(Notice::Site(SiteNotice::Accepted(_, version))) => version.has_numbers(),
        _ => numbered,
    }
}

/// Returns the most octets that can answer octets of a connection: the sum over the frames that they complete. It is 0
/// if no connection is open. `numbered` is whether the connection's TX are numbered. If the sum is too large for a
/// `usize`, the result is the greatest `usize`.
pub fn room_for(
    who: &CarrierIdentity,
    connection: &Connection,
    numbered: bool,
    octets: &[u8],
) -> usize
    ensures { result ≡ min (most_in numbered (notices_of_octets who.now connection.now octets.now))
        (2 ^ 64 - 1) }
{
    let mut trial = connection.fork();
    let mut numbered = numbered;
    let mut room: usize = 0;
    let mut from = 0;
    while from < octets.len() {
        let (count, outcome) = trial.receive(who, &octets[from..]);
        room = room.saturating_add(most_for_notice(&outcome.notice, numbered));
        numbered = is_numbered_after(&outcome.notice, numbered);
        from += count;
    }
    room
}

/// Returns how many octets are 0.
fn zeros(octets: &[u8]) -> usize
    ensures { result ≡ zeros_in octets.now }
{
    let mut count = 0;
    for octet in octets {
        count += usize::from(*octet == 0);
    }
    count
}

/// Reports whether at most `most` octets are 0. They are counted only if there are more octets than that.
fn has_few_zeros(octets: &[u8], most: usize) -> bool
    ensures { result ≡ nat_le (zeros_in octets.now) most }
{
    octets.len() <= most || zeros(octets) <= most
}

/// Reports whether a text surely has room for the octets that answer these, without a look at their frames. A carrier
/// that is up is answered for its POLLs alone, the last octet of a POLL is 0, and at most 60 octets answer it. If the
/// result is `false`, there may still be room: [`room_for`] has the exact number.
pub fn has_room(text: &Vec<u8>, connection: &Connection, octets: &[u8]) -> bool
    ensures value { result ≡ (is_up_between connection.now
        && nat_le (zeros_in octets.now) ((vec_capacity text.now - vec_len text.now) / 60)) }
    ensures fits { (who : AnIdentity) (numbered : Bool) → result ≡ true
        → vec_len text.now + most_in numbered (notices_of_octets who connection.now octets.now)
        ≤ vec_capacity text.now }
{
    let spare = text.capacity() - text.len();
    connection.is_up_between() && has_few_zeros(octets, spare / MOST_FOR_POLL)
}

/// Makes room for `octets` more octets at the end of a text.
/// A text that must grow does so by its own length, if that is more. A text that is made of many pieces is then not
/// copied for each piece. If the system refuses that much memory, the text grows by `octets`. `Err`: the system refused
/// that too, and the text is unchanged.
pub fn make_room(text: &mut Vec<u8>, octets: usize) -> Result<(), OutOfMemory>
    ensures items { text.new.items ≡ text.old.items }
    ensures length { vec_len text.new ≡ vec_len text.old }
    ensures made { OnOk result
        (MakesRoom (vec_len text.old) octets (vec_capacity text.old) (vec_capacity text.new)) }
    ensures fits { OnOk result (vec_len text.new + octets ≤ vec_capacity text.new) }
    ensures refused { OnErr result (vec_capacity text.old < vec_len text.old + octets) }
    ensures kept { OnErr result (vec_capacity text.new ≡ vec_capacity text.old) }
{
    let length = text.len();
    if octets <= text.capacity() - length {
        return Ok(());
    }
    if length > octets && text.reserve_exact(length).is_ok() {
        return Ok(());
    }
    text.reserve_exact(octets)
}
