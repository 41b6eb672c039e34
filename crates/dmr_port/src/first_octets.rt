//! The first octets of a connection, and what they say about the peer.

ghost use Rattle.std.specs.Prelude.{◌≡◌, ◌↔◌, ◌≤◌, ◌++◌, [], IsTrue, length, take};
ghost use Rattle.arrayvec.specs.ArrayVec.{array_vec_len};
ghost use Rattle.dmr_port.specs.FirstOctets.{IsHello, IsHelloFor, begins_http, is_frame_for};
ghost use Rattle.dmr_port.specs.FirstOctets.{is_hello_frame};

use arrayvec::ArrayVec;
use dmr_frames::{FrameIn, Version, whole_frame};
use dmr_pdu::{CarrierNo, Lpcn};

/// The octets of a HELLO.
pub const HELLO_OCTETS: usize = 6;

/// The most first octets of a connection that are kept: those of the longest method of HTTP and a space.
const FIRST_OCTETS: usize = 8;

/// The first eight octets of a connection, or those that have come so far.
#[derive(Debug, Drop)]
pub struct FirstOctets {
    octets: ArrayVec<u8, FIRST_OCTETS>,
}

impl FirstOctets {
    /// The first octets of a connection on which none has come.
    pub fn new() -> FirstOctets
        ensures { result.octets.items ≡ [] }
    {
        FirstOctets {
            octets: ArrayVec::new(),
        }
    }

    /// Adds octets that came after those so far.
    #[tactic(auto, using(crate::proofs::FirstOctetsLemmas::take_added))]
    pub fn add(&mut self, octets: &[u8])
        ensures { self.new.octets.items ≡ take 8 (self.old.octets.items ++ octets.now) }
    {
        let count = self.octets.remaining_capacity().min(octets.len());
        let _ = self.octets.try_extend_from_slice(&octets[..count]);
    }

    /// Returns whether the first octets are a whole HELLO, of any version, carrier and channel.
    pub fn is_hello(&self) -> bool
        ensures { IsTrue result ↔ IsHello (take 6 self.now.octets.items) }
    {
        let octets = self.octets.as_slice();
        is_hello(&octets[..HELLO_OCTETS.min(octets.len())])
    }

    /// Returns whether the connection begins with a request of HTTP: a method and a space.
    pub fn is_http(&self) -> bool
        ensures { result ≡ begins_http self.now.octets.items }
    {
        begins_http(self.octets.as_slice())
    }
}

/// Returns whether the octets begin with a method of HTTP (RFC 9110, section 9, and RFC 5789) and a space.
#[inline(never)]
fn begins_http(octets: &[u8]) -> bool
    ensures { result ≡ begins_http octets.now }
{
    octets.starts_with(b"GET ")
        || octets.starts_with(b"HEAD ")
        || octets.starts_with(b"POST ")
        || octets.starts_with(b"PUT ")
        || octets.starts_with(b"DELETE ")
        || octets.starts_with(b"CONNECT ")
        || octets.starts_with(b"OPTIONS ")
        || octets.starts_with(b"TRACE ")
        || octets.starts_with(b"PATCH ")
}

/// Returns whether the octets are those of a HELLO, of any version, carrier and channel. A HELLO is the first frame of
/// a connection, so its spelling is that of version 1 of the link.
#[tactic(auto, using(crate::proofs::FirstOctetsLemmas::hello_from_frame))]
#[inline(never)]
fn is_hello(octets: &[u8]) -> bool
    ensures { IsTrue result ↔ IsHello octets.now }
{
    let frame = whole_frame(Version::V1, octets);
    is_hello_frame(&frame)
}

/// Returns whether there is a frame, and it is a HELLO.
fn is_hello_frame(frame: &Option<FrameIn>) -> bool
    ensures { result ≡ is_hello_frame frame.now }
{
    match frame {
        Some(FrameIn::Hello { .. }) => true,
        Some(_) => false,
        None => false,
    }
}

/// Returns whether the octets are those of a HELLO of a version that is served, up to `greatest`, with this carrier's
/// number and channel.
#[tactic(auto, using(crate::proofs::FirstOctetsLemmas::hello_for_from_frame))]
pub fn is_hello_for(greatest: Version, number: CarrierNo, lpcn: Lpcn, octets: &[u8]) -> bool
    ensures { IsTrue result ↔ IsHelloFor greatest number lpcn octets.now }
{
    let frame = whole_frame(Version::V1, octets);
    is_frame_for(greatest, number.get(), lpcn.get(), &frame)
}

/// Returns whether there is a frame, and it is a HELLO of a version that is served, with this number and channel.
fn is_frame_for(greatest: Version, number: u32, channel: u32, frame: &Option<FrameIn>) -> bool
    ensures { result ≡ is_frame_for greatest number channel frame.now }
{
    match frame {
        Some(
            FrameIn::Hello {
                version,
                carrier,
                lpcn,
            },
        ) => {
            greatest.served_version(*version).is_some()
                && u32::from(*carrier) == number
                && u32::from(*lpcn) == channel
        }
        Some(_) => false,
        None => false,
    }
}
