//! A carrier's connection, and the effect of its octets.

ghost use Rattle.std.specs.Prelude.{◌≡◌, ◌<◌, Some, None, false, true, length, option_map};
ghost use Rattle.std.specs.Prelude.{take, IfErr, IfOk};
ghost use Rattle.dmr_burst.specs.Functions.{meaning_of};
ghost use Rattle.dmr_frames.specs.Versions.{chosen_by};
ghost use Rattle.dmr_core.specs.declared.event.Event.TheVariants.{Lost};
ghost use Rattle.dmr_link.specs.declared.connection.Connection.TheVariants.{Running};
ghost use Rattle.dmr_frames.specs.declared.frame.FrameIn.TheVariants as frame;
ghost use Rattle.dmr_link.specs.Meaning.{IsPiece, event_of_burst as burst_event};
ghost use Rattle.dmr_link.specs.Notices.{notices_meant};
ghost use Rattle.dmr_link.specs.Meaning.{is_accepted, is_repeat as is_newest_repeat};
ghost use Rattle.dmr_link.specs.Meaning.{refusal_of_first};
ghost use Rattle.dmr_link.specs.CarrierStates.{is_open, up_by};
ghost use Rattle.dmr_link.specs.Closing.{cause_of_refusal, all_closes, first_fault, waiting_closes};
ghost use Rattle.dmr_link.specs.Closing.{running_closes};
ghost use Rattle.dmr_wire.specs.declared.closing.Closing.TheVariants as closed;
ghost use Rattle.dmr_link.specs.Notices.{Accepted, Happened, Refused, notice_meant};
ghost use Rattle.dmr_link.specs.Sound.{IsConnectionSound};
ghost use Rattle.dmr_link.specs.Zeros.{is_up_between};
ghost use Rattle.dmr_link.specs.Steps.{new_connection, notices_of_octets, connection_after_octets};
ghost use Rattle.dmr_link.specs.Steps.{running_produces, waiting_produces, waiting_leaves};
ghost use Rattle.dmr_link.specs.Steps.{newest_after_step};

use crate::notices::{Notice, PeerNotice, SiteNotice};
use dmr_bits::Word196;
use dmr_burst::read;
use dmr_core::Event;
use dmr_frames::{Cause, Cutter, FrameIn, Refusal, Step, Version};
use dmr_pdu::{CarrierNo, Lpcn, Slot};
use dmr_wire::{Closing, Hello};
use std::mem::replace;

/// The carrier that a session is for. Its HELLO must have these numbers.
#[derive(Clone, Copy, Debug, PartialEq, Eq)]
pub struct CarrierIdentity {
    /// The carrier's number within the site.
    pub carrier: CarrierNo,
    /// The logical physical channel number of its slots.
    pub lpcn: Lpcn,
    /// The greatest version of the link that it is served. Its HELLO names this version or one below it.
    pub greatest: Version,
}

/// A carrier's connection, with the octets of the frame that has begun on it.
#[derive(Debug, Drop)]
pub enum Connection {
    /// No connection is open: octets mean nothing.
    Closed,
    /// The connection is open, and its first frame is not complete.
    Waiting(Cutter),
    /// The carrier sent a HELLO that was accepted, and is up.
    Running {
        /// The octets of the frame that has begun.
        cutter: Cutter,
        /// The number of the newest RX, if it has one. An RX with this number is a repeat.
        newest: Option<u8>,
    },
}

/// The effect of octets on a connection: the notice that they produce, if any, and how they close the connection, if
/// they do.
#[derive(Clone, Copy, Debug)]
pub struct Outcome {
    /// The notice that they produce, if any.
    pub notice: Option<Notice>,
    /// How they close the connection, if they do.
    pub closing: Option<Closing>,
}

impl CarrierIdentity {
    /// Returns the version of the link that a HELLO with these numbers chooses, if that is served and the numbers are
    /// this carrier's. `Err` is the reason of the refusal: `BadVersion` if the version is not served, whatever the
    /// other numbers are, else `WrongCarrier`.
    fn check_hello(&self, version: u8, carrier: u8, lpcn: u16) -> Result<Version, Refusal>
        ensures ok { IfOk result
            (λ v. (is_accepted self.now (frame.Hello version carrier lpcn) ≡ true)
            × (chosen_by self.now.greatest (frame.Hello version carrier lpcn) ≡ v)) }
        ensures err { IfErr result
            (λ r. (is_accepted self.now (frame.Hello version carrier lpcn) ≡ false)
            × (refusal_of_first self.now (frame.Hello version carrier lpcn)
            ≡ Some (Refused self.now.carrier r))
            × (first_fault self.now (frame.Hello version carrier lpcn) ≡ closed.Refused
            (cause_of_refusal r) (record { version = version; carrier = carrier; lpcn = lpcn }))) }
    {
        let Some(version) = self.greatest.served_version(version) else {
            return Err(Refusal::BadVersion);
        };
        if u32::from(carrier) == self.carrier.get() && u32::from(lpcn) == self.lpcn.get() {
            Ok(version)
        } else {
            Err(Refusal::WrongCarrier)
        }
    }
}

/// Returns the cause for which a connection is closed when its HELLO is refused.
fn cause_of_refusal(refusal: Refusal) -> Cause
    ensures { result ≡ cause_of_refusal refusal }
{
    match refusal {
        Refusal::BadVersion => Cause::BadVersion,
        Refusal::WrongCarrier => Cause::WrongCarrier,
    }
}

/// Returns the event of a burst that was received in a slot.
fn event_of_burst(slot: Slot, word: &Word196) -> Event
    ensures { result ≡ burst_event slot (meaning_of word.now) }
{
    match read(word) {
        Some(pdu) => Event::Heard(slot, pdu),
        None => Event::Noise(slot),
    }
}

/// Makes the number of an RX the newest, and returns whether the RX is a repeat: it has a number, and the newest RX
/// before it has the same. Each number is `None` if there is none.
fn replace_newest(newest: &mut Option<u8>, number: Option<u8>) -> bool
    ensures repeat { (slot : _) (word : _)
        → result ≡ is_newest_repeat newest.old (frame.Rx number slot word) }
    ensures newest { newest.new ≡ number }
{
    match (replace(newest, number), number) {
        (Some(newest), Some(number)) => number == newest,
        _ => false,
    }
}

/// Returns the connection of a carrier whose HELLO is accepted: no RX is the newest yet.
fn running(cutter: &Cutter) -> Connection
    ensures { result ≡ Running cutter.now None }
{
    let cutter = cutter.fork();
    Connection::Running {
        cutter,
        newest: None,
    }
}

impl Outcome {
    /// There is no notice, and the connection stays as it is: open or closed.
    pub const NOTHING: Outcome = Outcome {
        notice: None,
        closing: None,
    };
}

/// Returns the outcome of a HELLO that is accepted.
fn acceptance(carrier: CarrierNo, version: Version) -> Outcome
    ensures notice { option_map notice_meant result.notice ≡ Some (Accepted carrier version) }
    ensures closing { result.closing ≡ None }
{
    Outcome {
        notice: Some(Notice::Site(SiteNotice::Accepted(carrier, version))),
        closing: None,
    }
}

/// Returns the outcome of this HELLO, which is refused. That closes the connection.
fn rejection(carrier: CarrierNo, refusal: Refusal, hello: Hello) -> Outcome
    ensures notice { option_map notice_meant result.notice ≡ Some (Refused carrier refusal) }
    ensures closing { result.closing ≡ Some (closed.Refused (cause_of_refusal refusal) hello) }
{
    Outcome {
        notice: Some(Notice::Peer(PeerNotice::Refused(carrier, refusal))),
        closing: Some(Closing::Refused(cause_of_refusal(refusal), hello)),
    }
}

/// Returns the outcome if the connection of a carrier that was not up yet is closed for this cause.
fn fault_outcome(cause: Cause) -> Outcome
    ensures notice { result.notice ≡ None }
    ensures closing { result.closing ≡ Some (closed.Bad cause) }
{
    Outcome {
        notice: None,
        closing: Some(Closing::Bad(cause)),
    }
}

/// Returns the outcome of an event of the site. The connection stays open.
fn event_outcome(event: Event) -> Outcome
    ensures notice { option_map notice_meant result.notice ≡ Some (Happened event) }
    ensures closing { result.closing ≡ None }
{
    Outcome {
        notice: Some(Notice::Site(SiteNotice::Happened(event))),
        closing: None,
    }
}

/// Returns the outcome of octets that produce this notice, or none. The connection stays open.
pub fn open_outcome(notice: Option<Notice>) -> Outcome
    ensures notice { result.notice ≡ notice }
    ensures closing { result.closing ≡ None }
{
    Outcome {
        notice,
        closing: None,
    }
}

/// Returns the outcome if the connection of a carrier that was up is closed: its Lost, and how the connection is
/// closed.
fn loss(carrier: CarrierNo, closing: Closing) -> Outcome
    ensures notice { option_map notice_meant result.notice ≡ Some (Happened (Lost carrier)) }
    ensures closing { result.closing ≡ Some closing }
{
    Outcome {
        notice: Some(Notice::Site(SiteNotice::Happened(Event::Lost(carrier)))),
        closing: Some(closing),
    }
}

/// Returns the outcome of a cutter's step on a connection that waits for its first frame, and the connection after it.
fn outcome_of_first(who: &CarrierIdentity, cutter: &Cutter, step: &Step) -> (Outcome, Connection)
    ensures notice { option_map notice_meant result.0.notice ≡ waiting_produces who.now step.now }
    ensures closing { result.0.closing ≡ waiting_closes who.now step.now }
    ensures connection { result.1 ≡ waiting_leaves who.now cutter.now step.now }
{
    match step {
        Step::Need => (Outcome::NOTHING, Connection::Waiting(cutter.fork())),
        Step::Fault(cause) => (fault_outcome(*cause), Connection::Closed),
        Step::Frame(
            FrameIn::Hello {
                version,
                carrier,
                lpcn,
            },
        ) => match who.check_hello(*version, *carrier, *lpcn) {
            Ok(version) => (acceptance(who.carrier, version), running(cutter)),
            Err(refusal) => {
                let hello = Hello {
                    version: *version,
                    carrier: *carrier,
                    lpcn: *lpcn,
                };
                (rejection(who.carrier, refusal, hello), Connection::Closed)
            }
        },
        Step::Frame(_) => (fault_outcome(Cause::NoHello), Connection::Closed),
    }
}

/// Returns the outcome of a cutter's step while the carrier is up. An RX becomes the newest: `newest` is its number
/// from then on, if it has one.
#[inline(always)]
fn outcome_of_step(carrier: CarrierNo, newest: &mut Option<u8>, step: &Step) -> Outcome
    ensures notice { option_map notice_meant result.notice
        ≡ running_produces carrier newest.old step.now }
    ensures closing { result.closing ≡ running_closes step.now }
    ensures newest { newest.new ≡ newest_after_step newest.old step.now }
{
    match step {
        Step::Need => Outcome::NOTHING,
        Step::Fault(cause) => loss(carrier, Closing::Bad(*cause)),
        Step::Frame(FrameIn::Rx { number, slot, word }) => {
            if replace_newest(newest, *number) {
                return Outcome::NOTHING;
            }
            event_outcome(event_of_burst(Slot::new(carrier, *slot), word))
        }
        Step::Frame(FrameIn::Poll) => event_outcome(Event::Poll(carrier)),
        Step::Frame(FrameIn::Active { slot }) => event_outcome(Event::Active(Slot::new(
            carrier, *slot,
        ))),
        Step::Frame(FrameIn::Hello { .. }) => loss(carrier, Closing::Bad(Cause::SecondHello)),
        Step::Frame(FrameIn::Bye) => loss(carrier, Closing::Bye),
    }
}

impl Connection {
    /// Returns a carrier's connection that has just begun.
    pub fn open(who: &CarrierIdentity) -> Connection
        ensures { result ≡ new_connection who.now }
    {
        Connection::Waiting(Cutter::new(who.greatest))
    }

    /// Returns whether the connection is open.
    pub fn is_open(&self) -> bool
        ensures { result ≡ is_open self.now }
    {
        match self {
            Connection::Closed => false,
            Connection::Waiting(_) | Connection::Running { .. } => true,
        }
    }

    /// Returns the carrier, if it is up.
    pub fn carrier_up(&self, who: &CarrierIdentity) -> Option<CarrierNo>
        ensures { result ≡ up_by who.now self.now }
    {
        match self {
            Connection::Running { .. } => Some(who.carrier),
            Connection::Closed | Connection::Waiting(_) => None,
        }
    }

    /// Reports whether the carrier is up and no frame has begun.
    pub fn is_up_between(&self) -> bool
        ensures { result ≡ is_up_between self.now }
    {
        match self {
            Connection::Running { cutter, .. } => cutter.is_between(),
            Connection::Closed | Connection::Waiting(_) => false,
        }
    }

    /// Returns a copy of the connection. Octets that one of the two receives do not change the other.
    pub fn fork(&self) -> Connection
        ensures { result ≡ self.now }
    {
        match self {
            Connection::Closed => Connection::Closed,
            Connection::Waiting(cutter) => Connection::Waiting(cutter.fork()),
            Connection::Running { cutter, newest } => Connection::Running {
                cutter: cutter.fork(),
                newest: *newest,
            },
        }
    }

    /// Takes octets up to the end of the next frame, up to a fault, or all of them. Returns how many it took, the notice
    /// that these produce, if any, and how they close the connection, if they do. A frame is processed at its last
    /// octet. A fault closes the connection, and so does a frame that ends it. After that, octets have no effect.
    // Inlined: its result would be copied field by field.
    #[inline(always)]
    pub fn receive(&mut self, who: &CarrierIdentity, octets: &[u8]) -> (usize, Outcome)
        requires { 0 < length octets.now }
        ensures piece { IsPiece result.0 octets.now }
        ensures notice { notices_of_octets who.now self.old (take result.0 octets.now)
            ≡ notices_meant result.1.notice }
        ensures closing { result.1.closing
            ≡ all_closes who.now self.old (take result.0 octets.now) }
        ensures connection { self.new
            ≡ connection_after_octets who.now self.old (take result.0 octets.now) }
        ensures sound { IsConnectionSound who.now.greatest self.old
            → IsConnectionSound who.now.greatest self.new }
    {
        match self {
            Connection::Closed => (octets.len(), Outcome::NOTHING),
            Connection::Waiting(cutter) => {
                let (count, step) = cutter.feed(octets);
                let (outcome, next) = outcome_of_first(who, cutter, &step);
                *self = next;
                (count, outcome)
            }
            Connection::Running { cutter, newest } => {
                let (count, step) = cutter.feed(octets);
                let outcome = outcome_of_step(who.carrier, newest, &step);
                if outcome.closing.is_some() {
                    *self = Connection::Closed;
                }
                (count, outcome)
            }
        }
    }
}
