//! Notices: the results of octets, a carrier's or an operator's.

ghost use Rattle.std.specs.Prelude.{◌≡◌, ◌++◌, ◌∷◌, [], IfOk, IfErr};
ghost use Rattle.dmr_link.specs.Notices.{event_of_notice};

use crate::desk::{Desk, TermOver};
use dmr_core::{Acts, Event};
use dmr_frames::{Refusal, Version};
use dmr_pdu::CarrierNo;

/// A notice for the site.
#[derive(Clone, Copy, Debug, PartialEq, Eq)]
pub enum SiteNotice {
    /// This event happens to the site.
    Happened(Event),
    /// This carrier's HELLO is accepted, which is its Up. From then on the connection uses this version of the link.
    Accepted(CarrierNo, Version),
}

impl SiteNotice {
    /// Returns the event of the notice.
    pub fn event(&self) -> Event
        ensures { result ≡ event_of_notice self.now }
    {
        match self {
            SiteNotice::Happened(event) => *event,
            SiteNotice::Accepted(carrier, _) => Event::Up(*carrier),
        }
    }

    /// Hands in the event of the notice at a desk, as [`Desk::deposit_to`] does.
    pub fn hand_in<D: Desk>(&self, desk: &mut D, acts: &mut Acts) -> Result<(), TermOver>
        ensures actor { D.actor desk.new ≡ D.actor desk.old }
        ensures questions { D.questions desk.new ≡ D.questions desk.old }
        ensures ok { IfOk result (λ _. D.calls desk.new
            ≡ D.calls desk.old ++ record { event = event_of_notice self.now; acts = acts.new } ∷ []) }
        ensures err { IfErr result (λ over. (D.calls desk.new ≡ D.calls desk.old)
            × D.refuses desk.old (event_of_notice self.now) over desk.new) }
        ensures acts { IfErr result (λ _. acts.new ≡ acts.old) }
    {
        match self {
            SiteNotice::Happened(event) => desk.deposit_to(event, acts),
            SiteNotice::Accepted(carrier, _) => desk.deposit_to(&Event::Up(*carrier), acts),
        }
    }
}

/// The reason why an operator's line is rejected (this project's profile).
#[derive(Clone, Copy, Debug, PartialEq, Eq)]
pub enum LineFault {
    /// The line is not a command.
    UnknownCommand,
    /// The line has more than 80 octets before its LF.
    TooLong,
}

/// A notice for the peer alone: the site does not learn of it.
#[derive(Clone, Copy, Debug, PartialEq, Eq)]
pub enum PeerNotice {
    /// This carrier is refused, for this reason.
    Refused(CarrierNo, Refusal),
    /// A line of an operator is rejected, for this reason.
    Rejected(LineFault),
}

/// The result of a peer's octets, a carrier's or an operator's.
#[derive(Clone, Copy, Debug, PartialEq, Eq)]
pub enum Notice {
    /// The site learns of it, and answers.
    Site(SiteNotice),
    /// The peer is answered, and the site does not learn of it.
    Peer(PeerNotice),
}
