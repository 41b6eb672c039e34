//! Events of a connection that no desk has taken yet.

ghost use Rattle.std.specs.Prelude.{◌≡◌, true};
ghost use Rattle.dmr_link.specs.LinkSteps.{first_pending, nothing_pending, without_first};

use crate::notices::SiteNotice;
use dmr_core::Event;
use dmr_pdu::CarrierNo;

/// A queue of two places: the event that is kept, and after it the Lost that must still follow an Up.
#[derive(Clone, Copy, Debug, PartialEq, Eq)]
pub struct Pending {
    /// The event that is kept: no desk has taken it yet.
    pub kept: Option<SiteNotice>,
    /// The carrier whose Lost the link must still hand in.
    pub lost: Option<CarrierNo>,
}

impl Pending {
    /// Returns an empty queue.
    pub fn none() -> Pending
        ensures { result ≡ nothing_pending }
    {
        Pending {
            kept: None,
            lost: None,
        }
    }

    /// Returns whether the queue is empty.
    pub fn is_empty(&self) -> bool
        ensures { result ≡ true → self.now ≡ nothing_pending }
    {
        self.kept.is_none() && self.lost.is_none()
    }

    /// Returns the first notice of the queue, if there is one.
    pub fn first(&self) -> Option<SiteNotice>
        ensures { result ≡ first_pending self.now }
    {
        match (self.kept, self.lost) {
            (Some(notice), _) => Some(notice),
            (None, Some(carrier)) => Some(SiteNotice::Happened(Event::Lost(carrier))),
            (None, None) => None,
        }
    }

    /// Removes the first notice of the queue, if there is one.
    pub fn remove_first(&mut self)
        ensures { self.new ≡ without_first self.old }
    {
        if self.kept.is_some() {
            self.kept = None;
        } else {
            self.lost = None;
        }
    }
}
