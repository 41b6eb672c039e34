//! An entry of a journal.

use crate::act::Acts;
use crate::event::Event;

/// An event, who sent it to the site, and the site's answer. The facts do not depend on the sender.
#[derive(Clone, Copy, Debug, PartialEq, Eq)]
pub struct Entry {
    /// The site's answer. It lies first, so that it is copied at once into the place of an entry in a list.
    pub acts: Acts,
    /// The number of the sender.
    pub actor: u8,
    /// The event.
    pub event: Event,
}
