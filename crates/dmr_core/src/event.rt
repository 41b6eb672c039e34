//! The inputs of the site machine.

ghost use Rattle.std.specs.Prelude.{◌≡◌, ◌↔◌, IsTrue};

use crate::command::Command;
use dmr_pdu::{CarrierNo, Pdu, Slot};

/// An input of the site machine.
#[derive(Clone, Copy, Debug, PartialEq, Eq)]
pub enum Event {
    /// A carrier comes up: its connection to the site begins.
    Up(CarrierNo),
    /// A carrier is lost: its connection to the site has ended.
    Lost(CarrierNo),
    /// A PDU was read on a slot (TS 102 361-4, clause 7.1.1).
    Heard(Slot, Pdu),
    /// A burst was received on a slot, and no PDU could be read from it.
    Noise(Slot),
    /// There was activity on a slot: the hang time of the call on it begins again.
    Active(Slot),
    /// A carrier asks what to send in its next two slots.
    Poll(CarrierNo),
    /// The site's clock advanced by one tick.
    Tick,
    /// An operator sends a command.
    Say(Command),
}

impl Event {
    /// Reports whether the two are the same event. It returns what `==` returns, with a contract.
    pub fn equals(&self, other: &Event) -> bool
        ensures { IsTrue result ↔ (self.now ≡ other.now) }
    {
        self == other
    }
}
