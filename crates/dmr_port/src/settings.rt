//! The settings of a port.

ghost use Rattle.std.specs.Prelude.{◌↔◌, ◌≡◌, IsTrue};
ghost use Rattle.dmr_port.specs.Settings.{IsClaim, is_carrier};

use crate::first_octets::is_hello_for;
use crate::whose::Whose;
use dmr_frames::Version;

/// What a port has to know of the site.
#[derive(Clone, Copy, Debug, PartialEq, Eq)]
pub struct PortSettings {
    /// Who is served.
    pub whose: Whose,
    /// The greatest version of the link that is served.
    pub greatest: Version,
    /// After how many waits of 100 ms without an octet a connection is silent, unless octets are kept for it.
    pub silence: u16,
}

impl PortSettings {
    /// Returns whether the port is a carrier's, and not the operators'.
    pub fn is_carrier(&self) -> bool
        ensures { result ≡ is_carrier self.now.whose }
    {
        match self.whose {
            Whose::Carrier { .. } => true,
            Whose::Console => false,
        }
    }

    /// Returns whether the octets are a HELLO for this port's carrier: of a version that is served, with the carrier's
    /// number and channel. None is, on the operators' port.
    pub fn is_claim(&self, octets: &[u8]) -> bool
        ensures { IsTrue result ↔ IsClaim self.now octets.now }
    {
        match self.whose {
            Whose::Carrier { number, lpcn } => is_hello_for(self.greatest, number, lpcn, octets),
            Whose::Console => false,
        }
    }
}
