//! The carriers that are up.

ghost use Rattle.std.specs.Prelude.{◌≡◌, slice_set, replicate, false, length};
ghost use Rattle.dmr_recording.specs.Recordable.{is_up};

use dmr_pdu::CarrierNo;
use std::marker::Model;

/// The carriers that are up after a recording. Contracts see a truth value for each of the sixteen carrier numbers.
#[derive(Clone, Copy, Debug)]
pub struct Carriers {
    up: [bool; 16],
}

impl Model for Carriers {
    ghost use Rattle.std.specs.Prelude.{◌≡◌, List, Bool, length};

    ghost Value = { List Bool };

    ghost view = { λ carriers. carriers.up };

    ghost invariant = { λ carriers. length carriers.up ≡ 16 };

    ghost inverse = { λ up. record { up = up } };
}

impl Carriers {
    /// No carrier is up: the state before the first journal of a recording.
    pub fn none_up() -> Self
        ensures { result ≡ replicate 16 false }
    {
        Carriers { up: [false; 16] }
    }

    /// Returns whether a carrier is up.
    pub fn is_up(&self, carrier: CarrierNo) -> bool
        ensures { result ≡ is_up self.now carrier }
    {
        self.up[carrier.get() as usize]
    }

    /// Does nothing. By its contract there is a truth value for each carrier number.
    pub fn use_invariant(&self)
        ensures { length self.now ≡ 16 }
    {
        let _ = &self.up;
    }

    /// Notes whether a carrier is up. Nothing changes for the other carriers.
    pub(crate) fn set_up(&mut self, carrier: CarrierNo, up: bool)
        ensures { self.new ≡ slice_set self.old carrier up }
    {
        self.up[carrier.get() as usize] = up;
    }
}
