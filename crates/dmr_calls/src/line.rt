//! Lines: requests that wait for a slot.

ghost use Rattle.std.specs.Prelude.{◌≡◌};

use crate::call::Call;
use dmr_pdu::{Address, Blank, Slot};
use dmr_table::Keyed;

/// A line: a request for a call that waits for a free slot.
#[derive(Clone, Copy, Debug, Default, PartialEq, Eq)]
pub struct Line {
    /// The radio that calls.
    pub source: Address,
    /// The radio or talkgroup that is called.
    pub target: Address,
    /// Whether a talkgroup is called.
    pub group: bool,
}

impl Line {
    /// The call of this line on a slot.
    pub fn to_call(&self, slot: Slot) -> Call
        ensures { result ≡ record {
          slot = slot;
          source = self.now.source;
          target = self.now.target;
          group = self.now.group;
        } }
    {
        Call {
            slot,
            source: self.source,
            target: self.target,
            group: self.group,
        }
    }
}

/// The key of a line is its source.
impl Keyed for Line {
    ghost key_of = { λ l. l.source };

    fn key(&self) -> u32 {
        self.source.get()
    }
}

impl Blank for Line {
    ghost use Rattle.std.specs.Prelude.{false};

    ghost blank = { record { source = 0; target = 0; group = false } };

    fn blank() -> Self {
        Line {
            source: Address::blank(),
            target: Address::blank(),
            group: false,
        }
    }
}
