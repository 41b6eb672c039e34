//! Calls.

use dmr_pdu::{Address, Blank, Slot};
use dmr_table::Keyed;

/// A call: its slot and its parties.
#[derive(Clone, Copy, Debug, PartialEq, Eq)]
pub struct Call {
    /// The slot that carries it.
    pub slot: Slot,
    /// The radio that calls.
    pub source: Address,
    /// The radio or talkgroup that is called.
    pub target: Address,
    /// Whether a talkgroup is called.
    pub group: bool,
}

impl Blank for Call {
    ghost use Rattle.std.specs.Prelude.{false};

    ghost blank = { record {
      slot = record { carrier = 0; slot = 0 };
      source = 0;
      target = 0;
      group = false;
    } };

    fn blank() -> Self {
        Call {
            slot: Slot::blank(),
            source: Address::blank(),
            target: Address::blank(),
            group: false,
        }
    }
}

/// An active call with its ticks.
#[derive(Clone, Copy, Debug, PartialEq, Eq)]
pub struct ActiveCall {
    /// The call.
    pub call: Call,
    /// The ticks since it began; the count stays at 65,535.
    pub age: u16,
    /// The ticks since the later of its beginning and the last activity on its slot; the count stays at 65,535.
    pub quiet: u16,
}

/// The key of a call is its slot.
impl Keyed for ActiveCall {
    ghost use Rattle.dmr_pdu.specs.Slots.{place};

    ghost key_of = { λ s. place s.call.slot };

    fn key(&self) -> u32 {
        self.call.slot.index() as u32
    }
}
