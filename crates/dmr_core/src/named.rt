//! Slots as grants name them.

use dmr_pdu::{Lpcn, SlotNo};

/// A slot as a grant names it: the channel of its carrier, and its number.
#[derive(Clone, Copy, Debug, PartialEq, Eq)]
pub struct NamedSlot {
    /// The logical physical channel number of the carrier.
    pub channel: Lpcn,
    /// The slot of the carrier, 0 or 1.
    pub slot: SlotNo,
}
