//! A set of slots, as the bits of a number.

ghost use Rattle.std.specs.Prelude.{◌≡◌, MatchOption};
ghost use Rattle.dmr_pool.specs.Slots.{IsSlot, place};
ghost use Rattle.dmr_pool.specs.Marks.{HasNoBit, IsLowestBit, IsSet, has_bit};

use dmr_pdu::Slot;

/// A set of slots: the bit at a slot's place is 1 if the slot is in the set.
#[derive(Clone, Copy, Debug, PartialEq, Eq)]
pub struct Marks {
    bits: u32,
}

impl Marks {
    /// The empty set.
    pub fn none() -> Marks
        ensures { HasNoBit result.bits }
    {
        Marks { bits: 0 }
    }

    /// Reports whether a slot is in the set.
    pub fn has(&self, slot: &Slot) -> bool
        ensures value { result ≡ has_bit self.now.bits (place slot.now) }
        ensures numbers { IsSlot slot.now }
    {
        self.bits >> slot.index() & 1 == 1
    }

    /// Adds a slot to the set or removes it.
    pub fn set(&mut self, slot: &Slot, is_in: bool)
        ensures bits { IsSet self.old.bits self.new.bits (place slot.now) is_in }
        ensures numbers { IsSlot slot.now }
    {
        let bit = 1u32 << slot.index();
        if is_in {
            self.bits |= bit;
        } else {
            self.bits &= !bit;
        }
    }

    /// The slot of the lowest bit; `None` if the set is empty.
    pub fn lowest(&self) -> Option<Slot>
        ensures { MatchOption result (HasNoBit self.now.bits) (IsLowestBit self.now.bits) }
    {
        if self.bits == 0 {
            return None;
        }
        Some(Slot::at(self.bits.trailing_zeros() as usize))
    }
}
