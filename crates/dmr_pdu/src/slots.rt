//! Carriers, their slots, and the channel numbers that radios tune to.

ghost use Rattle.std.specs.Prelude.{◌≡◌, ◌<◌, ℕ};
ghost use Rattle.std.specs.Option.{SomeIff};
ghost use Rattle.dmr_pdu.specs.Channels.{IsChannel};
ghost use Rattle.dmr_pdu.specs.Slots.{IsSlot, place, slot_at};

use crate::bounded_list::Blank;
use std::fmt;
use std::marker::Model;

/// A carrier's number within the site: 0 to 15 (this project's profile).
#[derive(Clone, Copy, Debug, PartialEq, Eq, PartialOrd, Ord, Hash)]
pub struct CarrierNo {
    number: u8,
}

impl Model for CarrierNo {
    ghost use Rattle.std.specs.Prelude.{ℕ, ◌<◌};

    ghost Value = { ℕ };

    ghost view = { λ n. n.number };

    ghost invariant = { λ n. n.number < 16 };

    ghost inverse = { λ n. record { number = n } };
}

impl CarrierNo {
    /// Returns the carrier with this number, which must be from 0 to 15.
    pub fn new(number: u32) -> Self
        requires { number < 16 }
        ensures { result ≡ number }
    {
        CarrierNo {
            number: number as u8,
        }
    }

    /// Returns the carrier with this number, or `None` if the number is above 15.
    pub fn try_new(number: u32) -> Option<Self>
        ensures { SomeIff result (number < 16) number }
    {
        if number < 16 {
            Some(CarrierNo::new(number))
        } else {
            None
        }
    }

    /// Returns the carrier's number as an integer.
    pub fn get(&self) -> u32
        ensures value { result ≡ self.now }
        ensures range { result < 16 }
    {
        u32::from(self.number)
    }
}

/// Writes the decimal number.
impl fmt::Display for CarrierNo {
    ghost use Rattle.std.specs.Prelude.{Some, decimal};

    ghost output = { λ n. Some (decimal n) };

    fn fmt<W: fmt::Write>(&self, f: &mut fmt::Formatter<W>) -> fmt::Result {
        let carrier = self.get();
        write!(f, "{carrier}")
    }
}

impl Blank for CarrierNo {
    ghost blank = { 0 };

    fn blank() -> Self {
        CarrierNo { number: 0 }
    }
}

/// One of a carrier's two slots: 0 or 1 (TS 102 361-1, clause 4.2).
#[derive(Clone, Copy, Debug, PartialEq, Eq, PartialOrd, Ord, Hash)]
pub struct SlotNo {
    index: u8,
}

impl Model for SlotNo {
    ghost use Rattle.std.specs.Prelude.{ℕ, ◌<◌};

    ghost Value = { ℕ };

    ghost view = { λ n. n.index };

    ghost invariant = { λ n. n.index < 2 };

    ghost inverse = { λ n. record { index = n } };
}

impl SlotNo {
    /// Returns the slot with this number, which must be 0 or 1.
    pub fn new(number: u32) -> Self
        requires { number < 2 }
        ensures { result ≡ number }
    {
        SlotNo {
            index: number as u8,
        }
    }

    /// Returns the slot with this number, or `None` if the number is neither 0 nor 1.
    pub fn try_new(number: u32) -> Option<Self>
        ensures { SomeIff result (number < 2) number }
    {
        if number < 2 {
            Some(SlotNo::new(number))
        } else {
            None
        }
    }

    /// Returns the slot's number as an integer.
    pub fn get(&self) -> u32
        ensures value { result ≡ self.now }
        ensures range { result < 2 }
    {
        u32::from(self.index)
    }
}

/// Writes the decimal number.
impl fmt::Display for SlotNo {
    ghost use Rattle.std.specs.Prelude.{Some, decimal};

    ghost output = { λ n. Some (decimal n) };

    fn fmt<W: fmt::Write>(&self, f: &mut fmt::Formatter<W>) -> fmt::Result {
        let slot = self.get();
        write!(f, "{slot}")
    }
}

impl Blank for SlotNo {
    ghost blank = { 0 };

    fn blank() -> Self {
        SlotNo { index: 0 }
    }
}

/// A slot of the site: a carrier, and one of its two slots. The order is by carrier, then by slot.
#[derive(Clone, Copy, Debug, PartialEq, Eq, PartialOrd, Ord, Hash)]
pub struct Slot {
    /// The carrier.
    pub carrier: CarrierNo,
    /// The slot of the carrier.
    pub slot: SlotNo,
}

impl Slot {
    /// Returns a slot of a carrier.
    pub fn new(carrier: CarrierNo, slot: SlotNo) -> Slot
        ensures { result ≡ record { carrier = carrier; slot = slot } }
    {
        Slot { carrier, slot }
    }

    /// Returns the place of the slot among the 32 slots of all carriers, by carrier, then by slot: 0 to 31.
    pub fn index(&self) -> usize
        ensures value { result ≡ place self.now }
        ensures range { result < 32 }
        ensures numbers { IsSlot self.now }
    {
        2 * self.carrier.get() as usize + self.slot.get() as usize
    }

    /// Returns the slot at this place, which must be from 0 to 31.
    pub fn at(index: usize) -> Slot
        requires { index < 32 }
        ensures { result ≡ slot_at index }
    {
        let number = index as u32;
        Slot::new(CarrierNo::new(number / 2), SlotNo::new(number % 2))
    }
}

impl Blank for Slot {
    ghost blank = { record { carrier = 0; slot = 0 } };

    fn blank() -> Self {
        Slot {
            carrier: CarrierNo::blank(),
            slot: SlotNo::blank(),
        }
    }
}

/// A logical physical channel number, which radios tune to: 1 to 4094 (TS 102 361-4, clause 7.2). The numbers 0 and
/// 4095 name no channel.
#[derive(Clone, Copy, Debug, PartialEq, Eq, PartialOrd, Ord, Hash)]
pub struct Lpcn {
    channel: u16,
}

impl Model for Lpcn {
    ghost use Rattle.std.specs.Prelude.{ℕ};
    ghost use Rattle.dmr_pdu.specs.Channels.{IsChannel};

    ghost Value = { ℕ };

    ghost view = { λ n. n.channel };

    ghost invariant = { λ n. IsChannel n.channel };

    ghost inverse = { λ n. record { channel = n } };
}

impl Lpcn {
    /// Returns the channel with this number, which must be from 1 to 4094.
    pub fn new(number: u32) -> Self
        requires { IsChannel number }
        ensures { result ≡ number }
    {
        Lpcn {
            channel: number as u16,
        }
    }

    /// Returns the channel with this number, or `None` if the number is not from 1 to 4094.
    pub fn try_new(number: u32) -> Option<Self>
        ensures { SomeIff result (IsChannel number) number }
    {
        if 1 <= number && number <= 4094 {
            Some(Lpcn::new(number))
        } else {
            None
        }
    }

    /// Returns the channel's number as an integer.
    pub fn get(&self) -> u32
        ensures value { result ≡ self.now }
        ensures range { IsChannel result }
    {
        u32::from(self.channel)
    }
}

/// Writes the decimal number.
impl fmt::Display for Lpcn {
    ghost use Rattle.std.specs.Prelude.{Some, decimal};

    ghost output = { λ n. Some (decimal n) };

    fn fmt<W: fmt::Write>(&self, f: &mut fmt::Formatter<W>) -> fmt::Result {
        let channel = self.get();
        write!(f, "{channel}")
    }
}

impl Blank for Lpcn {
    ghost blank = { 1 };

    fn blank() -> Self {
        Lpcn { channel: 1 }
    }
}
