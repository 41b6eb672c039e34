//! Worked values of the small types: channels, carriers, slots, kinds and addresses.

use crate::lines::expect_same;
use dmr_pdu::{Address, CarrierNo, Kind, Lpcn, Slot, SlotNo};

/// Returns the number of a kind that is made of this number, or `None` if the number is out of range.
fn number_of(kind: &str, number: u32) -> Option<u32> {
    match kind {
        "channel" => Some(Lpcn::try_new(number)?.get()),
        "carrier" => Some(CarrierNo::try_new(number)?.get()),
        "slot" => Some(SlotNo::try_new(number)?.get()),
        _ => Some(Address::try_new(number)?.get()),
    }
}

/// Numbers at the limits of their kinds, and whether they are in range.
static NUMBERS: [(&str, u32, bool); 10] = [
    ("channel", 0, false),
    ("channel", 1, true),
    ("channel", 4094, true),
    ("channel", 4095, false),
    ("carrier", 15, true),
    ("carrier", 16, false),
    ("slot", 1, true),
    ("slot", 2, false),
    ("address", 16_777_215, true),
    ("address", 16_777_216, false),
];

#[test]
fn numbers(rt: HostRuntime) {
    for (kind, number, is_within) in &NUMBERS {
        let wanted = if *is_within { Some(*number) } else { None };
        expect_same(&rt, *kind, number_of(kind, *number), wanted);
    }
}

/// Place 31 is slot 1 of carrier 15.
#[test]
fn places(rt: HostRuntime) {
    let last = Slot::new(CarrierNo::new(15), SlotNo::new(1));
    expect_same(&rt, "place 31", Slot::at(31), last);
    expect_same(&rt, "slot 0 of carrier 1", Slot::at(2).index(), 2);
}

#[test]
fn kinds(rt: HostRuntime) {
    let cases = [
        (Kind::INDIVIDUAL_VOICE, 0),
        (Kind::TALKGROUP_VOICE, 1),
        (Kind::REGISTRATION, 14),
        (Kind::CANCEL, 15),
    ];
    for (kind, number) in cases {
        expect_same(&rt, number, kind.get(), number);
    }
}
