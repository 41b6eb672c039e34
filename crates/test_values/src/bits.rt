//! Worked values of fields of octets, and of words of 196 bits.

use crate::lines::{expect_same, expect_true};
use dmr_bits::{BadPad, Octets10, Word196, bit_at, field, set_bit, set_field};
use std::process::Abort;

/// TV_GRANT on channel 1, slot 1, late entry, group 91, source 1001, by the table of layouts.
const GRANT: Octets10 = [0xB1, 0x00, 0x00, 0x1C, 0x00, 0x00, 0x5B, 0x00, 0x03, 0xE9];

#[test]
fn fields_of_a_grant(rt: HostRuntime) {
    let mut octets = [0; 10];
    for (first, width, number) in [
        (0u32, 8u32, 0xB1u32),
        (16, 12, 1),
        (28, 1, 1),
        (29, 1, 1),
        (32, 24, 91),
        (56, 24, 1001),
    ] {
        expect_same(&rt, first, field(&GRANT, first, width), number);
    }
    set_field(&mut octets, 0, 8, 0xB1);
    set_field(&mut octets, 16, 12, 1);
    set_field(&mut octets, 28, 2, 3);
    set_field(&mut octets, 32, 24, 91);
    set_field(&mut octets, 56, 24, 1001);
    expect_same(&rt, "all fields", octets, GRANT);
}

#[test]
fn bits_of_octets(rt: HostRuntime) {
    let mut octets = [0x80, 0x01];
    for (place, bit) in [(0usize, true), (7, false), (15, true)] {
        expect_same(&rt, place, bit_at(&octets, place), bit);
    }
    set_bit(&mut octets, 8, true);
    set_bit(&mut octets, 0, false);
    expect_same(&rt, "both octets", octets, [0x00, 0x81]);
}

/// The registration burst of the format's test vectors.
const BURST: [u8; 25] = [
    0x0E, 0xB4, 0x9C, 0xDF, 0x34, 0xF2, 0x74, 0x9C, 0xEC, 0xBA, 0x5C, 0xB3, 0xB7, 0xC4, 0x0E, 0x88,
    0x13, 0x8C, 0x9A, 0x38, 0xF9, 0x62, 0x48, 0xE1, 0x80,
];

/// Returns the word of that burst.
fn word_of_burst(rt: &impl Abort) -> Word196 {
    Word196::from_octets(&BURST).expect(rt, "a word")
}

/// 0E begins 0000 1110; the last octet, 80, has the bits 192 to 195.
#[test]
fn bits_of_a_word(rt: HostRuntime) {
    let word = word_of_burst(&rt);
    for (place, bit) in [(3usize, false), (4, true), (192, true), (193, false)] {
        expect_same(&rt, place, word.bit(place), bit);
    }
}

#[test]
fn octets_and_back(rt: HostRuntime) {
    let mut word = word_of_burst(&rt);
    expect_same(&rt, "the burst", word.to_octets(), BURST);
    word.flip(4);
    word.set(193, true);
    let mut other = BURST;
    other[0] = 0x06;
    other[24] = 0xC0;
    expect_same(&rt, "two bits changed", word.to_octets(), other);
}

#[test]
fn zero(rt: HostRuntime) {
    expect_same(&rt, "zero", Word196::zero().to_octets(), [0; 25]);
    expect_true(&rt, "not zero", word_of_burst(&rt) != Word196::zero());
}

#[test]
fn parts_of_words(rt: HostRuntime) {
    let word = word_of_burst(&rt);
    let parts: [u64; 4] = [
        0x0EB4_9CDF_34F2_749C,
        0xECBA_5CB3_B7C4_0E88,
        0x138C_9A38_F962_48E1,
        0x8000_0000_0000_0000,
    ];
    for k in 0..4usize {
        expect_same(&rt, k, word.part(k), parts[k]);
    }
    // Place 0 is not counted.
    let mut other = word;
    for (place, apart) in [(0usize, 0u32), (1, 1), (63, 2), (64, 3), (195, 4), (64, 3)] {
        other.flip(place);
        expect_same(&rt, place, word.places_apart(&other), apart);
    }
}

#[test]
fn pads(rt: HostRuntime) {
    for pad in [1, 2, 4, 8] {
        let mut octets = BURST;
        octets[24] = 0x80 | pad;
        expect_same(&rt, pad, Word196::from_octets(&octets), Err(BadPad));
    }
}

#[test]
fn bits_under_masks(rt: HostRuntime) {
    let word = word_of_burst(&rt);
    for (mask, count) in [
        ([u64::MAX; 4], 96u32),
        ([0xFF00_0000_0000_0000, 0, 0, 0], 3),
        ([0, u64::MAX, 0, 0], 33),
        ([0; 4], 0),
    ] {
        expect_same(&rt, count, word.set_under(&mask), count);
    }
}
