//! Words of each kind: the code that makes, decodes, encodes and checks many of them.

ghost use Rattle.std.specs.Prelude.{◌<◌};

use dmr_bits::{Octets10, Octets12, Word196};
use dmr_bptc::{decode, encode};
use dmr_burst::{read, write};
use dmr_csbk::check_of;
use dmr_pdu::Pdu;
use rand_core::utils::NextWord;
use rand_pcg::Pcg32;
use std::alloc::{AllocError, Global};
use std::io;
use std::rt::Clock;
use std::time::Instant;

/// The number of words of each kind that are decoded without a measurement.
const FEW: u32 = 1_000;

/// The number of words of each kind in a measurement. Each is used once, so that no answer can be used again.
pub const MANY: u32 = 200_000;

/// The octets of a registration request of radio 1001, from the format's test vectors.
const REGISTRATION: Octets10 = [0x9F, 0x00, 0x02, 0x0E, 0xFF, 0xFE, 0xC6, 0x00, 0x03, 0xE9];

/// The kinds of words, in the order in which they are printed.
pub const KINDS: [WordKind; 3] = [WordKind::Clean, WordKind::Flipped, WordKind::Random];

/// The kinds of words.
#[derive(Clone, Copy)]
pub enum WordKind {
    /// Codewords of random information.
    Clean,
    /// Codewords of random information with three random places flipped.
    Flipped,
    /// Words of random bits. The chance that such a word is within reach of a codeword is about 1 in 2^76.
    Random,
}

impl WordKind {
    fn name(self) -> &'static str {
        match self {
            WordKind::Clean => "clean",
            WordKind::Flipped => "three flips",
            WordKind::Random => "random",
        }
    }

    /// Returns the name of the measurement.
    fn decoding(self) -> &'static str {
        match self {
            WordKind::Clean => "decode_clean",
            WordKind::Flipped => "decode_flips",
            WordKind::Random => "decode_random",
        }
    }
}

/// Draws a number below a bound.
fn below(random: &mut Pcg32, bound: u32) -> usize
    requires { 0 < bound }
    ensures { result < bound }
{
    (random.next_word() % bound) as usize
}

fn random_information(random: &mut Pcg32) -> Octets12 {
    let mut octets = [0; 12];
    for octet in octets.iter_mut() {
        *octet = (random.next_word() & 0xFF) as u8;
    }
    octets
}

/// Draws a word of a kind.
fn word_of(kind: WordKind, random: &mut Pcg32) -> Word196 {
    let mut word = encode(&random_information(random));
    match kind {
        WordKind::Clean => {}
        WordKind::Flipped => {
            for _ in 0..3u32 {
                word.flip(below(random, 196));
            }
        }
        WordKind::Random => {
            for place in 0..196usize {
                word.set(place, below(random, 2) == 1);
            }
        }
    }
    word
}

/// Returns the generator of all words. Each kind starts with a new one.
fn generator() -> Pcg32 {
    Pcg32::new(42, 54)
}

/// Returns random words of a kind.
fn words_of(alloc: Global, kind: WordKind, count: u32) -> Result<Vec<Word196>, AllocError> {
    let mut random = generator();
    let mut words = Vec::new(alloc);
    for _ in 0..count {
        words.push(word_of(kind, &mut random))?;
    }
    Ok(words)
}

/// Returns random information.
fn information_of(alloc: Global, count: u32) -> Result<Vec<Octets12>, AllocError> {
    let mut random = generator();
    let mut all = Vec::new(alloc);
    for _ in 0..count {
        all.push(random_information(&mut random))?;
    }
    Ok(all)
}

/// Returns the first ten octets of each.
fn blocks_of(alloc: Global, all: &[Octets12]) -> Result<Vec<Octets10>, AllocError> {
    let mut blocks = Vec::new(alloc);
    for octets in all {
        let mut block: Octets10 = [0; 10];
        block.copy_from_slice(&octets[..10]);
        blocks.push(block)?;
    }
    Ok(blocks)
}

/// Decodes a word. This function and the next two are not inlined, so that a profile counts each by itself.
#[inline(never)]
fn decode_word(word: &Word196) -> Option<Octets12> {
    decode(word)
}

/// Encodes a word.
#[inline(never)]
fn encode_word(octets: &Octets12) -> Word196 {
    encode(octets)
}

/// Returns the check of a block.
#[inline(never)]
fn check_block(block: &Octets10) -> u16 {
    check_of(block)
}

/// Returns the number of words that decode.
fn decoded(words: &[Word196]) -> usize {
    words.iter().filter(|word| decode(word).is_some()).count()
}

/// Returns the number of words that decode, and the sum of all their octets.
fn decoded_sum(words: &[Word196]) -> (u64, u64) {
    let mut count: u64 = 0;
    let mut sum: u64 = 0;
    for word in words {
        if let Some(octets) = decode_word(word) {
            count = count.wrapping_add(1);
            for octet in &octets {
                sum = sum.wrapping_add(u64::from(*octet));
            }
        }
    }
    (count, sum)
}

/// Returns a sum of some bits of the codewords.
fn encoded_sum(all: &[Octets12]) -> u64 {
    let mut sum: u64 = 0;
    for (k, octets) in all.iter().enumerate() {
        let word = encode_word(octets);
        let bits = u64::from(word.bit(3))
            + u64::from(word.bit(4))
            + 2 * u64::from(word.bit(k % 196));
        sum = sum.wrapping_add(bits);
    }
    sum
}

/// Returns the sum of the checks.
fn check_sum(blocks: &[Octets10]) -> u64 {
    let mut sum: u64 = 0;
    for block in blocks {
        sum = sum.wrapping_add(u64::from(check_block(block)));
    }
    sum
}

/// Reads the registration's burst with each three of its places flipped. Returns the number of words that are read as
/// the registration, and the number of words.
fn registrations() -> (u64, u64) {
    let mut as_sent: u64 = 0;
    let mut all: u64 = 0;
    let pdu = Pdu::from_octets(&REGISTRATION);
    let clean = write(&pdu);
    for first in 0..196usize {
        let mut one = clean;
        one.flip(first);
        for second in 0..first {
            let mut two = one;
            two.flip(second);
            for third in 0..second {
                let mut three = two;
                three.flip(third);
                all = all.wrapping_add(1);
                if read(&three) == Some(pdu) {
                    as_sent = as_sent.wrapping_add(1);
                }
            }
        }
    }
    (as_sent, all)
}

/// Prints the number of words of a kind that decode.
pub fn show<R: Print + AllocGlobal>(rt: &R, kind: WordKind) -> io::Result<()> {
    let words = words_of(rt.alloc(), kind, FEW)?;
    let count = decoded(words.as_slice());
    let name = kind.name();
    println!(rt; "{name}: {count} of {FEW} decoded")
}

/// Returns the words a second, if `many` words took `nanos` nanoseconds.
fn rate(many: u32, nanos: u128) -> u128 {
    u128::from(many) * 1_000_000_000 / nanos.max(1)
}

/// Decodes `many` words of a kind, and prints the number of words a second.
pub fn time_decoding<R: Print + AllocGlobal + Clock>(
    rt: &R,
    kind: WordKind,
    many: u32,
) -> io::Result<()> {
    let words = words_of(rt.alloc(), kind, many)?;
    let start = Instant::now(rt)?;
    let (count, sum) = decoded_sum(words.as_slice());
    let decode_rate = rate(many, start.elapsed(rt)?.as_nanos());
    let name = kind.decoding();
    println!(rt; "{name} {decode_rate} {count} {sum}")
}

/// Encodes `many` words and computes as many checks, and prints the number of each a second.
pub fn time_encoding<R: Print + AllocGlobal + Clock>(rt: &R, many: u32) -> io::Result<()> {
    let all = information_of(rt.alloc(), many)?;
    let start = Instant::now(rt)?;
    let sum = encoded_sum(all.as_slice());
    let encode_rate = rate(many, start.elapsed(rt)?.as_nanos());
    println!(rt; "encode {encode_rate} {many} {sum}")?;
    let blocks = blocks_of(rt.alloc(), all.as_slice())?;
    let start = Instant::now(rt)?;
    let sum = check_sum(blocks.as_slice());
    let check_rate = rate(many, start.elapsed(rt)?.as_nanos());
    println!(rt; "check {check_rate} {many} {sum}")
}

/// Prints how many of the registration's bursts with three flipped places are read as the registration.
pub fn show_all_flips<R: Print>(rt: &R) -> io::Result<()> {
    let (as_sent, all) = registrations();
    println!(rt; "all patterns of three flips: {as_sent} of {all} are read as the registration")
}

/// Prints how many of the registration's bursts with three flipped places are read as the registration, and the time
/// for it.
pub fn show_flips<R: Print + Clock>(rt: &R) -> io::Result<()> {
    let start = Instant::now(rt)?;
    let (as_sent, all) = registrations();
    let millis = start.elapsed(rt)?.as_millis();
    println!(rt; "three flips: {as_sent} of {all} are read as the registration, in {millis} ms")
}
