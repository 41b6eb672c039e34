//! The burst layer: the 196 bits of a control burst to its PDU, and back. The site has no other way to do either.
//!
//! A burst has the ten octets of a PDU and their check as the 96 information bits of a codeword (TS 102 361-1, clauses
//! 7.2 and B.1.1). [`read`] mends up to three flipped bits, requires the right check, and returns the one PDU that
//! agrees with the ten octets. Place 0, which is outside the code, and the reserved cells of the codeword may hold
//! anything. A flipped bit in a reserved cell counts as one of the three. Nothing in this crate allocates memory.
#![tactic(auto)]

ghost use Rattle.std.specs.Prelude.{◌≡◌, ◌≤◌, ℕ, List, Bool, Some, IfSome};
ghost use Rattle.dmr_bptc.specs.Bptc.{IsCodeword, distance};
ghost use Rattle.dmr_pdu.specs.declared.pdu.Pdu.{Pdu as APdu};
ghost use Rattle.dmr_pdu.specs.Layout.{IsReadable};
ghost use Rattle.dmr_burst.specs.Burst.{MeansPdu, IsBurst};
ghost use Rattle.dmr_burst.specs.Functions.{meaning_of, burst_of};

use dmr_bits::Word196;
use dmr_bptc::{decode, encode, nearest_codeword};
use dmr_csbk::{open_sealed, seal, seals_open};
use dmr_pdu::{Pdu, octets_mean_one_pdu};

/// Returns the word of a PDU: the codeword of its octets and their check, with place 0 and the reserved cells 0.
pub fn write(pdu: &Pdu) -> Word196
    ensures is { IsBurst pdu.now result }
    // No other word is the burst of the PDU.
    ensures alone { (word : List Bool) → IsBurst pdu.now word → word ≡ result }
    ensures burst { result ≡ burst_of pdu.now }
{
    encode(&seal(&pdu.to_octets()))
}

/// Returns the PDU that a word means, or `None` if it means none.
///
/// A word means none if no codeword differs from it in at most three of the places 1 to 195, or if the check in that
/// codeword is wrong.
pub fn read(word: &Word196) -> Option<Pdu>
    // A PDU that is returned is one that the word means.
    ensures found { IfSome result (MeansPdu word.now) }
    // A PDU that the word means is returned.
    ensures only { (pdu : APdu) → MeansPdu word.now pdu → result ≡ Some pdu }
    // If the word is the burst of a readable PDU with at most three flipped bits, that PDU is returned.
    ensures back { (pdu : APdu) (sent : List Bool) → IsBurst pdu sent → IsReadable pdu
        → distance word.now sent ≤ 3 → result ≡ Some pdu }
    ensures meaning { result ≡ meaning_of word.now }
{
    meanings_are_single();
    decode_pdu(word)
}

/// Returns the PDU whose octets and check are in a codeword near the word, if there is one.
fn decode_pdu(word: &Word196) -> Option<Pdu>
    ensures { result ≡ meaning_of word.now }
{
    let sealed = decode(word)?;
    let octets = open_sealed(&sealed)?;
    Some(Pdu::from_octets(&octets))
}

/// Does nothing. A proof learns from it the laws of meaning. A word means at most one PDU, the result of `meaning_of`.
/// A burst with at most three flipped bits means the same as the clean burst.
pub fn meanings_are_single()
    ensures found { (word : List Bool) → IfSome (meaning_of word) (MeansPdu word) }
    ensures only { (word : List Bool) (pdu : APdu) → MeansPdu word pdu
        → meaning_of word ≡ Some pdu }
    // A word means the same as the codeword that differs from it in at most three of the places 1 to 195, be it a PDU
    // or nothing.
    ensures clean { (word codeword : List Bool)
        → IsCodeword codeword → distance word codeword ≤ 3 → meaning_of word ≡ meaning_of codeword }
    // The burst of a readable PDU, with at most three flipped bits, means that PDU.
    ensures flipped { (pdu : APdu) (sent word : List Bool) → IsBurst pdu sent → IsReadable pdu
        → distance word sent ≤ 3 → meaning_of word ≡ Some pdu }
{
    nearest_codeword();
    seals_open();
    octets_mean_one_pdu();
}
