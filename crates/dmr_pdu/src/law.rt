//! The law of PDUs and their octets: a function that does nothing, and whose contract is the law.

ghost use Rattle.std.specs.Prelude.{◌≡◌, ◌↔◌, ℕ, List};
ghost use Rattle.dmr_bits.specs.Bits.{IsOctets};
ghost use Rattle.dmr_pdu.specs.declared.pdu.Pdu.{Pdu};
ghost use Rattle.dmr_pdu.specs.Layout.{SpellsPdu, Agrees, IsReadable};
ghost use Rattle.dmr_pdu.specs.Functions.{octets_of, pdu_of};

/// Does nothing. A proof learns from it that each PDU has one list of ten octets, and that any ten octets are one PDU.
pub fn octets_mean_one_pdu()
    // `octets_of` is the one list of ten octets that a PDU is written as.
    ensures written { (pdu : Pdu) (octets : List ℕ) → IsOctets 10 octets → SpellsPdu pdu octets
        → octets_of pdu ≡ octets }
    // `pdu_of` is the one PDU that agrees with octets.
    ensures agrees { (octets : List ℕ) (pdu : Pdu) → Agrees pdu octets ↔ pdu ≡ pdu_of octets }
    // The octets that a readable PDU is written as agree with it.
    ensures back { (pdu : Pdu) (octets : List ℕ) → IsReadable pdu → SpellsPdu pdu octets
        → Agrees pdu octets }
{}
