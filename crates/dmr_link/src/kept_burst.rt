//! The burst that was encoded last. Most of the time a site sends the same C_ALOHA again. To compare a PDU costs less
//! than to encode it.

ghost use Rattle.std.specs.Prelude.{◌≡◌, Some, None};
ghost use Rattle.dmr_burst.specs.Functions.{burst_of};

use dmr_bits::Word196;
use dmr_burst::write;
use dmr_pdu::Pdu;
use std::marker::Model;

/// The PDU that was encoded last, if there is one, and its burst. Contracts see the PDU.
#[derive(Drop)]
pub struct KeptBurst {
    pdu: Option<Pdu>,
    word: Word196,
}

impl Model for KeptBurst {
    ghost use Rattle.std.specs.Prelude.{◌≡◌, Option, IfSome};
    ghost use Rattle.dmr_burst.specs.Functions.{burst_of};
    ghost use Rattle.dmr_pdu.specs.declared.pdu.Pdu.{Pdu as APdu};

    ghost Value = { Option APdu };

    ghost view = { λ b. b.pdu };

    ghost invariant = { λ b. IfSome b.pdu (λ pdu. b.word ≡ burst_of pdu) };
}

impl KeptBurst {
    /// Returns a value that keeps no burst.
    pub fn none() -> KeptBurst
        ensures { result ≡ None }
    {
        KeptBurst {
            pdu: None,
            word: Word196::zero(),
        }
    }

    /// Returns a PDU's burst, and keeps it. If it is kept already, nothing is encoded.
    pub fn word_of(&mut self, pdu: &Pdu) -> Word196
        ensures word { result ≡ burst_of pdu.now }
        ensures kept { self.new ≡ Some pdu.now }
    {
        if let Some(kept) = &self.pdu {
            if kept.equals(pdu) {
                return self.word;
            }
        }
        let word = write(pdu);
        *self = KeptBurst {
            pdu: Some(*pdu),
            word,
        };
        word
    }
}
