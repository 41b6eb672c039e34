//! The sums over the set bits of a word: the equations that each column and each row fails (TS 102 361-1, clause
//! B.1.1), and the information. One pass over the word finds all of them.

ghost use Rattle.std.specs.Prelude.{◌≡◌, ℕ, ◌<◌, Bool, List, [], ◌∷◌, ◌↔◌, IsTrue};
ghost use Rattle.dmr_bits.specs.Bits.{octet_bit, IsOctets};
ghost use Rattle.dmr_bits.specs.Packed.{packed_bit};
ghost use Rattle.dmr_bptc.specs.Sums.{AreSums, IsFlipped};

use crate::sum_table::SUMS;
use dmr_bits::{Octets12, Word196};

/// The equations that the columns and the rows of a word fail, and the information bits that its cells hold.
#[derive(Clone, Copy)]
pub(crate) struct Sums {
    /// Four bits for each column, those of column 0 the least significant: its syndrome, the failure of the first
    /// equation the most significant.
    pub(crate) columns: u64,
    /// The same for each row.
    pub(crate) rows: u64,
    /// Information bits 0 to 63, the first of them the most significant.
    high: u64,
    /// Information bits 64 to 95, and 32 bits that are 0.
    low: u64,
}

/// The sums of a word.
pub(crate) fn sums_of(word: &Word196) -> Sums
    ensures { AreSums word.now result }
{
    let mut columns = 0;
    let mut rows = 0;
    let mut high = 0;
    let mut low = 0;
    for k in 0..3 {
        let part = word.part(k);
        for j in 0..16 {
            let added = &SUMS.entries[16 * k + j][((part >> (60 - 4 * j)) & 0xF) as usize];
            columns ^= added[0];
            rows ^= added[1];
            high ^= added[2];
            low ^= added[3];
        }
    }
    // Places 192 to 195.
    let added = &SUMS.entries[48][((word.part(3) >> 60) & 0xF) as usize];
    columns ^= added[0];
    rows ^= added[1];
    high ^= added[2];
    low ^= added[3];
    Sums {
        columns,
        rows,
        high,
        low,
    }
}

impl Sums {
    /// Whether all columns and rows satisfy their equations.
    pub(crate) fn none_fails(&self) -> bool
        ensures { IsTrue result ↔ ((self.now.columns ≡ 0) × (self.now.rows ≡ 0)) }
    {
        self.columns == 0 && self.rows == 0
    }

    /// Turns over a place, 0 to 195, of the word that these are the sums of: adds what the place adds.
    pub(crate) fn flip(&mut self, place: usize)
        requires { place < 196 }
        ensures { (word flipped : List Bool) → IsFlipped place word flipped →
            AreSums word self.old → AreSums flipped self.new }
    {
        let added = &SUMS.entries[place / 4][8 >> (place % 4)];
        self.columns ^= added[0];
        self.rows ^= added[1];
        self.high ^= added[2];
        self.low ^= added[3];
    }

    /// The information bits as octets.
    pub(crate) fn octets(&self) -> Octets12
        ensures octets { IsOctets 12 result }
        ensures bits { (k : ℕ) → k < 96
            → octet_bit result k ≡ packed_bit (self.now.high ∷ self.now.low ∷ []) k }
    {
        let mut octets = [0; 12];
        octets[..8].copy_from_slice(&self.high.to_be_bytes());
        octets[8..].copy_from_slice(&self.low.to_be_bytes()[..4]);
        octets
    }
}
