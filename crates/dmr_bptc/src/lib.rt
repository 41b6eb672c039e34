//! The block product turbo code BPTC(196,96), which protects the 96 information bits of a burst (TS 102 361-1,
//! clause B.1.1).
//!
//! Place 0 of a word of 196 bits holds the reserved bit R(3), which is in no equation. The other places are the cells
//! of a grid of 13 rows (0 to 12) and 15 columns (0 to 14). They are interleaved: the cell of row `r` and column `c` is
//! at place `181 * (1 + 15 * r + c) mod 196`. In each row the last four cells are parities of the eleven before them: a
//! Hamming code (15,11,3). In each column the last four are parities of the nine before them: (13,9,3). A *codeword*
//! satisfies all these equations. Rows 0 to 8 of columns 0 to 10 are the data cells. The first three hold the reserved
//! bits R(2), R(1) and R(0), and the 96 information bits fill the others row by row.
//!
//! A word *means* twelve octets if they are the information bits of some codeword that differs from it in at most three
//! of the places 1 to 195. `encode` sends reserved bits as 0, and `decode` ignores those of the codeword (this
//! project's profile). Nothing here allocates.
#![tactic(auto)]

mod decoding;
mod encoding;
mod equations;
mod law;
mod layout;
mod sum_table;
mod sums;
mod syndromes;
mod table;

pub use decoding::decode;
pub use encoding::encode;
pub use equations::{column_ok, row_ok};
pub use law::{codewords_are_apart, nearest_codeword};
