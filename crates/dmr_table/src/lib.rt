//! Tables: lists of entries in which an entry is found by its key.
//!
//! A [`KeyedTable`] keeps its entries in the order in which they were added. It also keeps their places in the order of
//! their keys, so a key is found by binary search. It allocates its memory when it is made, and none later.
#![tactic(auto)]

mod keyed;
mod places;
mod table;

pub use keyed::Keyed;
pub use table::KeyedTable;
