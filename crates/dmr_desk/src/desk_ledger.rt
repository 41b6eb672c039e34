//! The ledger of one desk.

ghost use Rattle.dmr_desk.specs.Seats.{Opened, unopened};

use std::marker::Brand;
use std::sync::ledger::Ledger;

/// A ledger that belongs to one desk. It names the desk's site at its opening, the limit of its journal, and the number
/// of its actors. The names exist in proofs alone: the call that makes the ledger picks them, and they never change.
/// The type of the lock's content ties the content to them, so it belongs to the desk that was opened.
pub trait DeskLedger: Ledger {
    /// The desk: its site at the opening, its limit and its number of actors.
    ghost desk: { Opened };
}

impl DeskLedger for Brand {
    ghost desk = { unopened };
}
