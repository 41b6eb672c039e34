//! The law that the crate's constant is the number of its definitions.

ghost use Rattle.std.specs.Prelude.{◌≡◌};
ghost use Rattle.dmr_pool.specs.Limits.{most_pdus_of_a_slot};

use crate::outbox::MOST_PDUS_OF_A_SLOT;

/// The constant is the number that the profile states: at most 64 PDUs wait for a slot.
pub fn limits_are_stated()
    ensures { MOST_PDUS_OF_A_SLOT ≡ most_pdus_of_a_slot }
{}
