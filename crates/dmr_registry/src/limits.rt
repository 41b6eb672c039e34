//! The law that the crate's constant is the number of its definitions.

ghost use Rattle.std.specs.Prelude.{◌≡◌};
ghost use Rattle.dmr_registry.specs.Limits.{most_radios};

use crate::registry::MOST_RADIOS;

/// The constant is the number that the profile states: at most 4,096 radios are registered at a time.
pub fn limits_are_stated()
    ensures { MOST_RADIOS ≡ most_radios }
{}
