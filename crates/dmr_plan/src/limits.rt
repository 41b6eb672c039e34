//! A law: the crate's constants are the numbers of its definitions.

ghost use Rattle.std.specs.Prelude.{◌≡◌};
ghost use Rattle.dmr_plan.specs.Keys.{limits_of};

use crate::key::{Key, MOST_CARRIERS, MOST_GROUPS, MOST_RANGES};

/// Does nothing. A proof learns from it that the constants are the numbers of the key table: a site file lists at most
/// 16 ranges of radios, 64 talkgroups and 16 carriers.
pub fn limits_are_stated()
    ensures ranges { MOST_RANGES ≡ (limits_of Key.Radios).count.most }
    ensures groups { MOST_GROUPS ≡ (limits_of Key.Groups).count.most }
    ensures carriers { MOST_CARRIERS ≡ (limits_of Key.Carrier).count.most }
{}
