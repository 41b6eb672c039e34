//! The law that the crate's constants are the numbers of its definitions.

ghost use Rattle.std.specs.Prelude.{◌≡◌};
ghost use Rattle.dmr_calls.specs.Limits.{most_asks, most_calls, most_lines};

use crate::calls::{MOST_ASKS, MOST_CALLS, MOST_LINES};

/// The constants are the numbers that the profile states: at most 32 asks, 32 lines and 31 calls are active at a time.
pub fn limits_are_stated()
    ensures asks { MOST_ASKS ≡ most_asks }
    ensures lines { MOST_LINES ≡ most_lines }
    ensures calls { MOST_CALLS ≡ most_calls }
{}
