//! Limits of a link's work. The definitions state the same numbers;
//! [`limits_are_stated`](crate::laws::limits_are_stated) says so.

ghost use Rattle.std.specs.Prelude.{◌≡◌};
ghost use Rattle.dmr_link.specs.Limits.{most_interruptions, most_reads};

/// The most reads that a call of `serve` makes.
pub const MOST_READS: usize = 64;

/// The most interruptions in a row, of reads or of writes, after which a link tries again. One more is a fault.
pub const MOST_INTERRUPTIONS: usize = 16;

/// States that the constants equal the numbers of the profile: a call makes at most 64 reads, and tries again after at
/// most 16 interruptions in a row.
pub fn limits_are_stated()
    ensures reads { MOST_READS ≡ most_reads }
    ensures interruptions { MOST_INTERRUPTIONS ≡ most_interruptions }
{}
