//! The limits of a desk. The definitions state the same numbers; [`limits_are_stated`] says so.

ghost use Rattle.std.specs.Prelude.{◌≡◌};
ghost use Rattle.dmr_desk.specs.Limits.{most_actors, most_entries};

/// The most entries that a desk's journal may have.
pub const MOST_ENTRIES: usize = 100_000;

/// The most actors of a desk: a worker for each of 16 carriers, the ticker, and the console's worker.
pub const MOST_ACTORS: usize = 18;

/// The number of parts of a desk's ledger: one for each actor that a desk may have. Each seat has one part, and the
/// lock keeps the others.
pub const PARTS: u64 = MOST_ACTORS as u64;

/// Does nothing. Its contract says that the constants are the numbers of the definitions.
pub fn limits_are_stated()
    ensures entries { MOST_ENTRIES ≡ most_entries }
    ensures actors { MOST_ACTORS ≡ most_actors }
    ensures parts { PARTS ≡ most_actors }
{}
