//! A store for the stories of records.

ghost use Rattle.std.specs.Prelude.{◌≡◌, ⊤, true, None};

use dmr_keeper::{InMemory, KeepFault, Keeper, TimedRecords};

/// A store in memory that refuses records on demand.
#[derive(Drop)]
pub struct Shelf {
    /// What it has kept.
    pub store: InMemory,
    /// Whether it refuses records.
    pub is_refusing: bool,
}

impl Keeper for Shelf {
    ghost kept = { λ shelf. None };

    ghost refuses = { λ shelf term fault. ⊤ };

    ghost wants = { λ shelf. true };

    fn wants_records(&self) -> bool
        ensures { result ≡ true }
    {
        self.store.wants_records()
    }

    fn keep(&mut self, term: &TimedRecords) -> Result<(), KeepFault> {
        if self.is_refusing {
            Err(KeepFault::InUse)
        } else {
            self.store.keep(term)
        }
    }
}
