//! A gate that counts its entries and exits.

ghost use Rattle.std.specs.Prelude.{◌≡◌, None};

use dmr_link::Gate;

/// Counts the calls of `enter` and `leave`, and is shut at one of the entries.
#[derive(Clone, Copy)]
pub struct CountingGate {
    /// The number of the entry at which the gate is shut, counted from 1; 0 if it is never shut.
    pub shut_at: usize,
    /// The number of calls of `enter`.
    pub enters: usize,
    /// The number of calls of `leave`.
    pub leaves: usize,
}

impl CountingGate {
    /// Returns a gate that was not entered yet.
    pub fn new(shut_at: usize) -> CountingGate {
        CountingGate {
            shut_at,
            enters: 0,
            leaves: 0,
        }
    }
}

/// The gate states no record of its passages.
impl Gate for CountingGate {
    ghost passed = { λ g. None };

    ghost shuts = { λ g h. h.enters ≡ h.shut_at };

    fn enter(&mut self) -> bool {
        self.enters = self.enters.saturating_add(1);
        self.enters != self.shut_at
    }

    fn leave(&mut self) {
        self.leaves = self.leaves.saturating_add(1);
    }
}
