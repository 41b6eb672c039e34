//! The budget of a port: how many octets its link may read in a window of time.

ghost use Rattle.std.specs.Prelude.{◌≡◌, ◌+◌, ◌-◌, ◌≤◌, ◌==◌};
ghost use Rattle.dmr_port.specs.Budget.{fresh_window, window_at};

use std::marker::Model;

/// The most octets that a port returns to its link in a window (this project's profile). A base station that polls and
/// sends two bursts in each TDMA frame of 60 ms needs 60 octets.
const OCTETS_OF_A_WINDOW: u16 = 512;

/// The milliseconds of a window: a TDMA frame.
const WINDOW_MS: u64 = 60;

/// The octets that a port returned to its link in the present window of 60 ms: at most 512. Contracts see the window.
#[derive(Debug, Drop)]
pub struct Budget {
    began: u64,
    given: u16,
}

impl Model for Budget {
    ghost use Rattle.std.specs.Prelude.{◌≤◌};
    ghost use Rattle.dmr_port.specs.Budget.{Window};

    ghost Value = { Window };

    ghost view = { λ b. record { began = b.began; given = b.given } };

    ghost invariant = { λ b. b.given ≤ 512 };
}

impl Budget {
    /// Makes a budget of which no octet has been given.
    pub fn new() -> Budget
        ensures { result ≡ fresh_window 0 }
    {
        Budget { began: 0, given: 0 }
    }

    /// Returns how many octets may still be given at this time. If the window has ended, a new one begins.
    pub fn left_at(&mut self, now: u64) -> u16
        ensures window { self.new ≡ window_at self.old now }
        ensures left { result + (window_at self.old now).given ≡ 512 }
    {
        if now.saturating_sub(self.began) >= WINDOW_MS {
            *self = Budget {
                began: now,
                given: 0,
            };
        }
        OCTETS_OF_A_WINDOW - self.given
    }

    /// Counts octets that are given, of those that may be.
    pub fn spend(&mut self, count: usize)
        requires { self.old.given + count ≤ 512 }
        ensures { self.new ≡ record self.old { given = self.old.given + count } }
    {
        self.given += count as u16;
    }

    /// Returns whether all octets of the window have been given.
    pub fn is_spent(&self) -> bool
        ensures { result ≡ (self.now.given == 512) }
    {
        self.given == OCTETS_OF_A_WINDOW
    }

    /// Returns the milliseconds until a new window may begin; 0 if it may begin now.
    pub fn ms_until_next(&self, now: u64) -> u64
        ensures { result ≡ 60 - (now - self.now.began) }
    {
        WINDOW_MS.saturating_sub(now.saturating_sub(self.began))
    }
}
