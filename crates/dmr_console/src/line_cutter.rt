//! Cuts an operator's octets into lines.

ghost use Rattle.std.specs.Prelude.{◌≡◌, ℕ, List, [], ◌∷◌, ◌++◌};
ghost use Rattle.dmr_console.specs.Lines.{IsOpenLine, first_octets_of_line};
ghost use Rattle.dmr_console.specs.Lines.{line_step_of as line_of_octets, lines_in, open_in};
ghost use Rattle.dmr_console.specs.Lines.{without_cr as without_cr_of};
ghost use Rattle.dmr_console.specs.Steps.{open_line_after_octet, line_produced, line_step_at};

use arrayvec::ArrayVec;
use std::marker::Model;

/// The octet that ends a line.
const LF: u8 = b'\n';

/// The octet that is dropped if it directly precedes an LF.
const CR: u8 = b'\r';

/// The most octets of a line before its LF, including a CR (this project's profile).
pub const LONGEST_LINE: usize = 80;

/// The most octets of an open line that are kept: one more than a line can have. With that many it is too long,
/// whatever follows.
const MOST_KEPT: usize = LONGEST_LINE + 1;

/// The result of an octet (this project's profile).
#[derive(Debug, Drop, PartialEq, Eq)]
pub enum LineStep {
    /// No line yet: its LF must still come.
    Need,
    /// The octet is the LF of this line. The line has the octets before the LF, without a CR directly before it.
    Line(ArrayVec<u8, LONGEST_LINE>),
    /// The octet is the LF of a line of more than 80 octets, including a CR. The line's octets are dropped, and the
    /// next octet begins a new line.
    TooLong,
}

/// Cuts the octets of one connection into lines (this project's profile). It keeps the first 81 octets after the last
/// LF: with 81 the line is too long, whatever follows. Contracts see these octets.
#[derive(Debug, Drop)]
pub struct LineCutter {
    begun: ArrayVec<u8, MOST_KEPT>,
}

impl Model for LineCutter {
    ghost use Rattle.std.specs.Prelude.{ℕ, List};
    ghost use Rattle.dmr_console.specs.Lines.{IsOpenLine};

    ghost Value = { List ℕ };

    ghost view = { λ c. c.begun.items };

    ghost invariant = { λ c. IsOpenLine c.begun.items };
}

impl LineCutter {
    /// Makes the cutter of a new connection: no octets yet.
    pub fn new() -> Self
        ensures { result ≡ [] }
    {
        LineCutter {
            begun: ArrayVec::new(),
        }
    }

    /// Takes the next octet. At an LF it returns the line, or that the line was too long, and keeps nothing of the
    /// line. At any other octet it returns `Need`.
    pub fn feed_byte(&mut self, octet: u8) -> LineStep
        // If the cutter keeps the open line of the octets so far, it also keeps that of these octets with this one.
        // Their lines are those so far, and the line of this result, if it has one.
        ensures stream { (octets : List ℕ) → self.old ≡ first_octets_of_line (open_in octets) →
            (lines_in (octets ++ octet ∷ []) ≡ lines_in octets ++ line_produced result)
            × (self.new ≡ first_octets_of_line (open_in (octets ++ octet ∷ []))) }
        ensures step { result ≡ line_step_at self.old octet }
        ensures rest { self.new ≡ open_line_after_octet self.old octet }
    {
        self.take_octet(octet)
    }

    /// Does nothing. By its contract a cutter keeps no LF, and at most 81 octets.
    pub fn use_invariant(&self)
        ensures { IsOpenLine self.now }
    {
        let _ = &self.begun;
    }

    /// Takes the next octet.
    fn take_octet(&mut self, octet: u8) -> LineStep
        ensures step { result ≡ line_step_at self.old octet }
        ensures rest { self.new ≡ open_line_after_octet self.old octet }
    {
        if octet == LF {
            let line = line_of(self.begun.as_slice());
            self.begun.clear();
            line
        } else {
            // A line of 81 octets is already too long, so the cutter drops further octets.
            let _ = self.begun.try_push(octet);
            LineStep::Need
        }
    }
}

/// The cutter of a new connection.
impl Default for LineCutter {
    ghost use Rattle.std.specs.Prelude.{◌≡◌, []};

    ghost is_default = { λ c. c ≡ [] };

    fn default() -> Self {
        LineCutter::new()
    }
}

/// The result of an LF after these octets.
fn line_of(octets: &[u8]) -> LineStep
    ensures { result ≡ line_of_octets octets.now }
{
    if octets.len() > LONGEST_LINE {
        return LineStep::TooLong;
    }
    let mut line = ArrayVec::new();
    for octet in without_cr(octets) {
        line.push(*octet);
    }
    LineStep::Line(line)
}

/// The octets without a CR at their end.
fn without_cr(octets: &[u8]) -> &[u8]
    ensures { result.now ≡ without_cr_of octets.now }
{
    match octets {
        [line @ .., last] if *last == CR => line,
        _ => octets,
    }
}
