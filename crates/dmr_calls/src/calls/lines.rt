//! The lines.

ghost use Rattle.std.specs.Prelude.{◌≡◌, ◌≤◌, ◌<◌, [], ◌∷◌, ◌++◌, nat_le, length, is_err};
ghost use Rattle.dmr_calls.specs.declared.calls.TheConstants.{MOST_LINES};
ghost use Rattle.dmr_calls.specs.Lines.{with_line, without_line, first_line, page_of_lines};
ghost use Rattle.dmr_calls.specs.Lines.{has_lines, line_of, line_to, has_group_line};
ghost use Rattle.dmr_calls.specs.Lines.{has_own_group_line, has_own_line};
ghost use Rattle.dmr_calls.specs.Engaged.{line_with};

use super::{Calls, MOST_LINES};
use crate::answer::Full;
use crate::line::Line;
use crate::party::is_party;
use arrayvec::ArrayVec;
use dmr_pdu::Address;

/// At most 16 of the lines, from a place on.
fn from_place(lines: &[Line], place: usize) -> &[Line]
    ensures rows { result.now ≡ page_of_lines lines.now place }
    ensures few { length result.now ≤ 16 }
{
    let rest = lines.get(place..).unwrap_or_default();
    rest.get(..16).unwrap_or(rest)
}

impl Calls {
    /// Adds a line after the others. If `MOST_LINES` lines are active, returns `Full` and changes nothing.
    pub fn line(&mut self, line: Line) -> Result<(), Full>
        ensures full { is_err result ≡ nat_le MOST_LINES (length self.old.lines) }
        ensures lines { self.new ≡ record self.old { lines = with_line self.old.lines line } }
    {
        if self.lines.len() >= MOST_LINES {
            return Err(Full);
        }
        self.add_line(&line);
        Ok(())
    }

    /// Adds a line after the others. There must be a place for it.
    // Out of line: an event without such an act then does not prepare for it.
    #[inline(never)]
    pub fn add_line(&mut self, line: &Line)
        requires { length self.old.lines < MOST_LINES }
        ensures { self.new ≡ record self.old { lines = self.old.lines ++ line.now ∷ [] } }
    {
        self.lines.push(*line);
    }

    /// Removes the lines of a radio.
    // Out of line: an event without such an act then does not prepare for it.
    #[inline(never)]
    pub fn unline(&mut self, source: Address)
        ensures { self.new ≡ record self.old { lines = without_line source self.old.lines } }
    {
        self.lines.remove(source.get());
    }

    /// The line that has waited longest.
    pub fn first_line(&self) -> Option<Line>
        ensures { result ≡ first_line self.now.lines }
    {
        self.lines.as_slice().first().copied()
    }

    /// At most 16 lines from a place on, in their order. Places are counted from 0.
    pub fn lines_from(&self, place: usize) -> ArrayVec<Line, 16>
        ensures rows { result.items ≡ page_of_lines self.now.lines place }
        ensures few { length result.items ≤ 16 }
    {
        let mut rows = ArrayVec::new();
        for line in from_place(self.lines.as_slice(), place) {
            rows.push(*line);
        }
        rows
    }

    /// Reports whether there is any line.
    pub fn has_lines(&self) -> bool
        ensures { result ≡ has_lines self.now.lines }
    {
        !self.lines.is_empty()
    }

    /// The first line of a radio.
    pub fn line_of(&self, source: Address) -> Option<Line>
        ensures { result ≡ line_of self.now.lines source }
    {
        self.lines.find(source.get())
    }

    /// The first individual line to a radio.
    pub fn line_to(&self, target: Address) -> Option<Line>
        ensures { result ≡ line_to self.now.lines target }
    {
        self.lines
            .as_slice()
            .iter()
            .copied()
            .find(|l| !l.group && l.target == target)
    }

    /// Reports whether there is a line to the talkgroup.
    pub fn group_line(&self, group: Address) -> bool
        ensures { result ≡ has_group_line self.now.lines group }
    {
        self.lines
            .as_slice()
            .iter()
            .any(|l| l.group && l.target == group)
    }

    /// Reports whether the source has a line to the talkgroup.
    pub fn own_group_line(&self, source: Address, group: Address) -> bool
        ensures { result ≡ has_own_group_line self.now.lines source group }
    {
        self.lines.has(source.get())
            && self
                .lines
                .as_slice()
                .iter()
                .any(|l| l.source == source && l.group && l.target == group)
    }

    /// Reports whether the source has an individual line to the target.
    pub fn own_line(&self, source: Address, target: Address) -> bool
        ensures { result ≡ has_own_line self.now.lines source target }
    {
        self.lines.has(source.get())
            && self
                .lines
                .as_slice()
                .iter()
                .any(|l| l.source == source && !l.group && l.target == target)
    }

    /// The first line to which a radio is a party.
    pub(super) fn line_with(&self, radio: Address) -> Option<Line>
        ensures { result ≡ line_with self.now.lines radio }
    {
        self.lines
            .as_slice()
            .iter()
            .copied()
            .find(|l| is_party(radio, l.group, l.source, l.target))
    }
}
