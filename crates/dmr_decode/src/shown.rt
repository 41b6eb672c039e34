//! What is printed of the inputs of a script: verdicts, or the entries of a journal.

use crate::desk::SiteDesk;
use crate::journal::EntryPrinter;
use crate::printable::Printable;
use crate::rows::{Form, show_acts};
use dmr_pdu::CarrierNo;
use std::io;
use std::io::Write;

/// What is printed of the inputs of a script.
#[derive(Clone, Copy)]
pub enum Shown {
    /// What the controller makes of each input.
    Verdicts,
    /// The entries of the site's journal.
    Entries(EntryPrinter),
}

impl Shown {
    /// Prints the line of the next input, before its verdict; or else counts the input.
    pub fn begin_input<W: Write>(&mut self, line: &str, out: &mut W) -> io::Result<()> {
        match self {
            Shown::Verdicts => write!(out, "{} -> ", Printable(line)),
            Shown::Entries(entries) => {
                entries.count_input();
                Ok(())
            }
        }
    }

    /// Prints a verdict, or the entries for the events that the desk keeps.
    pub fn show<W: Write>(
        &mut self,
        verdict: &str,
        desk: &mut SiteDesk,
        out: &mut W,
    ) -> io::Result<()> {
        match self {
            Shown::Verdicts => writeln!(out, "{verdict}"),
            Shown::Entries(entries) => entries.show_taken(desk, out),
        }
    }

    /// Prints the acts for the newest event that the desk keeps, or the entries for all of them.
    pub fn show_answer<W: Write>(&mut self, desk: &mut SiteDesk, out: &mut W) -> io::Result<()> {
        match self {
            Shown::Verdicts => show_newest(desk, out),
            Shown::Entries(entries) => entries.show_taken(desk, out),
        }
    }

    /// Prints the verdict that the site has no carrier with this number.
    pub fn show_missing<W: Write>(&self, carrier: CarrierNo, out: &mut W) -> io::Result<()> {
        match self {
            Shown::Verdicts => writeln!(out, "ignored: the site has no carrier {carrier}"),
            Shown::Entries(_) => Ok(()),
        }
    }
}

/// Prints the acts for the newest event that the desk keeps.
pub fn show_newest<W: Write>(desk: &SiteDesk, out: &mut W) -> io::Result<()> {
    match desk.newest() {
        Some(deposit) => show_acts(deposit.acts.list.as_slice(), Form::Words, out),
        None => Ok(()),
    }
}
