//! The journal of a judged site: each event that the site took, with its answer, in words or as fields.

use crate::desk::SiteDesk;
use crate::rows::{Form, row_of_event, show_acts, show_reply, show_row};
use dmr_console::print;
use dmr_core::Event;
use dmr_link::Deposit;
use std::io;
use std::io::Write;

/// Prints the entries of a journal, and counts them, the script's inputs and the ticks.
#[derive(Clone, Copy)]
pub struct EntryPrinter {
    form: Form,
    count: u64,
    inputs: u64,
    ticks: u64,
}

impl EntryPrinter {
    /// Begins with no entries.
    pub fn new(form: Form) -> EntryPrinter {
        EntryPrinter {
            form,
            count: 0,
            inputs: 0,
            ticks: 0,
        }
    }

    /// Counts the next input of the script.
    pub fn count_input(&mut self) {
        self.inputs = self.inputs.saturating_add(1);
    }

    /// Prints the events that a desk keeps, as the next entries. The desk forgets them.
    pub fn show_taken<W: Write>(&mut self, desk: &mut SiteDesk, out: &mut W) -> io::Result<()> {
        for deposit in desk.taken() {
            self.show_entry(deposit, out)?;
        }
        desk.forget();
        Ok(())
    }

    /// Prints an event and its answer, as the next entry.
    fn show_entry<W: Write>(&mut self, deposit: &Deposit, out: &mut W) -> io::Result<()> {
        self.count = self.count.saturating_add(1);
        if matches!(deposit.event, Event::Tick) {
            self.ticks = self.ticks.saturating_add(1);
        }
        let row = row_of_event(&deposit.event);
        self.show_number(row.kind, out)?;
        show_row(&row, self.form, out)?;
        show_acts(deposit.acts.list.as_slice(), self.form, out)?;
        match &deposit.acts.said {
            Some(reply) => show_reply(print(reply).as_str(), self.form, out),
            None => Ok(()),
        }
    }

    /// Prints what is before an event of a kind: the numbers of the entry, and for programs those of the input and the
    /// tick.
    fn show_number<W: Write>(&self, kind: &str, out: &mut W) -> io::Result<()> {
        let (entry, input, tick) = (self.count, self.inputs, self.ticks);
        match self.form {
            Form::Words => write!(out, "entry {entry}: "),
            Form::Fields => write!(out, "{kind} entry={entry} input={input} tick={tick}"),
        }
    }
}
