//! A carrier of a judged site: its link, as the controller has it, and the frames that the link reads.

use crate::carrier::show_word_in;
use crate::desk::SiteDesk;
use crate::journal::EntryPrinter;
use crate::octet_wire::OctetWire;
use crate::shown::{Shown, show_newest};
use crate::verdict::{Verdict, verdict_of_end, verdict_of_event};
use dmr_frames::{Cutter, FrameIn, Step, Version};
use dmr_link::{Link, OpenGate, greatest_version};
use dmr_pdu::{CarrierNo, OutOfMemory};
use dmr_plan::Plan;
use dmr_port::Whose;
use dmr_replay::ScriptInput;
use std::alloc::Global;
use std::io;
use std::io::Write;

/// A carrier of a judged site. The link decides. The cutter cuts as the link does, and says which octets are a frame.
#[derive(Drop)]
pub struct JudgedCarrier {
    link: Link,
    wire: OctetWire,
    whose: Whose,
    greatest: Version,
    cutter: Cutter,
    came: usize,
    begins: usize,
}

/// Returns the error of memory that ran out.
pub fn memory_error(_: OutOfMemory) -> io::Error {
    io::Error::from(io::ErrorKind::OutOfMemory)
}

impl JudgedCarrier {
    /// Makes the plan's carrier with this number, without a connection. `None` if the plan has none.
    pub fn new(alloc: Global, plan: &Plan, number: CarrierNo) -> Option<JudgedCarrier> {
        let row = plan.carrier_with(number)?;
        let lpcn = row.lpcn;
        let greatest = greatest_version(plan);
        Some(JudgedCarrier {
            link: Link::new(number, lpcn, greatest),
            wire: OctetWire::new(alloc, false),
            whose: Whose::Carrier { number, lpcn },
            greatest,
            cutter: Cutter::new(greatest),
            came: 0,
            begins: 0,
        })
    }

    /// Reports whether a connection is open.
    fn is_live(&self) -> bool {
        self.link.live()
    }

    /// Processes an input of a script that names this carrier, and prints what that means.
    pub fn show_input<W: Write>(
        &mut self,
        input: &ScriptInput,
        desk: &mut SiteDesk,
        shown: &mut Shown,
        out: &mut W,
    ) -> io::Result<()> {
        let was_live = self.is_live();
        let verdict = match input {
            ScriptInput::Open(_) => self.open(desk),
            _ if !was_live => "ignored: no connection is open",
            ScriptInput::Bytes(_, _) => "read",
            _ => self.cut(desk),
        };
        shown.show(verdict, desk, out)?;
        match (input, shown) {
            (ScriptInput::Bytes(_, octets), Shown::Verdicts) if was_live => {
                self.receive(octets.as_slice(), desk, out)
            }
            (ScriptInput::Bytes(_, octets), Shown::Entries(entries)) => {
                self.journal(octets.as_slice(), desk, entries, out)
            }
            _ => Ok(()),
        }
    }

    /// Begins a connection, and processes its octets. Prints what they mean, and the number of octets of a frame that is
    /// incomplete then.
    pub fn show_connection<W: Write>(
        &mut self,
        octets: &[u8],
        desk: &mut SiteDesk,
        out: &mut W,
    ) -> io::Result<()> {
        let begun = self.open(desk);
        writeln!(out, "{begun}")?;
        self.receive(octets, desk, out)?;
        self.show_rest(out)
    }

    /// Cuts the connection, if one is open. The desk forgets earlier events. Returns the verdict on the cut of an open
    /// connection.
    fn cut(&mut self, desk: &mut SiteDesk) -> &'static str {
        desk.forget();
        let _ = self.link.cut(desk);
        "counted: the connection ends"
    }

    /// Begins a connection. One that is open ends first. The desk forgets earlier events. Returns the verdict.
    fn open(&mut self, desk: &mut SiteDesk) -> &'static str {
        let was_live = self.is_live();
        self.cut(desk);
        let _ = self.link.open();
        self.cutter = Cutter::new(self.greatest);
        self.came = 0;
        self.begins = 0;
        if was_live {
            "counted: the connection before it ends, and a connection begins"
        } else {
            "counted: a connection begins"
        }
    }

    /// Processes octets. Prints the frames that they complete and the first fault, each with its place and the verdict.
    /// If the connection ends, it prints how many octets follow.
    fn receive<W: Write>(
        &mut self,
        octets: &[u8],
        desk: &mut SiteDesk,
        out: &mut W,
    ) -> io::Result<()> {
        for (index, octet) in octets.iter().enumerate() {
            if !self.is_live() {
                return self.show_unread(octets.len().saturating_sub(index), out);
            }
            self.receive_octet(*octet, desk, out)?;
        }
        Ok(())
    }

    /// Processes octets up to the end of the connection, and prints the entries that they add to the journal.
    fn journal<W: Write>(
        &mut self,
        octets: &[u8],
        desk: &mut SiteDesk,
        entries: &mut EntryPrinter,
        out: &mut W,
    ) -> io::Result<()> {
        for octet in octets {
            if self.is_live() {
                self.serve_octet(*octet, desk);
                entries.show_taken(desk, out)?;
            }
        }
        Ok(())
    }

    /// Prints how many octets follow the end of the connection.
    fn show_unread<W: Write>(&self, count: usize, out: &mut W) -> io::Result<()> {
        let place = self.came;
        writeln!(
            out,
            "{place:>4}  {count} octets after the end -> ignored: no connection is open"
        )
    }

    /// Lets the link process an octet. The desk then has the event that the octet completed, if it completed one.
    fn serve_octet(&mut self, octet: u8, desk: &mut SiteDesk) {
        desk.forget();
        self.wire.offer(octet);
        let _ = self.link.serve(&mut self.wire, desk, &mut OpenGate);
    }

    /// Processes an octet. Prints the frame or the fault that it completes, with the verdict.
    fn receive_octet<W: Write>(
        &mut self,
        octet: u8,
        desk: &mut SiteDesk,
        out: &mut W,
    ) -> io::Result<()> {
        let step = self.cutter.feed_byte(octet);
        self.serve_octet(octet, desk);
        let place = self.came;
        self.came = place.saturating_add(1);
        match step {
            Step::Need => Ok(()),
            Step::Frame(frame) => self.show_frame(&frame, desk, out),
            Step::Fault(cause) => {
                let verdict = self.verdict(desk)?;
                writeln!(
                    out,
                    "{place:>4}  fault at octet {octet:02X}: {cause} -> {verdict}"
                )
            }
        }
    }

    /// Prints a frame with the verdict, the meaning of its word, and the acts of the site.
    fn show_frame<W: Write>(
        &mut self,
        frame: &FrameIn,
        desk: &mut SiteDesk,
        out: &mut W,
    ) -> io::Result<()> {
        let begins = self.begins;
        self.begins = self.came;
        let verdict = self.verdict(desk)?;
        writeln!(out, "{begins:>4}  {frame} -> {verdict}")?;
        show_word_in(frame, out)?;
        show_newest(desk, out)
    }

    /// Returns the verdict on the frame, or the fault, that the newest octet completed.
    fn verdict(&self, desk: &mut SiteDesk) -> io::Result<Verdict> {
        if !self.is_live() {
            return Ok(verdict_of_end(self.link.closing(), self.whose));
        }
        let newest = desk.newest();
        verdict_of_event(desk, &newest).map_err(memory_error)
    }

    /// Prints the number of octets of an incomplete frame, if the connection is open.
    fn show_rest<W: Write>(&self, out: &mut W) -> io::Result<()> {
        let begins = self.begins;
        let rest = self.came.saturating_sub(begins);
        if rest > 0 && self.is_live() {
            writeln!(
                out,
                "{begins:>4}  {rest} octets of a frame that isn't whole -> ignored: more octets must come"
            )?;
        }
        Ok(())
    }
}
