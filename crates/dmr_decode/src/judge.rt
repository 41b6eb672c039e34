//! A judged site: the controller's links over a site of its own, which say what the controller makes of each input.

use crate::desk::SiteDesk;
use crate::judged_carrier::{JudgedCarrier, memory_error};
use crate::kept::push;
use crate::octet_wire::OctetWire;
use crate::rows::{Form, show_reply};
use crate::shown::Shown;
use dmr_core::Event;
use dmr_link::{ConsoleLink, Desk};
use dmr_pdu::{CarrierNo, OutOfMemory};
use dmr_plan::{MOST_CARRIERS, Plan};
use dmr_replay::ScriptInput;
use std::alloc::{AllocError, Global};
use std::io;
use std::io::Write;

/// A site on which nothing has happened at first, its carriers by number, and the operators' link.
#[derive(Drop)]
pub struct Judge {
    desk: SiteDesk,
    carriers: Vec<Option<JudgedCarrier>>,
    console: ConsoleLink,
}

/// Returns the operators' link, with a connection.
fn open_console() -> ConsoleLink {
    let mut console = ConsoleLink::new();
    let _ = console.open();
    console
}

/// Returns the carrier with a number, if the plan has it.
fn carrier_in(
    carriers: &mut [Option<JudgedCarrier>],
    carrier: CarrierNo,
) -> Option<&mut JudgedCarrier> {
    carriers.get_mut(carrier.get() as usize)?.as_mut()
}

impl Judge {
    /// Makes the judge of a plan's site, without carriers. `Err`: out of memory.
    pub fn new(alloc: Global, plan: &Plan) -> Result<Judge, OutOfMemory> {
        let desk = SiteDesk::new(alloc, plan)?;
        Ok(Judge {
            desk,
            carriers: Vec::new(alloc),
            console: open_console(),
        })
    }

    /// Adds the plan's carriers, by number, without connections. `Err`: out of memory, and the judge is of no use.
    pub fn add_carriers(&mut self, alloc: Global, plan: &Plan) -> Result<(), AllocError> {
        for number in 0..MOST_CARRIERS as u32 {
            let carrier = JudgedCarrier::new(alloc, plan, CarrierNo::new(number));
            push(&mut self.carriers, carrier)?;
        }
        Ok(())
    }

    /// Processes the input of a line of a script. Prints the line with what the controller makes of it, or the entries
    /// that it adds to the journal.
    pub fn show_input<W: Write>(
        &mut self,
        alloc: Global,
        line: &str,
        input: &ScriptInput,
        shown: &mut Shown,
        out: &mut W,
    ) -> io::Result<()> {
        shown.begin_input(line, out)?;
        match input {
            ScriptInput::Tick(times) => self.tick(*times, shown, out),
            ScriptInput::Text(octets) => self.say(alloc, octets.as_slice(), shown, out),
            ScriptInput::Open(carrier)
            | ScriptInput::Cut(carrier)
            | ScriptInput::Bytes(carrier, _) => {
                let carriers = self.carriers.as_mut_slice();
                match carrier_in(carriers, *carrier) {
                    Some(judged) => judged.show_input(input, &mut self.desk, shown, out),
                    None => shown.show_missing(*carrier, out),
                }
            }
        }
    }

    /// Begins a connection of a carrier, and processes its octets. Prints what they mean, and the number of octets of a
    /// frame that is incomplete then.
    pub fn show_connection<W: Write>(
        &mut self,
        carrier: CarrierNo,
        octets: &[u8],
        out: &mut W,
    ) -> io::Result<()> {
        write!(out, "port of carrier {carrier} -> ")?;
        match carrier_in(self.carriers.as_mut_slice(), carrier) {
            Some(judged) => judged.show_connection(octets, &mut self.desk, out),
            None => Ok(()),
        }
    }

    /// Processes ticks. With verdicts, prints the acts for each tick that has some, with the tick's number within the
    /// line.
    fn tick<W: Write>(&mut self, times: u32, shown: &mut Shown, out: &mut W) -> io::Result<()> {
        shown.show("counted", &mut self.desk, out)?;
        for number in 0..times {
            self.desk.forget();
            let has_acts = self.desk.tick();
            if has_acts && matches!(shown, Shown::Verdicts) {
                writeln!(out, "      tick {}", number.saturating_add(1))?;
            }
            shown.show_answer(&mut self.desk, out)?;
        }
        Ok(())
    }

    /// Processes octets of an operator. With verdicts, prints the acts of the commands and then the replies.
    fn say<W: Write>(
        &mut self,
        alloc: Global,
        octets: &[u8],
        shown: &mut Shown,
        out: &mut W,
    ) -> io::Result<()> {
        shown.show("read", &mut self.desk, out)?;
        let mut wire = OctetWire::new(alloc, matches!(shown, Shown::Verdicts));
        let said = self.say_octets(octets, &mut wire, shown, out);
        drop(wire);
        said
    }

    /// Processes octets of an operator, and prints what they mean. The replies are written to the wire.
    fn say_octets<W: Write>(
        &mut self,
        octets: &[u8],
        wire: &mut OctetWire,
        shown: &mut Shown,
        out: &mut W,
    ) -> io::Result<()> {
        for octet in octets {
            self.desk.forget();
            wire.offer(*octet);
            let _ = self.console.serve(wire, &mut self.desk);
            shown.show_answer(&mut self.desk, out)?;
        }
        match shown {
            Shown::Verdicts if !self.console.live() => Err(memory_error(OutOfMemory)),
            Shown::Verdicts => show_replies(wire.written(), out),
            Shown::Entries(_) => Ok(()),
        }
    }
}

/// Prints what an operator receives, line by line.
fn show_replies<W: Write>(octets: &[u8], out: &mut W) -> io::Result<()> {
    match str::from_utf8(octets) {
        Ok(text) => show_reply(text, Form::Words, out),
        Err(_) => Ok(()),
    }
}
