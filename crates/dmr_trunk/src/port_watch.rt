//! What is noted and counted of a port.

use crate::clock::milliseconds;
use crate::ends::Connections;
use crate::notes::Notes;
use dmr_port::{Note, PortNotes, PortSettings, Whose};
use log::Log;
use std::alloc::Global;
use std::net::SocketAddr;
use std::time::Clock;

/// The most newcomers that are remembered.
const NEWCOMERS: usize = 9;

/// A newcomer that waits, and the milliseconds of the clock when it began to.
#[derive(Clone, Copy, Debug)]
struct WaitingNewcomer {
    from: SocketAddr,
    since: u64,
}

/// Writes the notes of a port, and counts its connections for the notes of terms.
#[derive(Drop)]
pub struct PortWatch<'a, R> {
    /// The owner of the port.
    pub whose: Whose,
    /// The address at which the port listens, if the system reports it.
    pub address: Option<SocketAddr>,
    /// All connections so far.
    pub connections: Connections,
    rt: &'a R,
    notes: Notes<'a, R>,
    // The connection that is served.
    served: Option<SocketAddr>,
    // For how many milliseconds it waited before that, if it had to.
    waited: Option<u64>,
    // The newcomers that wait, oldest first. One that has ended stays until there is no room for another.
    waiting: Vec<WaitingNewcomer>,
    control: Control,
}

/// What the port has to do with the control carrier.
#[derive(Clone, Copy, Debug, PartialEq, Eq)]
enum Control {
    /// It is the port of another carrier, or of operators.
    Other,
    /// It is the control carrier's, and has lost no connection, or has one again.
    Whole,
    /// It is the control carrier's, and its connection has ended.
    Lost,
    /// It is the control carrier's, and a connection has just followed one that ended.
    Back,
}

impl Control {
    /// Returns what follows when a connection is served.
    fn connected(self) -> Control {
        match self {
            Control::Other => Control::Other,
            Control::Lost => Control::Back,
            Control::Whole | Control::Back => Control::Whole,
        }
    }

    /// Returns what follows when the connection has ended.
    fn ended(self) -> Control {
        match self {
            Control::Other => Control::Other,
            Control::Whole | Control::Lost | Control::Back => Control::Lost,
        }
    }
}

impl<'a, R: Log + Clock> PortWatch<'a, R> {
    /// Makes the watch of a port with these settings that listens at an address. `is_control`: it is the port of the
    /// control carrier.
    pub fn new(
        rt: &'a R,
        alloc: Global,
        settings: &PortSettings,
        is_control: bool,
        address: Option<SocketAddr>,
        notes: Notes<'a, R>,
    ) -> PortWatch<'a, R> {
        PortWatch {
            whose: settings.whose,
            address,
            connections: Connections::NONE,
            rt,
            notes,
            served: None,
            waited: None,
            waiting: Vec::new(alloc),
            control: if is_control {
                Control::Whole
            } else {
                Control::Other
            },
        }
    }

    /// Reads the clock in milliseconds; 0 if it cannot be read.
    fn now(&self) -> u64 {
        milliseconds(self.rt).unwrap_or(0)
    }

    /// Remembers that a newcomer begins to wait.
    fn begin_wait(&mut self, from: SocketAddr) {
        let since = self.now();
        if self.waiting.len() >= NEWCOMERS {
            self.waiting.remove(0);
        }
        // If memory is out, the note that it is served will not say how long it waited.
        let _ = self.waiting.push(WaitingNewcomer { from, since });
    }

    /// Forgets a newcomer. Returns for how many milliseconds it waited, if it had to.
    fn end_wait(&mut self, from: SocketAddr) -> Option<u64> {
        let place = self.waiting.iter().position(|it| it.from == from)?;
        let since = self.waiting.remove(place).since;
        Some(self.now().saturating_sub(since))
    }
}

impl<R: Log + Clock> PortNotes for PortWatch<'_, R> {
    fn count(&mut self, note: &Note<'_>) {
        self.connections.add(note);
        match note {
            Note::Connected { from } => {
                self.waited = self.end_wait(*from);
                self.served = Some(*from);
                self.control = self.control.connected();
            }
            Note::Waits { from, .. } => self.begin_wait(*from),
            Note::Refused { from } => {
                self.end_wait(*from);
            }
            Note::Ended { .. } => {
                self.served = None;
                self.control = self.control.ended();
            }
            _ => {}
        }
    }

    fn write(&mut self, note: &Note<'_>) {
        match (note, self.waited, self.served) {
            (Note::Connected { from }, Some(waited), _) => {
                self.notes.connected_after(self.whose, *from, waited);
            }
            (Note::Waits { from, count }, _, Some(served)) => {
                self.notes.waits_for(self.whose, *from, served, *count);
            }
            _ => self.notes.of_port(self.whose, note),
        }
        match (note, self.control) {
            (Note::Ended { .. }, Control::Lost) => self.notes.control_lost(self.whose),
            (Note::Connected { .. }, Control::Back) => self.notes.control_back(self.whose),
            _ => {}
        }
    }
}
