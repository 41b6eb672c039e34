//! The notes of terms.

use crate::clock::milliseconds;
use crate::ends::Connections;
use crate::notes::Notes;
use crate::port_watch::PortWatch;
use crate::wakers::Wakers;
use dmr_keeper::TermCounts;
use dmr_port::{NoteLimit, NoteVerdict};
use log::Log;
use std::fmt;
use std::time::Clock;

/// What happened in a term, or in several.
#[derive(Clone, Copy, Debug)]
pub struct Happened {
    /// What the journals show.
    pub counts: TermCounts,
    /// The connections of the ports.
    pub connections: Connections,
}

impl Happened {
    /// Nothing happened.
    const NOTHING: Happened = Happened {
        counts: TermCounts::NONE,
        connections: Connections::NONE,
    };

    /// Adds what happened in another term. A count that is noted stays at its greatest.
    fn add_all(&mut self, other: &Happened) {
        let (counts, more) = (&mut self.counts, &other.counts);
        counts.entries = counts.entries.saturating_add(more.entries);
        counts.polls = counts.polls.saturating_add(more.polls);
        counts.heard = counts.heard.saturating_add(more.heard);
        counts.noise = counts.noise.saturating_add(more.noise);
        counts.registrations = counts.registrations.saturating_add(more.registrations);
        counts.refusals = counts.refusals.saturating_add(more.refusals);
        self.connections.add_all(&other.connections);
    }
}

impl fmt::Display for Happened {
    fn fmt<W: fmt::Write>(&self, f: &mut fmt::Formatter<W>) -> fmt::Result {
        let counts = &self.counts;
        let ports = &self.connections;
        write!(
            f,
            "{} entries, {} polls, {} bursts, {} noise, {} registrations, {} refusals; ",
            counts.entries,
            counts.polls,
            counts.heard,
            counts.noise,
            counts.registrations,
            counts.refusals
        )?;
        write!(
            f,
            "ports: {} connections, {} refused, ended: {}",
            ports.served, ports.refused, ports.ends
        )
    }
}

/// Notes the end of each term, at most twenty in a minute. The counts of those after them go into one note. It also makes
/// the wakers ready for the next term.
#[derive(Drop)]
pub struct TermLog<'a, R> {
    rt: &'a R,
    notes: Notes<'a, R>,
    wakers: &'a Wakers,
    limit: NoteLimit,
    // The counts of the terms that were not noted, together.
    dropped: Happened,
    // All connections up to the end of the last term.
    before: Connections,
}

impl<'a, R: Log + Clock> TermLog<'a, R> {
    /// Makes a log in which no term has been noted.
    pub fn new(rt: &'a R, notes: Notes<'a, R>, wakers: &'a Wakers) -> TermLog<'a, R> {
        TermLog {
            rt,
            notes,
            wakers,
            limit: NoteLimit::new(),
            dropped: Happened::NOTHING,
            before: Connections::NONE,
        }
    }

    /// Notes the address at which a port listens, if that is known.
    pub fn note_listening<'b>(&mut self, port: &PortWatch<'b, R>) {
        if let Some(address) = port.address {
            self.notes.note_listening(port.whose, address);
        }
    }

    /// Notes that a term was audited. `connections` are all of its ports so far, in earlier terms too.
    pub fn note_term(&mut self, counts: TermCounts, connections: &Connections) {
        self.wakers.make_ready();
        let term = Happened {
            counts,
            connections: connections.since(&self.before),
        };
        self.before = *connections;
        let now = milliseconds(self.rt).unwrap_or(0);
        match self.limit.count(now) {
            NoteVerdict::Write => self.notes.note_term(&term),
            NoteVerdict::WriteAfter(terms) => {
                self.notes.more_terms_ended(terms, &self.dropped);
                self.dropped = Happened::NOTHING;
                self.notes.note_term(&term);
            }
            NoteVerdict::Drop => self.dropped.add_all(&term),
        }
    }
}
