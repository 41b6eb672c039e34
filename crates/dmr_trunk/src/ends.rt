//! How often connections came and ended, for the note of a term.

use dmr_port::{CloseCause, Note};
use std::fmt;

/// The causes that are counted one by one. All faults of the link, and refused HELLOs, are counted together.
const PLAIN: [CloseCause; 11] = [
    CloseCause::EndOfInput,
    CloseCause::Bye,
    CloseCause::Silence,
    CloseCause::NoHello,
    CloseCause::OpenLine,
    CloseCause::Displaced,
    CloseCause::Http,
    CloseCause::NotRead,
    CloseCause::ReadFault,
    CloseCause::WriteFault,
    CloseCause::Controller,
];

/// The connections of one port or of several: how many were served, how many were refused, and how many ended for which
/// cause.
#[derive(Clone, Copy, Debug)]
pub struct Connections {
    /// Connections that were served.
    pub served: u64,
    /// Newcomers that were closed, since too many waited.
    pub refused: u64,
    /// The ends of served connections, by cause.
    pub ends: Ends,
}

/// The ends of connections.
#[derive(Clone, Copy, Debug)]
pub struct Ends {
    /// Those for each of the plain causes.
    plain: [u64; 11],
    /// Those for faults of the link.
    link_faults: u64,
}

impl Ends {
    /// No connection has ended.
    const NONE: Ends = Ends {
        plain: [0; 11],
        link_faults: 0,
    };

    /// Counts the end of a connection.
    fn add(&mut self, cause: CloseCause) {
        match PLAIN.iter().position(|plain| *plain == cause) {
            Some(place) => self.plain[place] = self.plain[place].saturating_add(1),
            None => self.link_faults = self.link_faults.saturating_add(1),
        }
    }

    /// Adds the ends of others.
    fn add_all(&mut self, others: &Ends) {
        for place in 0..PLAIN.len() {
            self.plain[place] = self.plain[place].saturating_add(others.plain[place]);
        }
        self.link_faults = self.link_faults.saturating_add(others.link_faults);
    }

    /// Returns the ends since earlier ones were counted.
    fn since(&self, earlier: &Ends) -> Ends {
        let mut ends = *self;
        for place in 0..PLAIN.len() {
            ends.plain[place] = ends.plain[place].saturating_sub(earlier.plain[place]);
        }
        ends.link_faults = ends.link_faults.saturating_sub(earlier.link_faults);
        ends
    }
}

impl Connections {
    /// No connection has come.
    pub const NONE: Connections = Connections {
        served: 0,
        refused: 0,
        ends: Ends::NONE,
    };

    /// Counts what a port notes.
    pub fn add(&mut self, note: &Note<'_>) {
        match note {
            Note::Connected { .. } => self.served = self.served.saturating_add(1),
            Note::Refused { .. } => self.refused = self.refused.saturating_add(1),
            Note::Ended { from: _, cause } => self.ends.add(*cause),
            _ => {}
        }
    }

    /// Adds the connections of others.
    pub fn add_all(&mut self, others: &Connections) {
        self.served = self.served.saturating_add(others.served);
        self.refused = self.refused.saturating_add(others.refused);
        self.ends.add_all(&others.ends);
    }

    /// Returns the connections since earlier ones were counted.
    pub fn since(&self, earlier: &Connections) -> Connections {
        Connections {
            served: self.served.saturating_sub(earlier.served),
            refused: self.refused.saturating_sub(earlier.refused),
            ends: self.ends.since(&earlier.ends),
        }
    }
}

/// Writes each cause for which a connection ended, after their number; `none` if none ended.
impl fmt::Display for Ends {
    fn fmt<W: fmt::Write>(&self, f: &mut fmt::Formatter<W>) -> fmt::Result {
        let mut is_first = true;
        for (count, cause) in self.plain.iter().zip(PLAIN.iter()) {
            if *count > 0 {
                if !is_first {
                    write!(f, ", ")?;
                }
                write!(f, "{count} {cause}")?;
                is_first = false;
            }
        }
        if self.link_faults > 0 {
            if !is_first {
                write!(f, ", ")?;
            }
            write!(f, "{} link fault", self.link_faults)?;
            is_first = false;
        }
        if is_first {
            write!(f, "none")?;
        }
        Ok(())
    }
}
