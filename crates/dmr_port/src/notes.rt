//! Notes: what a port reports to the operator's log.

use crate::cause::CloseCause;
use std::net::SocketAddr;
use std::{fmt, io};

/// An event of a port for the operator's log.
#[derive(Clone, Copy, Debug)]
pub enum Note<'a> {
    /// A connection is served from now on. If it cannot be polled, `CannotAccept` and `Ended` follow at once.
    Connected {
        /// The address of the other side.
        from: SocketAddr,
    },
    /// The connection has ended, for this cause.
    Ended {
        /// The address of the other side.
        from: SocketAddr,
        /// Why it ended.
        cause: CloseCause,
    },
    /// A newcomer waits while another connection is served; `count` newcomers wait.
    Waits {
        /// The newcomer's address.
        from: SocketAddr,
        /// How many newcomers wait, this one included.
        count: usize,
    },
    /// A newcomer was closed, since nine newcomers were too many.
    Refused {
        /// The newcomer's address.
        from: SocketAddr,
    },
    /// The connection yields its place to a newcomer that sent this carrier's HELLO. No octet came from it for `quiet`
    /// milliseconds.
    Displaced {
        /// The address of the connection.
        from: SocketAddr,
        /// The newcomer's address.
        by: SocketAddr,
        /// The milliseconds without an octet.
        quiet: u32,
    },
    /// Connections cannot be accepted for now, or a newcomer cannot be polled.
    CannotAccept(&'a io::Error),
    /// Connections can be accepted again.
    AcceptsAgain,
    /// `count` notes of a kind were not written, since there were too many.
    More {
        /// The kind.
        kind: NoteKind,
        /// How many notes.
        count: u32,
    },
}

/// The kinds of notes. The number of notes a minute is limited for each kind.
#[derive(Clone, Copy, Debug, PartialEq, Eq)]
pub enum NoteKind {
    /// A connection is served.
    Connected,
    /// A connection has ended.
    Ended,
    /// A newcomer waits.
    Waits,
    /// A newcomer was closed.
    Refused,
    /// A connection yields its place to a newcomer.
    Displaced,
    /// Connections cannot be accepted, or can be again.
    Accepting,
}

/// Writes a port's notes somewhere.
pub trait PortNotes {
    /// Counts a note, before the limit decides whether it is written. By default it does nothing.
    fn count(&mut self, note: &Note<'_>) {
        let _ = note;
    }

    /// Writes a note. If it cannot be written at once, it is dropped.
    fn write(&mut self, note: &Note<'_>);
}

impl Note<'_> {
    /// Returns the note's kind.
    pub fn kind(&self) -> NoteKind {
        match self {
            Note::Connected { .. } => NoteKind::Connected,
            Note::Ended { .. } => NoteKind::Ended,
            Note::Waits { .. } => NoteKind::Waits,
            Note::Refused { .. } => NoteKind::Refused,
            Note::Displaced { .. } => NoteKind::Displaced,
            Note::CannotAccept(_) | Note::AcceptsAgain => NoteKind::Accepting,
            Note::More { kind, count: _ } => *kind,
        }
    }
}

impl fmt::Display for NoteKind {
    fn fmt<W: fmt::Write>(&self, f: &mut fmt::Formatter<W>) -> fmt::Result {
        f.write_str(match self {
            NoteKind::Connected => "connected",
            NoteKind::Ended => "disconnected",
            NoteKind::Waits => "waiting",
            NoteKind::Refused => "refused",
            NoteKind::Displaced => "displaced",
            NoteKind::Accepting => "taking connections",
        })
    }
}

impl fmt::Display for Note<'_> {
    fn fmt<W: fmt::Write>(&self, f: &mut fmt::Formatter<W>) -> fmt::Result {
        match self {
            Note::Connected { from } => write!(f, "{from} connected"),
            Note::Ended { from, cause } => write!(f, "{from} disconnected: {cause}"),
            Note::Waits { from, count } => write!(f, "{from} waits, {count} waiting"),
            Note::Refused { from } => write!(f, "{from} refused: too many wait"),
            Note::Displaced { from, by, quiet } => {
                write!(f, "{from} yields its place to {by}, quiet for {quiet} ms")
            }
            Note::CannotAccept(error) => write!(f, "cannot take connections: {error}"),
            Note::AcceptsAgain => write!(f, "takes connections again"),
            Note::More { kind, count } => write!(f, "{count} more notes: {kind}"),
        }
    }
}
