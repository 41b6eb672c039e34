//! A port's notes, with the limit of each kind.

use crate::note_limit::{NoteLimit, NoteVerdict};
use crate::notes::{Note, NoteKind, PortNotes};

/// Writes the notes of a port, at most 20 a minute of each kind. The first note of a kind after that minute follows the
/// number of those that were not written.
#[derive(Drop)]
pub struct PortLog<N> {
    notes: N,
    connected: NoteLimit,
    ended: NoteLimit,
    waits: NoteLimit,
    refused: NoteLimit,
    displaced: NoteLimit,
    accepting: NoteLimit,
}

impl<N: PortNotes> PortLog<N> {
    /// Makes a log in which nothing has been noted.
    pub fn new(notes: N) -> PortLog<N> {
        PortLog {
            notes,
            connected: NoteLimit::new(),
            ended: NoteLimit::new(),
            waits: NoteLimit::new(),
            refused: NoteLimit::new(),
            displaced: NoteLimit::new(),
            accepting: NoteLimit::new(),
        }
    }

    /// Returns what the notes are written to.
    pub fn notes(&self) -> &N {
        &self.notes
    }

    /// Returns what the notes are written to, and ends the log.
    pub fn into_notes(self) -> N {
        self.notes
    }

    /// Returns what is done with a note of a kind, and counts it.
    fn count(&mut self, kind: NoteKind, now: u64) -> NoteVerdict {
        match kind {
            NoteKind::Connected => self.connected.count(now),
            NoteKind::Ended => self.ended.count(now),
            NoteKind::Waits => self.waits.count(now),
            NoteKind::Refused => self.refused.count(now),
            NoteKind::Displaced => self.displaced.count(now),
            NoteKind::Accepting => self.accepting.count(now),
        }
    }

    /// Writes a note, unless there were too many of its kind.
    pub fn write(&mut self, now: u64, note: &Note<'_>) {
        self.notes.count(note);
        let kind = note.kind();
        match self.count(kind, now) {
            NoteVerdict::Write => self.notes.write(note),
            NoteVerdict::WriteAfter(count) => {
                self.notes.write(&Note::More { kind, count });
                self.notes.write(note);
            }
            NoteVerdict::Drop => {}
        }
    }
}
