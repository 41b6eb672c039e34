//! The record of a port in memory, in room that is allocated when the record is made.

ghost use Rattle.std.specs.Prelude.{◌≡◌, ◌+◌, ◌≤◌, length, map, option_map, IfOk};
ghost use Rattle.dmr_wire.specs.Recording.{empty_recording, has_room_for, recording_with};
ghost use Rattle.dmr_wire.specs.Recording.{reported_by, taken_in};
ghost use Rattle.dmr_wire.specs.Entries.{answer_of, entry_of_answer, came_with, taken_with};

use crate::port::{Connect, Waited};
use crate::wire::{Got, Put};
use dmr_pdu::OutOfMemory;
use std::alloc::Global;
use std::marker::Model;

/// An entry of a port's record: a call and its answer. It has the number of octets that came or were taken, but not the
/// octets.
#[derive(Clone, Copy, Debug, PartialEq, Eq)]
pub enum RecordEntry {
    /// A connect and its answer.
    Connect(Connect),
    /// A read and its answer.
    Read(Got),
    /// A write and its answer.
    Write(Put),
    /// A wait, and how it ended.
    Wait(Waited),
}

impl RecordEntry {
    /// The number of octets that came with the entry.
    fn count_came(self) -> usize
        ensures { result ≡ came_with self }
    {
        match self {
            RecordEntry::Read(Got::Octets(count)) => count,
            _ => 0,
        }
    }

    /// The number of octets that were taken with the entry.
    fn count_taken(self) -> usize
        ensures { result ≡ taken_with self }
    {
        match self {
            RecordEntry::Write(Put::Octets(count)) => count,
            _ => 0,
        }
    }
}

/// The answers of a port, as long as there is room for them and for their octets. The first answer without room ends
/// the record, which then keeps the answers before it. Contracts see the list of those answers with their octets,
/// oldest first, the room, and whether the record is over.
#[derive(Debug, Drop)]
pub struct Recording {
    room: usize,
    entries: Vec<RecordEntry>,
    came: Vec<u8>,
    taken: Vec<u8>,
    is_over: bool,
}

impl Model for Recording {
    ghost use Rattle.std.specs.Prelude.{◌≤◌, ◌+◌, vec_len, vec_capacity};
    ghost use Rattle.dmr_wire.specs.Entries.{IsStored, answers_of_entries};
    ghost use Rattle.dmr_wire.specs.Recording.{Recording};

    ghost Value = { Recording };

    ghost view = { λ r. record {
      room = r.room;
      answers = answers_of_entries r.entries.items r.came.items r.taken.items;
      is_over = r.is_over;
    } };

    ghost invariant = { λ r. IsStored r.entries.items r.came.items r.taken.items
        × (vec_len r.entries ≤ r.room) × (vec_len r.came + vec_len r.taken ≤ r.room)
        × (r.room ≤ vec_capacity r.entries) × (r.room ≤ vec_capacity r.came)
        × (r.room ≤ vec_capacity r.taken) };
}

impl Recording {
    /// Makes an empty record, with room for `room` answers and for `room` of their octets. On an error an allocation
    /// was refused.
    pub fn new(alloc: Global, room: usize) -> Result<Recording, OutOfMemory>
        ensures { IfOk result (λ recording. recording ≡ empty_recording room) }
    {
        Ok(Recording {
            room,
            entries: Vec::with_capacity(alloc, room)?,
            came: Vec::with_capacity(alloc, room)?,
            taken: Vec::with_capacity(alloc, room)?,
            is_over: false,
        })
    }

    /// Notes the answer of a call. Its octets, if it has any, are the first of the slice.
    pub fn add_answer(&mut self, entry: RecordEntry, octets: &[u8])
        requires { came_with entry + taken_with entry ≤ length octets.now }
        ensures { self.new ≡ recording_with self.old (answer_of entry octets.now octets.now) }
    {
        let came = &octets[..entry.count_came()];
        let taken = &octets[..entry.count_taken()];
        if self.is_over || !self.has_room(came.len() + taken.len()) {
            self.is_over = true;
            return;
        }
        self.came.extend_from_slice(came).unwrap();
        self.taken.extend_from_slice(taken).unwrap();
        self.entries.push_reserved(entry);
    }

    /// Whether there is room for one more answer, with this many octets.
    fn has_room(&self, octets: usize) -> bool
        ensures { result ≡ has_room_for self.now octets }
    {
        self.entries.len() < self.room && octets <= self.room - self.came.len() - self.taken.len()
    }

    /// The octets that were taken with the answers, in order.
    pub fn taken(&self) -> &[u8]
        ensures { result.now ≡ taken_in self.now.answers }
    {
        self.taken.as_slice()
    }

    /// The entries of the answers, oldest first; `None` if the record is over.
    pub fn entries(&self) -> Option<&[RecordEntry]>
        ensures { option_map (λ entries. entries.now) result
            ≡ option_map (map entry_of_answer) (reported_by self.now) }
    {
        if self.is_over {
            return None;
        }
        Some(self.entries.as_slice())
    }
}
