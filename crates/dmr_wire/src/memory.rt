//! A port in memory.

ghost use Rattle.std.specs.Prelude.{◌≡◌, ◌+◌, ◌<◌, ◌≤◌, ◌++◌, ◌∷◌, [], length, drop, map};
ghost use Rattle.std.specs.Prelude.{option_map, slice_index_or, IfOk, IfErr};
ghost use Rattle.dmr_wire.specs.Answers.{Reports, GotWithin, PutWithin, of_read, of_write};
ghost use Rattle.dmr_wire.specs.Answers.{of_connect, of_wait};
ghost use Rattle.dmr_wire.specs.Recording.{empty_recording, recording_with, reported_by, taken_in};
ghost use Rattle.dmr_wire.specs.Entries.{entry_of_answer};
ghost use Rattle.dmr_wire.specs.Memory.{next_got, next_octets, reads_left, next_put};
ghost use Rattle.dmr_wire.specs.Script.{memory_of};
ghost use Rattle.dmr_wire.specs.Sorting.{HasRoom, IsEmpty};

use crate::port::{Connect, Port, Waited};
use crate::recording::{RecordEntry, Recording};
use crate::script::{Script, read_next};
use crate::step::Step;
use crate::wire::{Got, Put, Wire};
use dmr_pdu::OutOfMemory;
use std::alloc::Global;
use std::marker::Model;

/// A port that answers by steps, each for the next call of its kind. If no step of the kind is left, a connect answers
/// `Finished`, a read `End`, a write takes all octets, and a wait answers `Silent`. Steps belong to no connection: the
/// next connection uses those that one leaves.
///
/// The port reports its record while that has at most `room` answers and at most `room` octets, those that came and
/// those that were taken together. After the first answer that exceeds either limit it reports none, but still answers.
/// Contracts see the remaining steps, by kind, and the record.
#[derive(Debug, Drop)]
pub struct MemoryPort {
    script: Script,
    recording: Recording,
}

impl Model for MemoryPort {
    ghost use Rattle.dmr_wire.specs.Memory.{Memory, AreReadings};

    ghost Value = { Memory };

    ghost view = { λ p. record {
      connects = p.script.connects.items;
      reads = p.script.reads.items;
      writes = p.script.writes.items;
      waits = p.script.waits.items;
      recording = p.recording;
    } };

    ghost invariant = { λ p. AreReadings p.script.reads.items };
}

impl MemoryPort {
    /// Makes a port of these steps, with room for a record of `room` answers and `room` octets. No later call allocates
    /// memory. On an error an allocation was refused; the error returns the steps unchanged.
    pub fn new(
        alloc: Global,
        steps: Vec<Step>,
        room: usize,
    ) -> Result<MemoryPort, (OutOfMemory, Vec<Step>)>
        ensures ok { IfOk result (λ port. port ≡ memory_of steps.items room) }
        ensures err { IfErr result (λ refused. refused.1 ≡ steps) }
    {
        match room_for(alloc, steps.len(), room) {
            Ok((mut script, recording)) => {
                script.add_all(steps);
                Ok(MemoryPort { script, recording })
            }
            Err(refused) => Err((refused, steps)),
        }
    }

    /// The octets that were taken, in order. After the record is over, they are those that were taken before.
    pub fn taken(&self) -> &[u8]
        ensures { result.now ≡ taken_in self.now.recording.answers }
    {
        self.recording.taken()
    }

    /// The entries of the record, oldest first: each call and its answer, without its octets. `None` if the port no
    /// longer reports a record.
    pub fn entries(&self) -> Option<&[RecordEntry]>
        ensures { option_map (λ entries. entries.now) result
            ≡ option_map (map entry_of_answer) (reported_by self.now.recording) }
    {
        self.recording.entries()
    }
}

impl Wire for MemoryPort {
    ghost reported = { λ port. reported_by port.recording };

    /// Answers by the next step for reads. The octets of the slice after those that came are unchanged.
    fn read(&mut self, octets: &mut [u8]) -> Got
        requires { 0 < length octets.old }
        ensures within { GotWithin result (length octets.new) }
        ensures reported { Reports (reported_by self.old.recording) (of_read result octets.new ∷ [])
            (reported_by self.new.recording) }
        ensures got { result ≡ next_got self.old.reads (length octets.old) }
        ensures octets { let given = next_octets self.old.reads (length octets.old) in
            octets.new ≡ given ++ drop (length given) octets.old }
        ensures port { self.new ≡ record self.old {
          reads = reads_left self.old.reads (length octets.old);
          recording = recording_with self.old.recording (of_read result octets.new);
        } }
    {
        let got = read_next(&mut self.script.reads, octets);
        self.recording.add_answer(RecordEntry::Read(got), octets);
        got
    }

    /// Answers by the next step for writes.
    fn write(&mut self, octets: &[u8]) -> Put
        requires { 0 < length octets.now }
        ensures within { PutWithin result (length octets.now) }
        ensures reported { Reports (reported_by self.old.recording)
            (of_write result octets.now ∷ []) (reported_by self.new.recording) }
        ensures put { result ≡ next_put self.old.writes (length octets.now) }
        ensures port { self.new ≡ record self.old {
          writes = drop 1 self.old.writes;
          recording = recording_with self.old.recording (of_write result octets.now);
        } }
    {
        let put = match self.script.writes.pop_front() {
            None => Put::Octets(octets.len()),
            Some(Put::Octets(count)) => Put::Octets(count.min(octets.len())),
            Some(answer) => answer,
        };
        self.recording.add_answer(RecordEntry::Write(put), octets);
        put
    }
}

impl Port for MemoryPort {
    /// Answers by the next step for connects.
    fn connect(&mut self) -> Connect
        ensures reported { Reports (reported_by self.old.recording) (of_connect result ∷ [])
            (reported_by self.new.recording) }
        ensures connect { result ≡ slice_index_or self.old.connects 0 Connect.Finished }
        ensures port { self.new ≡ record self.old {
          connects = drop 1 self.old.connects;
          recording = recording_with self.old.recording (of_connect result);
        } }
    {
        let connects = &mut self.script.connects;
        let connect = connects.pop_front().unwrap_or(Connect::Finished);
        self.recording
            .add_answer(RecordEntry::Connect(connect), &[]);
        connect
    }

    /// Answers by the next step for waits.
    fn wait(&mut self) -> Waited
        ensures reported { Reports (reported_by self.old.recording) (of_wait result ∷ [])
            (reported_by self.new.recording) }
        ensures waited { result ≡ slice_index_or self.old.waits 0 Waited.Silent }
        ensures port { self.new ≡ record self.old {
          waits = drop 1 self.old.waits;
          recording = recording_with self.old.recording (of_wait result);
        } }
    {
        let waits = &mut self.script.waits;
        let waited = waits.pop_front().unwrap_or(Waited::Silent);
        self.recording.add_answer(RecordEntry::Wait(waited), &[]);
        waited
    }
}

/// Allocates room for `steps` steps, and for a record of `room` answers and `room` octets. On an error an allocation
/// was refused.
fn room_for(alloc: Global, steps: usize, room: usize) -> Result<(Script, Recording), OutOfMemory>
    ensures room { IfOk result (λ made. HasRoom made.0 steps) }
    ensures none { IfOk result (λ made. IsEmpty made.0) }
    ensures recording { IfOk result (λ made. made.1 ≡ empty_recording room) }
{
    let script = Script::new(alloc, steps)?;
    let recording = Recording::new(alloc, room)?;
    Ok((script, recording))
}
