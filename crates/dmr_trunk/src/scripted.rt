//! Recording a site: an observer appends the journal of each term that ends to a script.

ghost use Rattle.std.specs.Prelude.{string_bytes, ◌⊎◌, false, replicate};
ghost use Rattle.std.specs.Prelude.{◌≡◌, [], ◌∷◌, None, Some, IfErr, IfOk, IfSome, IsSomeAnd, OnErr, OnOk};
ghost use Rattle.dmr_desk.specs.Terms.{Sees};
ghost use Rattle.dmr_recording.specs.Events.{events_of};
ghost use Rattle.dmr_recording.specs.Recordable.{AreRecordable, IsFirstFault, up_after_all};
ghost use Rattle.dmr_trunk.specs.Scripts.{Appends, BeginsRecording, HasAppended, IsEnding};
ghost use Rattle.dmr_trunk.specs.Scripts.{IsRefusal};
ghost use Rattle.dmr_trunk.specs.Scripts.{events_at_start, lines_of};

use crate::notes::Notes;
use crate::script::{Script, ScriptFileFault};
use dmr_core::Entry;
use dmr_desk::{Observer, Term};
use dmr_pdu::Address;
use dmr_plan::Plan;
use dmr_recording::{Carriers, RecordingFault, record_journal, record_restored};
use log::Log;
use std::alloc::Global;

/// Why a recording ended.
#[derive(Clone, Copy, Debug, PartialEq, Eq)]
pub enum RecordingEnd {
    /// An event cannot be recorded, or memory ran out.
    NotRecorded(RecordingFault),
    /// The script refused lines.
    Refused(ScriptFileFault),
}

/// What records a site, if the environment asks for it.
#[derive(Drop)]
pub struct SiteRecording<'a, W, R> {
    alloc: Global,
    plan: Plan,
    up: Carriers,
    script: W,
    ending: Option<RecordingEnd>,
    notes: Notes<'a, R>,
}

/// Returns the lines of the session in which radios register; none without radios.
fn lines_at_start(alloc: Global, plan: &Plan, radios: &[Address]) -> Result<String, RecordingFault>
    ensures lines { IfOk result (λ text. string_bytes text
        ≡ lines_of plan.now (events_at_start plan.now radios.now)) }
    ensures fault { IfErr result (λ fault. (fault ≡ RecordingFault.OutOfMemory)
        ⊎ IsFirstFault plan.now (replicate 16 false) 0 (events_at_start plan.now radios.now) fault) }
{
    let mut text = String::new(alloc);
    if radios.is_empty() {
        return Ok(text);
    }
    match record_restored(alloc, plan, radios, &mut text) {
        Ok(()) => Ok(text),
        Err(fault) => Err(fault),
    }
}

impl<'a, W: Script, R: Log> SiteRecording<'a, W, R> {
    /// Begins a recording of the terms of a plan's site, on which these radios are registered. If there are any, the
    /// recording begins with a session in which they register. If these lines cannot be appended, the recording has
    /// ended, and it is noted why.
    pub fn begin(
        alloc: Global,
        plan: Plan,
        radios: &[Address],
        script: W,
        notes: Notes<'a, R>,
    ) -> SiteRecording<'a, W, R>
        ensures { BeginsRecording W.appended W.refuses plan radios.now script result }
    {
        let mut recording = SiteRecording {
            alloc,
            plan,
            up: Carriers::none_up(),
            script,
            ending: None,
            notes,
        };
        match recording.append_restored(radios) {
            Ok(()) => recording,
            Err(ending) => {
                recording.end(ending);
                recording
            }
        }
    }

    /// Appends the session in which radios register. Without radios it is empty. The error says why the recording ends.
    fn append_restored(&mut self, radios: &[Address]) -> Result<(), RecordingEnd>
        ensures same { (self.new.plan ≡ self.old.plan) × (self.new.up ≡ self.old.up)
            × (self.new.ending ≡ self.old.ending) }
        ensures appended { OnOk result (Appends (W.appended self.old.script)
            (lines_of self.old.plan (events_at_start self.old.plan radios.now))
            (W.appended self.new.script)) }
        ensures ending { IfErr result (IsEnding (W.refuses self.old.script) self.old.plan
            (replicate 16 false) (events_at_start self.old.plan radios.now)) }
    {
        match lines_at_start(self.alloc, &self.plan, radios) {
            Ok(text) => self.append(text.as_str()),
            Err(fault) => Err(RecordingEnd::NotRecorded(fault)),
        }
    }

    /// Ends the recording, and notes why.
    fn end(&mut self, ending: RecordingEnd)
        ensures ending { self.new.ending ≡ Some ending }
        ensures same { (self.new.plan ≡ self.old.plan) × (self.new.up ≡ self.old.up)
            × (self.new.script ≡ self.old.script) }
    {
        self.ending = Some(ending);
        match ending {
            RecordingEnd::NotRecorded(fault) => self.notes.cannot_record(&fault),
            RecordingEnd::Refused(fault) => self.notes.recording_ended(fault),
        }
    }

    /// Appends lines. The error says why the recording ends.
    fn append(&mut self, lines: &str) -> Result<(), RecordingEnd>
        ensures same { (self.new.plan ≡ self.old.plan) × (self.new.up ≡ self.old.up)
            × (self.new.ending ≡ self.old.ending) }
        ensures appended { OnOk result
            (Appends (W.appended self.old.script) lines.now (W.appended self.new.script)) }
        ensures unchanged { OnErr result
            (Appends (W.appended self.old.script) [] (W.appended self.new.script)) }
        ensures refused { IfErr result (IsRefusal (W.refuses self.old.script lines.now)) }
    {
        match self.script.append(lines) {
            Ok(()) => Ok(()),
            Err(fault) => Err(RecordingEnd::Refused(fault)),
        }
    }

    /// Appends the journal of a term. The error says why the recording ends, and then nothing is appended.
    fn append_journal(&mut self, journal: &[Entry]) -> Result<(), RecordingEnd>
        ensures same { (self.new.plan ≡ self.old.plan) × (self.new.ending ≡ self.old.ending) }
        ensures appended { OnOk result (Appends (W.appended self.old.script)
            (lines_of self.old.plan (events_of journal.now)) (W.appended self.new.script)) }
        ensures unchanged { OnErr result
            (Appends (W.appended self.old.script) [] (W.appended self.new.script)) }
        ensures recordable { OnOk result (AreRecordable self.old.plan self.old.up (events_of journal.now)) }
        ensures up { OnOk result (self.new.up ≡ up_after_all self.old.up (events_of journal.now)) }
        ensures ending { IfErr result (IsEnding (W.refuses self.old.script) self.old.plan
            self.old.up (events_of journal.now)) }
    {
        let mut text = String::new(self.alloc);
        match record_journal(self.alloc, &self.plan, &mut self.up, journal, &mut text) {
            Ok(()) => self.append(text.as_str()),
            Err(fault) => Err(RecordingEnd::NotRecorded(fault)),
        }
    }

    /// Appends the journal of a term, unless the recording has ended. If that fails, the recording ends.
    fn record(&mut self, journal: &[Entry])
        ensures plan { self.new.plan ≡ self.old.plan }
        ensures recorded { HasAppended (W.appended self.old.script) (W.refuses self.old.script)
            self.old.plan self.old.up self.old.ending (events_of journal.now)
            (W.appended self.new.script) self.new.up self.new.ending }
    {
        if self.ending.is_some() {
            return;
        }
        if let Err(ending) = self.append_journal(journal) {
            self.end(ending);
        }
    }
}

/// An observer that also records each term, if the environment asks for it. It reports what `observer` reports.
#[derive(Drop)]
pub struct Scripted<'a, O, W, R> {
    /// The observer.
    pub observer: O,
    /// What records. `None` if nothing does.
    pub recording: Option<SiteRecording<'a, W, R>>,
}

impl<'a, S, T, C, O, W, R> Observer<S, T, C> for Scripted<'a, O, W, R>
where
    O: Observer<S, T, C>,
    W: Script,
    R: Log,
{
    ghost seen = { λ s. O.seen s.observer };

    fn ended(&mut self, term: &Term<S, T, C>)
        ensures seen { Sees (O.seen self.old.observer) (term.now.report.journal ∷ [])
            (O.seen self.new.observer) }
        ensures recorded { IfSome self.old.recording (λ before. IsSomeAnd self.new.recording (λ after.
            HasAppended (W.appended before.script) (W.refuses before.script) before.plan before.up
            before.ending (events_of term.now.report.journal) (W.appended after.script) after.up
            after.ending)) }
    {
        self.observer.ended(term);
        if let Some(recording) = &mut self.recording {
            recording.record(term.report.journal.as_slice());
        }
    }
}
