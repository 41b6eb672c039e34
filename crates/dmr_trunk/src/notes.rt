//! Notes: the serving program's log, on standard error.

use crate::not_served::NotServed;
use crate::script::ScriptFileFault;
use crate::term_log::Happened;
use dmr_command::VERSION;
use dmr_keeper::{KeepFault, MOST_WAITING};
use dmr_port::{Note, Whose};
use dmr_recording::RecordingFault;
use dmr_registry::MOST_RADIOS;
use log::{Log, info, warn};
use mio::unix::SourceFd;
use mio::{Events, Interest, Poll, Token};
use std::alloc::Global;
use std::io;
use std::net::{Net, SocketAddr};
use std::time::Duration;

/// The descriptor of standard error.
const STANDARD_ERROR: i32 = 2;

/// The target of the notes in the log.
const TARGET: &str = "dmr_trunk";

/// The noun for a number of terms.
fn noun_of_terms(count: u64) -> &'static str {
    if count == 1 { "term" } else { "terms" }
}

/// Writes notes to standard error, by the runtime's log. A note is written only if standard error takes it at once;
/// otherwise it is dropped. So a reader of notes that is slow, or does not read, does not delay the program.
#[derive(Drop)]
pub struct Notes<'a, R> {
    rt: &'a R,
    poll: Poll,
    events: Events,
    // Whether standard error can be polled. A file cannot; it takes notes at once.
    waits: bool,
}

impl<'a, R: Log> Notes<'a, R> {
    /// Allocates memory for the polling of standard error. The error is `OutOfMemory`, or `NoPoll` if there is no poll;
    /// it is noted why.
    pub fn new(rt: &'a R, alloc: Global) -> Result<Notes<'a, R>, NotServed>
    where
        R: Net,
    {
        let events = Events::with_capacity(alloc, 1)?;
        let poll = match Poll::new(rt) {
            Ok(poll) => poll,
            Err(error) => {
                // Nobody is served yet, so nobody waits if standard error does not take this.
                warn!(*rt; target: TARGET, "cannot poll: {error}");
                return Err(NotServed::NoPoll);
            }
        };
        let waits = poll
            .registry()
            .register(&mut SourceFd(&STANDARD_ERROR), Token(0), Interest::WRITABLE)
            .is_ok();
        Ok(Notes {
            rt,
            poll,
            events,
            waits,
        })
    }

    /// Whether standard error takes a line at once.
    fn is_ready(&mut self) -> bool {
        if !self.waits {
            return true;
        }
        // After a new registration the poll reports standard error again if it is ready now.
        let asked = self.poll.registry().reregister(
            &mut SourceFd(&STANDARD_ERROR),
            Token(0),
            Interest::WRITABLE,
        );
        if asked.is_err() {
            return false;
        }
        if self
            .poll
            .poll(&mut self.events, Some(Duration::ZERO))
            .is_err()
        {
            return false;
        }
        self.events.iter().any(|event| event.is_writable())
    }

    /// Notes that the program begins to serve the site of a site file with `carriers` carriers.
    pub fn note_start(&mut self, site_file: &str, carriers: usize) {
        if self.is_ready() {
            let noun = if carriers == 1 { "carrier" } else { "carriers" };
            info!(*self.rt; target: TARGET, "{TARGET} {VERSION}: site file {site_file}, {carriers} {noun}");
        }
    }

    /// Notes that the program listens at a port.
    pub fn note_listening(&mut self, whose: Whose, address: SocketAddr) {
        if self.is_ready() {
            info!(*self.rt; target: TARGET, "{whose}: listening on {address}");
        }
    }

    /// Notes why the program has no poll.
    pub fn cannot_poll(&mut self, error: &io::Error) {
        if self.is_ready() {
            warn!(*self.rt; target: TARGET, "cannot poll: {error}");
        }
    }

    /// Notes why the program cannot listen at an address.
    pub fn cannot_listen(&mut self, whose: Whose, address: SocketAddr, error: &io::Error) {
        if self.is_ready() {
            warn!(*self.rt; target: TARGET, "{whose}: cannot listen on {address}: {error}");
        }
    }

    /// Notes what a port reports.
    pub fn of_port(&mut self, whose: Whose, note: &Note<'_>) {
        if self.is_ready() {
            match note {
                Note::CannotAccept(_) => warn!(*self.rt; target: TARGET, "{whose}: {note}"),
                _ => info!(*self.rt; target: TARGET, "{whose}: {note}"),
            }
        }
    }

    /// Notes that the port of the control carrier has no connection any more.
    pub fn control_lost(&mut self, whose: Whose) {
        if self.is_ready() {
            warn!(*self.rt; target: TARGET, "{whose}: the control carrier has no connection, so no radio is served");
        }
    }

    /// Notes that the port of the control carrier has a connection again.
    pub fn control_back(&mut self, whose: Whose) {
        if self.is_ready() {
            info!(*self.rt; target: TARGET, "{whose}: the control carrier has a connection again");
        }
    }

    /// Notes that a connection is served that had to wait.
    pub fn connected_after(&mut self, whose: Whose, from: SocketAddr, milliseconds: u64) {
        if self.is_ready() {
            info!(*self.rt; target: TARGET, "{whose}: {from} connected, waited {milliseconds} ms");
        }
    }

    /// Notes that a newcomer waits for the connection that is served, and how many wait with it.
    pub fn waits_for(&mut self, whose: Whose, from: SocketAddr, served: SocketAddr, count: usize) {
        if self.is_ready() {
            info!(*self.rt; target: TARGET, "{whose}: {from} waits for {served}, {count} waiting");
        }
    }

    /// Notes that notes of a kind were not written, since there were too many.
    pub fn more(&mut self, count: u32, kind: &str) {
        if self.is_ready() {
            info!(*self.rt; target: TARGET, "{count} more notes: {kind}");
        }
    }

    /// Notes by how many milliseconds a tick was late. The ticks that were missed meanwhile are dropped.
    pub fn clock_delayed(&mut self, milliseconds: u64) {
        if self.is_ready() {
            warn!(*self.rt; target: TARGET, "the clock was delayed by {milliseconds} ms, and goes on from now");
        }
    }

    /// Notes that a term was audited.
    pub fn note_term(&mut self, term: &Happened) {
        if self.is_ready() {
            info!(*self.rt; target: TARGET, "term ended: {term}");
        }
    }

    /// Notes that terms were audited that were not noted, with their counts together.
    pub fn more_terms_ended(&mut self, count: u32, terms: &Happened) {
        if self.is_ready() {
            info!(*self.rt; target: TARGET, "{count} more terms ended: {terms}");
        }
    }

    /// Notes how many radios are registered at the start, since they were at the end of the last term that was kept.
    pub fn restored(&mut self, radios: usize) {
        if self.is_ready() {
            let noun = if radios == 1 { "radio" } else { "radios" };
            info!(*self.rt; target: TARGET, "records: {radios} {noun} registered again");
        }
    }

    /// Notes that the file has more radios than a site may have.
    pub fn too_many_radios(&mut self) {
        if self.is_ready() {
            warn!(*self.rt; target: TARGET, "records: {MOST_RADIOS} radios registered again, the file has more");
        }
    }

    /// Notes why the radios that were registered are not known.
    pub fn cannot_restore(&mut self, fault: KeepFault) {
        if self.is_ready() {
            warn!(*self.rt; target: TARGET, "records: no radio is registered again: {fault}");
        }
    }

    /// Notes why the folder of the records is not locked.
    pub fn not_locked(&mut self, error: &io::Error) {
        if self.is_ready() {
            warn!(*self.rt; target: TARGET, "records: the folder is not locked: {error}");
        }
    }

    /// Notes why the records of a term were not kept. They are kept for the next try.
    pub fn cannot_keep(&mut self, fault: KeepFault) {
        if self.is_ready() {
            warn!(*self.rt; target: TARGET, "records: not kept, trying again with each term: {fault}");
        }
    }

    /// Notes that records are kept again, and of how many terms they were lost.
    pub fn kept_again(&mut self, lost: u64) {
        if self.is_ready() {
            let noun = noun_of_terms(lost);
            info!(*self.rt; target: TARGET, "records: kept again, lost: those of {lost} {noun}");
        }
    }

    /// Notes that too many records wait, so that the oldest are lost.
    pub fn records_lost(&mut self) {
        if self.is_ready() {
            warn!(*self.rt; target: TARGET, "records: those of {MOST_WAITING} terms wait, the oldest are lost");
        }
    }

    /// Notes that there is no memory for the records of a term, and that they are made as soon as there is.
    pub fn no_memory_for_records(&mut self) {
        if self.is_ready() {
            warn!(*self.rt; target: TARGET, "records: no memory, trying again each second");
        }
    }

    /// Notes that a term has no records, since the ticks of all terms do not fit in 64 bits.
    pub fn no_records(&mut self) {
        if self.is_ready() {
            warn!(*self.rt; target: TARGET, "records: none of this term, the ticks of all terms do not fit");
        }
    }

    /// Notes why the recording has ended: an event cannot be recorded, or memory ran out.
    pub fn cannot_record(&mut self, fault: &RecordingFault) {
        if self.is_ready() {
            warn!(*self.rt; target: TARGET, "recording: ended: {fault}");
        }
    }

    /// Notes why the recording has ended: its script takes no more lines.
    pub fn recording_ended(&mut self, fault: ScriptFileFault) {
        if self.is_ready() {
            warn!(*self.rt; target: TARGET, "recording: ended: {fault}");
        }
    }

    /// Notes that there is no memory for the term after `done` terms, and that it is tried again.
    pub fn note_no_memory(&mut self, done: u64) {
        if self.is_ready() {
            let noun = noun_of_terms(done);
            warn!(*self.rt; target: TARGET, "no memory for the term after {done} {noun}, trying again each second");
        }
    }

    /// Notes that a term has run for which there was no memory at first, and how many tries failed.
    pub fn note_memory(&mut self, tries: u64) {
        if self.is_ready() {
            info!(*self.rt; target: TARGET, "there is memory again, a term has run, failed tries: {tries}");
        }
    }

    /// Notes that serving stopped, and how many terms ran before the one that failed.
    pub fn note_stopped(&mut self, done: u64) {
        if self.is_ready() {
            let noun = noun_of_terms(done);
            warn!(*self.rt; target: TARGET, "serving stopped after {done} {noun}");
        }
    }
}
