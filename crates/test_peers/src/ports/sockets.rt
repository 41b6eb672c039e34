//! Sockets in memory: peers that do what a script says, when it says it.

ghost use Rattle.std.specs.Prelude.{◌≡◌, ◌<◌, ◌≤◌, [], None, Some, IfOk, length, map, slice_set};
ghost use Rattle.std.specs.Prelude.{take};
ghost use Rattle.std.specs.Option.{is_some};
ghost use Rattle.std.proofs.lemmas.List.{length-map};
ghost use Rattle.arrayvec.specs.ArrayVec.{array_vec_len};
ghost use Rattle.dmr_wire.specs.Answers.{GotWithin, PutWithin};

use super::answers::Answers;
use super::script::{Deed, Event};
use arrayvec::ArrayVec;
use dmr_pdu::OutOfMemory;
use dmr_port::{Accepted, Peeked, Ready, Sockets};
use dmr_wire::{Connect, Got, Put, RecordEntry};
use std::alloc::Global;
use std::collections::VecDeque;
use std::io;
use std::net::{IpAddr, Ipv4Addr, SocketAddr};

/// The system's number for "too many open files".
const TOO_MANY_OPEN_FILES: i32 = 24;

/// The most octets of a newcomer that a look finds.
const MOST_SHOWN: usize = 8;

/// The other side of a connection.
#[derive(Drop)]
struct Peer {
    /// The octets that it sent, and how many of them were read.
    octets: Vec<u8>,
    read: usize,
    has_ended: bool,
    has_reset: bool,
    /// How many octets it still takes.
    room: usize,
}

impl Peer {
    /// The octets that were not read.
    fn unread(&self) -> &[u8] {
        self.octets.get(self.read..).unwrap_or(&[])
    }

    /// Does what a deed says. If an allocation is refused, it sends no octets.
    fn apply(&mut self, deed: Deed) {
        match deed {
            Deed::Sends(octets) => {
                let _ = self.octets.extend_from_slice(octets);
            }
            Deed::Takes(count) => self.room = count,
            Deed::Ends => self.has_ended = true,
            Deed::Resets => self.has_reset = true,
            _ => {}
        }
    }
}

/// A newcomer.
#[derive(Clone, Copy)]
struct Newcomer {
    /// The number of its peer.
    peer: usize,
    /// The octets that the latest look at it found are the first of these, and their number.
    first: [u8; MOST_SHOWN],
    shown: usize,
}

impl Newcomer {
    /// The newcomer of a peer, at which nobody has looked.
    fn new(peer: usize) -> Newcomer
        ensures peer { result.peer ≡ peer }
        ensures shown { result.shown ≡ 0 }
    {
        Newcomer {
            peer,
            first: [0; MOST_SHOWN],
            shown: 0,
        }
    }
}

impl Default for Newcomer {
    fn default() -> Newcomer {
        Newcomer::new(0)
    }
}

/// What the latest wait found.
#[derive(Clone, Copy)]
struct Last {
    /// What it found.
    ready: Ready,
    /// Whether it was for sending.
    sends: bool,
    /// The time at its end.
    ended: u64,
}

/// What a port sees of sockets in memory.
#[derive(Drop)]
struct Seen {
    clock: u64,
    newcomers: ArrayVec<Newcomer, 9>,
    connection: Option<usize>,
    last: Last,
    log: Answers,
}

/// A listening socket, its connections, and a clock that goes on in waits, up to `until`. As with edge-triggered
/// sockets of the system, a wait reports a change once.
#[derive(Drop)]
pub struct MemorySockets {
    seen: Seen,
    until: u64,
    events: Vec<Event>,
    next: usize,
    peers: Vec<Peer>,
    backlog: VecDeque<usize>,
    /// What the next wait reports, for reading and for writing.
    reads: Ready,
    writes: bool,
    sends: bool,
    refuses: bool,
    interrupts: [bool; 3],
    /// The number of waits that end at once.
    storm: usize,
    /// The numbers of reads and of writes that the port asked for.
    pub asked: (usize, usize),
}

/// Nothing is ready.
const NOTHING: Ready = Ready {
    connection: false,
    input_closed: false,
    newcomers: false,
};

impl MemorySockets {
    /// Makes sockets for `count` peers, and for these events, earliest first.
    pub fn new(
        alloc: Global,
        events: Vec<Event>,
        count: usize,
        until: u64,
    ) -> Result<MemorySockets, OutOfMemory>
        ensures closed { IfOk result (λ s. s.seen.connection ≡ None) }
        ensures empty { IfOk result (λ s. array_vec_len s.seen.newcomers ≡ 0) }
        ensures log { IfOk result (λ s. s.seen.log ≡ Some []) }
    {
        let mut peers = Vec::new(alloc);
        for _ in 0..count {
            peers.push(Peer {
                octets: Vec::new(alloc),
                read: 0,
                has_ended: false,
                has_reset: false,
                room: usize::MAX,
            })?;
        }
        Ok(MemorySockets {
            seen: Seen {
                clock: 0,
                newcomers: ArrayVec::new(),
                connection: None,
                last: Last {
                    ready: NOTHING,
                    sends: false,
                    ended: 0,
                },
                log: Answers::new(alloc),
            },
            until,
            events,
            next: 0,
            peers,
            backlog: VecDeque::new(alloc),
            reads: NOTHING,
            writes: false,
            sends: false,
            refuses: false,
            interrupts: [false; 3],
            storm: 0,
            asked: (0, 0),
        })
    }

    /// The connections that the port took, and the answers to its reads and writes.
    pub fn log(&self) -> &Answers
        ensures { result.now ≡ self.now.seen.log }
    {
        &self.seen.log
    }

    /// Whether the call of a kind, 0 to 2, is interrupted, once.
    fn is_interrupted(&mut self, kind: usize) -> bool
        requires { kind < 3 }
        ensures seen { self.new.seen ≡ record self.old.seen { clock = self.new.seen.clock } }
        ensures clock { self.old.seen.clock ≤ self.new.seen.clock }
    {
        let interrupted = self.interrupts[kind];
        self.interrupts[kind] = false;
        interrupted
    }

    /// Notes a change of a peer.
    fn note_change(&mut self, peer: usize, closes: bool)
        ensures seen { self.new.seen ≡ record self.old.seen { clock = self.new.seen.clock } }
        ensures clock { self.old.seen.clock ≤ self.new.seen.clock }
    {
        if self.seen.connection == Some(peer) {
            self.reads.connection = true;
            self.writes = true;
            if closes {
                self.reads.input_closed = true;
            }
        } else {
            self.reads.newcomers = true;
        }
    }

    /// Does what an event says.
    fn apply(&mut self, event: Event)
        ensures seen { self.new.seen ≡ record self.old.seen { clock = self.new.seen.clock } }
        ensures clock { self.old.seen.clock ≤ self.new.seen.clock }
    {
        match event.deed {
            Deed::Comes => {
                let _ = self.backlog.push_back(event.peer);
                self.reads.newcomers = true;
            }
            Deed::Refuses(refuses) => self.refuses = refuses,
            Deed::Interrupts => self.interrupts = [true; 3],
            Deed::Stops(milliseconds) => {
                let now = self.seen.clock;
                self.seen.clock = now.saturating_add(milliseconds);
            }
            Deed::Storms(waits) => self.storm = waits,
            Deed::Unknown => {}
            deed => {
                if let Some(peer) = self.peers.get_mut(event.peer) {
                    peer.apply(deed);
                }
                let closes = matches!(deed, Deed::Ends | Deed::Resets);
                self.note_change(event.peer, closes);
            }
        }
    }

    /// Does what the events of the clock's time say, and of times before it.
    fn apply_due(&mut self)
        ensures seen { self.new.seen ≡ record self.old.seen { clock = self.new.seen.clock } }
        ensures clock { self.old.seen.clock ≤ self.new.seen.clock }
    {
        for _ in self.next..self.events.len() {
            let Some(event) = self.events.get(self.next).copied() else {
                return;
            };
            if event.at > self.seen.clock {
                return;
            }
            self.next = self.next.saturating_add(1);
            self.apply(event);
        }
    }

    /// The answer to a read.
    fn answer_read(&mut self, octets: &mut [u8]) -> Got
        requires { 0 < length octets.old }
        ensures within { GotWithin result (length octets.new) }
        ensures seen { self.new.seen ≡ record self.old.seen { clock = self.new.seen.clock } }
        ensures clock { self.old.seen.clock ≤ self.new.seen.clock }
    {
        self.asked.0 = self.asked.0.saturating_add(1);
        if self.is_interrupted(1) {
            return Got::Interrupted;
        }
        let Some(peer) = self.seen.connection else {
            return Got::Fault;
        };
        let Some(peer) = self.peers.get_mut(peer) else {
            return Got::Fault;
        };
        if peer.has_reset {
            return Got::Fault;
        }
        let unread = peer.unread();
        if unread.is_empty() {
            return if peer.has_ended { Got::End } else { Got::Block };
        }
        let count = copy_front(unread, octets);
        peer.read = peer.read.saturating_add(count);
        Got::Octets(count)
    }

    /// The answer to a write.
    fn answer_write(&mut self, octets: &[u8]) -> Put
        ensures within { PutWithin result (length octets.now) }
        ensures seen { self.new.seen ≡ record self.old.seen { clock = self.new.seen.clock } }
        ensures clock { self.old.seen.clock ≤ self.new.seen.clock }
    {
        self.asked.1 = self.asked.1.saturating_add(1);
        if self.is_interrupted(2) {
            return Put::Interrupted;
        }
        let Some(peer) = self.seen.connection else {
            return Put::Fault;
        };
        let Some(peer) = self.peers.get_mut(peer) else {
            return Put::Fault;
        };
        if peer.has_reset {
            return Put::Fault;
        }
        let count = octets.len().min(peer.room);
        if count == 0 {
            return Put::Block;
        }
        peer.room -= count;
        Put::Octets(count)
    }

    /// Takes what a wait reports.
    fn take_ready(&mut self) -> Ready
        ensures seen { self.new.seen ≡ record self.old.seen { clock = self.new.seen.clock } }
        ensures clock { self.old.seen.clock ≤ self.new.seen.clock }
    {
        let ready = Ready {
            connection: if self.sends {
                self.writes
            } else {
                self.reads.connection
            },
            input_closed: self.reads.input_closed,
            newcomers: self.reads.newcomers,
        };
        self.reads = NOTHING;
        self.writes = false;
        ready
    }

    /// Replaces what is known of the newcomer at a place.
    fn set_newcomer(&mut self, place: usize, newcomer: Newcomer)
        requires { place < array_vec_len self.old.seen.newcomers }
        ensures set { self.new.seen.newcomers.items
            ≡ slice_set self.old.seen.newcomers.items place newcomer }
        ensures len { array_vec_len self.new.seen.newcomers ≡ array_vec_len self.old.seen.newcomers }
        ensures seen { self.new.seen ≡ record self.old.seen { newcomers = self.new.seen.newcomers } }
    {
        self.seen.newcomers.as_mut_slice()[place] = newcomer;
    }

    /// Waits until something is ready, at most this many milliseconds, and returns what is.
    fn find(&mut self, milliseconds: u64, sends: bool) -> Ready
        ensures seen { self.new.seen ≡ record self.old.seen { clock = self.new.seen.clock } }
        ensures clock { self.old.seen.clock ≤ self.new.seen.clock }
    {
        if sends != self.sends {
            // Another interest: the system reports again what is ready.
            self.sends = sends;
            if let Some(peer) = self.seen.connection {
                self.note_change(peer, false);
            }
        }
        self.apply_due();
        if self.storm > 0 {
            self.storm -= 1;
            if self.storm % 4 == 0 {
                self.seen.clock = self.seen.clock.saturating_add(1);
            }
            return Ready {
                newcomers: true,
                ..NOTHING
            };
        }
        let ready = self.take_ready();
        if is_any(ready) {
            return ready;
        }
        let end = self.seen.clock.saturating_add(milliseconds).min(self.until);
        let next = match self.events.get(self.next) {
            Some(event) => event.at.min(end),
            None => end,
        };
        self.seen.clock = self.seen.clock.max(next);
        self.apply_due();
        self.take_ready()
    }
}

/// Whether a wait reports anything.
fn is_any(ready: Ready) -> bool {
    ready.connection || ready.input_closed || ready.newcomers
}

/// The address of a peer.
fn address_of(peer: usize) -> SocketAddr {
    SocketAddr::new(
        IpAddr::V4(Ipv4Addr::new(10, 0, 0, 1)),
        (peer % 65_536) as u16,
    )
}

/// Copies octets to the front of a slice, as many as it holds, and returns their number.
fn copy_front(from: &[u8], to: &mut [u8]) -> usize
    ensures copied { take result to.new ≡ take result from.now }
    ensures len { length to.new ≡ length to.old }
    ensures from { result ≤ length from.now }
    ensures to { result ≤ length to.new }
    ensures some { 0 < length from.now → 0 < length to.old → 0 < result }
{
    let count = from.len().min(to.len());
    to[..count].copy_from_slice(&from[..count]);
    count
}

impl Sockets for MemorySockets {
    ghost state = { λ s. record {
      is_open = is_some s.seen.connection;
      waiting = array_vec_len s.seen.newcomers;
      log = s.seen.log;
      clock = s.seen.clock;
      found = Some (record {
        ready = s.seen.last.ready;
        sends = s.seen.last.sends;
        ended = s.seen.last.ended;
      });
      shown = Some (map (λ n. take n.shown n.first) s.seen.newcomers.items);
    } };

    ghost shows_all = { λ s. length-map s.seen.newcomers.items (λ n. take n.shown n.first) };

    fn accept(&mut self) -> Accepted {
        self.apply_due();
        if self.is_interrupted(0) {
            return Accepted::Interrupted;
        }
        if self.backlog.is_empty() {
            return Accepted::None;
        }
        if self.refuses {
            return Accepted::Refused(io::Error::from_raw_os_error(TOO_MANY_OPEN_FILES));
        }
        match self.backlog.pop_front() {
            Some(peer) => {
                self.seen.newcomers.push(Newcomer::new(peer));
                Accepted::Came(address_of(peer))
            }
            None => Accepted::None,
        }
    }

    fn peek(&mut self, place: usize, octets: &mut [u8]) -> Peeked {
        let mut newcomer = self.seen.newcomers.as_slice()[place];
        let Some(peer) = self.peers.get(newcomer.peer) else {
            return Peeked::Ended;
        };
        if peer.has_reset {
            return Peeked::Ended;
        }
        let unread = peer.unread();
        if unread.is_empty() {
            return if peer.has_ended {
                Peeked::Ended
            } else {
                Peeked::Nothing
            };
        }
        let count = copy_front(unread, octets);
        newcomer.shown = copy_front(&octets[..count], &mut newcomer.first);
        self.set_newcomer(place, newcomer);
        Peeked::Octets(newcomer.shown)
    }

    #[tactic(auto, using(crate::proofs::ShownLemmas::map_removed))]
    fn refuse(&mut self, place: usize) {
        self.seen.newcomers.remove(place);
    }

    #[tactic(auto, using(crate::proofs::ShownLemmas::map_removed))]
    fn take(&mut self, place: usize) -> io::Result<()> {
        let peer = self.seen.newcomers.remove(place).peer;
        self.seen.connection = Some(peer);
        self.note_change(peer, false);
        self.seen.log.add(RecordEntry::Connect(Connect::Ready), &[]);
        Ok(())
    }

    fn read(&mut self, octets: &mut [u8]) -> Got {
        let got = self.answer_read(octets);
        self.seen.log.add(RecordEntry::Read(got), octets);
        got
    }

    fn write(&mut self, octets: &[u8]) -> Put {
        let put = self.answer_write(octets);
        self.seen.log.add(RecordEntry::Write(put), octets);
        put
    }

    fn close(&mut self) {
        self.seen.connection = None;
        self.reads.connection = false;
        self.reads.input_closed = false;
        self.writes = false;
    }

    fn now(&mut self) -> u64 {
        self.seen.clock
    }

    fn wait(&mut self, milliseconds: u64, sends: bool) -> Ready {
        let ready = self.find(milliseconds, sends);
        self.seen.last = Last {
            ready,
            sends,
            ended: self.seen.clock,
        };
        ready
    }
}
