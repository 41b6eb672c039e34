//! The sockets of a port: TCP over the system's poll. Here are the calls of the system, and no rule of a port
//! (`dmr_port` has those). As there, what a poll does not run is marked `#[inline(never)]`.

ghost use Rattle.std.specs.Prelude.{◌≡◌, ◌<◌, ◌≤◌, ℕ, None, vec_len, vec_capacity, IfOk};
ghost use Rattle.dmr_wire.specs.Answers.{GotWithin, PutWithin};
ghost use Rattle.dmr_port.specs.Sockets.{PeekedWithin, waiting_after};

use crate::clock::milliseconds;
use crate::wakers::{WAKER, Wakers, nap};
use dmr_port::{Accepted, Peeked, Ready, Sockets};
use dmr_wire::{Got, Put};
use mio::net::{TcpListener, TcpStream};
use mio::{Events, Interest, Poll, Token};
use std::alloc::Global;
use std::io;
use std::io::{ErrorKind, Read, Write};
use std::net::{Net, Shutdown, SocketAddr};
use std::time::{Clock, Duration};

/// The most newcomers.
const NEWCOMERS: usize = 9;

/// The most reads of octets that come after a connection's end.
const LAST_READS: usize = 16;

/// The tokens of the poll, with that of its waker. All newcomers have one: a port looks at each of them when one is
/// ready.
const LISTENER: Token = Token(0);

const CONNECTION: Token = Token(1);

const NEWCOMER: Token = Token(2);

/// Nothing is ready.
const NOTHING: Ready = Ready {
    connection: false,
    input_closed: false,
    newcomers: false,
};

/// Whatever can be asked may be ready.
const ALL: Ready = Ready {
    connection: true,
    input_closed: true,
    newcomers: true,
};

/// Whether the listening socket has to be asked. The poll reports it once when a connection comes, and not again for
/// those that came with it.
#[derive(Clone, Copy, Debug, PartialEq, Eq)]
enum Backlog {
    /// The last accept found no connection: the poll reports the next one.
    Empty,
    /// A connection may be there: it is to be accepted at once.
    Waiting,
    /// A connection may be there, and could not be accepted: it is to be tried again after a wait.
    Stuck,
}

/// Why a port cannot listen.
#[derive(Debug, Drop)]
pub enum ListenFault {
    /// The program cannot listen at the address.
    CannotListen(io::Error),
    /// The poll does not take the listening socket.
    NoPoll(io::Error),
    /// An allocation was refused.
    OutOfMemory,
}

/// A listening TCP socket, its newcomers and the connection that is served, all in one poll.
///
/// The poll is edge-triggered: it reports a socket when something comes. The listening socket and the newcomers are
/// polled for octets that come, the connection for these or, while octets are kept for it, for sending. A new
/// registration makes the poll report what is ready then.
#[derive(Drop)]
pub struct MioSockets<'a, R> {
    /// The address at which it listens, if the system reports it.
    pub address: Option<SocketAddr>,
    rt: &'a R,
    listener: TcpListener,
    poll: Poll,
    wakers: &'a Wakers,
    events: Events,
    newcomers: Vec<TcpStream>,
    ghost room: { 9 ≤ vec_capacity newcomers },
    connection: Option<TcpStream>,
    // Whether the connection is polled for sending.
    sends: bool,
    backlog: Backlog,
    // The latest reading of the clock, in milliseconds.
    now: u64,
    // The clock was read since the last wait, and since the connection began.
    is_current: bool,
}

/// Ends the output, and reads the octets that came and were not read. A close with unread octets resets the connection,
/// and the other side may then lose the last octets written to it, such as a REFUSED.
#[inline(never)]
fn finish(stream: &mut TcpStream) {
    if stream.shutdown(Shutdown::Write).is_err() {
        return;
    }
    let mut octets = [0; 1024];
    for _ in 0..LAST_READS {
        match stream.read(&mut octets) {
            Ok(0) => return,
            Ok(_) => {}
            Err(_) => return,
        }
    }
}

/// Binds a listening socket, and registers it with a poll.
fn listen<R: Net>(rt: &R, poll: &Poll, address: SocketAddr) -> Result<TcpListener, ListenFault> {
    let mut listener = match TcpListener::bind(rt, address) {
        Ok(listener) => listener,
        Err(error) => return Err(ListenFault::CannotListen(error)),
    };
    let registered = poll
        .registry()
        .register(&mut listener, LISTENER, Interest::READABLE);
    match registered {
        Ok(()) => Ok(listener),
        Err(error) => Err(ListenFault::NoPoll(error)),
    }
}

/// The answer to a read of the system.
fn got(read: io::Result<usize>) -> Got
    ensures { (len : ℕ) → IfOk read (λ count. count ≤ len) → GotWithin result len }
{
    match read {
        Ok(0) => Got::End,
        Ok(count) => Got::Octets(count),
        Err(error) => got_none(error),
    }
}

/// The answer to a read of the system that returned an error.
#[inline(never)]
fn got_none(error: io::Error) -> Got
    ensures { (len : ℕ) → GotWithin result len }
{
    match error.kind() {
        ErrorKind::WouldBlock => Got::Block,
        ErrorKind::Interrupted => Got::Interrupted,
        _ => Got::Fault,
    }
}

/// The answer to a write of the system.
fn put(written: io::Result<usize>) -> Put
    ensures { (len : ℕ) → IfOk written (λ count. count ≤ len) → PutWithin result len }
{
    match written {
        Ok(count) => Put::Octets(count),
        Err(error) => put_none(error),
    }
}

/// The answer to a write of the system that returned an error.
#[inline(never)]
fn put_none(error: io::Error) -> Put
    ensures { (len : ℕ) → PutWithin result len }
{
    match error.kind() {
        ErrorKind::WouldBlock => Put::Block,
        ErrorKind::Interrupted => Put::Interrupted,
        _ => Put::Fault,
    }
}

/// The answer to a look at octets that came.
fn peeked(looked: io::Result<usize>) -> Peeked
    ensures { (len : ℕ) → IfOk looked (λ count. count ≤ len) → PeekedWithin result len }
{
    match looked {
        Ok(0) => Peeked::Ended,
        Ok(count) => Peeked::Octets(count),
        Err(error) => match error.kind() {
            ErrorKind::WouldBlock | ErrorKind::Interrupted => Peeked::Nothing,
            _ => Peeked::Ended,
        },
    }
}

/// What the events of a poll report, and whether one of them is the listening socket's. The waker's reports nothing.
fn found(events: &Events) -> (Ready, bool) {
    let mut ready = NOTHING;
    let mut listener = false;
    for event in events.iter() {
        let token = event.token();
        if token == LISTENER {
            listener = true;
        } else if token == CONNECTION {
            ready.connection = true;
            ready.input_closed = ready.input_closed || event.is_read_closed() || event.is_error();
        } else if token == NEWCOMER {
            ready.newcomers = true;
        }
    }
    (ready, listener)
}

impl<'a, R: Clock> MioSockets<'a, R> {
    ghost use Rattle.dmr_trunk.specs.Sockets.{KeepsSockets};

    /// Listens at an address, with a poll and the wakers of all. There is no newcomer and no connection.
    pub fn listen(
        rt: &'a R,
        alloc: Global,
        poll: Poll,
        wakers: &'a Wakers,
        address: SocketAddr,
    ) -> Result<MioSockets<'a, R>, ListenFault>
    where
        R: Net,
        ensures { IfOk result (λ sockets. (vec_len sockets.newcomers ≡ 0)
            × (sockets.connection ≡ None)) }
    {
        let Ok(events) = Events::with_capacity(alloc, NEWCOMERS + 3) else {
            return Err(ListenFault::OutOfMemory);
        };
        let Ok(newcomers) = Vec::with_capacity(alloc, NEWCOMERS) else {
            return Err(ListenFault::OutOfMemory);
        };
        let listener = listen(rt, &poll, address)?;
        let address = listener.local_addr().ok();
        Ok(MioSockets {
            address,
            rt,
            listener,
            poll,
            wakers,
            events,
            newcomers,
            connection: None,
            sends: false,
            backlog: Backlog::Waiting,
            now: 0,
            is_current: false,
        })
    }

    /// Keeps a connection as the newest newcomer. If it cannot be polled, it is dropped.
    fn admit(&mut self, mut stream: TcpStream, from: SocketAddr) -> Accepted
        requires { vec_len self.old.newcomers < 9 }
        ensures newcomers { vec_len self.new.newcomers
            ≡ waiting_after (vec_len self.old.newcomers) result }
        ensures connection { self.new.connection ≡ self.old.connection }
        ensures clock { self.new.now ≡ self.old.now }
    {
        self.backlog = Backlog::Waiting;
        let polled = self
            .poll
            .registry()
            .register(&mut stream, NEWCOMER, Interest::READABLE);
        match polled {
            Ok(()) => {
                self.newcomers.push_reserved(stream);
                Accepted::Came(from)
            }
            Err(error) => Accepted::Refused(error),
        }
    }

    /// Keeps what an accept that found no connection says about the next one.
    fn turn_away(&mut self, error: io::Error) -> Accepted
        ensures none { (count : ℕ) → waiting_after count result ≡ count }
        ensures rest { KeepsSockets self.old self.new }
    {
        match error.kind() {
            ErrorKind::WouldBlock => {
                self.backlog = Backlog::Empty;
                Accepted::None
            }
            ErrorKind::Interrupted => {
                self.backlog = Backlog::Waiting;
                Accepted::Interrupted
            }
            _ => {
                self.backlog = Backlog::Stuck;
                Accepted::Refused(error)
            }
        }
    }

    /// Polls the connection for sending, or otherwise for octets that come. Returns `false` if it cannot be polled for
    /// that.
    #[inline(never)]
    fn poll_connection(&mut self, sends: bool) -> bool
        ensures { KeepsSockets self.old self.new }
    {
        let Some(stream) = &mut self.connection else {
            return true;
        };
        let interest = if sends {
            Interest::WRITABLE
        } else {
            Interest::READABLE
        };
        let registry = self.poll.registry();
        let is_polled = registry.reregister(stream, CONNECTION, interest).is_ok();
        if is_polled {
            self.sends = sends;
        }
        is_polled
    }

    /// Reads the clock. If it cannot be read, or has gone back, the time stays as it was.
    fn read_clock(&mut self)
        ensures newcomers { vec_len self.new.newcomers ≡ vec_len self.old.newcomers }
        ensures connection { self.new.connection ≡ self.old.connection }
        ensures clock { self.old.now ≤ self.new.now }
    {
        if let Some(now) = milliseconds(self.rt) {
            self.now = self.now.max(now);
        }
        self.is_current = true;
    }

    /// Waits for the poll, at most this many milliseconds.
    fn wait_for_events(&mut self, milliseconds: u64) -> (Ready, bool)
        ensures { KeepsSockets self.old self.new }
    {
        let most = Duration::from_millis(milliseconds);
        match self.poll.poll(&mut self.events, Some(most)) {
            Ok(()) => found(&self.events),
            // Without a poll the port still asks its sockets now and then.
            Err(_) => {
                nap(self.rt, most);
                (ALL, true)
            }
        }
    }
}

impl<R: Clock> Sockets for MioSockets<'_, R> {
    ghost use Rattle.std.specs.Prelude.{None, is_some, vec_len};

    ghost state = { λ s. record {
      is_open = is_some s.connection;
      waiting = vec_len s.newcomers;
      log = None;
      clock = s.now;
      found = None;
      shown = None;
    } };

    ghost shows_all = { λ s. tt };

    fn accept(&mut self) -> Accepted {
        match self.listener.accept() {
            Ok((stream, from)) => self.admit(stream, from),
            Err(error) => self.turn_away(error),
        }
    }

    fn peek(&mut self, place: usize, octets: &mut [u8]) -> Peeked {
        peeked(self.newcomers[place].peek(octets))
    }

    fn refuse(&mut self, place: usize) {
        drop(self.newcomers.remove(place));
    }

    fn take(&mut self, place: usize) -> io::Result<()> {
        let mut stream = self.newcomers.remove(place);
        // An answer is sent when it is written, and does not wait for the one after it.
        let _ = stream.set_nodelay(true);
        self.poll
            .registry()
            .reregister(&mut stream, CONNECTION, Interest::READABLE)?;
        self.connection = Some(stream);
        self.sends = false;
        self.is_current = false;
        Ok(())
    }

    fn read(&mut self, octets: &mut [u8]) -> Got {
        match &mut self.connection {
            Some(stream) => got(stream.read(octets)),
            None => unreachable!(),
        }
    }

    fn write(&mut self, octets: &[u8]) -> Put {
        match &mut self.connection {
            Some(stream) => put(stream.write(octets)),
            None => unreachable!(),
        }
    }

    fn close(&mut self) {
        if let Some(mut stream) = self.connection.take() {
            finish(&mut stream);
        }
    }

    /// Returns the time at the first question after a wait, or after a connection began. Until the next wait it is the
    /// same, so the clock is read once for a poll.
    fn now(&mut self) -> u64 {
        if !self.is_current {
            self.read_clock();
        }
        self.now
    }

    fn wait(&mut self, milliseconds: u64, sends: bool) -> Ready {
        let is_polled = sends == self.sends || self.poll_connection(sends);
        let most = if self.backlog == Backlog::Waiting {
            0
        } else {
            milliseconds
        };
        let (mut ready, listener) = self.wait_for_events(most);
        self.is_current = false;
        if listener {
            self.backlog = Backlog::Waiting;
        }
        // What the poll cannot report, the port asks for itself.
        ready.connection = ready.connection || !is_polled;
        ready.newcomers = ready.newcomers || self.backlog != Backlog::Empty;
        ready
    }

    fn wake_all(&mut self) {
        self.wakers.wake_all();
    }
}
