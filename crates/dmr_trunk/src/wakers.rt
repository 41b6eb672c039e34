//! Wakers: when a term is over, they end the waits of all ports and of the clock. Here are the polls that they wake,
//! and the clock's wait; `mio_sockets` has the wait of a port.

use mio::{Events, Poll, Token, Waker};
use std::alloc::Global;
use std::net::Net;
use std::sync::atomic::{AtomicBool, Ordering};
use std::time::{Clock, Duration};
use std::{io, thread};

/// The token of the waker in each poll.
pub const WAKER: Token = Token(3);

/// The most milliseconds of a sleep in place of a wait, if the system cannot wait.
const NAP_MS: u64 = 25;

/// Why there are no polls.
#[derive(Debug, Drop)]
pub enum PollFault {
    /// The system refused a poll or its waker.
    NoPoll(io::Error),
    /// An allocation was refused.
    OutOfMemory,
}

/// The wakers of all polls of a site that is served: one for each port, and one for the clock.
#[derive(Drop)]
pub struct Wakers {
    wakers: Vec<Waker>,
    /// Whether they were used in this term.
    used: AtomicBool,
}

impl Wakers {
    /// Ends the wait that is under way in each poll, or else its next one. Every worker that finds the term over calls
    /// it, and the first call of a term does it.
    pub fn wake_all(&self) {
        if self.used.swap(true, Ordering::SeqCst) {
            return;
        }
        for waker in self.wakers.iter() {
            // A wait that cannot be ended lasts until its time is over.
            let _ = waker.wake();
        }
    }

    /// Makes them ready for the next term. No worker may run meanwhile.
    pub fn make_ready(&self) {
        self.used.store(false, Ordering::SeqCst);
    }
}

/// The polls that are not in use yet, and the wakers of all.
#[derive(Drop)]
pub struct Polls<'a> {
    /// The wakers of all polls.
    pub wakers: &'a Wakers,
    /// The polls that are left.
    pub polls: Vec<Poll>,
}

/// Makes a poll with a waker.
fn open_poll<R: Net>(rt: &R) -> io::Result<(Poll, Waker)> {
    let poll = Poll::new(rt)?;
    let waker = Waker::new(poll.registry(), WAKER)?;
    Ok((poll, waker))
}

/// Makes `count` polls, each with a waker. On an error the system refused one, or memory ran out, and none is left.
pub fn open_polls<R: Net>(
    rt: &R,
    alloc: Global,
    count: usize,
) -> Result<(Wakers, Vec<Poll>), PollFault> {
    let mut wakers = Vec::new(alloc);
    let mut polls = Vec::new(alloc);
    for _ in 0..count {
        let (poll, waker) = match open_poll(rt) {
            Ok(opened) => opened,
            Err(error) => return Err(PollFault::NoPoll(error)),
        };
        if polls.push(poll).is_err() || wakers.push(waker).is_err() {
            return Err(PollFault::OutOfMemory);
        }
    }
    let used = AtomicBool::new(false);
    Ok((Wakers { wakers, used }, polls))
}

/// Sleeps in place of a wait of at most this long, if the system cannot wait.
#[inline(never)]
pub fn nap<R: Clock>(rt: &R, most: Duration) {
    thread::sleep(rt, most.min(Duration::from_millis(NAP_MS)));
}

/// The clock's wait. It ends when its time is over, or when a term is.
#[derive(Drop)]
pub struct ClockWait<'a> {
    poll: Poll,
    events: Events,
    wakers: &'a Wakers,
}

impl<'a> ClockWait<'a> {
    /// Makes the wait over a poll. `None` if an allocation was refused.
    pub fn new(alloc: Global, poll: Poll, wakers: &'a Wakers) -> Option<ClockWait<'a>> {
        match Events::with_capacity(alloc, 1) {
            Ok(events) => Some(ClockWait {
                poll,
                events,
                wakers,
            }),
            Err(_) => None,
        }
    }

    /// Waits for this many nanoseconds, rounded up to whole milliseconds, or until a term is over. If the system cannot
    /// wait, sleeps for at most 25 ms.
    pub fn wait<R: Clock>(&mut self, rt: &R, nanoseconds: u64) {
        let most = Duration::from_nanos(nanoseconds);
        if self.poll.poll(&mut self.events, Some(most)).is_err() {
            nap(rt, most);
        }
    }

    /// Ends the waits of all ports, and the clock's next one.
    pub fn wake_all(&self) {
        self.wakers.wake_all();
    }
}
