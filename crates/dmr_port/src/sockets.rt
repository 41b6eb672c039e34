//! What a port needs of the system: a listening socket, the connection that is served, the newcomers that wait, and a
//! poll over all of them. No code here calls the system.

ghost use Rattle.std.specs.Prelude.{◌≡◌, ◌+◌, ◌<◌, ◌≤◌, true, false, [], ◌∷◌, length, IfSome, OnOk};
ghost use Rattle.std.specs.Prelude.{OnErr};
ghost use Rattle.dmr_wire.specs.Answers.{GotWithin, Opened, PutWithin, Reports, of_read, of_write};
ghost use Rattle.dmr_port.specs.Sockets.{KeepsConnection, KeepsNewcomers, PeekedWithin, SocketState};
ghost use Rattle.dmr_port.specs.Sockets.{found_after, shown_after_accept, shown_after_peek};
ghost use Rattle.dmr_port.specs.Sockets.{shown_without, waiting_after};

use dmr_wire::{Got, Put};
use std::io;
use std::net::SocketAddr;

/// The answer to an accept.
#[derive(Debug, Drop)]
pub enum Accepted {
    /// A connection came from this address. It is the newest newcomer, at the last place.
    Came(SocketAddr),
    /// No connection has come. Ask again after a wait that reports newcomers.
    None,
    /// The accept was interrupted. It may be repeated at once.
    Interrupted,
    /// Connections cannot be accepted now, for this reason, for example because no descriptor is left.
    Refused(io::Error),
}

/// The answer to a look at a newcomer's octets.
#[derive(Clone, Copy, Debug, PartialEq, Eq)]
pub enum Peeked {
    /// This many octets, at least one, are the first of the slice. They were not taken: a read finds them again.
    Octets(usize),
    /// No octet has come.
    Nothing,
    /// The connection has ended without an octet, or has failed.
    Ended,
}

/// What a wait found.
#[derive(Clone, Copy, Debug, PartialEq, Eq)]
pub struct Ready {
    /// The connection can be read; or, if the wait was for sending, can be written.
    pub connection: bool,
    /// The other side of the connection has ended its output, or the connection has failed.
    pub input_closed: bool,
    /// A connection came, or octets or the end of a newcomer.
    pub newcomers: bool,
}

/// A port's sockets: the listening one, the connection that is served, if there is one, and the newcomers. A newcomer
/// is a connection that was accepted and is not yet served. Newcomers have places from 0 on, oldest first.
///
/// They are one object, so that its answers have one order. No call except [`Sockets::wait`] waits.
pub trait Sockets {
    /// What contracts see of the sockets: whether there is a connection that is served, the number of newcomers, and
    /// the time of a clock, in milliseconds. Any call may let time pass. Some sockets know more, those of the system do
    /// not:
    ///
    /// - `log`: each connection that was taken, and the answers to reads and writes, oldest first. It may end at any
    ///   call.
    /// - `found`: what the latest wait found, whether it was for sending (`sends`), and the time at its end.
    /// - `shown`: the octets that the latest look at each newcomer found, oldest newcomer first.
    ghost state: { Self → SocketState };

    /// Accepts a connection, if one has come, as the newest newcomer. There must be fewer than nine.
    fn accept(&mut self) -> Accepted
        requires { (state self.old).waiting < 9 }
        ensures waiting { (state self.new).waiting ≡ waiting_after (state self.old).waiting result }
        ensures shown { (state self.new).shown ≡ shown_after_accept result (state self.old).shown }
        ensures connection { KeepsConnection (state self.old) (state self.new) };

    /// Looks at the first octets that a newcomer has sent, at most as many as the slice holds, and leaves them to be
    /// read. The rest of the slice then holds anything. There must be a newcomer at the place, and room in the slice.
    fn peek(&mut self, place: usize, octets: &mut [u8]) -> Peeked
        requires place { place < (state self.old).waiting }
        requires some { 0 < length octets.old }
        ensures within { PeekedWithin result (length octets.new) }
        ensures waiting { (state self.new).waiting ≡ (state self.old).waiting }
        ensures shown { (state self.new).shown
            ≡ shown_after_peek place result octets.new (state self.old).shown }
        ensures connection { KeepsConnection (state self.old) (state self.new) };

    /// Closes a newcomer and forgets it. Those after it move one place to the front. There must be a newcomer at the
    /// place.
    fn refuse(&mut self, place: usize)
        requires { place < (state self.old).waiting }
        ensures waiting { (state self.new).waiting + 1 ≡ (state self.old).waiting }
        ensures shown { (state self.new).shown ≡ shown_without place (state self.old).shown }
        ensures connection { KeepsConnection (state self.old) (state self.new) };

    /// Makes a newcomer the connection that is served. Those after it move one place to the front. On an error the
    /// newcomer cannot be polled; it is then closed, and there is no connection. There must be a newcomer at the place,
    /// and no connection.
    fn take(&mut self, place: usize) -> io::Result<()>
        requires place { place < (state self.old).waiting }
        requires connection { (state self.old).is_open ≡ false }
        ensures waiting { (state self.new).waiting + 1 ≡ (state self.old).waiting }
        ensures shown { (state self.new).shown ≡ shown_without place (state self.old).shown }
        ensures ok { OnOk result ((state self.new).is_open ≡ true) }
        ensures err { OnErr result ((state self.new).is_open ≡ false) }
        ensures opened { OnOk result
            (Reports (state self.old).log (Opened ∷ []) (state self.new).log) }
        ensures log { OnErr result ((state self.new).log ≡ (state self.old).log) }
        ensures clock { (state self.old).clock ≤ (state self.new).clock }
        ensures found { (state self.new).found ≡ (state self.old).found };

    /// Reads octets of the connection, at most as many as the slice holds, to its front. The rest of the slice then
    /// holds anything. There must be a connection, and room in the slice.
    fn read(&mut self, octets: &mut [u8]) -> Got
        requires connection { (state self.old).is_open ≡ true }
        requires some { 0 < length octets.old }
        ensures within { GotWithin result (length octets.new) }
        ensures connection { (state self.new).is_open ≡ true }
        ensures log { Reports (state self.old).log (of_read result octets.new ∷ [])
            (state self.new).log }
        ensures newcomers { KeepsNewcomers (state self.old) (state self.new) };

    /// Writes octets to the connection, from the front of the slice on, as many as it takes at once. There must be a
    /// connection, and an octet in the slice.
    fn write(&mut self, octets: &[u8]) -> Put
        requires connection { (state self.old).is_open ≡ true }
        requires some { 0 < length octets.now }
        ensures within { PutWithin result (length octets.now) }
        ensures connection { (state self.new).is_open ≡ true }
        ensures log { Reports (state self.old).log (of_write result octets.now ∷ [])
            (state self.new).log }
        ensures newcomers { KeepsNewcomers (state self.old) (state self.new) };

    /// Closes the connection, which there must be. Ends the output first, and reads the octets that came and were not
    /// read. A close with unread octets would reset the connection, and the other side might then lose the last octets
    /// written to it.
    fn close(&mut self)
        requires { (state self.old).is_open ≡ true }
        ensures connection { (state self.new).is_open ≡ false }
        ensures log { (state self.new).log ≡ (state self.old).log }
        ensures newcomers { KeepsNewcomers (state self.old) (state self.new) };

    /// Returns the time of the clock, in milliseconds. It does not go back.
    fn now(&mut self) -> u64
        ensures time { result ≡ (state self.new).clock }
        ensures connection { KeepsConnection (state self.old) (state self.new) }
        ensures newcomers { KeepsNewcomers (state self.old) (state self.new) };

    /// Waits until something is ready, at most this many milliseconds. If `sends`, the connection is ready when it can
    /// be written, and otherwise when it can be read. If the system cannot wait, this returns at once with nothing
    /// ready.
    fn wait(&mut self, milliseconds: u64, sends: bool) -> Ready
        ensures waiting { (state self.new).waiting ≡ (state self.old).waiting }
        ensures shown { (state self.new).shown ≡ (state self.old).shown }
        ensures connection { (state self.new).is_open ≡ (state self.old).is_open }
        ensures log { (state self.new).log ≡ (state self.old).log }
        ensures clock { (state self.old).clock ≤ (state self.new).clock }
        ensures found { (state self.new).found
            ≡ found_after result sends (state self.new).clock (state self.old).found };

    /// Ends the wait that is under way at any port of the site, or else its next one, with nothing ready, if the
    /// sockets can do that. By default it does nothing.
    fn wake_all(&mut self)
        ensures connection { KeepsConnection (Self.state self.old) (Self.state self.new) }
        ensures newcomers { KeepsNewcomers (Self.state self.old) (Self.state self.new) }
    {}

    /// Octets are known of all newcomers, or of none.
    ghost shows_all: { (s : Self) → IfSome (state s).shown
        (λ octets. length octets ≡ (state s).waiting) };
}
