//! How long a port waits for a connection: for octets, for a HELLO, for the end of a line, and until kept octets are
//! taken.

ghost use Rattle.std.specs.Prelude.{◌≡◌, ◌<◌, ◌||◌, true, length, option_map};
ghost use Rattle.std.specs.Option.{is_some};
ghost use Rattle.dmr_port.specs.Patience.{cause_after_wait, has_lasted_if, is_displaceable, later};
ghost use Rattle.dmr_port.specs.Patience.{line_after, new_patience, patience_after_octets};
ghost use Rattle.dmr_port.specs.Patience.{patience_after_wait};

use crate::cause::CloseCause;

/// The milliseconds of a wait, by which the site file counts.
const WAIT_MS: u32 = 100;

/// The most waits until kept octets have been taken (this project's profile).
const SEND_WAITS: u32 = 50;

/// The milliseconds without an octet after which a connection yields its place to a newcomer that sent this carrier's
/// HELLO (this project's profile). A base station polls once in each TDMA frame of 60 ms.
const QUIET_MS: u32 = 1000;

/// How long a port has waited for a connection, in milliseconds. Between the ends of two waits at most 100 ms count. So
/// a time in which the program was stopped does not count against the connection.
#[derive(Clone, Copy, Debug, PartialEq, Eq)]
pub struct Patience {
    /// Since the last octet came, or the connection began.
    pub quiet: u32,
    /// Since octets began to be kept.
    pub unread: u32,
    /// Since the connection began, while no whole HELLO has come. `None` if one came, and on the operators' port.
    pub hello: Option<u32>,
    /// Since the first octet of the line that has not ended; waits while octets are kept do not count. `None` if no
    /// line has begun, and on a carrier's port.
    pub line: Option<u32>,
}

impl Patience {
    /// Makes the patience with a new connection. On a carrier's port a HELLO is expected.
    pub fn new(expects_hello: bool) -> Patience
        ensures { result ≡ new_patience expects_hello }
    {
        Patience {
            quiet: 0,
            unread: 0,
            hello: if expects_hello { Some(0) } else { None },
            line: None,
        }
    }

    /// Counts a wait of this many milliseconds. `keeps`: octets are kept that the connection has not taken. Then
    /// `unread` counts it, and a line gets no older.
    pub fn count_wait(&mut self, milliseconds: u32, keeps: bool)
        ensures { self.new ≡ patience_after_wait milliseconds keeps self.old }
    {
        self.quiet = self.quiet.saturating_add(milliseconds);
        self.hello = later(self.hello, milliseconds);
        if keeps {
            self.unread = self.unread.saturating_add(milliseconds);
        } else {
            self.line = later(self.line, milliseconds);
        }
    }

    /// Notes that octets came. `has_hello`: the first octets are a whole HELLO. `by_lines`: the port is the operators'.
    pub fn note_octets(&mut self, octets: &[u8], has_hello: bool, by_lines: bool)
        requires { 0 < length octets.now }
        ensures { self.new ≡ patience_after_octets octets.now has_hello by_lines self.old }
    {
        self.quiet = 0;
        if has_hello {
            self.hello = None;
        }
        if by_lines {
            self.line = line_after(self.line, octets);
        }
    }

    /// Notes that no octet is kept any more.
    pub fn note_all_sent(&mut self)
        ensures { self.new ≡ record self.old { unread = 0 } }
    {
        self.unread = 0;
    }

    /// Returns whether the connection yields its place to a newcomer that sent this carrier's HELLO: it has sent no
    /// whole HELLO, or no octet for 1 s.
    pub fn is_displaceable(&self) -> bool
        ensures { result ≡ is_displaceable self.now }
    {
        self.hello.is_some() || self.quiet >= QUIET_MS
    }

    /// Returns why the connection is given up after a wait, if it is. `keeps`: octets are kept. `ready`: the connection
    /// can now be read; or if octets are kept, written.
    pub fn cause_after_wait(&self, silence: u16, keeps: bool, ready: bool) -> Option<CloseCause>
        ensures { result ≡ cause_after_wait silence keeps ready self.now }
    {
        let most = WAIT_MS * u32::from(silence);
        if !keeps && !ready && self.quiet >= most {
            return Some(CloseCause::Silence);
        }
        if has_lasted(self.hello, most) {
            return Some(CloseCause::NoHello);
        }
        if has_lasted(self.line, most) {
            return Some(CloseCause::OpenLine);
        }
        if keeps && !ready && self.unread >= WAIT_MS * SEND_WAITS {
            return Some(CloseCause::NotRead);
        }
        None
    }
}

/// Returns a time after some more milliseconds, if it runs.
fn later(time: Option<u32>, milliseconds: u32) -> Option<u32>
    ensures { result ≡ option_map (λ ms. later ms milliseconds) time }
{
    time.map(|ms| ms.saturating_add(milliseconds))
}

/// Returns whether a time runs and has lasted this many milliseconds.
fn has_lasted(time: Option<u32>, milliseconds: u32) -> bool
    ensures { result ≡ has_lasted_if milliseconds time }
{
    match time {
        Some(ms) => ms >= milliseconds,
        None => false,
    }
}

/// Returns how long the line that has not ended has lasted, after octets that came. `None` if they end with a line
/// feed, and 0 if they have one elsewhere.
#[inline(never)]
fn line_after(line: Option<u32>, octets: &[u8]) -> Option<u32>
    requires { 0 < length octets.now }
    ensures { result ≡ line_after line octets.now }
{
    if octets[octets.len() - 1] == b'\n' {
        None
    } else if octets.contains(&b'\n') {
        Some(0)
    } else {
        Some(line.unwrap_or(0))
    }
}
