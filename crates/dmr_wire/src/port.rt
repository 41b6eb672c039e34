//! Ports: wires on which one connection follows another.

ghost use Rattle.std.specs.Prelude.{◌≡◌, [], ◌∷◌};
ghost use Rattle.dmr_wire.specs.Answers.{Reports, of_connect, of_wait};

use crate::closing::Closing;
use crate::wire::Wire;

/// A port's answer to a request for the next connection.
#[derive(Clone, Copy, Debug, PartialEq, Eq)]
pub enum Connect {
    /// There is a connection. Reads and writes are on it from now on.
    Ready,
    /// No connection has come yet. The port may be asked again.
    NotYet,
    /// No connection will come any more.
    Finished,
}

/// How a wait ends.
#[derive(Clone, Copy, Debug, PartialEq, Eq)]
pub enum Waited {
    /// The connection goes on. A read may succeed now, or would block.
    Again,
    /// The port has given the connection up, for silence or another cause: it is to be cut.
    Silent,
}

/// A wire on which one connection follows another. Its record also has its answers to these calls.
pub trait Port: Wire {
    /// Asks for the next connection. The port drops a connection that it still has.
    fn connect(&mut self) -> Connect
        ensures { Reports (Self.reported self.old) (of_connect result ∷ [])
            (Self.reported self.new) };

    /// Waits until there is something to read, the port has given the connection up, or it has waited for as long as it
    /// likes.
    fn wait(&mut self) -> Waited
        ensures { Reports (Self.reported self.old) (of_wait result ∷ []) (Self.reported self.new) };

    /// Receives how the connection was closed, before the next one is asked for. It reads and writes nothing. By
    /// default it does nothing.
    fn closed(&mut self, closing: Closing)
        ensures { Self.reported self.new ≡ Self.reported self.old }
    {
        let _ = closing;
    }

    /// Receives that the term is over: the port's worker has ended because of it, or is not started. Other workers of
    /// the term may still wait, so a port that can wake them does so. It reads and writes nothing. By default it does
    /// nothing.
    fn term_over(&mut self)
        ensures { Self.reported self.new ≡ Self.reported self.old }
    {}
}
