//! A port that nobody can hold: one connection at a time to its link, whatever other peers do.
//!
//! A [`ServingPort`] is a `dmr_wire::Port` over [`Sockets`]. It accepts newcomers while it serves a connection, and
//! limits what a connection may send. It ends a connection that is silent, does not read, or is in the way of the base
//! station. The rules are pure parts with exact contracts. The system is hidden by the trait [`Sockets`]. The port
//! reports what happens to [`PortNotes`].
//!
//! A port that is polled reads, writes and waits once for each poll. Whatever else it does is in functions marked
//! `#[inline(never)]`. Their code then does not lie between that of a poll, which has left the caches by the next one.
#![tactic(auto)]

mod budget;
mod cause;
mod first_octets;
mod newcomers;
mod note_limit;
mod notes;
mod patience;
mod port_laws;
mod port_log;
mod reading;
mod served;
mod serving_port;
mod settings;
mod sockets;
mod unsent;
mod waiting_room;
mod whose;
mod witness;

pub use cause::CloseCause;
pub use note_limit::{NoteLimit, NoteVerdict};
pub use notes::{Note, NoteKind, PortNotes};
pub use port_laws::empty_records_agree;
pub use serving_port::ServingPort;
pub use settings::PortSettings;
pub use sockets::{Accepted, Peeked, Ready, Sockets};
pub use whose::Whose;
pub use witness::{NoWitness, Witness};
