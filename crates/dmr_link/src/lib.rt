//! Turns the octets of a site's carriers and operators into events of the site, and the site's answers into octets.
//!
//! The meaning of a carrier's octets, and the octets that answer them, follow this project's link profile, versions 1
//! and 2. The meaning of an operator's octets follows its console profile. There are two ways to use this crate:
//!
//! - An [`Engine`] holds a site, the connections of its carriers, and an operator's open line. It takes [`Input`]s one
//!   by one, in one thread: a connection begins, octets arrive on a connection, a connection is cut, octets arrive from
//!   an operator, or the clock ticks. Octets may arrive in pieces of any length.
//! - A [`Link`] holds one carrier's connection, and a [`ConsoleLink`] holds an operator's. Neither has a site: each
//!   reads octets from a `Wire`, hands their events to a [`Desk`], and writes the answers to the wire. Each link can
//!   have a thread of its own, with a desk of its own; the desks share a site. A wire may fail, block or be
//!   interrupted, and a desk may take no more events. The link then reports why it stopped ([`Ended`]), and keeps
//!   everything that the desk has not taken. After a failed write or a cut, octets that are not yet processed mean
//!   nothing. While a carrier's link serves, it enters a [`Gate`] before it hands in an
//!   event, and leaves it after that.
//!
//! Octets mean the same to engines and links, by the same definitions. The module [`laws`] states facts about them.
#![tactic(auto)]

mod answers;
mod carrier_state;
mod connection;
mod console;
mod console_link;
mod desk;
mod ended;
mod engine;
mod identities;
mod input;
mod kept_burst;
pub mod laws;
mod limits;
mod link;
mod link_laws;
mod link_state;
mod notices;
mod numbering;
mod outputs;
mod pending;
mod room;
mod session;
mod stream;
mod unread;
mod writing;

pub use console_link::ConsoleLink;
pub use desk::{Deposit, Desk, Gate, OpenGate, TermOver};
pub use ended::Ended;
pub use engine::{Engine, RunFault};
pub use identities::greatest_version;
pub use input::Input;
pub use limits::{MOST_INTERRUPTIONS, MOST_READS};
pub use link::Link;
pub use outputs::Outputs;
