//! Recordings: journals as scripts, the language of `dmr_replay`.
//!
//! [`record_journal`] appends the events of a journal to a text, as lines of a script. The inputs of that script mean
//! exactly these events, in their order. So a replay of all journals from the site's start has the same events, acts
//! and replies. An event for which no line exists is refused; nothing is guessed. Each carrier of a recording speaks
//! version 1 of the link, whatever it spoke when the journal was made. Between two journals, [`Carriers`] holds which
//! carriers are up.
//!
//! [`record_restored`] writes the session in which radios register, for a site that started with registered radios.
//!
//! `recording` goes over the events, `events` writes the lines of one event, `lines` writes a line, and `octets` spells
//! frames.
#![tactic(auto)]

mod carriers;
mod events;
mod fault;
mod laws;
mod lines;
mod octets;
mod recording;
mod restored;

pub use carriers::Carriers;
pub use fault::RecordingFault;
pub use laws::{a_session_registers, recordings_mean};
pub use recording::record_journal;
pub use restored::record_restored;
