//! The program's command line, the address at which it listens, and its final texts and exit statuses.
//!
//! [`choose`] reads the words of the command line, and returns the [`Job`] that they ask for. [`ServeFault`] says why
//! serving ended; it has the text and the exit status of each reason. `status` has the exit statuses that a replay does
//! not have, and their texts. [`listen_address`] returns the address of a carrier's port and of the console's.
//!
//! This crate opens no socket, starts no thread and waits for nothing. `dmr_trunk` does the jobs.
#![tactic(auto)]

mod fault;
mod listening;
mod status;
mod version;
mod words;

pub use fault::ServeFault;
pub use listening::listen_address;
pub use status::{AUDIT, WORDS, report_out_of_memory, report_refused_words};
pub use version::VERSION;
pub use words::{Job, choose};
