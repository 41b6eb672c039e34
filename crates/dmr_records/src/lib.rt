//! Records of a site in an SQLite file, for its operator to query.
//!
//! [`RecordsFile`] is a [`Keeper`](dmr_keeper::Keeper). It keeps the [`TimedRecords`](dmr_keeper::TimedRecords) of each
//! term: the calls that ended, the changes of registration, the notes, the counts, and the radios that are registered
//! after the term. Counts are of the site and of each carrier. Each call and event has its ticks and its times of day.
//! It writes a term in one transaction, so either all of its records are in the file, or none. Of each table of calls,
//! events and terms the newest [`MOST_ROWS`] rows stay; older ones are removed after some terms ([`write_term`]).
//!
//! The file is open only while a term is written or the radios are read, since SQLite's exclusive lock is held until it
//! is closed. Between terms any SQLite program can read it. `docs/RECORDS.md` describes the tables, column by column.
//!
//! A file of the version before is carried over when it is first opened ([`prepare_tables`]).
//!
//! At a start, [`RecordsFile::registered`] reads the registered radios back, in the order in which they joined. A
//! [`FileFault`] says why a file cannot be used.
//!
//! The contracts say which statements run, in which order, and with which values ([`write_term`]). What a statement
//! does to a database is said by the contracts of the library `sqlite`.
#![tactic(auto)]

mod commit;
mod events;
mod fault;
mod file;
mod pruning;
mod reach;
mod reached;
mod reading;
mod rows;
mod store;
mod tables;
mod term_row;
mod values;
mod words;
mod written;

pub use commit::write_term;
pub use fault::{FileFault, keep_fault_of};
pub use file::{RecordsFile, RecordsPath};
pub use reach::Reach;
pub use reached::{keep_term, read_registered};
pub use reading::read_radios;
pub use rows::VERSION;
pub use store::{MOST_ROWS, RecordsIn};
pub use tables::prepare_tables;
