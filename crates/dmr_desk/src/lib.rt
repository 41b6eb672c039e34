//! One site for many threads. Each event takes a lock and becomes one entry of a journal. When the site is closed, the
//! contract says that each thread received exactly the answers that one legal journal has for it.
//!
//! - A [`Book`] is a site with the journal of its events, for one thread. Each event is entered with its answer.
//! - A [`SharedDesk`] is a book with a lock, and a [`Seat`] is an actor's place at it. The owner of a seat deposits
//!   events from it. Each deposit takes the lock and becomes one entry; the seat keeps the deposit with its answer. A
//!   [`SeatAt`] is a seat as a link's `Desk`.
//! - [`close`](SharedDesk::close) takes the desk and all its seats, and returns a [`Report`]: the site, the
//!   [`Journal`], and the [`View`] of each actor. It compares each seat with the journal. The contract of
//!   [`reports_account`] has all that holds of a report.
//! - A worker serves the connections of one [`Station`] or of the [`ConsoleStation`] from a seat, or deposits the ticks
//!   of a [`Pacer`]. [`run_term`] starts a thread for each worker at one desk, waits for all of them, closes the desk,
//!   and returns a [`Term`].
//!
//! Three things need no comparison. The journal is exactly as long as all seats' lists: a desk and its seats share the
//! parts of a ledger, which counts each deposit. The content of the lock belongs to the desk's own site, limit and
//! number of actors: the ledger names them ([`DeskLedger`]), and the content's type says that they agree. No entry
//! belongs to another actor: a seat's type says that its actor is one of that desk's.
//!
//! Each term goes on from the [`Service`] that the one before it left ([`try_term`]), and an [`Observer`] sees each
//! report. [`one_life`] says what all terms come to, and [`terms_go_on`] how rows of terms join.
//!
//! [`one_record`] and [`one_meaning`] say what all connections of a worker mean together.
#![tactic(auto)]

mod actors;
mod at;
mod audit;
mod book;
mod desk;
mod desk_ledger;
mod ending;
mod fault;
mod laws;
mod life;
mod limits;
mod meaning;
mod pace;
mod report;
mod room;
mod run;
mod seat;
mod service;
mod spare;
mod station;
mod term;
mod terms;
mod threads;
mod view;
mod work;

pub use at::SeatAt;
pub use book::Book;
pub use desk::SharedDesk;
pub use desk_ledger::DeskLedger;
pub use dmr_core::Entry;
pub use ending::Ending;
pub use fault::{CloseFault, OpenFault, TermFault};
pub use laws::{faults_account, reports_account};
pub use life::{one_life, terms_go_on};
pub use limits::{MOST_ACTORS, MOST_ENTRIES, PARTS, limits_are_stated};
pub use meaning::{one_meaning, one_record};
pub use pace::{Pace, Pacer, work_ticker};
pub use report::{Journal, Report, Views};
pub use run::{run_term, try_term};
pub use seat::Seat;
pub use service::{Refused, Service};
pub use spare::SpareLists;
pub use station::{ConsoleStation, Station};
pub use term::Term;
pub use terms::Observer;
pub use view::View;
pub use work::{work_carrier, work_console};
