//! Records of a site for its operator, from the site's journal: calls, registrations, notes and counts.
//!
//! [`records_of`] reads the journal of a term, as an audited report has it, and returns the [`Records`] of that term:
//!
//! - each call that ended, with the ticks at which it began and ended, how long its request waited for a slot, and the
//!   [`EndCause`];
//! - each [`Change`] of a registration;
//! - each [`TimedOccurrence`]: a carrier that came up or was lost, a radio that joined a call, a refused request, an operator's
//!   command that changes the site;
//! - the [`TermCounts`], and the [`CarrierCounts`] of each carrier that had an entry.
//!
//! The calls that are open at the end of a term, and the lines that wait then, are [`Carried`] to the next one. So a
//! call that began in an earlier term is recorded once, when it ends, and a wait may begin in an earlier term too.
//!
//! Terms follow each other over one site, and ticks are counted over all of them. [`records_join`] says that a term may
//! end after any entry. [`carried_is_the_sites`] says that the open calls, the lines and the registered radios are
//! those of the site. [`calls_are_counted_once`] says that as many calls are recorded or stay open as were
//! open or began, and [`few_events_end_calls`] that the causes are all.
//!
//! A [`Recorder`] reads the records of one term after another, each with its [`TermTime`]: when it ended, and how long
//! its ticks are. A [`RecordQueue`] has the records that wait, and hands them over to a store, oldest term first.
//!
//! A [`Keeper`] stores records. [`Forget`] keeps nothing, and [`InMemory`] keeps them for a test. A store on a disk is
//! outside of this crate.
#![tactic(auto)]

mod calls;
mod carried;
mod carriers;
mod cause;
mod changes;
mod counts;
mod ending;
mod keeper;
mod laws;
mod lines;
mod memory;
mod notes;
mod record_queue;
mod recorder;
mod records;
mod registered;
mod ticks;
mod time;
mod walk;

pub use calls::{EndedCall, OpenCall};
pub use carried::Carried;
pub use carriers::CarrierCounts;
pub use cause::EndCause;
pub use changes::{Change, ChangeKind};
pub use counts::TermCounts;
pub use keeper::{Forget, KeepFault, Keeper};
pub use laws::{calls_are_counted_once, carried_is_the_sites, few_events_end_calls, records_join};
pub use lines::OpenLine;
pub use memory::InMemory;
pub use notes::{CommandOutcome, Occurrence, TimedOccurrence};
pub use record_queue::{MOST_WAITING, RecordQueue};
pub use recorder::Recorder;
pub use records::{Records, RecordsFault, records_of};
pub use time::{TermTime, TimedRecords};
