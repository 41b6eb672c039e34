//! The site machine: the state of a trunked site, and the answer to each event.
//!
//! An [`Event`] comes from a carrier, the clock or an operator. [`Site::apply`] answers it with [`Acts`]: PDUs that are
//! queued or sent, and changes of the facts. The facts of a site follow from its events and acts alone: each fact is
//! one that was opened and not yet closed. The crate does no input or output. Its rules are this project's profile over
//! TS 102 361-4.
#![tactic(auto)]

mod act;
mod command;
mod entry;
mod event;
mod laws;
mod machine;
mod named;
mod reply;
mod request;
mod restored;
mod site;

pub use act::{Act, ActList, Acts};
pub use command::{Argument, Command, CommandKind, CommandRow, LineNo};
pub use entry::Entry;
pub use event::Event;
pub use laws::{
    ages_count_ticks, backoff_counts_noises, decided_by_the_last, each_act_is_safe,
    facts_stay_sound, late_entries_take_turns, limits_are_stated, lists_are_in_order,
    no_carrier_no_change, one_legal_journal, sent_in_order,
};
pub use reply::{Reply, SlotState, State};
pub use site::Site;
