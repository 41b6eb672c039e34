//! Replays of scripts over a site, without sockets and without a clock.
//!
//! [`replay`] takes the octets of a site file and of a script. It checks the script's lines, and then runs their inputs
//! through the engine of `dmr_link`. At the end it prints the octets that the engine has written for each carrier and
//! for operators. It takes memory for the site and these octets, and for a line at a time.
//!
//! `script` reads a line; `checking` checks all lines; `running` runs them; `printing` prints; `replaying` is the
//! whole, with its faults; `status` has the exit statuses. [`plan_of`] and [`read_script`] read the two files alone,
//! for programs that have another use for them.
#![tactic(auto)]

mod checking;
mod printing;
mod replaying;
mod running;
mod script;
mod status;

pub use replaying::{ReplayFault, plan_of, replay};
pub use script::{ScriptFault, ScriptInput, read_script};
pub use status::{FAULT, MEMORY, OK};
