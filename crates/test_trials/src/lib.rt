//! Tests with threads: whole terms with a thread for each worker, one locked site and ports that fail at any call. Also
//! tests of desks that refuse, and of the texts and statuses of faults.
//!
//! The crate holds only tests, and most of them loop over a table. They are above the desk, since a crate with tests is
//! proved twice.
#![tactic(auto)]

#[cfg(test)]
mod command;
#[cfg(test)]
mod desks;
#[cfg(test)]
mod faults;
#[cfg(test)]
mod kept;
#[cfg(test)]
mod site;
#[cfg(test)]
mod steps;
#[cfg(test)]
mod terms;
#[cfg(test)]
mod workers;
