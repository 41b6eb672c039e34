//! Tests in the form of stories: of the site file, the site machine, records of terms, the engine and links.
//!
//! A story has inputs and the expected answers, mostly as lines of text. The crate holds only tests, and most of them
//! loop over a table. They are above the crates that they test, since a crate with tests is proved twice.
#![tactic(auto)]

#[cfg(test)]
mod engine;
#[cfg(test)]
mod language;
#[cfg(test)]
mod links;
#[cfg(test)]
mod machine;
#[cfg(test)]
mod plans;
#[cfg(test)]
mod site_file;
