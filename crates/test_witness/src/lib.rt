//! The contract of a term, used.
//!
//! - [`one_session`] takes the clause of a term, and concludes the meaning of each peer's whole session from the record
//!   of its port. [`run_recorded`] is a caller of `run_term` that does so for ports, gates and a pacer in memory.
//! - [`a_term_with_a_fault_and_a_cut`] has a term of two carriers. It is written out, and meets the definition of a
//!   term. So the definition is not empty.
#![tactic(auto)]

mod recorders;
mod run;
mod session;
mod worked;

pub use recorders::{CountingPacer, Pass, RecordingGate};
pub use run::{CarrierStation, Console, run_recorded};
pub use session::one_session;
pub use worked::a_term_with_a_fault_and_a_cut;
