//! The PDUs of the control slot, and the ten octets of each.
//!
//! On the control slot of a trunked site, all messages are control blocks of ten octets and a check (TS 102 361-4,
//! clause 7.1.1). [`Pdu`] has a variant for each layout that the site sends or reads, and `Other` for all other octets,
//! so every ten octets are a PDU. The check is not in this crate. The small types are the numbers that the site uses,
//! each with its range. [`BoundedList`] is a list for places that must not allocate. Nothing in this crate allocates
//! memory.
#![tactic(auto)]

mod bounded_list;
mod display;
mod law;
mod layouts;
mod numbers;
mod pdu;
mod slots;

pub use bounded_list::{Blank, BoundedList};
pub use law::octets_mean_one_pdu;
pub use numbers::{Address, Kind, Number, Options, Reason, SystemCode};
pub use pdu::Pdu;
pub use slots::{CarrierNo, Lpcn, Slot, SlotNo};

/// An allocation was refused. A function that makes or copies a value then changes nothing. Each other function that
/// returns this error says what it leaves unchanged. It is the standard library's `AllocError`, under the name that the
/// site's crates use.
pub use std::alloc::AllocError as OutOfMemory;
