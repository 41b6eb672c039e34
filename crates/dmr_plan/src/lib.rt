//! The plan of a site: the contents of its site file, read and checked.
//!
//! A site file is TOML. [`Plan::read`] returns the plan that the text makes by the key table ([`Key`]), or the first
//! fault in the order in which keys are checked. Keys that are not in the table are ignored. A [`Plan`] is `Copy` and
//! has no memory of its own; its numbers are within the ranges of the table. The site file is this project's profile.
#![tactic(auto)]

mod arrays;
mod carriers;
mod fault;
mod key;
mod limits;
mod lists;
mod numbers;
mod plan;
mod sections;
mod settings;

pub use carriers::CarrierRow;
pub use fault::PlanFault;
pub use key::{Key, MOST_CARRIERS, MOST_GROUPS, MOST_RANGES};
pub use limits::limits_are_stated;
pub use lists::RadioRange;
pub use plan::Plan;
pub use sections::{AlohaSection, CallSection, ListSection, ServingSection, SystemSection};
pub use settings::Settings;
