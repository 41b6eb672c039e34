//! Stories of sites. An answer has all acts in order, each PDU by its octets.

mod acts;
mod answers;
mod copies;
mod events;
mod records;
mod stage;
mod starts;
