//! The state of a carrier's connections, one after another. An engine has one for each of its carriers, and a carrier's
//! link has its own.

ghost use Rattle.std.specs.Prelude.{◌≡◌, None};
ghost use Rattle.dmr_link.specs.CarrierStates.{state_on};
ghost use Rattle.dmr_link.specs.Steps.{new_connection};
ghost use Rattle.dmr_link.specs.declared.connection.Connection.TheVariants.{Closed as closed};

use crate::connection::{CarrierIdentity, Connection};
use crate::numbering::Numbering;

/// The state of a carrier's connections.
#[derive(Debug, Drop)]
pub struct CarrierState {
    /// The carrier of the connections.
    pub who: CarrierIdentity,
    /// The newest connection, after its octets so far.
    pub connection: Connection,
    /// The number of the next TX.
    pub numbering: Numbering,
}

impl CarrierState {
    /// Returns the state of a carrier that has had no connection.
    pub fn new(who: CarrierIdentity) -> CarrierState
        ensures { result ≡ state_on who closed None }
    {
        CarrierState {
            who,
            connection: Connection::Closed,
            numbering: Numbering::new(),
        }
    }

    /// Returns the state of a carrier whose connection has just begun.
    pub fn open(who: CarrierIdentity) -> CarrierState
        ensures { result ≡ state_on who (new_connection who) None }
    {
        CarrierState {
            who,
            connection: Connection::open(&who),
            numbering: Numbering::new(),
        }
    }
}
