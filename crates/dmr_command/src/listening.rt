//! The address at which a served site listens.

ghost use Rattle.dmr_command.specs.Listening.{IsListenAddress};

use dmr_plan::Plan;
use std::net::{Ipv4Addr, SocketAddr, SocketAddrV4};

/// The address to listen at for a carrier or the console: the four octets of the plan's `address`, and this port of the
/// plan. It is this project's profile.
pub fn listen_address(plan: &Plan, port: u16) -> SocketAddr
    ensures { IsListenAddress plan.now.serving.address port result }
{
    let [a, b, c, d] = plan.address() else {
        unreachable!()
    };
    SocketAddr::V4(SocketAddrV4::new(Ipv4Addr::new(*a, *b, *c, *d), port))
}
