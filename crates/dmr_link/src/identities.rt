//! The carriers of a site, and the numbers that the HELLO of each must have.

ghost use Rattle.std.specs.Prelude.{◌≡◌};
ghost use Rattle.dmr_link.specs.Identities.{greatest_of, who_of};

use crate::connection::CarrierIdentity;
use dmr_frames::Version;
use dmr_pdu::CarrierNo;
use dmr_plan::Plan;

/// Returns the greatest version of the link that a plan's site serves its carriers: the key `link_version` of the site
/// file.
pub fn greatest_version(plan: &Plan) -> Version
    ensures { result ≡ greatest_of plan.now }
{
    Version::version_or_first(plan.link_version())
}

/// Returns the identity of the plan's carrier with this number, if the plan has one.
pub fn identity_of(plan: &Plan, carrier: CarrierNo) -> Option<CarrierIdentity>
    ensures { result ≡ who_of plan.now carrier }
{
    let row = plan.carrier_with(carrier)?;
    Some(CarrierIdentity {
        carrier,
        lpcn: row.lpcn,
        greatest: greatest_version(plan),
    })
}
