//! The test whether a radio is a party to an ask, a line or a call.

ghost use Rattle.std.specs.Prelude.{◌≡◌};
ghost use Rattle.dmr_calls.specs.Engaged.{is_party as is_party_of};

use dmr_pdu::Address;

/// Reports whether a radio is the source, or the target of something individual.
pub fn is_party(radio: Address, group: bool, source: Address, target: Address) -> bool
    ensures { result ≡ is_party_of radio group source target }
{
    source == radio || (!group && target == radio)
}
