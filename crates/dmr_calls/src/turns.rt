//! The law of turns. The function does nothing: its contract is the law.

ghost use Rattle.std.specs.Prelude.{List, Option, MatchOption};
ghost use Rattle.dmr_pdu.specs.declared.slots.Slot.{Slot};
ghost use Rattle.dmr_calls.specs.declared.call.ActiveCall.{ActiveCall};
ghost use Rattle.dmr_calls.specs.After.{group_after, place_after, HasNoGroupCall, IsTurn};

/// Talkgroup calls take turns, for any calls and any last slot. Only the first call on each slot of the site counts.
///
/// The next call after a slot is on the first slot with a talkgroup call from the following place on, by carrier, then
/// by slot number. If there is none, it is on the first of all slots with one. There is no next call exactly if no slot
/// has one.
pub fn talkgroup_calls_take_turns()
    ensures { (calls : List ActiveCall) (last : Option Slot)
        → MatchOption (group_after calls last) (HasNoGroupCall calls)
        (IsTurn calls (place_after last)) }
{}
