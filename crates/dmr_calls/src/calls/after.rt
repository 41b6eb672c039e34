//! The turns of talkgroup calls.

ghost use Rattle.std.specs.Prelude.{◌≡◌, ◌<◌, ◌≤◌, IfSome, MatchOption};
ghost use Rattle.std.specs.Option.{option_or};
ghost use Rattle.dmr_pdu.specs.Slots.{IsSlot};
ghost use Rattle.dmr_calls.specs.After.{group_after, group_place, is_group_at, place_after};
ghost use Rattle.dmr_calls.specs.After.{HasNoGroupCall, IsNextGroupCall};

use super::Calls;
use crate::call::Call;
use dmr_pdu::Slot;

/// The slots of 16 carriers.
const SLOTS: usize = 32;

/// The place after a slot, by carrier, then by number; the first place of all if no slot is given.
fn place_after(last: Option<Slot>) -> usize
    ensures place { result ≡ place_after last }
    ensures within { result ≤ 32 }
    ensures site { IfSome last IsSlot }
{
    match last {
        Some(slot) => slot.index() + 1,
        None => 0,
    }
}

impl Calls {
    /// The talkgroup call on the least slot above the last one, by carrier, then by slot number. Only the first call on
    /// each slot counts.
    ///
    /// If there is none above, or no slot is given, it is the one on the least slot of all. Returns `None` if there is
    /// none. A caller that passes the slot of each answer in the next question gets all these calls in turn.
    #[tactic(auto, unfolding(crate::specs::After::group_after))]
    pub fn group_after(&self, last: Option<Slot>) -> Option<Call>
        ensures value { result ≡ group_after self.now.calls last }
        ensures next { MatchOption result (HasNoGroupCall self.now.calls)
            (IsNextGroupCall self.now.calls last) }
    {
        let place = self.group_place_after(place_after(last))?;
        self.call_on(Slot::at(place))
    }

    /// The first place of a talkgroup call from a place on; if there is none, the first of all.
    #[tactic(auto, using(crate::proofs::AfterLemmas::no_place))]
    fn group_place_after(&self, behind: usize) -> Option<usize>
        requires { behind ≤ 32 }
        ensures value { result
            ≡ option_or (group_place self.now.calls behind) (group_place self.now.calls 0) }
        ensures within { IfSome result (λ place. place < 32) }
    {
        // Without calls, the two searches would look at 64 places for nothing.
        if self.calls.is_empty() {
            return None;
        }
        match self.group_place(behind) {
            Some(place) => Some(place),
            None => self.group_place(0),
        }
    }

    /// The first place of a talkgroup call from a place on.
    fn group_place(&self, from: usize) -> Option<usize>
        requires { from ≤ 32 }
        ensures value { result ≡ group_place self.now.calls from }
        ensures within { IfSome result (λ place. place < 32) }
    {
        (from..SLOTS).find(|place| self.is_group_at(*place))
    }

    /// Reports whether the call on the slot at a place is a talkgroup's.
    fn is_group_at(&self, place: usize) -> bool
        requires { place < 32 }
        ensures { result ≡ is_group_at self.now.calls place }
    {
        self.call_on(Slot::at(place)).is_some_and(|call| call.group)
    }
}
