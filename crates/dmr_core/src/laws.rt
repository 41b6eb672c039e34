//! Laws: statements about the definitions alone, for every journal of a site.

ghost use Rattle.std.specs.Prelude.{◌≡◌, ◌==◌, ◌+◌, ◌*◌, ◌%◌, ◌++◌, ◌<◌, ◌≤◌, ℕ, List, [], length};
ghost use Rattle.std.specs.Prelude.{min, true, Some, None};
ghost use Rattle.dmr_plan.specs.declared.settings.Settings.{Settings};
ghost use Rattle.dmr_plan.specs.IsPlan.{IsPlan};
ghost use Rattle.dmr_pdu.specs.declared.slots.Slot.{Slot};
ghost use Rattle.dmr_calls.specs.declared.ask.Ask.{Ask};
ghost use Rattle.dmr_calls.specs.declared.call.Call.{Call};
ghost use Rattle.dmr_calls.specs.Limits.{most_ticks};
ghost use Rattle.dmr_calls.specs.Asks.{ask_of};
ghost use Rattle.dmr_calls.specs.Lines.{line_of};
ghost use Rattle.dmr_calls.specs.Calls.{call_on, is_slot};
ghost use Rattle.dmr_core.specs.declared.event.Event.{Event};
ghost use Rattle.dmr_core.specs.declared.entry.Entry.{Entry};
ghost use Rattle.dmr_core.specs.Limits.{most_with_room};
ghost use Rattle.dmr_core.specs.Facts.{Facts, facts_after, has_carrier, facts_after_event};
ghost use Rattle.dmr_core.specs.Facts.{no_facts};
ghost use Rattle.dmr_core.specs.Words.{is_registered, is_up, outbox};
ghost use Rattle.dmr_core.specs.Rules.{acts_of, grant_pdu};
ghost use Rattle.dmr_core.specs.Journal.{IsLegal, journal_of, events_of, answers_of};
ghost use Rattle.dmr_core.specs.Sound.{IsSound};
ghost use Rattle.dmr_core.specs.May.{AllMayDo};
ghost use Rattle.dmr_core.specs.Counts.{AreFewActs};
ghost use Rattle.dmr_core.specs.Laws.{BeginsOnFree, GrantsKnown, QuietAfterReset, SendsOwn};
ghost use Rattle.dmr_core.specs.Laws.{Throughout};
ghost use Rattle.dmr_access.specs.Limits.{late_entry_interval};
ghost use Rattle.dmr_access.specs.Noise.{backoff_of};
ghost use Rattle.dmr_core.specs.Backoff.{recent_noises};
ghost use Rattle.dmr_core.specs.Ages.{age_on, quiet_on, waited_of, begins_on, is_active_on};
ghost use Rattle.dmr_core.specs.Ages.{asked_in, ticks_since};
ghost use Rattle.dmr_core.specs.Orders.{IsInOrder, with_openings, joined_by, asked_by, lined_by};
ghost use Rattle.dmr_core.specs.Orders.{begun_by, sources_of_asks, sources_of_lines};
ghost use Rattle.dmr_core.specs.Orders.{slots_of_calls};
ghost use Rattle.dmr_core.specs.Down.{IsOfNoCarrier};
ghost use Rattle.dmr_core.specs.Waiting.{queued_by, sent_by, since_turn};
ghost use Rattle.dmr_core.specs.Turns.{FillsInTurn, NamesActiveCall, IsFilledWith, fills_in};
ghost use Rattle.dmr_core.specs.Turns.{fills_since, is_steady, talkgroup_calls};
ghost use Rattle.dmr_core.specs.Last.{value_after, closed_with, no_event, no_act, of_ask, of_call};
ghost use Rattle.dmr_core.specs.Last.{of_carrier, of_late, of_line, of_move, of_registration};

use crate::machine::MOST_WITH_ROOM;
use dmr_calls::talkgroup_calls_take_turns;

/// `MOST_WITH_ROOM` is the number that the profile states: there is room for the answer to a request while at most 56
/// PDUs wait in the control slot's outbox.
pub fn limits_are_stated()
    ensures { MOST_WITH_ROOM ≡ most_with_room }
{}

/// Events have exactly one legal sequence of answers.
///
/// The journal that `journal_of` makes of the events is legal, and each legal journal of these events has the same
/// answers.
pub fn one_legal_journal()
    ensures legal { (plan : Settings) (facts : Facts) (events : List Event)
        → IsLegal plan facts (journal_of plan facts events) }
    ensures one { (plan : Settings) (facts : Facts) (journal : List Entry)
        → IsLegal plan facts journal
        → answers_of journal ≡ answers_of (journal_of plan facts (events_of journal)) }
{}

/// Facts stay sound in every legal journal, and the facts of a site on which nothing has happened are sound.
///
/// An event is answered by at most 13 acts. At most five of them queue a PDU on the control slot, and at most four
/// elsewhere. Each act may be done on the facts just before it. A Poll is answered by at most two acts, for any facts.
pub fn facts_stay_sound()
    ensures sound { (plan : Settings) (facts : Facts) (journal : List Entry) → IsPlan plan
        → IsSound plan facts → IsLegal plan facts journal
        → IsSound plan (facts_after plan facts journal) }
    ensures nothing { (plan : Settings) → IsSound plan no_facts }
    ensures few { (plan : Settings) (facts : Facts) (event : Event) → IsPlan plan
        → IsSound plan facts → AreFewActs plan (acts_of plan facts event) 13 5 4 }
    ensures may { (plan : Settings) (facts : Facts) (event : Event) → IsPlan plan
        → IsSound plan facts
        → AllMayDo plan (facts_after_event plan facts event) (acts_of plan facts event) }
    ensures polled { (plan : Settings) (facts : Facts) (carrier : ℕ)
        → length (acts_of plan facts (Event.Poll carrier)) ≤ 2 }
{}

/// Each act of a legal journal from sound facts is safe, given the facts just before it. The plan is accepted.
///
/// - A call begins only on a slot without a call, of a carrier that is up.
/// - A grant that is queued or sent as a Fill names registered radios and listed groups.
/// - From the Up or Lost of a carrier of the plan until a call begins on it, no call is active on it. In that time, no
///   grant that is queued or sent as a Fill names a slot of it.
/// - A grant that is sent is that of the call on the slot that it names, if a call is active there. For a Fill, one is.
pub fn each_act_is_safe()
    ensures free { (plan : Settings) (facts : Facts) (journal : List Entry) → IsPlan plan
        → IsSound plan facts → IsLegal plan facts journal
        → Throughout plan facts BeginsOnFree journal }
    ensures known { (plan : Settings) (facts : Facts) (journal : List Entry) → IsPlan plan
        → IsSound plan facts → IsLegal plan facts journal
        → Throughout plan facts (GrantsKnown plan) journal }
    ensures quiet { (plan : Settings) (facts : Facts) (carrier : ℕ) (journal : List Entry)
        → IsPlan plan → has_carrier plan carrier ≡ true → IsSound plan facts
        → IsLegal plan facts journal → QuietAfterReset plan facts carrier journal }
    ensures own { (plan : Settings) (facts : Facts) (journal : List Entry) → IsPlan plan
        → IsSound plan facts → IsLegal plan facts journal
        → Throughout plan facts (SendsOwn plan) journal }
{}

/// Each fact is decided by the last event or act that opened or closed it; if there is none, by the facts before the
/// journal.
///
/// - A registration: Joined and Left.
/// - A carrier that is up: its Up and Lost.
/// - The move of the control channel: an operator's `move` and `stay`.
/// - The ask of a radio: Asked and AskOver, and the control carrier's Up and Lost.
/// - The line of a radio: Lined and Unlined, and the control carrier's Up and Lost.
/// - The call on a slot: Began and Ended, and its carrier's Up and Lost.
/// - The slot of the last late entry: a Fill that is a grant to a talkgroup, and the control carrier's Up and Lost.
///
/// The first four and the last hold in every journal, legal or not. The clause `up` is about every carrier number: it
/// needs an accepted plan and sound facts, such as those of a site. For other facts, `up_within` covers each number
/// that has a place in them, and each that the plan does not have.
pub fn decided_by_the_last()
    ensures registered { (plan : Settings) (facts : Facts) (journal : List Entry) (radio : ℕ)
        → is_registered (facts_after plan facts journal) radio
        ≡ value_after no_event (of_registration radio) (is_registered facts radio) journal }
    ensures up { (plan : Settings) (facts : Facts) (journal : List Entry) (carrier : ℕ)
        → IsPlan plan → IsSound plan facts
        → is_up (facts_after plan facts journal) carrier
        ≡ value_after (of_carrier plan carrier) no_act (is_up facts carrier) journal }
    ensures up_within { (plan : Settings) (facts : Facts) (journal : List Entry) (carrier : ℕ)
        → (has_carrier plan carrier ≡ true → carrier < length facts.up)
        → is_up (facts_after plan facts journal) carrier
        ≡ value_after (of_carrier plan carrier) no_act (is_up facts carrier) journal }
    ensures moving { (plan : Settings) (facts : Facts) (journal : List Entry)
        → (facts_after plan facts journal).moving
        ≡ value_after of_move no_act facts.moving journal }
    ensures ask { (plan : Settings) (facts : Facts) (journal : List Entry) (radio : ℕ)
        → ask_of (facts_after plan facts journal).asks radio
        ≡ value_after (closed_with plan.lists.control) (of_ask radio) (ask_of facts.asks radio)
        journal }
    ensures line { (plan : Settings) (facts : Facts) (journal : List Entry) (radio : ℕ)
        → IsPlan plan → IsSound plan facts → IsLegal plan facts journal
        → line_of (facts_after plan facts journal).lines radio
        ≡ value_after (closed_with plan.lists.control) (of_line radio)
        (line_of facts.lines radio) journal }
    ensures call { (plan : Settings) (facts : Facts) (journal : List Entry) (slot : Slot)
        → IsPlan plan → IsSound plan facts → IsLegal plan facts journal
        → call_on (facts_after plan facts journal).calls slot
        ≡ value_after (closed_with slot.carrier) (of_call slot) (call_on facts.calls slot) journal }
    ensures late { (plan : Settings) (facts : Facts) (journal : List Entry)
        → (facts_after plan facts journal).late
        ≡ value_after (closed_with plan.lists.control) of_late facts.late journal }
{}

/// Late entries name the talkgroup calls in turn.
///
/// In every legal journal, a Fill is the late entry of the rule if there is one, and else it is not a grant. It names a
/// talkgroup call that is active. The Fills since the control carrier's last Up or Lost are counted modulo 4. Each of n
/// active talkgroup calls is named within 4 n Fills. That holds while no carrier comes up or is lost, no call begins or
/// ends, and the control channel is not to be moved.
pub fn late_entries_take_turns()
    ensures due { (plan : Settings) (facts : Facts) (journal : List Entry) → IsPlan plan
        → IsSound plan facts → IsLegal plan facts journal
        → Throughout plan facts (FillsInTurn plan) journal }
    ensures stands { (plan : Settings) (facts : Facts) (journal : List Entry) → IsPlan plan
        → IsSound plan facts → IsLegal plan facts journal
        → Throughout plan facts (NamesActiveCall plan) journal }
    ensures counted { (plan : Settings) (facts : Facts) (journal : List Entry)
        → facts.fills < late_entry_interval
        → (facts_after plan facts journal).fills
        ≡ fills_since plan facts.fills journal % late_entry_interval }
    ensures named { (plan : Settings) (facts : Facts) (journal : List Entry) (call : Call)
        → IsPlan plan → IsSound plan facts → IsLegal plan facts journal → is_steady journal ≡ true
        → facts.moving ≡ None → call_on facts.calls call.slot ≡ Some call → call.group ≡ true
        → late_entry_interval * talkgroup_calls facts.calls ≤ fills_in journal
        → IsFilledWith (grant_pdu plan call true) journal }
{
    talkgroup_calls_take_turns();
}

/// PDUs are sent on a slot in the order in which they were queued, and none twice. Only the Up and Lost of the carrier
/// drop any.
///
/// The PDUs queued on a slot since its carrier last came up or was lost are those sent there since then, in the same
/// order, followed by those that wait. If the carrier never came up or was lost, the PDUs that waited before the
/// journal count as queued first.
pub fn sent_in_order()
    ensures { (plan : Settings) (facts : Facts) (slot : Slot) (journal : List Entry) → slot.slot < 2
        → IsPlan plan → IsSound plan facts → IsLegal plan facts journal
        → since_turn slot.carrier (queued_by slot) (outbox facts slot) journal
        ≡ since_turn slot.carrier (sent_by slot) [] journal
        ++ outbox (facts_after plan facts journal) slot }
{}

/// The backoff counts recent Noises on the control slot, while the control carrier is up.
///
/// It is the plan's lowest backoff plus the number of these Noises, but at most the plan's highest. A Noise counts if
/// it came after the control carrier's last Up and after the 32nd last of its Polls. If the journal has no such Up and
/// only n Polls, fewer than 32, then the first 32 - n of the noise numbers before the journal count too. A site on
/// which nothing has happened has none.
pub fn backoff_counts_noises()
    ensures counts { (plan : Settings) (facts : Facts) (journal : List Entry) → IsPlan plan
        → IsSound plan facts → IsLegal plan facts journal
        → is_up (facts_after plan facts journal) plan.lists.control ≡ true
        → backoff_of plan.calls (facts_after plan facts journal).noise
        ≡ min plan.calls.backoff_high (plan.calls.backoff_low
        + recent_noises plan facts.noise journal) }
    ensures from_nothing { (plan : Settings) (journal : List Entry) → IsPlan plan
        → IsLegal plan no_facts journal
        → is_up (facts_after plan no_facts journal) plan.lists.control ≡ true
        → backoff_of plan.calls (facts_after plan no_facts journal).noise
        ≡ min plan.calls.backoff_high (plan.calls.backoff_low + recent_noises plan [] journal) }
{
    facts_stay_sound();
}

/// Ages, quiet times and waiting times count ticks, up to 65,535.
///
/// The age of a call counts the ticks since it began. Its quiet time counts those since the later of its beginning and
/// the last activity on its slot. The waiting time of an ask counts those since its last C_AHOY was queued. If that
/// moment is before the journal, the count is the one before the journal plus all ticks of it. Sound facts, such as
/// those of a site, never have greater counts (`before`). The clause on waiting times holds in every journal, legal or
/// not.
pub fn ages_count_ticks()
    ensures age { (plan : Settings) (facts : Facts) (journal : List Entry) (slot : Slot)
        (call : Call) → IsPlan plan → IsSound plan facts → IsLegal plan facts journal
        → call_on (facts_after plan facts journal).calls slot ≡ Some call
        → age_on (facts_after plan facts journal).calls slot
        ≡ min most_ticks (ticks_since (begins_on slot) (age_on facts.calls slot) journal) }
    ensures quiet { (plan : Settings) (facts : Facts) (journal : List Entry) (slot : Slot)
        (call : Call) → IsPlan plan → IsSound plan facts → IsLegal plan facts journal
        → call_on (facts_after plan facts journal).calls slot ≡ Some call
        → quiet_on (facts_after plan facts journal).calls slot
        ≡ min most_ticks (ticks_since (is_active_on slot) (quiet_on facts.calls slot) journal) }
    ensures waited { (plan : Settings) (facts : Facts) (journal : List Entry) (radio : ℕ)
        (ask : Ask) → waited_of facts.asks radio ≤ most_ticks
        → ask_of (facts_after plan facts journal).asks radio ≡ Some ask
        → waited_of (facts_after plan facts journal).asks radio
        ≡ min most_ticks (ticks_since (asked_in radio) (waited_of facts.asks radio) journal) }
    ensures before { (plan : Settings) (facts : Facts) (slot : Slot) (radio : ℕ)
        → IsSound plan facts
        → (age_on facts.calls slot ≤ most_ticks) × (quiet_on facts.calls slot ≤ most_ticks)
        × (waited_of facts.asks radio ≤ most_ticks) }
{}

/// Registered radios are in the order of Joined, asks in that of their last C_AHOY, lines in that of Lined, and calls
/// in that of Began.
///
/// Those of the facts before the journal come first, in their own order, but for what the journal opens again: that
/// counts from the last time. For asks this holds in every journal from sound facts, legal or not.
pub fn lists_are_in_order()
    ensures registered { (plan : Settings) (facts : Facts) (journal : List Entry) → IsPlan plan
        → IsSound plan facts → IsLegal plan facts journal
        → IsInOrder ◌==◌ (with_openings joined_by facts.registered journal)
        (facts_after plan facts journal).registered }
    ensures asks { (plan : Settings) (facts : Facts) (journal : List Entry) → IsSound plan facts
        → IsInOrder ◌==◌ (with_openings asked_by (sources_of_asks facts.asks) journal)
        (sources_of_asks (facts_after plan facts journal).asks) }
    ensures lines { (plan : Settings) (facts : Facts) (journal : List Entry) → IsPlan plan
        → IsSound plan facts → IsLegal plan facts journal
        → IsInOrder ◌==◌ (with_openings lined_by (sources_of_lines facts.lines) journal)
        (sources_of_lines (facts_after plan facts journal).lines) }
    ensures calls { (plan : Settings) (facts : Facts) (journal : List Entry) → IsPlan plan
        → IsSound plan facts → IsLegal plan facts journal
        → IsInOrder is_slot (with_openings begun_by (slots_of_calls facts.calls) journal)
        (slots_of_calls (facts_after plan facts journal).calls) }
{}

/// An event of a carrier that is not up, other than its Up, has no acts and changes nothing. The same holds for the Up
/// of a carrier that the plan does not have.
pub fn no_carrier_no_change()
    ensures acts { (plan : Settings) (facts : Facts) (event : Event)
        → IsOfNoCarrier plan facts event → acts_of plan facts event ≡ [] }
    ensures facts { (plan : Settings) (facts : Facts) (event : Event) → IsPlan plan
        → IsSound plan facts → IsOfNoCarrier plan facts event
        → facts_after_event plan facts event ≡ facts }
{}
