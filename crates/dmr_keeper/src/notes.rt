//! Notes: carriers that come up or are lost, radios that join calls, refused requests, and operators' commands.

ghost use Rattle.std.specs.Prelude.{◌≡◌, ◌+◌, ◌<◌, ◌^◌, ◌++◌, filter_map, find, IfOk, OnOk};
ghost use Rattle.std.specs.Option.{option_to_list};
ghost use Rattle.dmr_core.specs.Late.{carrier_on as carrier_by_channel};
ghost use Rattle.dmr_keeper.specs.Notes.{is_late_grant as grants_late};
ghost use Rattle.dmr_keeper.specs.Notes.{note_by_act, note_if, notes_in, notes_in_entry};
ghost use Rattle.dmr_keeper.specs.Notes.{occurrence_by_act, occurrence_by_command};
ghost use Rattle.dmr_keeper.specs.Notes.{occurrence_by_event, occurrence_by_grant};
ghost use Rattle.dmr_keeper.specs.Notes.{occurrence_by_request, occurrence_of_command as commanded};
ghost use Rattle.dmr_keeper.specs.Notes.{outcome_of as outcome_by_reply};
ghost use Rattle.dmr_keeper.specs.Ticks.{ticks_in};

use crate::ticks::tick_with;
use dmr_core::{Act, Acts, Command, Entry, Event, Reply};
use dmr_pdu::{Address, CarrierNo, Lpcn, OutOfMemory, Pdu, Reason, SlotNo};
use dmr_plan::Plan;
use std::alloc::Global;

/// The result of an operator's command that changes the site.
#[derive(Clone, Copy, Debug, PartialEq, Eq)]
pub enum CommandOutcome {
    /// The command was done.
    Done,
    /// No radio of this number is registered.
    NotRegistered,
    /// More than 56 PDUs waited for the control slot, whatever the command would queue. Nothing changed.
    Busy,
    /// No call was active on the slot.
    NoCall,
    /// The plan has no such carrier.
    NoCarrier,
}

/// What happened.
#[derive(Clone, Copy, Debug, PartialEq, Eq)]
pub enum Occurrence {
    /// A carrier came up.
    CameUp(CarrierNo),
    /// A carrier was lost.
    WasLost(CarrierNo),
    /// A radio joined a talkgroup call that was under way and that another radio had begun: the site sent it there when
    /// it asked for the talkgroup.
    JoinedCall {
        /// The radio that asked.
        radio: Address,
        /// The talkgroup.
        target: Address,
        /// The carrier of the call.
        carrier: CarrierNo,
        /// The slot of the carrier.
        slot: SlotNo,
    },
    /// A request was refused.
    Refused {
        /// The radio that is answered.
        source: Address,
        /// The address that the answer is about: the target of the request.
        target: Address,
        /// The reason code of the acknowledgement.
        reason: Reason,
    },
    /// An operator sent a command that changes the site.
    Commanded {
        /// The command.
        command: Command,
        /// The result.
        outcome: CommandOutcome,
    },
}

/// What happened, and when.
#[derive(Clone, Copy, Debug, PartialEq, Eq)]
pub struct TimedOccurrence {
    /// The tick, counted over all terms.
    pub tick: u64,
    /// What happened.
    pub what: Occurrence,
}

/// What a command with this result is noted as. `None` if it is not one that changes the site.
fn occurrence_of_command(command: &Command, outcome: CommandOutcome) -> Option<Occurrence>
    ensures { result ≡ commanded command.now outcome }
{
    if command.changes_site() {
        Some(Occurrence::Commanded {
            command: *command,
            outcome,
        })
    } else {
        None
    }
}

/// The result that a reply states. `None` if it is the reply to a command that asks.
fn outcome_of(reply: &Reply) -> Option<CommandOutcome>
    ensures { result ≡ outcome_by_reply reply.now }
{
    match reply {
        Reply::Done => Some(CommandOutcome::Done),
        Reply::NotRegistered => Some(CommandOutcome::NotRegistered),
        Reply::Busy => Some(CommandOutcome::Busy),
        Reply::NoCall => Some(CommandOutcome::NoCall),
        Reply::NoCarrier => Some(CommandOutcome::NoCarrier),
        Reply::Status { .. }
        | Reply::Radios(_)
        | Reply::Calls(_)
        | Reply::Lines { .. }
        | Reply::Slots(_) => None,
    }
}

/// What a command and its reply are noted as.
fn occurrence_of_say(command: &Command, said: &Option<Reply>) -> Option<Occurrence>
    ensures { result ≡ occurrence_by_command command.now said.now }
{
    let Some(reply) = said else {
        return None;
    };
    let Some(outcome) = outcome_of(reply) else {
        return None;
    };
    occurrence_of_command(command, outcome)
}

/// Reports whether an act queues the late grant of a talkgroup call, which the radio that is answered joins.
fn is_late_grant(act: &Act) -> bool
    ensures { result ≡ grants_late act.now }
{
    match act {
        Act::Queue(_, Pdu::TvGrant { late, .. }) => *late,
        _ => false,
    }
}

/// The first act that queues a late grant.
fn late_grant_in(acts: &[Act]) -> Option<Act>
    ensures { result ≡ find grants_late acts.now }
{
    acts.iter().copied().find(|act| is_late_grant(act))
}

/// The carrier that has a channel.
fn carrier_on(plan: &Plan, channel: Lpcn) -> Option<CarrierNo>
    ensures { result ≡ carrier_by_channel plan.now channel }
{
    let row = plan.carrier().iter().find(|row| row.lpcn == channel)?;
    Some(row.number)
}

/// What a radio's grant is noted as. `None` if it is not one to a talkgroup, or the plan does not have its channel.
fn occurrence_of_grant(plan: &Plan, radio: &Address, act: &Act) -> Option<Occurrence>
    ensures { result ≡ occurrence_by_grant plan.now radio.now act.now }
{
    let Act::Queue(
        _,
        Pdu::TvGrant {
            lpcn,
            slot,
            target,
            ..
        },
    ) = act
    else {
        return None;
    };
    let carrier = carrier_on(plan, *lpcn)?;
    Some(Occurrence::JoinedCall {
        radio: *radio,
        target: *target,
        carrier,
        slot: *slot,
    })
}

/// What a PDU and the acts that answer it are noted as: a request joins a call if it is answered by a late grant.
fn occurrence_of_request(plan: &Plan, pdu: &Pdu, acts: &[Act]) -> Option<Occurrence>
    ensures { result ≡ occurrence_by_request plan.now pdu.now acts.now }
{
    let Pdu::Random { source, .. } = pdu else {
        return None;
    };
    let grant = late_grant_in(acts)?;
    occurrence_of_grant(plan, source, &grant)
}

/// What an event and the answer to it are noted as.
fn occurrence_of_event(plan: &Plan, event: &Event, answer: &Acts) -> Option<Occurrence>
    ensures { result ≡ occurrence_by_event plan.now event.now answer.now }
{
    match event {
        Event::Up(carrier) => Some(Occurrence::CameUp(*carrier)),
        Event::Lost(carrier) => Some(Occurrence::WasLost(*carrier)),
        Event::Heard(_, pdu) => occurrence_of_request(plan, pdu, answer.list.as_slice()),
        Event::Say(command) => occurrence_of_say(command, &answer.said),
        Event::Noise(_) | Event::Active(_) | Event::Poll(_) | Event::Tick => None,
    }
}

/// What an act is noted as: a refusal is one that queues an acknowledgement with such a reason.
pub fn occurrence_of_act(act: &Act) -> Option<Occurrence>
    ensures { result ≡ occurrence_by_act act.now }
{
    let Act::Queue(
        _,
        Pdu::Ackd {
            reason,
            target,
            additional,
            ..
        },
    ) = act
    else {
        return None;
    };
    if reason.is_refusal() {
        Some(Occurrence::Refused {
            source: *target,
            target: *additional,
            reason: *reason,
        })
    } else {
        None
    }
}

/// Adds the note of an occurrence, if there is one.
///
/// Its callers hand it an [`Occurrence`] and not a [`TimedOccurrence`]. The check of a function with a `Vec<TimedOccurrence>` needs one at
/// hand.
fn add_note(
    tick: u64,
    what: Option<Occurrence>,
    notes: &mut Vec<TimedOccurrence>,
) -> Result<(), OutOfMemory>
    ensures { OnOk result (notes.new.items ≡ notes.old.items ++ option_to_list (note_if tick what)) }
{
    match what {
        Some(what) => Ok(notes.push(TimedOccurrence { tick, what })?),
        None => Ok(()),
    }
}

/// Adds the notes of acts.
fn add_notes_of_acts(
    tick: u64,
    acts: &[Act],
    notes: &mut Vec<TimedOccurrence>,
) -> Result<(), OutOfMemory>
    ensures { OnOk result
        (notes.new.items ≡ notes.old.items ++ filter_map (note_by_act tick) acts.now) }
{
    for act in acts {
        add_note(tick, occurrence_of_act(act), notes)?;
    }
    Ok(())
}

/// Adds the notes of an entry.
fn add_notes(
    plan: &Plan,
    tick: u64,
    entry: &Entry,
    notes: &mut Vec<TimedOccurrence>,
) -> Result<(), OutOfMemory>
    ensures { OnOk result
        (notes.new.items ≡ notes.old.items ++ notes_in_entry plan.now tick entry.now) }
{
    let what = occurrence_of_event(plan, &entry.event, &entry.acts);
    add_note(tick, what, notes)?;
    add_notes_of_acts(tick, entry.acts.list.as_slice(), notes)
}

/// The notes of a journal, oldest first. `ticks` are those before it; with those of the journal they must fit in 64
/// bits. On an error memory ran out.
pub fn notes_of(
    alloc: Global,
    plan: &Plan,
    ticks: u64,
    journal: &[Entry],
) -> Result<Vec<TimedOccurrence>, OutOfMemory>
    requires { ticks + ticks_in journal.now < 2 ^ 64 }
    ensures { IfOk result (λ notes. notes.items ≡ notes_in plan.now ticks journal.now) }
{
    let mut notes = Vec::new(alloc);
    let mut tick = ticks;
    for entry in journal {
        tick = tick_with(tick, &entry.event);
        add_notes(plan, tick, entry, &mut notes)?;
    }
    Ok(notes)
}
