//! The events of a term: changes of registration and notes, each as a row of the table `events`.

ghost use Rattle.std.specs.Prelude.{◌≡◌};
ghost use Rattle.dmr_records.specs.Events.{bare as only, event_of_change as change_row};
ghost use Rattle.dmr_records.specs.Events.{event_of_command as event_by_command};
ghost use Rattle.dmr_records.specs.Events.{event_of_note as note_row};
ghost use Rattle.dmr_records.specs.Events.{kind_of_change as kind_by_change};
ghost use Rattle.dmr_records.specs.Events.{with_number, with_numbers};

use dmr_core::{Argument, Command, CommandKind};
use dmr_keeper::{Change, ChangeKind, CommandOutcome, Occurrence, TimedOccurrence};

/// The kind of an event.
#[derive(Clone, Copy, Debug, PartialEq, Eq)]
pub enum EventKind {
    /// A radio was registered.
    Joined,
    /// A radio left by its request.
    Left,
    /// An operator ended the registration of a radio.
    Dropped,
    /// A carrier came up.
    CameUp,
    /// A carrier was lost.
    WasLost,
    /// A radio joined a call that was under way.
    JoinedCall,
    /// A request was refused.
    Refused,
    /// An operator sent a command of this kind.
    Command(CommandKind),
}

/// An event with the values of its columns. A value that its kind does not have is `None`.
#[derive(Clone, Copy, Debug, PartialEq, Eq)]
pub struct EventRow {
    /// The tick, counted over all terms.
    pub tick: u64,
    /// The kind.
    pub kind: EventKind,
    /// The number of the carrier.
    pub carrier: Option<u32>,
    /// The number of the slot.
    pub slot: Option<u32>,
    /// The number of the radio.
    pub radio: Option<u32>,
    /// The talkgroup of the call that was joined, or the address that a refused request was about.
    pub target: Option<u32>,
    /// The number of the channel to which the control channel is moved.
    pub channel: Option<u32>,
    /// The reason code of the acknowledgement.
    pub reason: Option<u32>,
    /// The result of the command.
    pub reply: Option<CommandOutcome>,
}

/// An event of this kind with no other value than the tick.
fn bare(tick: u64, kind: EventKind) -> EventRow
    ensures { result ≡ only tick kind }
{
    EventRow {
        tick,
        kind,
        carrier: None,
        slot: None,
        radio: None,
        target: None,
        channel: None,
        reason: None,
        reply: None,
    }
}

/// The kind of a change's event.
fn kind_of_change(kind: &ChangeKind) -> EventKind
    ensures { result ≡ kind_by_change kind.now }
{
    match kind {
        ChangeKind::Joined => EventKind::Joined,
        ChangeKind::Left => EventKind::Left,
        ChangeKind::Dropped => EventKind::Dropped,
    }
}

/// The event of a change of registration.
pub fn event_of_change(change: &Change) -> EventRow
    ensures { result ≡ change_row change.now }
{
    let mut event = bare(change.tick, kind_of_change(&change.kind));
    event.radio = Some(change.radio.get());
    event
}

/// Puts a number of a command into the column of its argument. Arguments of commands that only ask have no column.
fn put_number(event: &mut EventRow, argument: &Argument, number: u32)
    ensures { event.new ≡ with_number event.old argument.now number }
{
    match argument {
        Argument::Carrier => event.carrier = Some(number),
        Argument::Slot => event.slot = Some(number),
        Argument::Radio => event.radio = Some(number),
        Argument::Channel => event.channel = Some(number),
        Argument::FromRadio | Argument::Line => {}
    }
}

/// Puts the numbers of a command into the columns of its arguments.
fn put_numbers(event: &mut EventRow, arguments: &[Argument], numbers: &[u32])
    ensures { event.new ≡ with_numbers event.old arguments.now numbers.now }
{
    match arguments {
        [] => {}
        [argument, others @ ..] => match numbers {
            [] => {}
            [number, rest @ ..] => {
                put_number(event, argument, *number);
                put_numbers(event, others, rest);
            }
        },
    }
}

/// The event of a command with its result.
fn event_of_command(tick: u64, command: &Command, outcome: CommandOutcome) -> EventRow
    ensures { result ≡ event_by_command tick command.now outcome }
{
    let (kind, numbers) = command.parts();
    let mut event = bare(tick, EventKind::Command(kind));
    put_numbers(&mut event, kind.row().arguments, numbers.as_slice());
    event.reply = Some(outcome);
    event
}

/// The event of a note.
pub fn event_of_note(note: &TimedOccurrence) -> EventRow
    ensures { result ≡ note_row note.now }
{
    let tick = note.tick;
    match &note.what {
        Occurrence::CameUp(carrier) => {
            let mut event = bare(tick, EventKind::CameUp);
            event.carrier = Some(carrier.get());
            event
        }
        Occurrence::WasLost(carrier) => {
            let mut event = bare(tick, EventKind::WasLost);
            event.carrier = Some(carrier.get());
            event
        }
        Occurrence::JoinedCall {
            radio,
            target,
            carrier,
            slot,
        } => {
            let mut event = bare(tick, EventKind::JoinedCall);
            event.carrier = Some(carrier.get());
            event.slot = Some(slot.get());
            event.radio = Some(radio.get());
            event.target = Some(target.get());
            event
        }
        Occurrence::Refused {
            source,
            target,
            reason,
        } => {
            let mut event = bare(tick, EventKind::Refused);
            event.radio = Some(source.get());
            event.target = Some(target.get());
            event.reason = Some(reason.get());
            event
        }
        Occurrence::Commanded { command, outcome } => event_of_command(tick, command, *outcome),
    }
}
