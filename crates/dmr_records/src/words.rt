//! The words that the file has for causes, kinds of events and results of commands.

ghost use Rattle.std.specs.Prelude.{◌≡◌};
ghost use Rattle.dmr_records.specs.Words.{cause_word as word_of_cause, kind_word as word_of_kind};
ghost use Rattle.dmr_records.specs.Words.{outcome_word as word_of_outcome};

use crate::events::EventKind;
use dmr_keeper::{CommandOutcome, EndCause};

/// The word for the cause of a call's end.
pub fn cause_word(cause: &EndCause) -> &'static str
    ensures { result.now ≡ word_of_cause cause.now }
{
    match cause {
        EndCause::HangTime => "hang_time",
        EndCause::Maximum => "maximum",
        EndCause::RadioLeft => "radio_left",
        EndCause::Dropped => "dropped",
        EndCause::EndedByOperator => "ended_by_operator",
        EndCause::CarrierLost => "carrier_lost",
    }
}

/// The word for a kind of event.
pub fn kind_word(kind: &EventKind) -> &'static str
    ensures { result.now ≡ word_of_kind kind.now }
{
    match kind {
        EventKind::Joined => "joined",
        EventKind::Left => "left",
        EventKind::Dropped => "dropped",
        EventKind::CameUp => "came_up",
        EventKind::WasLost => "was_lost",
        EventKind::JoinedCall => "joined_call",
        EventKind::Refused => "refused",
        EventKind::Command(kind) => kind.row().event,
    }
}

/// The word for the result of a command.
pub fn outcome_word(outcome: &CommandOutcome) -> &'static str
    ensures { result.now ≡ word_of_outcome outcome.now }
{
    match outcome {
        CommandOutcome::Done => "done",
        CommandOutcome::NotRegistered => "not_registered",
        CommandOutcome::Busy => "busy",
        CommandOutcome::NoCall => "no_call",
        CommandOutcome::NoCarrier => "no_carrier",
    }
}
