//! The answers of the stories of records.

use crate::language::words::write_call;
use dmr_keeper::{
    CarrierCounts, Change, ChangeKind, CommandOutcome, EndCause, EndedCall, InMemory, Occurrence,
    OpenCall, TermCounts, TimedOccurrence,
};
use dmr_pdu::{Address, OutOfMemory};

/// Writes the mark between two items of an answer.
fn write_mark(said: &mut String) -> Result<(), OutOfMemory> {
    if said.is_empty() {
        Ok(())
    } else {
        said.push_str(", ")
    }
}

/// Returns the word for a cause.
fn cause_word(cause: EndCause) -> &'static str {
    match cause {
        EndCause::HangTime => "hang time",
        EndCause::Maximum => "maximum",
        EndCause::RadioLeft => "radio left",
        EndCause::Dropped => "dropped",
        EndCause::EndedByOperator => "operator",
        EndCause::CarrierLost => "carrier lost",
    }
}

/// Writes calls that ended.
pub fn write_ended(said: &mut String, calls: &[EndedCall]) -> Result<(), OutOfMemory> {
    for call in calls {
        write_mark(said)?;
        write_call(said, "", &call.call)?;
        let cause = cause_word(call.cause);
        write!(said, " {} to {} {cause}", call.began, call.ended)?;
        if call.waited > 0 {
            write!(said, " waited {}", call.waited)?;
        }
    }
    Ok(())
}

/// Writes calls that are open.
pub fn write_open(said: &mut String, calls: &[OpenCall]) -> Result<(), OutOfMemory> {
    for call in calls {
        write_mark(said)?;
        write_call(said, "", &call.active.call)?;
        write!(said, " since {}", call.began)?;
    }
    Ok(())
}

/// Writes what a store has kept.
pub fn write_kept(said: &mut String, store: &InMemory) -> Result<(), OutOfMemory> {
    write_ended(said, store.calls())?;
    write_mark(said)?;
    let (changes, notes) = (store.changes().len(), store.notes().len());
    let (terms, radios) = (store.counts().len(), store.registered().len());
    write!(
        said,
        "{changes} changes, {notes} notes, {terms} terms, {radios} radios"
    )
}

/// Writes the registered radios.
pub fn write_radios(said: &mut String, radios: &[Address]) -> Result<(), OutOfMemory> {
    for radio in radios {
        write_mark(said)?;
        write!(said, "{radio}")?;
    }
    Ok(())
}

/// Returns the word for a kind of change.
fn change_word(kind: ChangeKind) -> &'static str {
    match kind {
        ChangeKind::Joined => "joined",
        ChangeKind::Left => "left",
        ChangeKind::Dropped => "dropped",
    }
}

/// Writes changes of registration.
pub fn write_changes(said: &mut String, changes: &[Change]) -> Result<(), OutOfMemory> {
    for change in changes {
        write_mark(said)?;
        let word = change_word(change.kind);
        write!(said, "{word} {} at {}", change.radio, change.tick)?;
    }
    Ok(())
}

/// Writes notes.
pub fn write_notes(said: &mut String, notes: &[TimedOccurrence]) -> Result<(), OutOfMemory> {
    for note in notes {
        write_mark(said)?;
        write_occurrence(said, &note.what)?;
        write!(said, " at {}", note.tick)?;
    }
    Ok(())
}

/// Writes what happened.
fn write_occurrence(said: &mut String, what: &Occurrence) -> Result<(), OutOfMemory> {
    match what {
        Occurrence::CameUp(carrier) => write!(said, "up {carrier}"),
        Occurrence::WasLost(carrier) => write!(said, "lost {carrier}"),
        Occurrence::JoinedCall {
            radio,
            target,
            carrier,
            slot,
        } => write!(said, "joined {radio} {target} {carrier}.{slot}"),
        Occurrence::Refused {
            source,
            target,
            reason,
        } => write!(said, "refused {source} {target} {}", reason.get()),
        Occurrence::Commanded { command, outcome } => {
            write!(said, "{command}{}", outcome_word(*outcome))
        }
    }
}

/// Returns the words for the result of a command, after a space.
fn outcome_word(outcome: CommandOutcome) -> &'static str {
    match outcome {
        CommandOutcome::Done => " done",
        CommandOutcome::NotRegistered => " not registered",
        CommandOutcome::Busy => " busy",
        CommandOutcome::NoCall => " no call",
        CommandOutcome::NoCarrier => " no carrier",
    }
}

/// Writes the counts of a term.
pub fn write_counts(said: &mut String, counts: &TermCounts) -> Result<(), OutOfMemory> {
    let numbers = [
        counts.entries,
        counts.heard,
        counts.requests,
        counts.noise,
        counts.active,
        counts.polls,
        counts.ticks,
        counts.commands,
        counts.grants,
        counts.late_entries,
        counts.registrations,
        counts.refusals,
        counts.begun,
        counts.ended,
        counts.most_lines,
    ];
    let mut mark = "";
    for number in numbers {
        write!(said, "{mark}{number}")?;
        mark = " ";
    }
    Ok(())
}

/// Writes the counts of carriers.
pub fn write_carriers(said: &mut String, carriers: &[CarrierCounts]) -> Result<(), OutOfMemory> {
    for counts in carriers {
        write_mark(said)?;
        write!(
            said,
            "{} {} {} {} {}",
            counts.carrier, counts.polls, counts.heard, counts.noise, counts.active
        )?;
    }
    Ok(())
}
