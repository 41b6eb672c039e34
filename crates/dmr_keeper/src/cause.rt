//! Why a call ended.

ghost use Rattle.std.specs.Prelude.{◌≡◌};
ghost use Rattle.dmr_keeper.specs.Causes.{cause_by_age as age_cause};
ghost use Rattle.dmr_keeper.specs.Causes.{cause_by_command as command_cause, cause_of as cause};

use dmr_calls::ActiveCall;
use dmr_core::{Command, Event};

/// Why a call ended.
#[derive(Clone, Copy, Debug, PartialEq, Eq)]
pub enum EndCause {
    /// There was no activity on its slot for the plan's hang time.
    HangTime,
    /// It became as old as the plan allows a call to be. It began, or there was activity on its slot, within the hang
    /// time.
    Maximum,
    /// A radio that took part in it left the site by a request.
    RadioLeft,
    /// An operator dropped a radio that took part in it: the command `drop`.
    Dropped,
    /// An operator ended it by another command, such as `end`.
    EndedByOperator,
    /// Its carrier was lost, or came up again.
    CarrierLost,
}

/// The cause of a call's end in an answer to a Tick. The call ends at the hang time if it is reached, else at the
/// maximum.
fn cause_by_age(hang: u16, active: &ActiveCall) -> EndCause
    ensures { result ≡ age_cause hang active.now }
{
    if active.quiet >= hang {
        EndCause::HangTime
    } else {
        EndCause::Maximum
    }
}

/// The cause of a call's end in an answer to an operator's command.
fn cause_by_command(command: &Command) -> EndCause
    ensures { result ≡ command_cause command.now }
{
    match command {
        Command::Drop(_) => EndCause::Dropped,
        _ => EndCause::EndedByOperator,
    }
}

/// The cause of the end of a call in an entry with this event.
pub fn cause_of(hang: u16, event: &Event, active: &ActiveCall) -> EndCause
    ensures { result ≡ cause hang event.now active.now }
{
    match event {
        Event::Up(_) | Event::Lost(_) => EndCause::CarrierLost,
        Event::Heard(_, _) => EndCause::RadioLeft,
        Event::Say(command) => cause_by_command(command),
        Event::Noise(_) | Event::Active(_) | Event::Poll(_) | Event::Tick => cause_by_age(
            hang, active,
        ),
    }
}
