//! Changes of registration.

ghost use Rattle.std.specs.Prelude.{◌≡◌, ◌+◌, ◌<◌, ◌^◌, ◌++◌, filter_map, IfOk, OnOk};
ghost use Rattle.dmr_keeper.specs.Changes.{change_by_act, changes_in};
ghost use Rattle.dmr_keeper.specs.Changes.{kind_of_leaving as leaving_kind};
ghost use Rattle.dmr_keeper.specs.Ticks.{ticks_in};

use crate::ticks::tick_with;
use dmr_core::{Act, Command, Entry, Event};
use dmr_pdu::{Address, OutOfMemory};
use std::alloc::Global;

/// How a registration changed.
#[derive(Clone, Copy, Debug, PartialEq, Eq)]
pub enum ChangeKind {
    /// The radio was registered, by its request.
    Joined,
    /// The radio left, by its request.
    Left,
    /// An operator ended the registration: the command `drop`.
    Dropped,
}

/// A change of a registration.
#[derive(Clone, Copy, Debug, PartialEq, Eq)]
pub struct Change {
    /// The radio.
    pub radio: Address,
    /// The tick of the change, counted over all terms.
    pub tick: u64,
    /// How the registration changed.
    pub kind: ChangeKind,
}

/// How a registration ends in an entry with this event.
fn kind_of_leaving(event: &Event) -> ChangeKind
    ensures { result ≡ leaving_kind event.now }
{
    match event {
        Event::Say(Command::Drop(_)) => ChangeKind::Dropped,
        _ => ChangeKind::Left,
    }
}

/// The change that an act makes, in an entry with this event.
fn change_of(event: &Event, tick: u64, act: &Act) -> Option<Change>
    ensures { result ≡ change_by_act event.now tick act.now }
{
    match act {
        Act::Joined(radio) => Some(Change {
            radio: *radio,
            tick,
            kind: ChangeKind::Joined,
        }),
        Act::Left(radio) => Some(Change {
            radio: *radio,
            tick,
            kind: kind_of_leaving(event),
        }),
        Act::Queue(_, _)
        | Act::Send(_, _)
        | Act::Fill(_, _)
        | Act::Asked(_)
        | Act::AskOver(_)
        | Act::Lined(_)
        | Act::Unlined(_)
        | Act::Began(_)
        | Act::Ended(_) => None,
    }
}

/// Adds the changes that acts make, in an entry with this event.
fn add_changes(
    event: &Event,
    tick: u64,
    acts: &[Act],
    changes: &mut Vec<Change>,
) -> Result<(), OutOfMemory>
    ensures { OnOk result (changes.new.items
        ≡ changes.old.items ++ filter_map (change_by_act event.now tick) acts.now) }
{
    for act in acts {
        if let Some(change) = change_of(event, tick, act) {
            changes.push(change)?;
        }
    }
    Ok(())
}

/// The changes of registration in a journal, oldest first. `ticks` are those before it; with those of the journal they
/// must fit in 64 bits. On an error memory ran out.
pub fn changes_of(alloc: Global, ticks: u64, journal: &[Entry]) -> Result<Vec<Change>, OutOfMemory>
    requires { ticks + ticks_in journal.now < 2 ^ 64 }
    ensures { IfOk result (λ changes. changes.items ≡ changes_in ticks journal.now) }
{
    let mut changes = Vec::new(alloc);
    let mut tick = ticks;
    for entry in journal {
        tick = tick_with(tick, &entry.event);
        add_changes(&entry.event, tick, entry.acts.list.as_slice(), &mut changes)?;
    }
    Ok(changes)
}
