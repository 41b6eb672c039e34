//! The lines by the entries of a journal, each with the tick at which it was added.

ghost use Rattle.std.specs.Prelude.{◌≡◌, ◌==◌, filter, find, fold, not, OnOk};
ghost use Rattle.dmr_keeper.specs.Lines.{lines_after_act, lines_after_entry, lines_after_event};
ghost use Rattle.dmr_keeper.specs.Lines.{waited_at as ticks_of_line};

use dmr_calls::Line;
use dmr_core::{Act, Entry, Event};
use dmr_pdu::{Address, OutOfMemory};
use dmr_plan::Plan;

/// A line that waits.
#[derive(Clone, Copy, Debug, PartialEq, Eq)]
pub struct OpenLine {
    /// The line: a request for a call that waits for a free slot.
    pub line: Line,
    /// The tick at which it was added, counted over all terms.
    pub since: u64,
}

/// The line of a radio.
fn line_of(lines: &[OpenLine], radio: &Address) -> Option<OpenLine>
    ensures { result ≡ find (λ l. l.line.source == radio.now) lines.now }
{
    lines.iter().copied().find(|l| l.line.source == *radio)
}

/// How many ticks the line of a radio has waited at this tick; 0 if the radio has no line.
pub fn waited_at(tick: u64, lines: &[OpenLine], radio: &Address) -> u64
    ensures { result ≡ ticks_of_line tick lines.now radio.now }
{
    match line_of(lines, radio) {
        Some(l) => tick.saturating_sub(l.since),
        None => 0,
    }
}

/// Applies an event to the lines.
fn apply_event(plan: &Plan, event: &Event, lines: &mut Vec<OpenLine>)
    ensures { lines.new.items ≡ lines_after_event plan.now lines.old.items event.now }
{
    match event {
        Event::Up(carrier) | Event::Lost(carrier) => {
            if *carrier == plan.control() {
                lines.clear();
            }
        }
        Event::Heard(_, _)
        | Event::Noise(_)
        | Event::Active(_)
        | Event::Poll(_)
        | Event::Tick
        | Event::Say(_) => {}
    }
}

/// Removes the line of a radio.
fn remove_line(radio: &Address, lines: &mut Vec<OpenLine>)
    ensures { lines.new.items
        ≡ filter (λ l. not (l.line.source == radio.now)) lines.old.items }
{
    lines.retain(|l| l.line.source != *radio);
}

/// Applies an act at this tick to the lines.
fn apply_act(tick: u64, act: &Act, lines: &mut Vec<OpenLine>) -> Result<(), OutOfMemory>
    ensures { OnOk result (lines.new.items ≡ lines_after_act tick lines.old.items act.now) }
{
    match act {
        Act::Lined(line) => lines.push(OpenLine {
            line: *line,
            since: tick,
        })?,
        Act::Unlined(radio) => remove_line(radio, lines),
        Act::Queue(_, _)
        | Act::Send(_, _)
        | Act::Fill(_, _)
        | Act::Joined(_)
        | Act::Left(_)
        | Act::Asked(_)
        | Act::AskOver(_)
        | Act::Began(_)
        | Act::Ended(_) => {}
    }
    Ok(())
}

/// Applies acts at this tick to the lines, in their order.
fn apply_acts(tick: u64, acts: &[Act], lines: &mut Vec<OpenLine>) -> Result<(), OutOfMemory>
    ensures { OnOk result
        (lines.new.items ≡ fold (lines_after_act tick) lines.old.items acts.now) }
{
    for act in acts {
        apply_act(tick, act, lines)?;
    }
    Ok(())
}

/// Applies an entry to the lines, whose ticks with its event are `tick`. On an error memory ran out, and the lines have
/// the effect of some first acts.
pub fn apply_to_lines(
    plan: &Plan,
    tick: u64,
    entry: &Entry,
    lines: &mut Vec<OpenLine>,
) -> Result<(), OutOfMemory>
    ensures { OnOk result
        (lines.new.items ≡ lines_after_entry plan.now tick lines.old.items entry.now) }
{
    apply_event(plan, &entry.event, lines);
    apply_acts(tick, entry.acts.list.as_slice(), lines)
}
