//! The lines and the open calls by the entries of a journal, and the records of the calls that end.

ghost use Rattle.std.specs.Prelude.{◌≡◌, ◌+◌, ◌<◌, ◌^◌, ◌++◌, IfOk, OnOk};
ghost use Rattle.dmr_keeper.specs.Calls.{ended_in, open_after};
ghost use Rattle.dmr_keeper.specs.Lines.{lines_after, most_waiting};
ghost use Rattle.dmr_keeper.specs.Ticks.{ticks_in};

use crate::calls::{EndedCall, OpenCall};
use crate::ending::apply_to_calls;
use crate::lines::{OpenLine, apply_to_lines};
use crate::ticks::tick_with;
use dmr_core::Entry;
use dmr_pdu::OutOfMemory;
use dmr_plan::Plan;

/// Applies the entries of a journal to the lines and the open calls, and adds the records of the calls that end. Returns
/// the most lines that waited at once: before the journal, or after one of its entries.
///
/// All ticks must fit in 64 bits. On an error memory ran out, and the lists have the effect of some first acts.
pub fn apply_journal(
    plan: &Plan,
    ticks: u64,
    journal: &[Entry],
    lines: &mut Vec<OpenLine>,
    calls: &mut Vec<OpenCall>,
    ended: &mut Vec<EndedCall>,
) -> Result<usize, OutOfMemory>
    requires { ticks + ticks_in journal.now < 2 ^ 64 }
    ensures lines { OnOk result
        (lines.new.items ≡ lines_after plan.now ticks lines.old.items journal.now) }
    ensures calls { OnOk result (calls.new.items
        ≡ open_after plan.now ticks lines.old.items calls.old.items journal.now) }
    ensures ended { OnOk result (ended.new.items ≡ ended.old.items
        ++ ended_in plan.now ticks lines.old.items calls.old.items journal.now) }
    ensures most { IfOk result
        (λ most. most ≡ most_waiting plan.now ticks lines.old.items journal.now) }
{
    let hang = plan.hang();
    let mut tick = ticks;
    let mut most = 0;
    for entry in journal {
        tick = tick_with(tick, &entry.event);
        most = most.max(lines.len());
        apply_to_calls(hang, tick, lines.as_slice(), entry, calls, ended)?;
        apply_to_lines(plan, tick, entry, lines)?;
    }
    Ok(most.max(lines.len()))
}
