//! The acts of a tick.

ghost use Rattle.std.specs.Prelude.{◌≡◌, ◌≤◌, ◌+◌, ◌++◌, length};
ghost use Rattle.dmr_calls.specs.Due.{due_of};
ghost use Rattle.dmr_core.specs.Words.{active_lists};
ghost use Rattle.dmr_core.specs.Rules.{acts_for_due_call, acts_for_due_ask, acts_for_line};
ghost use Rattle.dmr_core.specs.Rules.{acts_for_tick};

use super::Machine;
use crate::act::{Act, ActList};
use dmr_calls::{Ask, Due, Line};
use dmr_pdu::{Reason, Slot};

impl Machine {
    /// Answers a tick, which has been counted.
    #[tactic(auto, unfolding(crate::specs::Rules::acts_for_tick))]
    // Out of line: an event of another kind then does not clear this function's locals.
    #[inline(never)]
    pub(super) fn answer_tick(&self, acts: &mut ActList)
        requires { length acts.old + 13 ≤ 16 }
        ensures { acts.new ≡ acts.old ++ acts_for_tick self.now.plan self.now.facts }
    {
        let due = self.due();
        self.add_call_end(acts, due.call);
        if self.has_room() {
            self.add_ask_repeat(acts, due.ask);
            self.add_line_service(acts, due.line);
        }
    }

    /// The call, ask and line that are due by the plan's times.
    fn due(&self) -> Due
        ensures { result ≡ due_of (active_lists self.now.facts) self.now.plan.calls.hang
            self.now.plan.calls.maximum self.now.plan.calls.ahoy_wait }
    {
        let plan = &self.plan;
        self.calls
            .due(plan.hang(), plan.maximum(), plan.ahoy_wait())
    }

    /// Adds the end of the call on a slot that is due.
    #[tactic(auto, unfolding(crate::specs::Rules::acts_for_due_call))]
    fn add_call_end(&self, acts: &mut ActList, due: Option<Slot>)
        requires { length acts.old + 5 ≤ 16 }
        ensures acts { acts.new
            ≡ acts.old ++ acts_for_due_call self.now.plan self.now.facts.calls due }
        ensures few { length acts.new ≤ length acts.old + 5 }
    {
        if let Some(slot) = due {
            if let Some(call) = self.calls.call_on(slot) {
                self.add_clear(acts, &call);
            }
        }
    }

    /// Repeats an ask that is due; after the plan's last try, removes it.
    #[tactic(auto, unfolding(crate::specs::Rules::acts_for_due_ask))]
    fn add_ask_repeat(&self, acts: &mut ActList, due: Option<Ask>)
        requires { length acts.old + 2 ≤ 16 }
        ensures acts { acts.new ≡ acts.old ++ acts_for_due_ask self.now.plan due }
        ensures few { length acts.new ≤ length acts.old + 2 }
    {
        if let Some(ask) = due {
            if ask.attempt < self.plan.ahoy_tries() {
                acts.push(Act::Asked(Ask {
                    attempt: ask.attempt + 1,
                    ..ask
                }));
                self.add_ahoy(acts, &ask);
            } else {
                acts.push(Act::AskOver(ask.source));
                self.add_ack(acts, ask.source, ask.target, Reason::NOREG_MS_AWAY);
            }
        }
    }

    /// Begins the call of the first line, if a slot is free.
    #[tactic(auto, unfolding(crate::specs::Rules::acts_for_line))]
    fn add_line_service(&self, acts: &mut ActList, first: Option<Line>)
        requires { length acts.old + 6 ≤ 16 }
        ensures acts { acts.new ≡ acts.old ++ acts_for_line self.now.plan self.now.facts first }
        ensures few { length acts.new ≤ length acts.old + 6 }
    {
        if let Some(line) = first {
            if let Some(slot) = self.lowest_free() {
                acts.push(Act::Unlined(line.source));
                self.add_begin(acts, &line.to_call(slot));
            }
        }
    }
}
