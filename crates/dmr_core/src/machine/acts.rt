//! The parts of answers: acknowledgements, grants, P_CLEARs, and beginnings and ends of calls.

ghost use Rattle.std.specs.Prelude.{◌≡◌, ◌≤◌, ◌+◌, ◌<◌, ◌++◌, length, replicate};
ghost use Rattle.dmr_core.specs.Rules.{ack, ahoy, begin, clear, close, grant, grant_pdu};

use super::Machine;
use crate::act::{Act, ActList};
use dmr_calls::{Ask, Call};
use dmr_pdu::{Address, Kind, Number, Pdu, Reason};

impl Machine {
    /// Adds a C_ACKD to `source` that names `target`.
    pub(super) fn add_ack(
        &self,
        acts: &mut ActList,
        source: Address,
        target: Address,
        reason: Reason,
    )
        requires { length acts.old < 16 }
        ensures { acts.new ≡ acts.old ++ ack self.now.plan source target reason }
    {
        acts.push(Act::Queue(
            self.control_slot(),
            Pdu::Ackd {
                info: Number::new(0),
                reason,
                spare: false,
                target: source,
                additional: target,
            },
        ));
    }

    /// Adds the C_AHOY to the target of an ask.
    pub(super) fn add_ahoy(&self, acts: &mut ActList, ask: &Ask)
        requires { length acts.old < 16 }
        ensures { acts.new ≡ acts.old ++ ahoy self.now.plan ask.now }
    {
        acts.push(Act::Queue(
            self.control_slot(),
            Pdu::Ahoy {
                options: ask.options,
                group: false,
                kind: Kind::INDIVIDUAL_VOICE,
                called: ask.target,
                calling: ask.source,
            },
        ));
    }

    /// Adds the grant of a call, in as many copies as the plan's `grant_copies`.
    #[tactic(auto, using(crate::proofs::PlansAreKnown::plan_known), unfolding(crate::specs::Rules::grant))]
    pub(super) fn add_grant(&self, acts: &mut ActList, call: &Call, late: bool)
        requires { length acts.old + 4 ≤ 16 }
        ensures acts { acts.new ≡ acts.old ++ grant self.now.plan call.now late }
        ensures few { length acts.new ≤ length acts.old + 4 }
    {
        self.plan.use_invariant();
        let act = &Act::Queue(self.control_slot(), self.grant_pdu(call, late));
        add_copies(acts, self.plan.grant_copies(), act);
    }

    /// The grant of a call: TV_GRANT for a talkgroup, else PV_GRANT.
    pub(super) fn grant_pdu(&self, call: &Call, late: bool) -> Pdu
        ensures { result ≡ grant_pdu self.now.plan call.now late }
    {
        let lpcn = self.lpcn_of(call.slot.carrier);
        if call.group {
            Pdu::TvGrant {
                lpcn,
                slot: call.slot.slot,
                late,
                target: call.target,
                source: call.source,
            }
        } else {
            Pdu::PvGrant {
                lpcn,
                slot: call.slot.slot,
                target: call.target,
                source: call.source,
            }
        }
    }

    /// Adds the end of a call, and P_CLEAR on its slot in as many copies as the plan's `clear_copies`.
    #[tactic(auto, using(crate::proofs::PlansAreKnown::plan_known), unfolding(crate::specs::Rules::clear))]
    pub(super) fn add_clear(&self, acts: &mut ActList, call: &Call)
        requires { length acts.old + 5 ≤ 16 }
        ensures acts { acts.new ≡ acts.old ++ clear self.now.plan call.now }
        ensures few { length acts.new ≤ length acts.old + 5 }
    {
        self.plan.use_invariant();
        acts.push(Act::Ended(call.slot));
        let act = &Act::Queue(
            call.slot,
            Pdu::Clear {
                lpcn: self.lpcn_of(self.plan.control()),
                group: call.group,
                target: call.target,
                source: self.plan.tsi(),
            },
        );
        add_copies(acts, self.plan.clear_copies(), act);
    }

    /// Adds the beginning of a call, and its grant.
    pub(super) fn add_begin(&self, acts: &mut ActList, call: &Call)
        requires { length acts.old + 5 ≤ 16 }
        ensures acts { acts.new ≡ acts.old ++ begin self.now.plan call.now }
        ensures few { length acts.new ≤ length acts.old + 5 }
    {
        acts.push(Act::Began(*call));
        self.add_grant(acts, call, false);
    }

    /// Adds the end of the call, ask or line that engages a radio, if there is one.
    #[tactic(auto, unfolding(crate::specs::Rules::close))]
    pub(super) fn add_close(&self, acts: &mut ActList, radio: Address)
        requires { length acts.old + 5 ≤ 16 }
        ensures acts { acts.new ≡ acts.old ++ close self.now.plan self.now.facts radio }
        ensures few { length acts.new ≤ length acts.old + 5 }
    {
        if let Some(call) = self.calls.call_of(radio) {
            self.add_clear(acts, &call);
        } else if let Some(ask) = self.calls.ask_of(radio) {
            acts.push(Act::AskOver(ask.source));
        } else if let Some(ask) = self.calls.ask_to(radio) {
            acts.push(Act::AskOver(ask.source));
            self.add_ack(acts, ask.source, ask.target, Reason::NOREG_MS_AWAY);
        } else if let Some(line) = self.calls.line_of(radio) {
            acts.push(Act::Unlined(line.source));
        } else if let Some(line) = self.calls.line_to(radio) {
            acts.push(Act::Unlined(line.source));
            self.add_ack(acts, line.source, line.target, Reason::NOREG_MS_AWAY);
        }
    }
}

/// Adds an act `copies` times.
fn add_copies(acts: &mut ActList, copies: u8, act: &Act)
    requires { length acts.old + copies ≤ 16 }
    ensures { acts.new ≡ acts.old ++ replicate copies act.now }
{
    for done in 0..copies {
        acts.push(*act);
    }
}
