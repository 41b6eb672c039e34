//! Adds the acts that answer a PDU received on the control slot: a request, or the answer of a called radio.

ghost use Rattle.std.specs.Prelude.{◌≡◌, ◌≤◌, ◌+◌, ◌++◌, length};
ghost use Rattle.dmr_core.specs.Words.{is_engaged};
ghost use Rattle.dmr_core.specs.Rules.{acts_for_called_radio, acts_for_cancel, acts_for_pdu};
ghost use Rattle.dmr_core.specs.Rules.{acts_for_individual_request, is_leaving, acts_for_leaving};
ghost use Rattle.dmr_core.specs.Rules.{acts_for_new_call, option_bit, acts_for_registration};
ghost use Rattle.dmr_core.specs.Rules.{acts_for_request, acts_for_talkgroup_request};

use super::Machine;
use crate::act::{Act, ActList};
use crate::request::Request;
use dmr_calls::{Ask, Line, MOST_ASKS, MOST_LINES};
use dmr_pdu::{Address, Kind, Number, Options, Pdu, Reason};
use dmr_registry::MOST_RADIOS;

/// Reports whether an option bit is 1. Bit 0 is the last of the seven.
fn has_option(options: Options, bit: u8) -> bool
    ensures { result ≡ option_bit options bit }
{
    bit < 7 && options.get() / (1 << bit) % 2 == 1
}

impl Machine {
    /// Answers a PDU.
    #[tactic(auto, unfolding(crate::specs::Rules::acts_for_pdu))]
    // Out of line: an event of another kind then does not clear this function's locals.
    #[inline(never)]
    pub(super) fn answer_pdu(&self, acts: &mut ActList, pdu: &Pdu)
        requires { length acts.old + 7 ≤ 16 }
        ensures { acts.new ≡ acts.old ++ acts_for_pdu self.now.plan self.now.facts pdu.now }
    {
        match *pdu {
            Pdu::Random {
                options,
                flags,
                kind,
                target,
                source,
            } => self.answer_request(
                acts,
                &Request {
                    options,
                    source,
                    target,
                },
                flags,
                kind,
            ),
            Pdu::Acku {
                reason,
                additional,
                ..
            } => self.answer_called_radio(acts, reason, additional),
            _ => {}
        }
    }

    /// Answers a request.
    #[tactic(auto, unfolding(crate::specs::Rules::acts_for_request))]
    fn answer_request(&self, acts: &mut ActList, asked: &Request, flags: Number<5>, kind: Kind)
        requires { length acts.old + 7 ≤ 16 }
        ensures { acts.new
            ≡ acts.old ++ acts_for_request self.now.plan self.now.facts asked.now flags kind }
    {
        if flags.get() != 0 {
            self.add_ack(acts, asked.source, asked.target, Reason::NOT_SUPPORTED);
        } else if kind == Kind::REGISTRATION {
            self.answer_registration(acts, asked);
        } else if kind != Kind::TALKGROUP_VOICE
            && kind != Kind::INDIVIDUAL_VOICE
            && kind != Kind::CANCEL
        {
            self.add_ack(acts, asked.source, asked.target, Reason::NOT_SUPPORTED);
        } else if !self.registry.has(asked.source) {
            self.add_ack(acts, asked.source, asked.target, Reason::MS_NOT_REGISTERED);
        } else if kind == Kind::CANCEL {
            self.answer_cancel(acts, asked);
        } else if kind == Kind::TALKGROUP_VOICE {
            self.answer_talkgroup_request(acts, asked);
        } else {
            self.answer_individual_request(acts, asked);
        }
    }

    #[tactic(auto, unfolding(crate::specs::Rules::is_leaving))]
    fn is_leaving(&self, options: Options) -> bool
        ensures { result ≡ is_leaving self.now.plan options }
    {
        match self.plan.leave_bit() {
            Some(bit) => !has_option(options, bit),
            None => false,
        }
    }

    /// Answers a radio that leaves.
    #[tactic(auto, unfolding(crate::specs::Rules::acts_for_leaving))]
    fn answer_leaving(&self, acts: &mut ActList, request: &Request)
        requires { length acts.old + 7 ≤ 16 }
        ensures { acts.new ≡ acts.old ++ acts_for_leaving self.now.plan self.now.facts request.now }
    {
        self.add_close(acts, request.source);
        if self.registry.has(request.source) {
            acts.push(Act::Left(request.source));
        }
        self.add_ack(
            acts,
            request.source,
            request.target,
            Reason::MESSAGE_ACCEPTED,
        );
    }

    /// Answers a registration, or a radio that leaves.
    #[tactic(auto, unfolding(crate::specs::Rules::acts_for_registration))]
    fn answer_registration(&self, acts: &mut ActList, request: &Request)
        requires { length acts.old + 7 ≤ 16 }
        ensures { acts.new
            ≡ acts.old ++ acts_for_registration self.now.plan self.now.facts request.now }
    {
        if self.is_leaving(request.options) {
            self.answer_leaving(acts, request);
        } else if !self.plan.lists_radio(request.source) {
            self.add_ack(acts, request.source, request.target, Reason::REG_DENIED);
        } else if self.registry.has(request.source) {
            self.add_ack(acts, request.source, request.target, Reason::REG_ACCEPTED);
        } else if self.registry.len() >= MOST_RADIOS {
            self.add_ack(acts, request.source, request.target, Reason::REG_REFUSED);
        } else {
            acts.push(Act::Joined(request.source));
            self.add_ack(acts, request.source, request.target, Reason::REG_ACCEPTED);
        }
    }

    /// Reports whether a radio is engaged.
    fn is_engaged(&self, radio: Address) -> bool
        ensures { result ≡ is_engaged self.now.facts radio }
    {
        self.calls.engaged(radio).is_some()
    }

    /// Begins a call if a slot is free and there is no line. Otherwise adds the line, or refuses it if there are
    /// `MOST_LINES` lines.
    #[tactic(auto, unfolding(crate::specs::Rules::acts_for_new_call))]
    fn add_new_call(&self, acts: &mut ActList, line: &Line)
        requires { length acts.old + 5 ≤ 16 }
        ensures acts { acts.new
            ≡ acts.old ++ acts_for_new_call self.now.plan self.now.facts line.now }
    {
        if let Some(slot) = self.slot_for_new_call() {
            self.add_begin(acts, &line.to_call(slot));
        } else if self.calls.counts().lines < MOST_LINES {
            acts.push(Act::Lined(*line));
            self.add_ack(acts, line.source, line.target, Reason::QUEUED_FOR_RESOURCE);
        } else {
            self.add_ack(acts, line.source, line.target, Reason::SYSBUSY_REFUSED);
        }
    }

    /// Answers a talkgroup request.
    #[tactic(auto, unfolding(crate::specs::Rules::acts_for_talkgroup_request))]
    fn answer_talkgroup_request(&self, acts: &mut ActList, asked: &Request)
        requires { length acts.old + 7 ≤ 16 }
        ensures { acts.new
            ≡ acts.old ++ acts_for_talkgroup_request self.now.plan self.now.facts asked.now }
    {
        let group = asked.target;
        if !self.plan.lists_group(group) {
            self.add_ack(acts, asked.source, group, Reason::GROUP_NOT_ALLOWED);
        } else if let Some(call) = self.calls.own_group_call(asked.source, group) {
            self.add_grant(acts, &call, false);
        } else if self.calls.own_group_line(asked.source, group) {
            self.add_ack(acts, asked.source, group, Reason::QUEUED_FOR_RESOURCE);
        } else if self.is_engaged(asked.source) {
            self.add_ack(acts, asked.source, group, Reason::TRANSIENT_SYS_REFUSED);
        } else if let Some(call) = self.calls.group_call(group) {
            self.add_grant(acts, &call, true);
        } else if self.calls.group_line(group) {
            self.add_ack(acts, asked.source, group, Reason::QUEUED_FOR_RESOURCE);
        } else {
            self.add_new_call(
                acts,
                &Line {
                    source: asked.source,
                    target: group,
                    group: true,
                },
            );
        }
    }

    /// Answers an individual request.
    #[tactic(auto, unfolding(crate::specs::Rules::acts_for_individual_request))]
    fn answer_individual_request(&self, acts: &mut ActList, asked: &Request)
        requires { length acts.old + 7 ≤ 16 }
        ensures { acts.new
            ≡ acts.old ++ acts_for_individual_request self.now.plan self.now.facts asked.now }
    {
        let source = asked.source;
        let target = asked.target;
        if target == source || !self.plan.lists_radio(target) {
            self.add_ack(acts, source, target, Reason::PERM_USER_REFUSED);
        } else if let Some(call) = self.calls.own_call(source, target) {
            self.add_grant(acts, &call, false);
        } else if self.calls.has_own_ask(source, target) {
            self.add_ack(acts, source, target, Reason::WAIT);
        } else if self.calls.own_line(source, target) {
            self.add_ack(acts, source, target, Reason::QUEUED_FOR_RESOURCE);
        } else if self.is_engaged(source) {
            self.add_ack(acts, source, target, Reason::TRANSIENT_SYS_REFUSED);
        } else if !self.registry.has(target) {
            self.add_ack(acts, source, target, Reason::NOREG_MS_AWAY);
        } else if self.is_engaged(target) {
            self.add_ack(acts, source, target, Reason::CALLED_PARTY_BUSY);
        } else if self.calls.counts().asks < MOST_ASKS {
            let ask = &Ask {
                source,
                target,
                options: asked.options,
                attempt: 1,
            };
            acts.push(Act::Asked(*ask));
            self.add_ack(acts, source, target, Reason::WAIT);
            self.add_ahoy(acts, ask);
        } else {
            self.add_ack(acts, source, target, Reason::SYSBUSY_REFUSED);
        }
    }

    /// Answers the called radio's acknowledgement.
    #[tactic(auto, unfolding(crate::specs::Rules::acts_for_called_radio))]
    fn answer_called_radio(&self, acts: &mut ActList, reason: Reason, called: Address)
        requires { length acts.old + 7 ≤ 16 }
        ensures { acts.new
            ≡ acts.old ++ acts_for_called_radio self.now.plan self.now.facts reason called }
    {
        if let Some(ask) = self.calls.ask_to(called) {
            acts.push(Act::AskOver(ask.source));
            if reason == Reason::MS_ACCEPTED {
                let line = &Line {
                    source: ask.source,
                    target: ask.target,
                    group: false,
                };
                self.add_new_call(acts, line);
            } else {
                self.add_ack(acts, ask.source, ask.target, Reason::CALLED_PARTY_BUSY);
            }
        }
    }

    /// Answers a radio that cancels its request.
    #[tactic(auto, unfolding(crate::specs::Rules::acts_for_cancel))]
    fn answer_cancel(&self, acts: &mut ActList, asked: &Request)
        requires { length acts.old + 7 ≤ 16 }
        ensures { acts.new ≡ acts.old ++ acts_for_cancel self.now.plan self.now.facts asked.now }
    {
        if let Some(ask) = self.calls.ask_of(asked.source) {
            acts.push(Act::AskOver(ask.source));
            self.add_ack(acts, asked.source, asked.target, Reason::MESSAGE_ACCEPTED);
        } else if let Some(line) = self.calls.line_of(asked.source) {
            acts.push(Act::Unlined(line.source));
            self.add_ack(acts, asked.source, asked.target, Reason::MESSAGE_ACCEPTED);
        } else {
            self.add_ack(
                acts,
                asked.source,
                asked.target,
                Reason::CALL_CANCEL_REFUSED,
            );
        }
    }
}
