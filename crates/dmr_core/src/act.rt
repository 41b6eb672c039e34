//! The acts of the site machine.

ghost use Rattle.std.specs.Prelude.{◌≡◌, ◌↔◌, [], IsTrue, None};

use crate::reply::Reply;
use dmr_calls::{Ask, Call, Line};
use dmr_pdu::{Address, Blank, BoundedList, Pdu, Slot};

/// One step of the site's answer to an event.
#[derive(Clone, Copy, Debug, PartialEq, Eq)]
pub enum Act {
    /// A PDU is queued for a slot, after those that wait.
    Queue(Slot, Pdu),
    /// The oldest PDU that waits for a slot is sent on it.
    Send(Slot, Pdu),
    /// A PDU is sent on a slot for which no PDU waits.
    Fill(Slot, Pdu),
    /// A radio is registered from now on.
    Joined(Address),
    /// A radio is no longer registered.
    Left(Address),
    /// A radio was asked whether it takes a call. The new ask replaces the one that its source had, if any.
    Asked(Ask),
    /// The ask of this source is over.
    AskOver(Address),
    /// A request waits for a slot, after those that wait already.
    Lined(Line),
    /// The request of this source no longer waits.
    Unlined(Address),
    /// A call begins on its slot.
    Began(Call),
    /// The call on this slot ends.
    Ended(Slot),
}

impl Blank for Act {
    ghost use Rattle.dmr_core.specs.declared.act.Act.TheVariants.{Joined};

    ghost blank = { Joined 0 };

    fn blank() -> Self {
        Act::Joined(Address::blank())
    }
}

/// At most 16 acts, in the order in which the site does them. The list is `Copy` and allocates nothing.
pub type ActList = BoundedList<Act, 16>;

/// The site's answer to an event.
#[derive(Clone, Copy, Debug, PartialEq, Eq)]
pub struct Acts {
    /// The acts, in order.
    pub list: ActList,
    /// The reply to an operator; `None` if the event is not a command.
    pub said: Option<Reply>,
}

impl Acts {
    /// Makes an answer of these acts, without a reply.
    pub fn without_reply(list: ActList) -> Acts
        ensures { result ≡ record { list = list; said = None } }
    {
        Acts { list, said: None }
    }

    /// Makes an answer without acts and without a reply.
    pub fn none() -> Acts
        ensures { result ≡ record { list = []; said = None } }
    {
        Acts::without_reply(BoundedList::new())
    }

    /// Removes the acts and the reply. It writes only what is there, so it costs less than [`Acts::none`] if there is
    /// little.
    pub fn clear(&mut self)
        ensures { self.new ≡ record { list = []; said = None } }
    {
        self.list.clear();
        if self.said.is_some() {
            self.said = None;
        }
    }

    /// Reports whether the two are the same answer: the same acts in the same order, and the same reply. It returns
    /// what `==` returns, with a contract.
    pub fn equals(&self, other: &Acts) -> bool
        ensures { IsTrue result ↔ (self.now ≡ other.now) }
    {
        self == other
    }
}
