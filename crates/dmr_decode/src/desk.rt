//! The desk of a judged site. Links hand it their events, as they do in the controller; the site answers them, and the
//! desk keeps both, so that the judgement can be printed.

ghost use Rattle.std.specs.Prelude.{◌≡◌, ◌<◌, [], ◌∷◌, ◌++◌, vec_len, vec_capacity, IfOk, IfErr};
ghost use Rattle.std.specs.Prelude.{None, OnOk};
ghost use Rattle.dmr_core.specs.Facts.{facts_after, no_facts};
ghost use Rattle.dmr_core.specs.Journal.{unattributed_entry};
ghost use Rattle.dmr_core.specs.Rules.{acts_of};

use dmr_core::{Acts, Command, Event, Reply, Site, SlotState, State};
use dmr_link::{Deposit, Desk, TermOver};
use dmr_pdu::{OutOfMemory, Slot};
use dmr_plan::Plan;
use std::alloc::Global;
use std::marker::Model;

/// The most events that the desk keeps. An octet of a carrier or an operator produces at most one.
const MOST_TAKEN: usize = 4;

/// A site, and the events that it answered since [`SiteDesk::forget`], with the answers.
#[derive(Drop)]
pub struct SiteDesk {
    alloc: Global,
    site: Site,
    taken: Vec<Deposit>,
}

impl Model for SiteDesk {
    ghost use Rattle.std.specs.Prelude.{◌≤◌, vec_capacity};
    ghost use Rattle.dmr_decode.specs.Desk.{JudgedSite};

    ghost Value = { JudgedSite };

    ghost view = { λ d. record { site = d.site; taken = d.taken.items } };

    ghost invariant = { λ d. 4 ≤ vec_capacity d.taken };
}

impl SiteDesk {
    /// Makes the desk of a site on which nothing has happened. `Err`: out of memory.
    pub fn new(alloc: Global, plan: &Plan) -> Result<SiteDesk, OutOfMemory>
        ensures { IfOk result (λ desk. desk
            ≡ record { site = record { plan = plan.now; facts = no_facts }; taken = [] }) }
    {
        let taken = Vec::with_capacity(alloc, MOST_TAKEN)?;
        let site = Site::new(alloc, *plan)?;
        Ok(SiteDesk { alloc, site, taken })
    }

    /// Lets the site answer an event, and keeps both. `acts` becomes the answer. `Err`: too many are kept, and nothing
    /// has changed.
    fn take(&mut self, event: &Event, acts: &mut Acts) -> Result<(), TermOver>
        // The answer is that of the controller's rules.
        ensures acts { OnOk result
            (acts.new.list ≡ acts_of self.old.site.plan self.old.site.facts event.now) }
        ensures ok { OnOk result (self.new ≡ record {
          site = record {
            plan = self.old.site.plan;
            facts = facts_after self.old.site.plan self.old.site.facts
                (unattributed_entry event.now acts.new ∷ []);
          };
          taken = self.old.taken ++ record { event = event.now; acts = acts.new } ∷ [];
        }) }
        ensures err { IfErr result (λ over. (self.new ≡ self.old) × (acts.new ≡ acts.old)) }
    {
        let entries = self.taken.len();
        if entries >= MOST_TAKEN {
            return Err(TermOver { entries });
        }
        self.site.apply_to(event, acts);
        push_copy(&mut self.taken, &deposit_of(event, acts));
        Ok(())
    }

    /// Returns the events that the desk keeps, each with its answer, oldest first.
    pub fn taken(&self) -> &[Deposit]
        ensures { result.now ≡ self.now.taken }
    {
        self.taken.as_slice()
    }

    /// Returns the newest event that the desk keeps, and its answer.
    pub fn newest(&self) -> Option<Deposit> {
        match self.taken.as_slice() {
            [.., newest] => Some(*newest),
            [] => None,
        }
    }

    /// Forgets the events that the desk keeps. The site remains as it is.
    pub fn forget(&mut self)
        ensures { self.new ≡ record self.old { taken = [] } }
    {
        self.taken.clear();
    }

    /// Lets the site's clock tick. Returns whether the site has acts for it. If too many events are kept, nothing
    /// happens.
    pub fn tick(&mut self) -> bool {
        match self.deposit(Event::Tick) {
            Ok(acts) => !acts.list.is_empty(),
            Err(_) => false,
        }
    }

    /// Asks the site for the state of a slot, as an operator does. `None` if the plan does not have the slot.
    pub fn state_of(&mut self, slot: &Slot) -> Option<State> {
        let acts = self.site.apply(Event::Say(Command::Slots));
        match &acts.said {
            Some(Reply::Slots(rows)) => state_in(rows.as_slice(), slot),
            _ => None,
        }
    }

    /// Returns the site's answer to an event without applying the event. `Err`: out of memory.
    pub fn answer_to(&self, event: &Event) -> Result<Acts, OutOfMemory>
        ensures { IfOk result
            (λ acts. acts.list ≡ acts_of self.now.site.plan self.now.site.facts event.now) }
    {
        let mut copy = self.site.try_clone(self.alloc)?;
        let acts = copy.apply(*event);
        drop(copy);
        Ok(acts)
    }
}

/// The desk refuses an event, and changes nothing, if it keeps as many as it has room for.
impl Desk for SiteDesk {
    ghost actor = { λ d. 0 };

    ghost calls = { λ d. d.taken };

    ghost questions = { λ d. None };

    ghost refuses = { λ d event over f. f ≡ d };

    ghost ends = { λ d f. f ≡ d };

    fn deposit_to(&mut self, event: &Event, acts: &mut Acts) -> Result<(), TermOver> {
        self.take(event, acts)
    }

    fn over(&mut self) -> bool {
        self.taken.len() >= MOST_TAKEN
    }
}

/// Returns the state of a slot in the site's reply, if the slot is in it.
fn state_in(rows: &[SlotState], slot: &Slot) -> Option<State> {
    for row in rows {
        if row.slot == *slot {
            return Some(row.state);
        }
    }
    None
}

/// Returns an event that was taken, with its answer.
fn deposit_of(event: &Event, acts: &Acts) -> Deposit
    ensures { result ≡ record { event = event.now; acts = acts.now } }
{
    Deposit {
        event: *event,
        acts: *acts,
    }
}

/// Adds a copy of an item at the end of a list that has room for it.
fn push_copy<T: Copy>(list: &mut Vec<T>, item: &T)
    requires { vec_len list.old < vec_capacity list.old }
    ensures items { list.new.items ≡ list.old.items ++ item.now ∷ [] }
    ensures capacity { vec_capacity list.new ≡ vec_capacity list.old }
{
    list.push_reserved(*item);
}
