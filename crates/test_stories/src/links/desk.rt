//! A desk that keeps a list of the events that it took.

ghost use Rattle.std.specs.Prelude.{◌≡◌, ◌<◌, [], ◌∷◌, ◌++◌, length, vec_len, vec_capacity, IfOk};
ghost use Rattle.std.specs.Prelude.{IfErr, None, OnOk};

use dmr_core::{Acts, Event, Site};
use dmr_link::{Deposit, Desk, TermOver};
use dmr_pdu::OutOfMemory;
use std::alloc::Global;
use std::marker::Model;

/// A site, the events that it processed in this term with their answers, and the number of events that the term has
/// room for.
#[derive(Drop)]
pub struct ListDesk {
    actor: usize,
    site: Site,
    calls: Vec<Deposit>,
    limit: usize,
}

impl Model for ListDesk {
    ghost use Rattle.std.specs.Prelude.{◌≤◌, vec_len, vec_capacity};
    ghost use Rattle.test_stories.specs.ListDesk.{ListDesk as Shown};

    ghost Value = { Shown };

    ghost view = { λ d. record { actor = d.actor; calls = d.calls.items; limit = d.limit } };

    ghost invariant = { λ d. (vec_len d.calls ≤ d.limit) × (d.limit ≤ vec_capacity d.calls) };
}

impl ListDesk {
    /// Makes a desk for an actor over a site, with a term of `limit` events. It takes all its memory here.
    pub fn new(
        alloc: Global,
        actor: usize,
        site: Site,
        limit: usize,
    ) -> Result<ListDesk, OutOfMemory>
        ensures { IfOk result (λ desk. desk ≡ record { actor = actor; calls = []; limit = limit }) }
    {
        Ok(ListDesk {
            actor,
            site,
            calls: Vec::with_capacity(alloc, limit)?,
            limit,
        })
    }

    /// Begins another term, of `limit` events, with no event in it. The site remains as it is.
    pub fn begin_term(&mut self, alloc: Global, limit: usize) -> Result<(), OutOfMemory>
        ensures { IfOk result
            (λ _. self.new ≡ record { actor = self.old.actor; calls = []; limit = limit }) }
    {
        self.calls = Vec::with_capacity(alloc, limit)?;
        self.limit = limit;
        Ok(())
    }

    /// Applies an event to the site and keeps it with the answer, which `acts` becomes. If the term is over, it changes
    /// nothing.
    fn take(&mut self, event: &Event, acts: &mut Acts) -> Result<(), TermOver>
        ensures ok { OnOk result (self.new ≡ record self.old {
          calls = self.old.calls ++ record { event = event.now; acts = acts.new } ∷ [];
        }) }
        ensures err { IfErr result (λ over. (self.new ≡ self.old) × (acts.new ≡ acts.old)
            × (length self.old.calls ≡ self.old.limit) × (over.entries ≡ self.old.limit)) }
    {
        let entries = self.calls.len();
        if entries >= self.limit {
            return Err(TermOver { entries });
        }
        self.site.apply_to(event, acts);
        push_copy(&mut self.calls, &deposit_of(event, acts));
        Ok(())
    }

    /// Returns the events that the desk took in this term, oldest first.
    pub fn calls(&self) -> &[Deposit]
        ensures { result.now ≡ self.now.calls }
    {
        self.calls.as_slice()
    }
}

/// The desk refuses an event, and changes nothing, if the term has as many events as it has room for.
impl Desk for ListDesk {
    ghost actor = { λ d. d.actor };

    ghost calls = { λ d. d.calls };

    ghost questions = { λ d. None };

    ghost refuses = { λ d event over f. (f ≡ d) × (length d.calls ≡ d.limit)
        × (over.entries ≡ d.limit) };

    ghost ends = { λ d f. (f ≡ d) × (length d.calls ≡ d.limit) };

    fn deposit_to(&mut self, event: &Event, acts: &mut Acts) -> Result<(), TermOver> {
        self.take(event, acts)
    }

    fn over(&mut self) -> bool {
        self.calls.len() == self.limit
    }
}

/// Returns an event that was taken, with its answer.
fn deposit_of(event: &Event, acts: &Acts) -> Deposit
    ensures { result ≡ record { event = event.now; acts = acts.now } }
{
    Deposit {
        event: *event,
        acts: *acts,
    }
}

/// Adds a copy of an item at the end of a list that has room for it.
fn push_copy<T: Copy>(list: &mut Vec<T>, item: &T)
    requires { vec_len list.old < vec_capacity list.old }
    ensures items { list.new.items ≡ list.old.items ++ item.now ∷ [] }
    ensures capacity { vec_capacity list.new ≡ vec_capacity list.old }
{
    list.push_reserved(*item);
}
