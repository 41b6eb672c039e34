//! A site and the journal of its events.

ghost use Rattle.std.specs.Prelude.{◌≡◌, ◌<◌, ◌↔◌, ◌++◌, ◌∷◌, [], length, reverse, vec_len, vec_capacity};
ghost use Rattle.std.specs.Prelude.{IsOk, IsTrue, IfOk, IfErr, OnOk};
ghost use Rattle.dmr_link.specs.Runs.{IsSafe};
ghost use Rattle.dmr_desk.specs.BookState.{IsSoundBook, answer_to, book_with_entry, empty_book};
ghost use Rattle.dmr_desk.specs.BookState.{site_after_entries};

use crate::report::Journal;
use crate::room::push_copy;
use crate::spare::SpareLists;
use dmr_core::{Acts, Entry, Event, Site, each_act_is_safe};
use dmr_link::TermOver;
use dmr_pdu::OutOfMemory;
use std::alloc::Global;
use std::marker::Model;

/// A site, with the journal of all events and answers since the book was opened. Contracts see the site at its opening,
/// the limit of the journal, and the entries, oldest first. The journal is legal from that site
/// ([`use_invariant`](Book::use_invariant)), and the site is in the state that the journal leads to.
#[derive(Drop)]
pub struct Book {
    opening: Site,
    site: Site,
    journal: Vec<Entry>,
    limit: usize,
}

impl Model for Book {
    ghost use Rattle.std.specs.Prelude.{◌≡◌, ◌≤◌, vec_capacity};
    ghost use Rattle.dmr_desk.specs.BookState.{BookState, IsSoundBook, site_after_entries};

    ghost Value = { BookState };

    ghost view = { λ b. record {
      opening = b.opening;
      limit = b.limit;
      entries = b.journal.items;
    } };

    ghost invariant = { λ b.
        IsSoundBook (record { opening = b.opening; limit = b.limit; entries = b.journal.items })
        × (b.site ≡ site_after_entries b.opening b.journal.items)
        × (b.limit ≤ vec_capacity b.journal) };
}

/// Enters an actor's event and its answer in a journal that has room for them.
fn enter(journal: &mut Vec<Entry>, actor: u8, event: &Event, acts: &Acts)
    requires { vec_len journal.old < vec_capacity journal.old }
    ensures items { journal.new.items ≡ journal.old.items
        ++ record { actor = actor; event = event.now; acts = acts.now } ∷ [] }
    ensures capacity { vec_capacity journal.new ≡ vec_capacity journal.old }
{
    let entry = Entry {
        actor,
        event: *event,
        acts: *acts,
    };
    push_copy(journal, &entry);
}

impl Book {
    /// Opens the book of a site, without entries. Its journal may have `limit` entries, and has room for them from the
    /// beginning. On an error an allocation was refused; the error returns the site unchanged.
    pub fn new(alloc: Global, site: Site, limit: usize) -> Result<Book, (OutOfMemory, Site)>
        ensures ok { IfOk result (λ book. book ≡ empty_book site limit) }
        ensures err { IfErr result (λ fault. fault.1 ≡ site) }
    {
        let mut spare = SpareLists::new(alloc);
        Book::with_lists(alloc, site, limit, &mut spare)
    }

    /// Does the same as [`new`](Book::new). If a journal with the room is kept, its memory is used.
    pub(crate) fn with_lists(
        alloc: Global,
        site: Site,
        limit: usize,
        spare: &mut SpareLists,
    ) -> Result<Book, (OutOfMemory, Site)>
        ensures ok { IfOk result (λ book. book ≡ empty_book site limit) }
        ensures err { IfErr result (λ fault. fault.1 ≡ site) }
    {
        let Ok(opening) = site.try_clone(alloc) else {
            return Err((OutOfMemory, site));
        };
        let Ok(journal) = spare.take_journal(alloc, limit) else {
            drop(opening);
            return Err((OutOfMemory, site));
        };
        site.use_invariant();
        Ok(Book {
            opening,
            site,
            journal,
            limit,
        })
    }

    /// Applies an event of the actor with this number to the site, enters it with the answer, and returns the answer.
    /// It allocates no memory. On an error the journal is at its limit; the site has not received the event, and
    /// nothing has changed.
    pub fn apply(&mut self, actor: u8, event: Event) -> Result<Acts, TermOver>
        ensures acts { IfOk result (λ acts. acts ≡ answer_to self.old event) }
        ensures entered { IfOk result
            (λ acts. self.new ≡ book_with_entry self.old actor event acts) }
        ensures room { length self.old.entries < self.old.limit → IsOk result }
        ensures over { IfErr result (λ over. (self.new ≡ self.old)
            × (over.entries ≡ length self.old.entries)
            × (length self.old.entries ≡ self.old.limit)) }
    {
        let mut acts = Acts::none();
        self.apply_to(actor, &event, &mut acts)?;
        Ok(acts)
    }

    /// Answers an event as [`apply`](Book::apply) does. `acts` becomes the answer, whatever it was before. On an error
    /// `acts` is unchanged too.
    pub(crate) fn apply_to(
        &mut self,
        actor: u8,
        event: &Event,
        acts: &mut Acts,
    ) -> Result<(), TermOver>
        ensures acts { OnOk result (acts.new ≡ answer_to self.old event.now) }
        ensures entered { OnOk result
            (self.new ≡ book_with_entry self.old actor event.now acts.new) }
        ensures room { length self.old.entries < self.old.limit → IsOk result }
        ensures over { IfErr result (λ over. (self.new ≡ self.old) × (acts.new ≡ acts.old)
            × (over.entries ≡ length self.old.entries)
            × (length self.old.entries ≡ self.old.limit)) }
    {
        let entries = self.journal.len();
        if entries >= self.limit {
            return Err(TermOver { entries });
        }
        self.site.apply_to(event, acts);
        enter(&mut self.journal, actor, event, acts);
        Ok(())
    }

    /// The number of entries.
    pub(crate) fn len(&self) -> usize
        ensures { result ≡ length self.now.entries }
    {
        self.journal.len()
    }

    /// Whether the journal is at its limit.
    pub fn is_full(&self) -> bool
        ensures { IsTrue result ↔ (length self.now.entries ≡ self.now.limit) }
    {
        self.journal.len() >= self.limit
    }

    /// Does nothing. By its contract every book's journal is legal and within its limit, and every act in it is safe.
    pub fn use_invariant(&self)
        ensures kept { IsSoundBook self.now }
        ensures safe { IsSafe self.now.opening.plan self.now.opening.facts
            (reverse self.now.entries) }
    {
        each_act_is_safe();
        let _ = &self.journal;
    }

    /// The entries, oldest first.
    pub fn as_slice(&self) -> &[Entry]
        ensures { result.now ≡ self.now.entries }
    {
        self.journal.as_slice()
    }

    /// Returns the site, in the state that the journal leads to, and the journal. It stays a call, since a caller that
    /// moves a site to two places takes LLVM long.
    #[inline(never)]
    pub fn into_parts(self) -> (Site, Journal)
        ensures site { result.0 ≡ site_after_entries self.opening self.entries }
        ensures journal { result.1 ≡ self.entries }
    {
        let Book {
            opening,
            site,
            journal,
            ..
        } = self;
        drop(opening);
        (site, Journal::new(journal))
    }
}
