//! The lists that a term leaves for the next one.

ghost use Rattle.std.specs.Prelude.{◌≡◌, ◌≤◌, [], IfOk, vec_capacity};

use crate::limits::MOST_ACTORS;
use crate::report::{Journal, Views};
use arrayvec::ArrayVec;
use dmr_core::Entry;
use dmr_link::Deposit;
use dmr_pdu::OutOfMemory;
use std::alloc::Global;
use std::marker::Model;
use std::mem;

/// The lists of a term that has ended: its journal, and the deposits of each actor. The next term writes to the same
/// memory. Contracts see nothing of these lists, so no contract depends on the memory that a term uses.
#[derive(Drop)]
pub struct SpareLists {
    /// The journal. If none is kept, it has no room.
    journal: Vec<Entry>,
    /// The deposits of each actor, by the actor's number.
    views: Views,
}

impl Model for SpareLists {
    ghost Value = { Unit {0} };

    ghost view = { λ _. tt };
}

/// Empties a list that has room for `limit` items. If it has less room, drops it and makes another. On an error an
/// allocation was refused, and the list is lost.
fn emptied<T: Copy>(alloc: Global, list: Vec<T>, limit: usize) -> Result<Vec<T>, OutOfMemory>
    ensures items { IfOk result (λ list. list.items ≡ []) }
    ensures room { IfOk result (λ list. limit ≤ vec_capacity list) }
{
    let mut list = list;
    if list.capacity() >= limit {
        list.clear();
        return Ok(list);
    }
    // The memory of the smaller list is given back first.
    drop(list);
    Vec::with_capacity(alloc, limit)
}

impl SpareLists {
    /// Keeps no list. It allocates no memory.
    pub fn new(alloc: Global) -> Self {
        SpareLists {
            journal: Vec::new(alloc),
            views: ArrayVec::new_in(alloc),
        }
    }

    /// Keeps the lists of a term. It allocates no memory.
    pub(crate) fn of_term(journal: Journal, views: Views) -> Self {
        SpareLists {
            journal: journal.into_entries(),
            views,
        }
    }

    /// Keeps a journal, in place of the one that was kept. It allocates no memory.
    pub(crate) fn keep_journal(&mut self, journal: Journal) {
        self.journal = journal.into_entries();
    }

    /// Returns an empty list with room for `limit` entries: the journal that was kept if it has the room, else a new
    /// list. On an error an allocation was refused, and no journal is kept.
    pub(crate) fn take_journal(
        &mut self,
        alloc: Global,
        limit: usize,
    ) -> Result<Vec<Entry>, OutOfMemory>
        ensures items { IfOk result (λ list. list.items ≡ []) }
        ensures room { IfOk result (λ list. limit ≤ vec_capacity list) }
    {
        let kept = mem::replace(&mut self.journal, Vec::new(alloc));
        emptied(alloc, kept, limit)
    }

    /// Returns an empty list with room for `limit` deposits: the first of those that are kept if it has the room, else
    /// a new list. On an error an allocation was refused, and the first list is kept no longer.
    pub(crate) fn take_deposits(
        &mut self,
        alloc: Global,
        limit: usize,
    ) -> Result<Vec<Deposit>, OutOfMemory>
        ensures items { IfOk result (λ list. list.items ≡ []) }
        ensures room { IfOk result (λ list. limit ≤ vec_capacity list) }
    {
        // The seats take the lists in the order of their actors, so each actor has the list of the term before. A list
        // then takes no more memory than its own actor needs.
        let kept = match self.views.pop_at(0) {
            Some(view) => view.into_deposits(),
            None => Vec::new(alloc),
        };
        emptied(alloc, kept, limit)
    }
}
