//! The table.

ghost use Rattle.std.specs.Prelude.{◌≡◌, ◌<◌, ◌≤◌, ◌++◌, ◌∷◌, ◌↔◌, ◌==◌, [], length, not, find};
ghost use Rattle.std.specs.Prelude.{filter, set, slice_index_or, IsTrue, IfOk, MatchOption};
ghost use Rattle.std.specs.List.{All, list_any};
ghost use Rattle.dmr_table.specs.Limits.{most_entries};
ghost use Rattle.dmr_table.specs.Entries.{without_first, IsLeastFrom};

use crate::keyed::Keyed;
use crate::places::{Place, count_before, first_from, lower_places};
use dmr_pdu::OutOfMemory;
use std::alloc::Global;
use std::marker::Model;

/// At most `MOST` entries, in the order in which they were added. Contracts see a list, oldest first.
#[derive(Drop)]
pub struct KeyedTable<V: Keyed, const MOST: usize> {
    entries: Vec<V>,
    places: Vec<Place>,
}

impl<V: Keyed, const MOST: usize> Model for KeyedTable<V, MOST> {
    ghost use Rattle.std.specs.Prelude.{◌≤◌, List, vec_len, vec_capacity};
    ghost use Rattle.dmr_table.specs.Places.{IsTable};

    ghost Value = { List V };

    ghost view = { λ table. table.entries.items };

    ghost invariant = { λ table. IsTable MOST (vec_len table.entries) (vec_capacity table.entries)
        (vec_len table.places)
        (vec_capacity table.places) V.key_of table.entries.items table.places.items };
}

impl<V: Keyed, const MOST: usize> KeyedTable<V, MOST> {
    /// Makes a table without entries, and allocates the memory for `MOST`, which is at most 65,536. Returns
    /// `OutOfMemory` if the allocation fails.
    pub fn new(alloc: Global) -> Result<Self, OutOfMemory>
        requires { MOST ≤ most_entries }
        ensures { IfOk result (λ table. table ≡ []) }
    {
        let entries = Vec::with_capacity(alloc, MOST)?;
        let places = Vec::with_capacity(alloc, MOST)?;
        Ok(KeyedTable { entries, places })
    }

    /// Makes a copy with memory of its own. Returns `OutOfMemory` if the allocation fails.
    pub fn try_clone(&self, alloc: Global) -> Result<Self, OutOfMemory>
        ensures { IfOk result (λ copy. copy ≡ self.now) }
    {
        let mut entries = Vec::with_capacity(alloc, MOST)?;
        let mut places = Vec::with_capacity(alloc, MOST)?;
        entries.extend_from_slice(&self.entries)?;
        places.extend_from_slice(&self.places)?;
        Ok(KeyedTable { entries, places })
    }

    /// The number of entries: 0 to `MOST`.
    pub fn len(&self) -> usize
        ensures value { result ≡ length self.now }
        ensures few { result ≤ MOST }
    {
        self.entries.len()
    }

    /// Reports whether there is no entry.
    pub fn is_empty(&self) -> bool
        ensures { IsTrue result ↔ (self.now ≡ []) }
    {
        self.entries.is_empty()
    }

    /// The entries in their order, `MOST` at most.
    pub fn as_slice(&self) -> &[V]
        ensures value { result.now ≡ self.now }
        ensures few { length self.now ≤ MOST }
    {
        self.entries.as_slice()
    }

    /// The first entry with a key; `None` if no entry has it.
    pub fn find(&self, key: u32) -> Option<V>
        ensures { result ≡ find (λ v. V.key_of v == key) self.now }
    {
        let place = self.places[first_from(&self.places, key)?];
        if place.key == key {
            Some(self.entries[usize::from(place.index)])
        } else {
            None
        }
    }

    /// Reports whether there is an entry with a key.
    pub fn has(&self, key: u32) -> bool
        ensures { result ≡ list_any (λ v. V.key_of v == key) self.now }
    {
        self.find(key).is_some()
    }

    /// An entry with the least key from a number on; `None` if all keys are below the number.
    pub fn least_from(&self, key: u32) -> Option<V>
        ensures { MatchOption result (All (λ v. V.key_of v < key) self.now)
            (IsLeastFrom V.key_of key self.now) }
    {
        let place = self.places[first_from(&self.places, key)?];
        Some(self.entries[usize::from(place.index)])
    }

    /// Adds an entry after the others. There must be a place for it: the table has fewer than `MOST` entries.
    pub fn push(&mut self, entry: V)
        requires { length self.old < MOST }
        ensures { self.new ≡ self.old ++ entry ∷ [] }
    {
        let place = Place {
            key: entry.key(),
            index: self.entries.len() as u16,
        };
        let before = count_before(&self.places, place);
        self.places.insert(before, place).unwrap();
        self.entries.push_reserved(entry);
    }

    /// Replaces the entry at a place, counted from 0, by one with the same key. There must be an entry at the place.
    pub fn replace(&mut self, place: usize, entry: V)
        requires within { place < length self.old }
        requires same { (d : V) → V.key_of (slice_index_or self.old place d) ≡ V.key_of entry }
        ensures { self.new ≡ set self.old place entry }
    {
        self.entries[place] = entry;
    }

    /// Removes the first entry with a key, and returns it. The others keep their order. If no entry has the key,
    /// returns `None` and changes nothing.
    pub fn remove_first(&mut self, key: u32) -> Option<V>
        ensures first { result ≡ find (λ v. V.key_of v == key) self.old }
        ensures others { self.new ≡ without_first (λ v. V.key_of v == key) self.old }
    {
        let first = first_from(&self.places, key)?;
        let place = self.places[first];
        if place.key != key {
            return None;
        }
        self.places.remove(first);
        lower_places(&mut self.places, place.index);
        Some(self.entries.remove(usize::from(place.index)))
    }

    /// Removes all entries with a key. The others keep their order.
    pub fn remove(&mut self, key: u32)
        ensures { self.new ≡ filter (λ v. not (V.key_of v == key)) self.old }
    {
        while self.remove_first(key).is_some() {}
    }

    /// Removes all entries.
    pub fn clear(&mut self)
        ensures { self.new ≡ [] }
    {
        self.places.clear();
        self.entries.clear();
    }
}
