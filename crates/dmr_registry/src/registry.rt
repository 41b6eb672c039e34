//! The set of registered radios, in the order in which they joined.

ghost use Rattle.std.specs.Prelude.{◌≡◌, ℕ, ◌≤◌, ◌<◌, ◌↔◌, [], ◌∷◌, ◌++◌, length, false, IsTrue};
ghost use Rattle.std.specs.Prelude.{IfOk, MatchOption, nat_eq};
ghost use Rattle.std.specs.List.{All, Contains};
ghost use Rattle.dmr_registry.specs.declared.registry.TheConstants.{MOST_RADIOS};
ghost use Rattle.dmr_registry.specs.Radios.{AreDistinct, is_registered_in, answer_to_join};
ghost use Rattle.dmr_registry.specs.Radios.{radios_after_join, without};
ghost use Rattle.dmr_registry.specs.Least.{held_from, least_from, AreLeast};

use arrayvec::ArrayVec;
use dmr_pdu::{Address, OutOfMemory};
use dmr_table::KeyedTable;
use std::alloc::Global;
use std::marker::Model;

/// The most radios that can be registered at a time: 4,096, by this project's profile.
pub const MOST_RADIOS: usize = 4096;

/// No place is left for another radio: `MOST_RADIOS` others are registered.
#[derive(Clone, Copy, Debug, PartialEq, Eq)]
pub struct Full;

/// The registered radios: at most `MOST_RADIOS`, none of them twice. Contracts see a list of addresses, in the order in
/// which they joined.
#[derive(Drop)]
pub struct Registry {
    radios: KeyedTable<Address, MOST_RADIOS>,
}

impl Model for Registry {
    ghost use Rattle.std.specs.Prelude.{List, ℕ};
    ghost use Rattle.dmr_registry.specs.declared.registry.TheConstants.{MOST_RADIOS};
    ghost use Rattle.dmr_registry.specs.Radios.{AreDistinct};

    ghost Value = { List ℕ };

    ghost view = { λ registry. registry.radios };

    ghost invariant = { λ registry. AreDistinct registry.radios };
}

impl Registry {
    /// Makes an empty registry, and allocates the memory for `MOST_RADIOS`. Returns `OutOfMemory` if the allocation
    /// fails.
    pub fn new(alloc: Global) -> Result<Registry, OutOfMemory>
        ensures { IfOk result (λ registry. registry ≡ []) }
    {
        Ok(Registry {
            radios: KeyedTable::new(alloc)?,
        })
    }

    /// Makes a copy with memory of its own. Returns `OutOfMemory` if the allocation fails.
    pub fn try_clone(&self, alloc: Global) -> Result<Registry, OutOfMemory>
        ensures { IfOk result (λ copy. copy ≡ self.now) }
    {
        Ok(Registry {
            radios: self.radios.try_clone(alloc)?,
        })
    }

    /// The number of registered radios: 0 to `MOST_RADIOS`.
    pub fn len(&self) -> usize
        ensures value { result ≡ length self.now }
        ensures few { result ≤ MOST_RADIOS }
    {
        self.radios.len()
    }

    /// Reports whether no radio is registered.
    pub fn is_empty(&self) -> bool
        ensures { IsTrue result ↔ (self.now ≡ []) }
    {
        self.radios.is_empty()
    }

    /// The registered radios, in the order in which they joined: at most `MOST_RADIOS`, none of them twice.
    pub fn as_slice(&self) -> &[Address]
        ensures value { result.now ≡ self.now }
        ensures few { length self.now ≤ MOST_RADIOS }
        ensures distinct { AreDistinct self.now }
    {
        self.radios.as_slice()
    }

    /// Reports whether a radio is registered.
    pub fn has(&self, radio: Address) -> bool
        ensures gives { result ≡ is_registered_in self.now radio }
        ensures member { IsTrue result ↔ Contains self.now radio }
    {
        self.radios.has(radio.get())
    }

    /// Registers a radio, after those that are registered, and returns `Ok(true)`.
    ///
    /// If the radio is registered already, it keeps its place, and the answer is `Ok(false)`. If it is not, and
    /// `MOST_RADIOS` others are, returns `Full`. Only `Ok(true)` changes anything.
    pub fn join(&mut self, radio: Address) -> Result<bool, Full>
        ensures answer { result ≡ answer_to_join self.old radio }
        ensures radios { self.new ≡ radios_after_join self.old radio }
    {
        if self.has(radio) {
            return Ok(false);
        }
        if self.len() >= MOST_RADIOS {
            return Err(Full);
        }
        self.add(radio);
        Ok(true)
    }

    /// Registers a radio that is not registered, after those that are. There must be a place for it.
    // Out of line: an event without such an act then does not prepare for it.
    #[inline(never)]
    pub fn add(&mut self, radio: Address)
        requires fresh { is_registered_in self.old radio ≡ false }
        requires room { length self.old < MOST_RADIOS }
        ensures { self.new ≡ self.old ++ radio ∷ [] }
    {
        self.radios.push(radio);
    }

    /// Removes a radio, and reports whether it was registered. The others keep their order.
    pub fn leave(&mut self, radio: Address) -> bool
        ensures answer { result ≡ is_registered_in self.old radio }
        ensures radios { self.new ≡ without self.old radio }
    {
        let was_held = self.has(radio);
        self.remove(radio);
        was_held
    }

    /// Removes a radio, if it is registered. The others keep their order.
    // Out of line: an event without such an act then does not prepare for it.
    #[inline(never)]
    pub fn remove(&mut self, radio: Address)
        ensures { self.new ≡ without self.old radio }
    {
        self.radios.remove(radio.get());
    }

    /// The 16 least registered radios from a number on, in ascending order; all of them if there are fewer.
    pub fn from_number(&self, from: Address) -> ArrayVec<Address, 16>
        ensures gives { result.items ≡ least_from self.now from }
        ensures least { AreLeast self.now from result.items }
    {
        let mut listed = ArrayVec::new();
        let mut next = from.get();
        while !listed.is_full() {
            let Some(radio) = self.lowest_from(next) else {
                return listed;
            };
            listed.push(radio);
            next = radio.get() + 1;
        }
        listed
    }

    /// The least registered radio from a number on.
    fn lowest_from(&self, from: u32) -> Option<Address>
        ensures { MatchOption result (length (held_from self.now from) ≡ 0)
            (λ least. Contains (held_from self.now from) least
            × All (λ radio. least ≤ radio) (held_from self.now from)) }
    {
        self.radios.least_from(from)
    }
}

/// Two registries are equal if the same radios joined in the same order.
impl PartialEq for Registry {
    ghost use Rattle.std.specs.Prelude.{nat_eq};
    ghost use Rattle.std.specs.Cmp.Lexicographic.{pointwise, nat_list_eq_equiv};
    ghost use Rattle.std.specs.Cmp.{partial_equiv_from_equiv};

    ghost eq = { pointwise nat_eq };

    ghost laws = { partial_equiv_from_equiv nat_list_eq_equiv };

    fn eq(&self, other: &Self) -> bool
        ensures gives { result ≡ pointwise nat_eq self.now other.now }
        ensures same { IsTrue result ↔ (self.now ≡ other.now) }
    {
        self.as_slice() == other.as_slice()
    }
}

impl Eq for Registry {
    ghost use Rattle.std.specs.Cmp.Lexicographic.{nat_list_eq_equiv};

    ghost laws = { nat_list_eq_equiv };
}
