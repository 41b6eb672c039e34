//! A list of bounded length that is `Copy` and does not use an allocator.

ghost use Rattle.std.specs.Prelude.{◌≡◌, ◌<◌, ◌≤◌, ◌-◌, ◌++◌, ◌∷◌, ◌↔◌, [], length, take, IsTrue};
ghost use Rattle.std.specs.Cmp.Lexicographic.{pointwise, lists_per, lists_equiv};

use crate::OutOfMemory;
use std::fmt;
use std::marker::Model;

/// A type with a value for the unused cells of a [`BoundedList`].
pub trait Blank: Copy {
    ghost blank: { Self };

    /// The value of unused cells.
    fn blank() -> Self
        ensures { result ≡ blank };
}

/// A list of at most `N` entries, stored in place: `Copy`, without an allocator. Contracts see it as the list of its
/// entries. Unused cells have the type's blank value, so two lists are equal exactly if their entries are.
pub struct BoundedList<T: Blank, const N: usize> {
    cells: [T; N],
    count: usize,
}

impl<T: Blank, const N: usize> Model for BoundedList<T, N> {
    ghost use Rattle.std.specs.Prelude.{◌≡◌, ◌≤◌, ◌-◌, List, length, take, drop, replicate};
    ghost use Rattle.dmr_pdu.specs.Padding.{with_padding, with_padding-take};

    ghost Value = { List T };

    ghost view = { λ list. take list.count list.cells };

    ghost invariant = { λ list. (list.count ≤ N) × (length list.cells ≡ N)
        × (drop list.count list.cells ≡ replicate (N - list.count) T.blank) };

    ghost inverse = { λ entries. record {
      cells = with_padding N T.blank entries;
      count = length entries;
    } };

    ghost use Rattle.std.proofs.Common.{arith, length-take-le};

    ghost inverse_ok = { λ list is i. record {
      cells = with_padding-take N T.blank list.count list.cells is.0 is.1 is.2 i;
      count = length-take-le list.count list.cells (Prim.omega (arith, is.0, is.1)) i;
    } };
}

/// Copies the list. It never fails.
impl<T: Blank, const N: usize> Clone for BoundedList<T, N> {
    ghost use Rattle.std.specs.Prelude.{◌≡◌, ⊤};

    ghost is_clone = { λ list copy. copy ≡ list };

    ghost is_infallible = { λ _. ⊤ };

    fn clone(&self) -> Result<Self, OutOfMemory> {
        Ok(*self)
    }
}

impl<T: Blank, const N: usize> Copy for BoundedList<T, N> {}

impl<T: Blank, const N: usize> BoundedList<T, N> {
    /// Returns the empty list.
    pub fn new() -> Self
        ensures { result ≡ [] }
    {
        BoundedList {
            cells: [T::blank(); N],
            count: 0,
        }
    }

    /// Returns the list of these entries, in their order. There must be at most `N` of them.
    pub fn from_slice(entries: &[T]) -> Self
        requires { length entries.now ≤ N }
        ensures { result ≡ entries.now }
    {
        let mut list = BoundedList::new();
        for entry in entries {
            list.push(*entry);
        }
        list
    }

    /// Returns the number of entries, 0 to `N`.
    pub fn len(&self) -> usize
        ensures value { result ≡ length self.now }
        ensures few { result ≤ N }
    {
        self.as_slice().len()
    }

    /// Returns whether the list has no entries.
    pub fn is_empty(&self) -> bool
        ensures { IsTrue result ↔ (self.now ≡ []) }
    {
        self.count == 0
    }

    /// Returns whether the list has `N` entries, so that there is no room for another.
    pub fn is_full(&self) -> bool
        ensures { IsTrue result ↔ (length self.now ≡ N) }
    {
        self.count == N
    }

    /// Returns the entries, in the order in which they were added: at most `N`.
    pub fn as_slice(&self) -> &[T]
        ensures value { result.now ≡ self.now }
        ensures few { length result.now ≤ N }
    {
        &self.cells[..self.count]
    }

    /// Adds an entry at the end. The list must have room for it.
    pub fn push(&mut self, entry: T)
        requires { length self.old < N }
        ensures { self.new ≡ self.old ++ entry ∷ [] }
    {
        self.cells[self.count] = entry;
        self.count += 1;
    }

    /// Removes the last entry. There must be one.
    fn remove_last(&mut self)
        requires { 0 < length self.old }
        ensures { self.new ≡ take (length self.old - 1) self.old }
    {
        self.count -= 1;
        self.cells[self.count] = T::blank();
    }

    /// Removes all entries. It writes only the cells that have entries, so it costs less than a new list if there are
    /// few.
    pub fn clear(&mut self)
        ensures { self.new ≡ [] }
    {
        while !self.is_empty() {
            self.remove_last();
        }
    }
}

/// Two lists are equal if their entries are, one by one.
impl<T: Blank + PartialEq, const N: usize> PartialEq for BoundedList<T, N> {
    ghost eq = { λ v w. pointwise T.eq v w };

    ghost laws = { lists_per T.laws };

    fn eq(&self, other: &Self) -> bool {
        self.as_slice() == other.as_slice()
    }
}

impl<T: Blank + Eq, const N: usize> Eq for BoundedList<T, N> {
    ghost laws = { lists_equiv T.Eq.laws };
}

/// Writes the slice of the entries.
impl<T: Blank + fmt::Debug, const N: usize> fmt::Debug for BoundedList<T, N> {
    fn fmt<W: fmt::Write>(&self, f: &mut fmt::Formatter<W>) -> fmt::Result {
        write!(f, "{:?}", self.as_slice())
    }
}
