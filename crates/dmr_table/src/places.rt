//! The places of entries, in the order of their keys.

ghost use Rattle.std.specs.Prelude.{◌≡◌, ◌*◌, MatchOption, length, map};
ghost use Rattle.dmr_table.specs.Limits.{most_entries};
ghost use Rattle.dmr_table.specs.Places.{AreAscending, IsGap, HasFirst, rank_of};
ghost use Rattle.dmr_table.specs.Places.{place_after_removal as lowered_of};

/// An entry's key, and its place among the entries.
#[derive(Clone, Copy, Debug)]
pub struct Place {
    /// The key.
    pub key: u32,
    /// The place, counted from 0.
    pub index: u16,
}

impl Place {
    /// A number that orders places by their keys, and those of one key by their index.
    fn rank(&self) -> u64
        ensures { result ≡ rank_of self.now }
    {
        u64::from(self.key) * 65_536 + u64::from(self.index)
    }

    /// The place after the entry at `removed` was removed.
    fn after_removal(&self, removed: u16) -> Place
        ensures { result ≡ lowered_of removed self.now }
    {
        if self.index > removed {
            Place {
                key: self.key,
                index: self.index - 1,
            }
        } else {
            *self
        }
    }
}

/// The number of places that come before one, which need not be among them. The places must ascend.
pub fn count_before(places: &[Place], place: Place) -> usize
    requires { AreAscending places.now }
    ensures { IsGap places.now (rank_of place) result }
{
    let rank = place.rank();
    places.partition_point(|other| other.rank() < rank)
}

/// The index of the first of the places from a key on; `None` if all keys are below it. The places must ascend.
pub fn first_from(places: &[Place], key: u32) -> Option<usize>
    requires { AreAscending places.now }
    ensures { MatchOption result (IsGap places.now (key * most_entries) (length places.now))
        (HasFirst places.now key) }
{
    let before = count_before(places, Place { key, index: 0 });
    if before < places.len() {
        Some(before)
    } else {
        None
    }
}

/// Lowers the index of each place after the removed one by 1.
pub fn lower_places(places: &mut [Place], removed: u16)
    ensures { places.new ≡ map (lowered_of removed) places.old }
{
    for place in places.iter_mut() {
        *place = place.after_removal(removed);
    }
}
