// Filling a place with entries, in rising order of their depots.
ghost use Rattle.std.specs.Prelude.{◌≡◌, ℕ, ◌+◌, ◌<◌, ◌≤◌, Bool, not, List, [], ◌∷◌, ◌++◌, length, take, nat_le, nat_lt};
ghost use Rattle.std.specs.List.{insert as inserted, prefix_len};
ghost use Rattle.entries.specs.declared.lists.Entry.{Entry};
ghost use Rattle.entries.specs.Limits.{max_depots, max_pool};
ghost use Rattle.entries.specs.Lists.{pool};
ghost use Rattle.entries.specs.Filling.{Inserted};

use crate::lists::{Entry, MAX_POOL, on_list, pool_of};
use crate::sets::MAX_DEPOTS;
use std::marker::Model;

/// How many entries a place has room for: one for each depot.
pub const PLACES: usize = MAX_DEPOTS as usize;

/// Why an entry is not put into a place.
#[derive(Clone, Copy, PartialEq, Eq, Debug)]
pub enum InsertRefusal {
    /// An entry of its depot is there already.
    Present,
    /// The place has no room left.
    Full,
    /// The shelves would hold more than those of a list may.
    PastLimit,
}

/// Entries in a place of their own, which has room for one of each depot and never allocates. A clause sees them as the
/// list that they are.
// an array with a count, and no vector of the library's: those have no `Copy`, which callers may rely on
#[derive(Clone, Copy)]
pub struct Entries {
    items: [Entry; PLACES],
    count: usize,
}

impl Model for Entries {
    ghost use Rattle.std.specs.Prelude.{List, take};
    ghost use Rattle.entries.specs.declared.lists.Entry.{Entry};

    ghost Value = { List Entry };

    ghost use Rattle.entries.specs.Place.{Filled, filled, filled_back};

    ghost view = { λ place. take place.count place.items };

    ghost invariant = { Filled };

    ghost inverse = { filled };

    ghost inverse_ok = { filled_back };
}

/// Whether the shelves of a list may hold more pieces, and still keep within the limit.
pub fn may_hold(list: &[Entry], pieces: u32) -> bool
    ensures { result ≡ nat_le (pool list.now + pieces) max_pool }
{
    pool_of(list).is_some_and(|sum| pieces <= MAX_POOL - sum)
}

/// Where an entry of a depot is put: before the first entry whose depot is above it.
fn place_for(list: &[Entry], depot: u8) -> usize
    ensures place { result ≡ prefix_len (λ e. not (nat_lt depot e.depot)) list.now }
    ensures within { result ≤ length list.now }
{
    // no `unwrap_or`: what is answered where one is found stands on a line of its own, which an edit can turn
    match list.iter().position(|next| depot < next.depot) {
        Some(place) => place,
        None => list.len(),
    }
}

impl Entries {
    /// A place without entries.
    pub fn empty() -> Entries
        ensures { result ≡ [] }
    {
        Entries {
            items: [Entry::default(); PLACES],
            count: 0,
        }
    }

    /// A place with these entries, the first of them, as many as it has room for.
    pub fn of(list: &[Entry]) -> Entries
        ensures { result ≡ take max_depots list.now }
    {
        let mut place = Entries::empty();
        place.refill(list);
        place
    }

    /// A place with the first `count` of these entries. A count past their end stands for all of them.
    pub fn counted(items: [Entry; PLACES], count: usize) -> Entries
        ensures { result ≡ take count items }
    {
        Entries::of(&items[..count.min(PLACES)])
    }

    /// Takes every entry out of the place.
    pub fn clear(&mut self)
        ensures { self.new ≡ [] }
    {
        // tested, and not written anew each time: many places that are cleared are empty already
        if self.count > 0 {
            *self = Entries::empty();
        }
    }

    /// Puts these entries, the first of them, as many as there is room for, in place of those that stand there.
    pub fn refill(&mut self, list: &[Entry])
        ensures { self.new ≡ take max_depots list.now }
    {
        let count = list.len().min(PLACES);
        self.clear();
        self.items[..count].copy_from_slice(&list[..count]);
        self.count = count;
    }

    /// The entries that stand in the place.
    #[tactic(auto, using(crate::proofs::Width::as_many_marks))]
    pub fn as_slice(&self) -> &[Entry]
        ensures list { result.now ≡ self.now }
        ensures few { length result.now ≤ max_depots }
    {
        &self.items[..self.count]
    }

    /// Puts an entry behind the others. Callers have counted that there is room.
    #[tactic(auto, using(crate::proofs::Place::behind_all))]
    pub fn push(&mut self, entry: Entry)
        requires { length self.old < max_depots }
        ensures { self.new ≡ self.old ++ entry ∷ [] }
    {
        self.put_at(self.as_slice().len(), entry);
    }

    /// Puts an entry where its depot comes in rising order. It refuses an entry whose depot is there already, then one
    /// for which there is no room, then one with whose shelf the pool would pass the limit of a list; a refusal leaves
    /// the place as it was. A list begun below some number stays one, for an entry of a depot below it with a lawful
    /// wish.
    pub fn insert(&mut self, entry: Entry) -> Result<(), InsertRefusal>
        ensures { Inserted entry self.old result self.new }
    {
        let list = self.as_slice();
        if on_list(list, entry.depot) {
            return Err(InsertRefusal::Present);
        }
        if list.len() == PLACES {
            return Err(InsertRefusal::Full);
        }
        if !may_hold(list, entry.shelf) {
            return Err(InsertRefusal::PastLimit);
        }
        let place = place_for(list, entry.depot);
        self.put_at(place, entry);
        Ok(())
    }

    /// Puts an entry at a place: it is written behind the others, and those from the place on then move up by one.
    fn put_at(&mut self, place: usize, entry: Entry)
        requires within { place ≤ length self.old }
        requires room { length self.old < max_depots }
        ensures { self.new ≡ inserted self.old place entry }
    {
        self.items[self.count] = entry;
        self.items[place..self.count + 1].rotate_right(1);
        self.count += 1;
    }
}
