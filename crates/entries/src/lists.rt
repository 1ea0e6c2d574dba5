// Entries, and lists of them.
ghost use Rattle.std.specs.Prelude.{◌≡◌, ℕ, ◌+◌, ◌<◌, ◌≤◌, Bool, true, length, if◌then◌else◌, Some, None, Decides, nat_le};
ghost use Rattle.std.specs.List.{AllByRecursion};
ghost use Rattle.entries.specs.Limits.{max_depots, max_pool};
ghost use Rattle.entries.specs.Lists.{pool, Listed, on, entry_of, names, MayFollow, Orderly};

use crate::sets::{Depots, is_depot};

/// The most that a depot may wish for.
pub const MAX_WISH: u32 = 1_000_000;

/// The most that a shelf can hold: a share and a tray, each of at most half of it.
pub const MAX_SHELF: u32 = 2_000_000_000;

/// The most that the shelves of a list may hold together.
pub const MAX_POOL: u32 = 1_000_000_000;

/// The fewest entries that a list has.
const FEWEST: usize = 2;

/// What one depot brings to a handover: its number, the pieces on its shelf, and the pieces that it wishes for.
#[derive(Clone, Copy, PartialEq, Eq, Default, Debug)]
pub struct Entry {
    pub depot: u8,
    pub shelf: u32,
    pub wish: u32,
}

/// The pieces on all shelves of a list, or none where they pass what the shelves of a list may hold together.
pub fn pool_of(list: &[Entry]) -> Option<u32>
    ensures { result ≡ (if nat_le (pool list.now) max_pool then Some (pool list.now) else None) }
{
    // no `try_fold`: tried, and its closure, which adds, tests and answers an Option, reads no plainer
    let mut sum: u32 = 0;
    for next in list {
        if next.shelf > MAX_POOL - sum {
            return None;
        }
        sum += next.shelf;
    }
    Some(sum)
}

/// The entry of a depot, or none where the depot is not on the list.
pub fn entry_of(list: &[Entry], depot: u8) -> Option<Entry>
    ensures { result ≡ (if on list.now depot then Some (entry_of list.now depot) else None) }
{
    list.iter().find(|next| next.depot == depot).copied()
}

/// Whether a depot is on the list.
pub fn on_list(list: &[Entry], depot: u8) -> bool
    ensures { result ≡ on list.now depot }
{
    entry_of(list, depot).is_some()
}

/// The set of the depots on a list. Callers have the list from a letter that was read or from a record, where every
/// depot lies below the greatest number.
// asked, and no type of depots: an entry is also what is read of bytes, whose depot may be any
pub fn names_of(list: &[Entry]) -> Depots
    requires { AllByRecursion (λ e. e.depot < max_depots) list.now }
    ensures { result.0 ≡ names list.now }
{
    // no `fold`: tried, and that its closure may be called at each turn did not prove
    let mut set = Depots::none();
    for next in list.iter().rev() {
        set = set.with(next.depot);
    }
    set
}

/// Whether an entry may stand on a list next, where the depots so far lie below a number.
fn may_follow(next: &Entry, least: u8) -> bool
    ensures { Decides result (MayFollow least next.now) }
{
    next.depot >= least && is_depot(next.depot) && next.wish <= MAX_WISH
}

/// Whether the entries rise by depot, with lawful depots and wishes.
fn rises(list: &[Entry]) -> bool
    ensures { Decides result (Orderly 0 list.now) }
{
    // no `all` or `windows`: what an entry has to follow changes, and the first has none before it
    let mut least = 0;
    for next in list {
        if !may_follow(next, least) {
            return false;
        }
        least = next.depot + 1;
    }
    true
}

/// Whether entries are a list: two to the greatest number of depots, rising by depot, with lawful depots and wishes,
/// and with shelves that together keep within the limit.
pub fn is_list(list: &[Entry]) -> bool
    ensures { Decides result (Listed list.now) }
{
    if list.len() < FEWEST {
        return false;
    }
    rises(list) && pool_of(list).is_some()
}
