// Sets of depots, entries, and lists of entries.
#![tactic(auto)]

mod filling;
mod lists;
mod sets;

pub use filling::{Entries, InsertRefusal, PLACES, may_hold};
pub use lists::{
    Entry, MAX_POOL, MAX_SHELF, MAX_WISH, entry_of, is_list, names_of, on_list, pool_of,
};
pub use sets::{Depots, MAX_DEPOTS, is_depot};
