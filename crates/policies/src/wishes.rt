// Wishes First: wishes in the order of the list, and the rest as in Level.
ghost use Rattle.std.specs.Prelude.{◌≡◌, ℕ, ◌<◌, ◌≤◌, length, slice_index};
ghost use Rattle.policies.specs.Shares.{granted, grants, rest, wishes_first};
ghost use Rattle.policies.specs.Granting.{wishes_size, wishes_conserves};
ghost use Rattle.std.proofs.Common.{rules};

use crate::dealing::{dealt_at, pieces_of};
use crate::meaning::Policy;
use entries::Entry;

/// What an entry is granted of its wish out of what is left: all of it where it fits, else nothing.
fn grant(wish: u32, left: u32) -> u32
    ensures { result ≡ granted wish left }
{
    if wish <= left { wish } else { 0 }
}

/// What is left of pieces once the entries have had their turns at them.
fn left_after(list: &[Entry], pieces: u32) -> u32
    ensures { result ≡ rest pieces list.now }
{
    list.iter()
        .fold(pieces, |left, next| left - grant(next.wish, left))
}

/// What the entry at a place is granted where all have their turn at the pieces, and what is left after the last turn.
#[tactic(auto, using(crate::proofs::Turns::grant_at, crate::proofs::Turns::rest_split))]
fn granted_at(list: &[Entry], place: usize, pieces: u32) -> (u32, u32)
    requires { place < length list.now }
    ensures mine { result.0 ≡ slice_index (grants pieces list.now) place }
    ensures left { result.1 ≡ rest pieces list.now }
{
    let (before, from) = list.split_at(place);
    let left = left_after(before, pieces);
    (grant(list[place].wish, left), left_after(from, left))
}

/// The policy that grants wishes in the order of the list, as far as each fits, and deals out what is left.
#[derive(Clone, Copy)]
pub struct WishesFirst;

impl Policy for WishesFirst {
    const CODE: u8 = 2;

    ghost CODE = { 2 };

    ghost share = { wishes_first };

    ghost coded = { Prim.search rules };

    ghost size = { wishes_size };

    ghost conserves = { wishes_conserves };

    #[tactic(auto, using(crate::proofs::SharesAt::wishes_first_at, crate::proofs::SharesAt::parts_within))]
    fn share_at(list: &[Entry], place: usize) -> u32 {
        let (mine, left) = granted_at(list, place, pieces_of(list));
        mine + dealt_at(left, list.len(), place)
    }
}
