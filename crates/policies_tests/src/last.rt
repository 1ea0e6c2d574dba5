// A policy that gives all to the last entry.
ghost use Rattle.policies_tests.specs.Others.{last_takes_all};
ghost use Rattle.policies_tests.specs.OthersLemmas.{last_size, last_conserves};
ghost use Rattle.std.proofs.Common.{rules};

use entries::Entry;
use policies::{Policy, pieces_of};

/// The policy under which the last entry gets all that is on the shelves, and the others nothing.
#[derive(Clone, Copy)]
pub struct LastTakesAll;

impl Policy for LastTakesAll {
    const CODE: u8 = 255;

    ghost CODE = { 255 };

    ghost share = { last_takes_all };

    ghost coded = { Prim.search rules };

    ghost size = { last_size };

    ghost conserves = { last_conserves };

    #[tactic(auto, using(crate::proofs::OthersAt::last_at))]
    fn share_at(list: &[Entry], place: usize) -> u32 {
        if place + 1 == list.len() {
            pieces_of(list)
        } else {
            0
        }
    }
}
