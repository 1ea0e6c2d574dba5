// Level: every entry gets the same, as nearly as the pieces allow.
ghost use Rattle.policies.specs.Shares.{level};
ghost use Rattle.policies.specs.Dealt.{level_size, level_conserves};
ghost use Rattle.std.proofs.Common.{rules};

use crate::dealing::{dealt_at, pieces_of};
use crate::meaning::Policy;
use entries::Entry;

/// The policy that deals out what is on the shelves, whatever the wishes.
#[derive(Clone, Copy)]
pub struct Level;

impl Policy for Level {
    const CODE: u8 = 1;

    ghost CODE = { 1 };

    ghost share = { level };

    ghost coded = { Prim.search rules };

    ghost size = { level_size };

    ghost conserves = { level_conserves };

    #[tactic(auto, unfolding(crate::specs::Shares::level))]
    fn share_at(list: &[Entry], place: usize) -> u32 {
        dealt_at(pieces_of(list), list.len(), place)
    }
}
