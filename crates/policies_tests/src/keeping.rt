// A policy that moves nothing.
ghost use Rattle.policies_tests.specs.Others.{kept};
ghost use Rattle.policies_tests.specs.OthersLemmas.{kept_size, kept_conserves};
ghost use Rattle.std.proofs.Common.{rules};

use entries::Entry;
use policies::Policy;

/// The policy under which every shelf stays as it is.
#[derive(Clone, Copy)]
pub struct Keep;

impl Policy for Keep {
    const CODE: u8 = 9;

    ghost CODE = { 9 };

    ghost share = { kept };

    ghost coded = { Prim.search rules };

    ghost size = { kept_size };

    ghost conserves = { kept_conserves };

    #[tactic(auto, using(crate::proofs::OthersAt::kept_at))]
    fn share_at(list: &[Entry], place: usize) -> u32 {
        list[place].shelf
    }
}
