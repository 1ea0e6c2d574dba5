// Opening a set: a plan, a draft that is allotted, and an opened set that hands out the records.
#![tactic(auto, using(crate::proofs::Shares::opening_steps), unfolding(protocol::specs::State::pick))]

ghost use Rattle.std.specs.Prelude.{◌≡◌, ℕ, ◌+◌, ◌≤◌, false};
ghost use Rattle.entries.specs.Limits.{max_depots};
ghost use Rattle.entries.specs.Sets.{has};
ghost use Rattle.protocol.specs.Limits.{max_total};
ghost use Rattle.protocol.specs.Opening.{sum_to};
ghost use Rattle.book.specs.Fields.{shares_of};

use entries::{Depots, PLACES};

mod drafting;
mod handing;

/// The numbers of a set that may be drafted.
#[derive(Clone, Copy)]
pub struct Plan {
    total: u32,
    depots: u8,
    ghost lawful: { (1 ≤ depots) × (depots ≤ max_depots) × (total ≤ max_total) },
}

/// The pieces of each depot.
// Arrays lie in plain inner structs: the project's rule.
#[derive(Clone, Copy)]
pub struct Shares {
    pub of: [u32; PLACES],
}

/// A set that is being drafted. It can only be allotted and opened, and opening uses it up.
///
/// Its type says that what is allotted and what remains are together the total, and that a depot not allotted has no
/// pieces yet.
#[derive(Drop)]
pub struct Draft {
    plan: Plan,
    code: u8,
    left: u32,
    shares: Shares,
    allotted: Depots,
    ghost coded: { 1 ≤ code },
    ghost whole: { sum_to plan.depots (shares_of shares.of) + left ≡ plan.total },
    ghost blank: { (i : ℕ) → has allotted.0 i ≡ false → shares_of shares.of i ≡ 0 },
}

/// An opened set. It can only be handed out. Its type says that the shares add up to the total.
#[derive(Drop)]
pub struct Opened {
    plan: Plan,
    code: u8,
    shares: Shares,
    handed: Depots,
    ghost coded: { 1 ≤ code },
    ghost whole: { sum_to plan.depots (shares_of shares.of) ≡ plan.total },
}
