// Planning, drafting and allotting a set, and opening it.
ghost use Rattle.std.specs.Prelude.{◌≡◌, if◌then◌else◌, Ok, Err, nat_lt};
ghost use Rattle.protocol.specs.declared.refusal.Refusal.TheVariants.{NoSuchDepot};
ghost use Rattle.book.specs.Opening.{Planned, Drafted, Allotted, OpenedUp};

use crate::opening::{Draft, Opened, Plan, Shares};
use entries::{Depots, MAX_DEPOTS, PLACES};
use policies::Policy;
use protocol::Refusal;

/// The most pieces that a set can have.
const MAX_TOTAL: u32 = 1_000_000;

impl Plan {
    /// The plan of a set with so many pieces and depots.
    ///
    /// Refuses a number of depots outside 1 to 16 (1), then a total above 1,000,000 (2).
    pub fn check(total: u32, depots: u8) -> Result<Plan, Refusal>
        ensures { Planned total depots result }
    {
        if !(1..=MAX_DEPOTS).contains(&depots) {
            return Err(Refusal::DepotCount);
        }
        if total > MAX_TOTAL {
            return Err(Refusal::TotalTooGreat);
        }
        Ok(Plan { total, depots })
    }

    /// The place of a depot's share.
    ///
    /// Refuses a depot that the set does not have (3).
    pub(crate) fn place(self, depot: u8) -> Result<usize, Refusal>
        ensures { result ≡ (if nat_lt depot self.depots then Ok depot else Err NoSuchDepot) }
    {
        if depot >= self.depots {
            return Err(Refusal::NoSuchDepot);
        }
        Ok(usize::from(depot))
    }
}

impl Draft {
    /// A draft of the plan's set under the policy, with nothing allotted yet. It is never refused.
    pub fn new<P: Policy>(plan: Plan) -> Draft
        ensures { Drafted P.Policy.CODE plan result }
    {
        Draft {
            plan,
            code: P::CODE,
            left: plan.total,
            shares: Shares { of: [0; PLACES] },
            allotted: Depots::none(),
        }
    }

    /// Gives a depot its first pieces. An allotment of 0 counts as one.
    ///
    /// Refuses a depot that the set does not have (3), a depot allotted before (4), more pieces than remain (5).
    pub fn allot(&mut self, depot: u8, pieces: u32) -> Result<(), Refusal>
        ensures { Allotted depot pieces self.old result self.new }
    {
        let place = self.plan.place(depot)?;
        if self.allotted.contains(depot) {
            return Err(Refusal::AllottedBefore);
        }
        if pieces > self.left {
            return Err(Refusal::MoreThanRemains);
        }
        self.left -= pieces;
        self.shares.of[place] = pieces;
        self.allotted = self.allotted.with(depot);
        Ok(())
    }

    /// Opens the set: what remains is added to depot 0. It is never refused, and the draft is used up.
    pub fn open(self) -> Opened
        ensures { OpenedUp self result }
    {
        let mut shares = self.shares;
        shares.of[0] += self.left;
        Opened {
            plan: self.plan,
            code: self.code,
            shares,
            handed: Depots::none(),
        }
    }
}
