// Sets of depots.
ghost use Rattle.std.specs.Prelude.{◌≡◌, ℕ, ◌<◌, ◌≤◌, Bool, Decides, ◌==◌, nat_lt};
ghost use Rattle.entries.specs.Limits.{max_depots};
ghost use Rattle.entries.specs.Sets.{has, mark, union, add, less, everyone, covers};
ghost use Rattle.entries.specs.Laws.{ByMembership};

/// The greatest number of depots: every depot's number lies below it.
pub const MAX_DEPOTS: u8 = 16;

/// A set of depots, as a number in which depot i has the mark 2 to the power i.
#[derive(Clone, Copy, PartialEq, Eq, Debug)]
pub struct Depots(pub u16);

/// Whether a number is that of a depot.
#[tactic(auto, using(crate::proofs::Width::as_many_marks))]
pub fn is_depot(number: u8) -> bool
    ensures { result ≡ nat_lt number max_depots }
{
    number < MAX_DEPOTS
}

impl Depots {
    /// The set of no depot.
    pub fn none() -> Depots
        ensures { result.0 ≡ 0 }
    {
        Depots(0)
    }

    /// The set of one depot alone, which is its mark. Callers have the depot from a list or a record, where it lies
    /// below the greatest number.
    pub fn mark(depot: u8) -> Depots
        requires { depot < max_depots }
        ensures { result.0 ≡ mark depot }
    {
        Depots(1 << depot)
    }

    /// The set of all depots below a number. Callers have the number from a record, where it is that of a set's depots.
    pub fn everyone(number: u8) -> Depots
        requires { number ≤ max_depots }
        ensures { result.0 ≡ everyone number }
    {
        Depots(((1u32 << number) - 1) as u16)
    }

    /// Whether the set has no depot.
    pub fn is_empty(self) -> bool
        ensures { result ≡ (self.0 == 0) }
    {
        self.0 == 0
    }

    /// Whether the set has a depot. A number that no depot can have is in no set.
    pub fn contains(self, depot: u8) -> bool
        ensures { result ≡ has self.0 depot }
    {
        is_depot(depot) && self.0 & Depots::mark(depot).0 != 0
    }

    /// The depots of either set.
    #[tactic(auto, unfolding(crate::specs::Sets::union))]
    pub fn union(self, other: Depots) -> Depots
        ensures { result.0 ≡ union self.0 other.0 }
    {
        Depots(self.0 | other.0)
    }

    /// The set with a depot. Callers have the depot from a list or a record, where it lies below the greatest number.
    #[tactic(auto, unfolding(crate::specs::Sets::add))]
    pub fn with(self, depot: u8) -> Depots
        requires { depot < max_depots }
        ensures { result.0 ≡ add self.0 depot }
    {
        self.union(Depots::mark(depot))
    }

    /// The set without the depots of another.
    #[tactic(auto, unfolding(crate::specs::Sets::less))]
    pub fn minus(self, other: Depots) -> Depots
        ensures { result.0 ≡ less self.0 other.0 }
    {
        Depots(self.0 - (self.0 & other.0))
    }

    /// The set without a depot: the set itself, where it does not have that depot.
    pub fn without(self, depot: u8) -> Depots
        ensures { result.0 ≡ less self.0 (mark depot) }
    {
        if is_depot(depot) {
            self.minus(Depots::mark(depot))
        } else {
            self
        }
    }

    /// Whether the set has every depot of another.
    #[tactic(auto, unfolding(crate::specs::Sets::covers))]
    pub fn covers(self, other: Depots) -> bool
        ensures { result ≡ covers self.0 other.0 }
    {
        other.minus(self).is_empty()
    }

    /// Whether two sets have the same depots, which is whether they are the same number: a set is its membership. The
    /// clause `laws` states what that means for every operation, over any number of depots. The derived `==` answers the
    /// same, and promises it of the numbers alone.
    pub fn same(self, other: Depots) -> bool
        ensures answer { Decides result ((i : ℕ) → has self.0 i ≡ has other.0 i) }
        ensures laws { ByMembership }
    {
        self.0 == other.0
    }
}
