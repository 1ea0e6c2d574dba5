// Where a depot stands in a handover.
ghost use Rattle.std.specs.Prelude.{◌≡◌};
ghost use Rattle.protocol.specs.Code.{standing_number};
ghost use Rattle.protocol.specs.State.{engages};

/// Where a depot stands in the handover of a leader's row, with the number of the standing. It is engaged at `Offered`
/// and `Accepted`, and bound at `Accepted`.
#[derive(Clone, Copy, PartialEq, Eq, Debug)]
pub enum Standing {
    /// Nothing has stood in the row.
    Blank = 0,
    /// The depot has offered its shelf; at its own row it is gathering.
    Offered = 1,
    /// It has accepted the list and waits to hear of the others.
    Accepted = 2,
    /// It has ended the handover without accepting a list.
    Refused = 3,
    /// It has taken its share of the list.
    Settled = 4,
    /// It has accepted the list and then let it go, since a depot on it refused.
    Dropped = 5,
}

impl Standing {
    /// The number of the standing.
    // no `From`, nor a trait of all that have a number: `standing.number()` names what `u8::from(standing)` would not
    pub fn number(self) -> u8
        ensures { result ≡ standing_number self }
    {
        self as u8
    }

    /// Whether a depot that stands there is engaged in the handover: at `Offered` and at `Accepted`.
    #[tactic(auto, unfolding(crate::specs::State::engages))]
    pub fn engages(self) -> bool
        ensures { result ≡ engages (standing_number self) }
    {
        matches!(self, Standing::Offered | Standing::Accepted)
    }
}
