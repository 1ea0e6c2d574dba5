// Why a call was refused.
ghost use Rattle.std.specs.Prelude.{◌≡◌};
ghost use Rattle.protocol.specs.Code.{refusal_number};

/// Why a call was refused, with the book's number of the refusal. A refusal changes nothing. The numbers 22 to 28 are
/// those of reading and 34 that of writing a letter.
#[derive(Clone, Copy, PartialEq, Eq, Debug)]
pub enum Refusal {
    /// A set has 1 to 16 depots.
    DepotCount = 1,
    /// A set opens with at most 1,000,000 pieces.
    TotalTooGreat = 2,
    /// The set has no such depot.
    NoSuchDepot = 3,
    /// The depot was allotted its pieces before.
    AllottedBefore = 4,
    /// Fewer pieces remain to be allotted.
    MoreThanRemains = 5,
    /// The depot's record was handed out before.
    HandedBefore = 6,
    /// One Issue or Return moves 1 to 1,000,000 pieces.
    PiecesOutside = 7,
    /// The depot is engaged in a handover.
    Engaged = 8,
    /// The shelf holds fewer pieces.
    ShelfBelow = 9,
    /// Shelf and tray would hold more than 1,000,000,000 pieces.
    StockTooGreat = 10,
    /// A wish is at most 1,000,000.
    WishTooGreat = 11,
    /// A depot on the last list has not yet told that it ended that handover.
    StillOwing = 12,
    /// There is no wish to lead for.
    NoWish = 13,
    /// The shelf alone passes the limit of a list.
    ShelfTooGreat = 14,
    /// The last number that a handover can have is used.
    NumbersUsed = 15,
    /// The depot is not gathering.
    NotGathering = 16,
    /// The others' shelves together do not cover the wish.
    TooFewGathered = 17,
    /// The policy is not that of the set.
    OtherPolicy = 18,
    /// The depot neither gathers nor has an offer out.
    NotOffered = 19,
    /// The depot is not bound to a list.
    NotBound = 20,
    /// There is nobody to remind.
    NobodyToRemind = 21,
    /// The letter was not sent to this depot.
    NotAddressed = 29,
    /// The sender or the leader is none of the set, or the depot itself is the sender.
    NoSuchSender = 30,
    /// The leader's row has a higher number.
    NumberPassed = 31,
    /// The leader's row has a lower number, and the letter is no Ask.
    NumberUnknown = 32,
    /// There is no line for the letter.
    NoLine = 33,
}

impl Refusal {
    /// The book's number of the refusal.
    // no `From`, nor a trait of all that have a number: `refusal.number()` names what `u8::from(refusal)` would not
    pub fn number(self) -> u8
        ensures { result ≡ refusal_number self }
    {
        self as u8
    }
}
