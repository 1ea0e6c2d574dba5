// What makes a sharing policy.
ghost use Rattle.std.specs.Prelude.{◌≡◌, ℕ, ◌<◌, ◌≤◌, List, length, ◌==◌, slice_index};
ghost use Rattle.entries.specs.declared.lists.Entry.{Entry};
ghost use Rattle.entries.specs.Lists.{Listed};
ghost use Rattle.policies.specs.Policy.{Coded, OneEach, Conserving};

use entries::Entry;

/// A sharing policy: one share for each entry of a list, worked out from the list alone. Whoever writes one shows that
/// its code lies in its range, that a list has a share for each entry, that these are together what its shelves hold,
/// and that `share_at` answers what it means. Nothing more is known of it elsewhere.
pub trait Policy {
    /// The policy's code, 1 to 255, which records and letters carry.
    const CODE: u8;

    // the constant as clauses name it
    ghost CODE: { ℕ };

    // what the policy means: the shares of a list's entries, in their order
    ghost share: { List Entry → List ℕ };

    /// Whether a record's or a letter's code is this policy's.
    fn governs(other: u8) -> bool
        ensures { result ≡ (other == CODE) }
    {
        other == Self::CODE
    }

    /// The share of the entry at a place of a list. Callers have the list from a record or a letter, where it is one.
    // asked, and no type of lists: each caller would make one for this call alone, out of what its record's law says
    fn share_at(list: &[Entry], place: usize) -> u32
        requires listed { Listed list.now }
        requires within { place < length list.now }
        ensures { result ≡ slice_index (share list.now) place };

    ghost coded: { Coded CODE };

    ghost size: { OneEach share };

    ghost conserves: { Conserving share };
}
