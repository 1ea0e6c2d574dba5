// The checks of a letter's values.
ghost use Rattle.std.specs.Prelude.{◌≡◌, ◌/◌, true, length, Some};
ghost use Rattle.entries.specs.Lists.{pool};
ghost use Rattle.letters.specs.Format.{head_len, entry_len};
ghost use Rattle.letters.specs.Reading.{first_failed, entries_in, length_fits, owner_of};
ghost use Rattle.letters.specs.Reading.{head_tests, entries_tests, rises_tests, sum_tests, value_tests};
ghost use Rattle.letters.specs.Code.{refusal_of, kind_number, letter_kind, letter_head, entry_part};

use crate::entry_codec::{check_entry, refuse};
use crate::format::{CODE_AT, ENTRY_LEN, HEAD_LEN, LEADER_AT, NUMBER_AT, SENDER_AT};
use crate::{EntryReader, Head, Kind, Letter, Unread, Unreadable};
use entries::{MAX_POOL, is_depot};

/// What follows a letter's mark, of a kind and of a length that the kind can have. Its values are unchecked.
#[derive(Drop)]
pub(crate) struct Unchecked<'a> {
    pub(crate) kind: Kind,
    pub(crate) head: Head,
    pub(crate) entries: &'a [u8],
    ghost fits: { length_fits (kind_number kind) (length entries.now) ≡ true },
}

impl<'a> Unchecked<'a> {
    // Whose its entries have to be.
    fn owner(&self) -> Option<u8>
        ensures { result ≡ owner_of (kind_number self.now.kind) self.now.head.sender }
    {
        (self.kind == Kind::Offer).then_some(self.head.sender)
    }

    // Checks the head's values, from left to right.
    fn check_head(&self) -> Result<(), Unread>
        ensures { refusal_of result
            ≡ first_failed
            (head_tests self.now.head.sender self.now.head.leader self.now.head.code self.now.head.number) }
    {
        if !is_depot(self.head.sender) {
            return refuse(Unreadable::Range, SENDER_AT);
        }
        if !is_depot(self.head.leader) {
            return refuse(Unreadable::Range, LEADER_AT);
        }
        if self.head.code == 0 {
            return refuse(Unreadable::Range, CODE_AT);
        }
        if self.head.number == 0 {
            return refuse(Unreadable::Range, NUMBER_AT);
        }
        Ok(())
    }

    // Checks each entry, from left to right.
    fn check_entries(&self) -> Result<(), Unread>
        ensures { refusal_of result
            ≡ first_failed
            (entries_tests (length self.now.entries.now / entry_len)
            (owner_of (kind_number self.now.kind) self.now.head.sender) head_len self.now.entries.now) }
    {
        let owner = self.owner();
        for (index, entry) in self.entries.chunks(ENTRY_LEN).enumerate() {
            check_entry(entry, (HEAD_LEN + ENTRY_LEN * index) as u32, owner)?;
        }
        Ok(())
    }

    // Checks that each entry's depot is above the one before.
    fn check_order(&self) -> Result<(), Unread>
        ensures { refusal_of result ≡ first_failed (rises_tests 0 head_len (entries_in self.now.entries.now)) }
    {
        // no `is_list`: the place of the first entry that does not rise is told
        let mut least = 0;
        for (place, entry) in EntryReader::new(self.entries, HEAD_LEN as u32) {
            if u16::from(entry.depot) < least {
                return refuse(Unreadable::NotAList, place);
            }
            least = u16::from(entry.depot) + 1;
        }
        Ok(())
    }

    // The pieces on the shelves of all entries.
    // no `pool_of` of a list: the entries are summed where they lie, and not copied for it
    fn pool(&self) -> u64
        ensures { result ≡ pool (entries_in self.now.entries.now) }
    {
        let mut sum = 0;
        for (_, entry) in EntryReader::new(self.entries, 0) {
            sum += u64::from(entry.shelf);
        }
        sum
    }

    // Checks that a List's shelves hold no more together than a list may pool.
    fn check_pool(&self) -> Result<(), Unread>
        ensures { refusal_of result
            ≡ first_failed (sum_tests (kind_number self.now.kind) (entries_in self.now.entries.now)) }
    {
        match self.kind {
            Kind::List if self.pool() > u64::from(MAX_POOL) => {
                refuse(Unreadable::NotAList, HEAD_LEN)
            }
            _ => Ok(()),
        }
    }

    /// Checks all values from left to right, then the order of the entries and their sum.
    pub(crate) fn check(&self) -> Result<(), Unread>
        ensures { refusal_of result
            ≡ first_failed
            (value_tests (kind_number self.now.kind) self.now.head.sender self.now.head.leader self.now.head.code
            self.now.head.number self.now.entries.now) }
    {
        self.check_head()?;
        self.check_entries()?;
        self.check_order()?;
        self.check_pool()
    }

    /// The letter: an Offer or a List with its entries, of which the other kinds have none.
    pub(crate) fn letter(self) -> Letter<'a>
        ensures kind { letter_kind result ≡ self.entry.kind }
        ensures head { letter_head result ≡ self.entry.head }
        ensures part { entry_part result ≡ self.entry.entries.now }
    {
        match self.kind {
            Kind::Ask => Letter::Ask(self.head),
            Kind::Offer => Letter::Offer(self.head, self.entries),
            Kind::List => Letter::List(self.head, self.entries),
            Kind::Yes => Letter::Yes(self.head),
            Kind::No => Letter::No(self.head),
            Kind::Settle => Letter::Settle(self.head),
            Kind::Drop => Letter::Drop(self.head),
            Kind::Query => Letter::Query(self.head),
            Kind::Done => Letter::Done(self.head),
        }
    }
}
