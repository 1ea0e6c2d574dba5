// Entries in bytes, read one after another.
ghost use Rattle.std.specs.Prelude.{◌≡◌, take};
ghost use Rattle.std.specs.Iterator.{item_count};
ghost use Rattle.entries.specs.Limits.{max_depots};
ghost use Rattle.letters.specs.Reading.{entries_in};
ghost use Rattle.letters.specs.Code.{placed, entries_left, GivesEntry};

use crate::entry_codec::entry_at;
use crate::format::ENTRY_LEN;
use entries::{Entries, Entry, PLACES};

/// A reader of the entries in some bytes, which tells the place of each.
#[derive(Drop)]
pub struct EntryReader<'a> {
    bytes: &'a [u8],
    first: u32,
    offset: usize,
}

impl<'a> EntryReader<'a> {
    /// A reader of the entries in the bytes, whose first byte stands at the place `first` of the whole: in a letter at
    /// the head's length.
    pub fn new(bytes: &'a [u8], first: u32) -> EntryReader<'a>
        ensures bytes { result.bytes.now ≡ bytes.now }
        ensures first { result.first ≡ first }
        ensures start { result.offset ≡ 0 }
        ensures left { entries_left result ≡ placed first (entries_in bytes.now) }
    {
        EntryReader {
            bytes,
            first,
            offset: 0,
        }
    }
}

impl<'a> Iterator for EntryReader<'a> {
    type Item = (usize, Entry);

    ghost next_gives = { GivesEntry };

    ghost remaining = { item_count entries_left };

    /// The next entry, with the place of its first byte; none where fewer bytes are left than an entry has.
    fn next(&mut self) -> Option<(usize, Entry)> {
        let entry = entry_at(self.bytes.get(self.offset..)?)?;
        // `as`: the library has no `From<u32>` for usize
        let place = self.first as usize + self.offset;
        self.offset += ENTRY_LEN;
        Some((place, entry))
    }
}

/// The entries in the bytes, in a place of their own: as many as the place has room for, which no lawful list exceeds.
pub fn entries_in(bytes: &[u8]) -> Entries
    ensures { result ≡ take max_depots (entries_in bytes.now) }
{
    let mut entries = Entries::empty();
    for (_, entry) in EntryReader::new(bytes, 0).take(PLACES) {
        entries.push(entry);
    }
    entries
}
