// One entry in bytes: mark, depot, wish, shelf.
ghost use Rattle.std.specs.Prelude.{◌≡◌, [], Err};
ghost use Rattle.letters.specs.Bytes.{entry_bytes};
ghost use Rattle.letters.specs.Reading.{first_failed, one_entry_tests};
ghost use Rattle.letters.specs.Code.{refusal_of, EntryFront};

use crate::format::{DEPOT_AT, ENTRY_LEN, ENTRY_MARK, SHELF_AT, WISH_AT};
use crate::{Unread, Unreadable};
use entries::{Entry, MAX_SHELF, MAX_WISH, is_depot};

/// The bytes of an entry. A wish is written by its low three bytes, which every lawful wish fits.
pub fn entry_bytes(entry: Entry) -> [u8; ENTRY_LEN]
    ensures { result ≡ entry_bytes entry [] }
{
    let [m0, m1] = ENTRY_MARK.to_be_bytes();
    let [_, w0, w1, w2] = entry.wish.to_be_bytes();
    let [s0, s1, s2, s3] = entry.shelf.to_be_bytes();
    [m0, m1, entry.depot, w0, w1, w2, s0, s1, s2, s3]
}

/// The entry at the front of the bytes, whatever its mark and values; none where they are fewer than an entry has.
pub fn entry_at(bytes: &[u8]) -> Option<Entry>
    ensures { EntryFront bytes.now result }
{
    let [_, _, depot, w0, w1, w2, s0, s1, s2, s3, ..] = bytes else {
        return None;
    };
    Some(Entry {
        depot: *depot,
        shelf: u32::from_be_bytes([*s0, *s1, *s2, *s3]),
        wish: u32::from_be_bytes([0, *w0, *w1, *w2]),
    })
}

/// A fault of reading, in place of whatever would have been read.
pub(crate) fn refuse<T>(why: Unreadable, place: usize) -> Result<T, Unread>
    ensures { result ≡ Err (record { why = why; place = place }) }
{
    Err(Unread { why, place })
}

/// Checks the entry at the front of the bytes, which stand at the place `first` of the whole.
///
/// Refuses fewer bytes than an entry has (25), then from left to right a wrong mark (26), a depot that is none or not
/// the owner, where one is given, a wish and a shelf out of range (27).
pub fn check_entry(bytes: &[u8], first: u32, owner: Option<u8>) -> Result<(), Unread>
    ensures { refusal_of result ≡ first_failed (one_entry_tests owner first bytes.now) }
{
    // `as`: the library has no `From<u32>` for usize
    let place = first as usize;
    let [m0, m1, depot, w0, w1, w2, s0, s1, s2, s3, ..] = bytes else {
        return refuse(Unreadable::Length, place);
    };
    if u16::from_be_bytes([*m0, *m1]) != ENTRY_MARK {
        return refuse(Unreadable::EntryMark, place);
    }
    if !is_depot(*depot) || owner.is_some_and(|owner| owner != *depot) {
        return refuse(Unreadable::Range, place + DEPOT_AT);
    }
    if u32::from_be_bytes([0, *w0, *w1, *w2]) > MAX_WISH {
        return refuse(Unreadable::Range, place + WISH_AT);
    }
    if u32::from_be_bytes([*s0, *s1, *s2, *s3]) > MAX_SHELF {
        return refuse(Unreadable::Range, place + SHELF_AT);
    }
    Ok(())
}
