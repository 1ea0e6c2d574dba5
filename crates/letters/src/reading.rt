// Reading a letter.
ghost use Rattle.std.specs.Prelude.{◌≡◌, drop, IfOk};
ghost use Rattle.letters.specs.Format.{head_len};
ghost use Rattle.letters.specs.Reading.{first_failed, entries_in, length_fits, count_fits, body_tests, answer, reads};
ghost use Rattle.letters.specs.OneForm.{InForm};
ghost use Rattle.letters.specs.Code.{kind_number, says, answer_of, letter_says, entry_part};

use crate::entry_codec::refuse;
use crate::format::{ENTRY_LEN, LETTER_MARK};
use crate::unchecked::Unchecked;
use crate::{Head, Kind, Letter, Unread, Unreadable};
use entries::{Depots, PLACES};

// Whether a kind may have so many entries.
#[tactic(auto, unfolding(entries::specs::Limits::max_depots))]
fn count_fits(kind: Kind, count: usize) -> bool
    ensures { result ≡ count_fits (kind_number kind) count }
{
    match kind {
        Kind::Offer => count == 1,
        Kind::List => (2..=PLACES).contains(&count),
        _ => count == 0,
    }
}

// Whether so many bytes may follow the head of a letter of the kind.
fn length_fits(kind: Kind, len: usize) -> bool
    ensures { result ≡ length_fits (kind_number kind) len }
{
    len % ENTRY_LEN == 0 && count_fits(kind, len / ENTRY_LEN)
}

// Reads what follows the mark: the kind, the length, then the values.
fn read_marked(kind: u8, head: Head, entries: &[u8]) -> Result<Letter<'_>, Unread>
    ensures says { answer_of result
        ≡ answer
        (first_failed
        (body_tests kind head.sender head.leader head.code head.number entries.now))
        (says kind head (entries_in entries.now)) }
    ensures part { IfOk result (λ l. entry_part l ≡ entries.now) }
{
    let kind = Kind::try_from(kind)?;
    if !length_fits(kind, entries.len()) {
        return refuse(Unreadable::Length, 0);
    }
    let unchecked = Unchecked {
        kind,
        head,
        entries,
    };
    unchecked.check()?;
    Ok(unchecked.letter())
}

/// Reads a letter. Its entries remain a part of the bytes, and its values are lawful.
///
/// Refuses fewer bytes than a head has (22), a wrong mark (23), a kind outside 1 to 9 (24) and a length that the kind
/// cannot have (25); then from left to right a wrong entry mark (26) or a value out of range (27); then an entry whose
/// depot is not above the one before, and a List whose shelves hold too much together (28).
pub fn read(bytes: &[u8]) -> Result<Letter<'_>, Unread>
    ensures says { answer_of result ≡ reads bytes.now }
    ensures part { IfOk result (λ l. entry_part l ≡ drop head_len bytes.now) }
    ensures form { IfOk result (λ l. InForm bytes.now (letter_says l)) }
{
    let [
        m0,
        m1,
        kind,
        sender,
        t0,
        t1,
        leader,
        code,
        n0,
        n1,
        n2,
        n3,
        entries @ ..,
    ] = bytes
    else {
        return refuse(Unreadable::Short, 0);
    };
    if u16::from_be_bytes([*m0, *m1]) != LETTER_MARK {
        return refuse(Unreadable::Mark, 0);
    }
    let head = Head {
        sender: *sender,
        to: Depots(u16::from_be_bytes([*t0, *t1])),
        leader: *leader,
        code: *code,
        number: u32::from_be_bytes([*n0, *n1, *n2, *n3]),
    };
    read_marked(*kind, head, entries)
}
