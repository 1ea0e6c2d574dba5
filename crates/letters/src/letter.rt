// Letters as they are read.
ghost use Rattle.std.specs.Prelude.{◌≡◌};
ghost use Rattle.letters.specs.Format.{head_len};
ghost use Rattle.letters.specs.Reading.{entries_in};
ghost use Rattle.letters.specs.Code.{kind_number, KindOf, letter_kind, letter_head, entry_part, placed, entries_left};

use crate::EntryReader;
use crate::format::HEAD_LEN;
use entries::Depots;

/// The nine kinds of letters, with their numbers in bytes.
#[derive(Clone, Copy, PartialEq, Eq, Debug)]
pub enum Kind {
    Ask = 1,
    Offer = 2,
    List = 3,
    Yes = 4,
    No = 5,
    Settle = 6,
    Drop = 7,
    Query = 8,
    Done = 9,
}

/// A number that is none of the nine kinds'.
#[derive(Clone, Copy, PartialEq, Eq, Debug)]
pub struct UnknownKind(pub u8);

/// The kind with a number.
impl TryFrom<u8> for Kind {
    type Error = UnknownKind;

    ghost try_from_gives = { KindOf };

    fn try_from(number: u8) -> Result<Kind, UnknownKind> {
        match number {
            1 => Ok(Kind::Ask),
            2 => Ok(Kind::Offer),
            3 => Ok(Kind::List),
            4 => Ok(Kind::Yes),
            5 => Ok(Kind::No),
            6 => Ok(Kind::Settle),
            7 => Ok(Kind::Drop),
            8 => Ok(Kind::Query),
            9 => Ok(Kind::Done),
            _ => Err(UnknownKind(number)),
        }
    }
}

impl Kind {
    /// The kind's number in bytes.
    // no `From`, nor a trait of all that have a number: `kind.number()` names what `u8::from(kind)` would not
    pub fn number(self) -> u8
        ensures { result ≡ kind_number self }
    {
        self as u8
    }
}

/// What every letter says: who sends it to whom, and which handover it is about, under which policy.
#[derive(Clone, Copy, PartialEq, Eq, Debug)]
pub struct Head {
    pub sender: u8,
    pub to: Depots,
    pub leader: u8,
    pub code: u8,
    pub number: u32,
}

/// A letter that was read. The entries of an Offer and of a List remain a part of the caller's bytes.
// an enum of the nine kinds, and not a kind beside a head and bytes: the project names that form
#[derive(Clone, Copy, PartialEq, Eq, Debug)]
pub enum Letter<'a> {
    Ask(Head),
    Offer(Head, &'a [u8]),
    List(Head, &'a [u8]),
    Yes(Head),
    No(Head),
    Settle(Head),
    Drop(Head),
    Query(Head),
    Done(Head),
}

impl<'a> Letter<'a> {
    /// The letter's kind.
    pub fn kind(self) -> Kind
        ensures { result ≡ letter_kind self.entry }
    {
        match self {
            Letter::Ask(_) => Kind::Ask,
            Letter::Offer(_, _) => Kind::Offer,
            Letter::List(_, _) => Kind::List,
            Letter::Yes(_) => Kind::Yes,
            Letter::No(_) => Kind::No,
            Letter::Settle(_) => Kind::Settle,
            Letter::Drop(_) => Kind::Drop,
            Letter::Query(_) => Kind::Query,
            Letter::Done(_) => Kind::Done,
        }
    }

    /// The letter's head.
    pub fn head(self) -> Head
        ensures { result ≡ letter_head self.entry }
    {
        match self {
            Letter::Ask(head) | Letter::Yes(head) | Letter::No(head) | Letter::Settle(head) => head,
            Letter::Drop(head) | Letter::Query(head) | Letter::Done(head) => head,
            Letter::Offer(head, _) | Letter::List(head, _) => head,
        }
    }

    /// A reader of the letter's entries, which tells their places from the letter's first byte; it gives none for a
    /// letter that has none.
    pub fn entries(self) -> EntryReader<'a>
        ensures bytes { result.bytes.now ≡ entry_part self.entry }
        ensures first { result.first ≡ head_len }
        ensures start { result.offset ≡ 0 }
        ensures left { entries_left result ≡ placed head_len (entries_in (entry_part self.entry)) }
    {
        let bytes = match self {
            Letter::Offer(_, bytes) | Letter::List(_, bytes) => bytes,
            _ => &[],
        };
        EntryReader::new(bytes, HEAD_LEN as u32)
    }
}
