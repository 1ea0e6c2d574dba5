// Why a letter was not read, not taken or not written.
ghost use Rattle.std.specs.Prelude.{◌≡◌};
ghost use Rattle.letters.specs.declared.fault.Fault.TheVariants as faults;
ghost use Rattle.letters.specs.Format.{kind_at};
ghost use Rattle.letters.specs.declared.fault.Unreadable.TheVariants as unreadable;
ghost use Rattle.letters.specs.Code.{number_of, unwritten_number};

use crate::UnknownKind;
use crate::format::KIND_AT;

/// Why bytes are no letter, with the book's number of the refusal.
#[derive(Clone, Copy, PartialEq, Eq, Debug)]
pub enum Unreadable {
    /// They are fewer than a head has.
    Short = 22,
    /// They do not begin with a letter's mark.
    Mark = 23,
    /// The kind is none of the nine.
    Kind = 24,
    /// The kind cannot have this length.
    Length = 25,
    /// An entry does not begin with its mark.
    EntryMark = 26,
    /// A value is out of its range.
    Range = 27,
    /// The entries do not rise by depot, or a List's shelves hold too much together.
    NotAList = 28,
}

impl Unreadable {
    /// The book's number of the refusal.
    // no `From`, nor a trait of all that have a number: `why.number()` names what `u8::from(why)` would not
    pub fn number(self) -> u8
        ensures { result ≡ number_of self }
    {
        self as u8
    }
}

/// A fault of the reading layer: why bytes are no letter, and the place of the field or entry in them.
#[derive(Clone, Copy, PartialEq, Eq, Debug)]
pub struct Unread {
    pub why: Unreadable,
    pub place: usize,
}

/// A letter of no kind, told at the place of the kind.
impl From<UnknownKind> for Unread {
    ghost from_gives = { λ _ unread. unread ≡ record { why = unreadable.Kind; place = kind_at } };

    fn from(_unknown: UnknownKind) -> Unread {
        Unread {
            why: Unreadable::Kind,
            place: KIND_AT,
        }
    }
}

/// A letter that was not taken, with the layer that refused it: reading, or the handover with a refusal of its own.
#[derive(Clone, Copy, PartialEq, Eq, Debug)]
pub enum Fault<R> {
    Reading(Unread),
    Handover(R),
}

impl<R> From<Unread> for Fault<R> {
    ghost from_gives = { λ unread fault. fault ≡ faults.Reading unread };

    fn from(unread: Unread) -> Fault<R> {
        Fault::Reading(unread)
    }
}

/// Why a letter was not written. It belongs to neither layer of a letter's fault.
#[derive(Clone, Copy, PartialEq, Eq, Debug)]
pub enum Unwritten {
    /// The buffer is shorter than the letter.
    NoRoom = 34,
}

impl Unwritten {
    /// The book's number of the refusal.
    // no `From`, nor a trait of all that have a number: `unwritten.number()` names what `u8::from(unwritten)` would not
    pub fn number(self) -> u8
        ensures { result ≡ unwritten_number self }
    {
        self as u8
    }
}
