// Filling a lent message.
ghost use Rattle.std.specs.Prelude.{◌≡◌};
ghost use Rattle.letters.specs.Contents.{Lawful};
ghost use Rattle.letters.specs.Code.{kind_number, says};
ghost use Rattle.letters.specs.Writing.{message_says, blank_contents};

use crate::{Head, Kind, Message};
use entries::{Depots, Entries, Entry};

// The head of a message that nobody has filled yet: to nobody.
const BLANK_HEAD: Head = Head {
    sender: 0,
    to: Depots(0),
    leader: 0,
    code: 1,
    number: 1,
};

impl Message {
    /// A message to lend: an Ask by depot 0 to nobody, about its first handover under policy 1.
    #[tactic(auto, unfolding(entries::specs::Limits::max_depots))]
    pub fn blank() -> Message
        ensures { message_says result ≡ blank_contents }
    {
        Message {
            kind: Kind::Ask,
            head: BLANK_HEAD,
            entries: Entries::empty(),
        }
    }

    /// Makes the message a letter of the kind, with the head and the entries: an Offer has one, a List the entries of a
    /// list, and every other kind none.
    ///
    /// The letter has to be lawful. The calls of a record meet this: each of their messages is proved lawful.
    pub fn set(&mut self, kind: Kind, head: Head, entries: &[Entry])
        requires { Lawful (says (kind_number kind) head entries.now) }
        ensures { message_says self.new ≡ says (kind_number kind) head entries.now }
    {
        self.kind = kind;
        self.head = head;
        // most letters have no entries, and are said in a message that has none: no place is written for them
        if entries.is_empty() {
            self.entries.clear();
        } else {
            self.entries = Entries::of(entries);
        }
    }
}
