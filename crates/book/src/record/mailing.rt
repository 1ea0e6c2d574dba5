// Filling in the letters that a depot sends.
ghost use Rattle.std.specs.Prelude.{◌≡◌, ◌<◌, [], ◌∷◌};
ghost use Rattle.entries.specs.Limits.{max_depots};
ghost use Rattle.entries.specs.Sets.{mark};
ghost use Rattle.letters.specs.declared.letter.Kind.TheVariants.{Offer};
ghost use Rattle.protocol.specs.State.{rest};
ghost use Rattle.protocol.specs.Keeping.{Readable};
ghost use Rattle.book.specs.View.{site, head_of, mail_of, own_entry};
ghost use Rattle.book.specs.Calls.{Posted};

use crate::record::Record;
use entries::{Depots, Entry};
use letters::{Head, Kind, Message};

impl Record {
    /// The head of a letter about the handover in the row of a leader.
    fn head(&self, to: Depots, leader: u8) -> Head
        ensures { result ≡ head_of self.now to leader }
    {
        Head {
            sender: self.identity.depot,
            to,
            leader,
            code: self.identity.code,
            number: self.row(leader).number,
        }
    }

    /// Fills in a letter with these entries about the handover of a leader. To nobody it is `None`, nothing to send.
    // `to` and `leader` are no struct: the head that holds them is made here once, and not by each of the callers
    pub(crate) fn say(
        &self,
        kind: Kind,
        to: Depots,
        leader: u8,
        entries: &[Entry],
        out: &mut Message,
    ) -> Option<Depots>
        requires { Readable (mail_of self.now kind to.0 leader entries.now) }
        ensures { Posted (mail_of self.now kind to.0 leader entries.now) result out.old out.new }
    {
        if to.is_empty() {
            return None;
        }
        out.set(kind, self.head(to, leader), entries);
        Some(to)
    }

    /// Fills in an Offer of the own entry to the leader of a handover.
    pub(crate) fn offer(&self, leader: u8, out: &mut Message) -> Option<Depots>
        requires { Readable (mail_of self.now Offer (mark leader) leader (own_entry self.now ∷ [])) }
        ensures { Posted (mail_of self.now Offer (mark leader) leader (own_entry self.now ∷ [])) result out.old out.new }
    {
        self.say(
            Kind::Offer,
            Depots::mark(leader),
            leader,
            &[self.own_entry()],
            out,
        )
    }

    /// The depot's own entry: its shelf and its wish.
    pub(crate) fn own_entry(&self) -> Entry
        ensures { result ≡ own_entry self.now }
    {
        Entry {
            depot: self.identity.depot,
            shelf: self.shelf,
            wish: self.wish,
        }
    }

    /// All other depots.
    pub(crate) fn rest(&self) -> Depots
        ensures { result.0 ≡ rest (site self.now) }
    {
        Depots::everyone(self.identity.depots).without(self.identity.depot)
    }
}
