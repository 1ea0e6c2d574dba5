// Asking the others again, and looking for a partner.
ghost use Rattle.std.specs.Prelude.{◌≡◌, not, ◌&&◌, nat_eq, nat_le};
ghost use Rattle.std.specs.List.{find};
ghost use Rattle.protocol.specs.State.{others};
ghost use Rattle.protocol.specs.Own.{query, remind, again, Partner};
ghost use Rattle.protocol.specs.Keeping.{Readable};
ghost use Rattle.book.specs.View.{site, view, mail_of};
ghost use Rattle.book.specs.Calls.{told, Answered, Called, chosen};

use crate::record::Record;
use entries::{Depots, Entry, names_of};
use letters::{Kind, Message};
use protocol::{Refusal, Standing};

/// The first entry, not that of the depot itself, whose shelf alone covers the depot's wish.
fn covering(list: &[Entry], own: Entry) -> Option<Entry>
    ensures { result ≡ find (λ e. not (nat_eq e.depot own.depot) && nat_le own.wish e.shelf) list.now }
{
    list.iter()
        .find(|entry| entry.depot != own.depot && entry.shelf >= own.wish)
        .copied()
}

impl Record {
    /// The others on the record's list; nobody where the depot is bound to none.
    #[tactic(auto, using(crate::proofs::Listing::list_depots))]
    pub(crate) fn others(&self) -> Depots
        ensures { result.0 ≡ others (site self.now) (view self.now).list }
    {
        names_of(self.list.as_slice()).without(self.identity.depot)
    }

    /// Sends Query to the others on the list. It answers who they are, and `None` where there is nothing to send. The
    /// record stays as it is.
    ///
    /// Refuses a depot that is not bound (20).
    pub fn query(&self, out: &mut Message) -> Result<Option<Depots>, Refusal>
        ensures { Called query result self.now self.now out.old out.new }
    {
        let leader = self.leader();
        if self.standing(leader) != Standing::Accepted {
            return Err(Refusal::NotBound);
        }
        let to = self.others();
        Ok(self.say(Kind::Query, to, leader, &[], out))
    }

    /// A letter about the own row, sent again.
    fn again(
        &self,
        kind: Kind,
        to: Depots,
        entries: &[Entry],
        out: &mut Message,
    ) -> Result<Option<Depots>, Refusal>
        requires { Readable (mail_of self.now kind to.0 (site self.now).depot entries.now) }
        ensures { Answered told (again (site self.now) (view self.now) kind to.0 entries.now) result out.old
            out.new }
    {
        if to.is_empty() {
            return Err(Refusal::NobodyToRemind);
        }
        Ok(self.say(kind, to, self.identity.depot, entries, out))
    }

    /// Reminds those that the depot waits for, by its own row: at 1 it sends Ask to those not gathered, at 2 List to
    /// those on the list not heard, at 4 Settle and at 5 Drop to those owing. It answers who they are. The record stays as
    /// it is.
    ///
    /// Refuses where nobody is left to remind, and at another standing (21).
    pub fn remind(&self, out: &mut Message) -> Result<Option<Depots>, Refusal>
        ensures { Called remind result self.now self.now out.old out.new }
    {
        let list = self.list.as_slice();
        let gathered = self.gathered.as_slice();
        match self.standing(self.identity.depot) {
            Standing::Offered => {
                self.again(Kind::Ask, self.rest().minus(names_of(gathered)), &[], out)
            }
            Standing::Accepted => {
                self.again(Kind::List, names_of(list).minus(self.heard), list, out)
            }
            Standing::Settled => self.again(Kind::Settle, self.owing, &[], out),
            Standing::Dropped => self.again(Kind::Drop, self.owing, &[], out),
            _ => Err(Refusal::NobodyToRemind),
        }
    }

    /// A gathered depot, not the leader, whose shelf alone covers the wish, with that shelf. It is none where there is
    /// no such depot, or nothing is gathered.
    pub fn partner(&self) -> Option<(u8, u32)>
        ensures { Partner (site self.now) (view self.now) (chosen result) }
    {
        let entry = covering(self.gathered.as_slice(), self.own_entry())?;
        Some((entry.depot, entry.shelf))
    }
}
