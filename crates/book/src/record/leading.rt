// Leading a handover: asking for entries, and proposing a list.
ghost use Rattle.std.specs.Prelude.{◌≡◌, ◌≤◌, length};
ghost use Rattle.entries.specs.Limits.{max_depots};
ghost use Rattle.letters.specs.declared.letter.Kind.TheVariants.{List};
ghost use Rattle.protocol.specs.Listing.{elsewhere};
ghost use Rattle.protocol.specs.State.{others};
ghost use Rattle.protocol.specs.Outcome.{mail};
ghost use Rattle.protocol.specs.Own.{lead, proposed, propose};
ghost use Rattle.book.specs.Sharing.{policy_of};
ghost use Rattle.book.specs.View.{site, view};
ghost use Rattle.book.specs.Calls.{Becomes, Posted, Called};

use crate::parts::Row;
use crate::record::Record;
use entries::{Depots, Entries, Entry, MAX_POOL, names_of};
use letters::{Kind, Message};
use policies::Policy;
use protocol::{Refusal, Standing};
use std::mem::replace;

/// The last number that a handover can have.
const LAST_NUMBER: u32 = 4_294_967_295;

/// The pieces on the shelves of all entries but that of the depot. A record's lists are no longer than this asks.
fn elsewhere(list: &[Entry], depot: u8) -> u64
    requires { length list.now ≤ max_depots }
    ensures { result ≡ elsewhere depot list.now }
{
    list.iter()
        .filter(|entry| entry.depot != depot)
        .map(|entry| u64::from(entry.shelf))
        .sum()
}

impl Record {
    /// Gathers the own entry under the own row's next number, and sends Ask to all others. It answers who they are, and
    /// `None` where there is nothing to send.
    ///
    /// Refuses an engaged depot (8), a depot still owing (12), a depot without a wish (13), a shelf above 1,000,000,000
    /// (14), the last number there is (15).
    pub fn lead(&mut self, out: &mut Message) -> Result<Option<Depots>, Refusal>
        ensures { Called lead result self.old self.new out.old out.new }
    {
        if self.engaged() {
            return Err(Refusal::Engaged);
        }
        if !self.owing.is_empty() {
            return Err(Refusal::StillOwing);
        }
        if self.wish == 0 {
            return Err(Refusal::NoWish);
        }
        if self.shelf > MAX_POOL {
            return Err(Refusal::ShelfTooGreat);
        }
        let depot = self.identity.depot;
        let known = self.row(depot).number;
        if known == LAST_NUMBER {
            return Err(Refusal::NumbersUsed);
        }
        let own = self.own_entry();
        let row = Row {
            number: known + 1,
            standing: Standing::Offered,
        };
        self.rows.put(depot, row);
        self.gathered.refill(&[own]);
        let to = self.rest();
        Ok(self.say(Kind::Ask, to, depot, &[], out))
    }

    /// Makes what is gathered the list, and sends it to the others on it.
    fn propose_gathered(&mut self, out: &mut Message) -> Option<Depots>
        requires gathers { ((view self.old).rows (site self.old).depot).standing ≡ 1 }
        requires covers { (view self.old).wish ≤ elsewhere (site self.old).depot (view self.old).gathered }
        ensures posts { Posted (mail (site self.old) (proposed (site self.old) (view self.old)) List
            (others (site self.old) (view self.old).gathered) (site self.old).depot (view self.old).gathered) result
            out.old out.new }
        ensures becomes { Becomes (proposed (site self.old)) self.old self.new }
    {
        let depot = self.identity.depot;
        let to = names_of(self.gathered.as_slice()).without(depot);
        self.rows.stand(depot, Standing::Accepted);
        self.list = replace(&mut self.gathered, Entries::empty());
        self.heard = Depots::mark(depot);
        self.owing = to;
        self.say(Kind::List, to, depot, self.list.as_slice(), out)
    }

    /// Moves the gathered entries into the list and sends it to the others on it, who owe an answer from then on. It
    /// answers who they are, and `None` where there is nothing to send.
    ///
    /// Refuses another policy than the record's (18), a depot that gathers nothing (16), others' shelves that together
    /// are below the wish (17).
    pub fn propose<P: Policy>(&mut self, out: &mut Message) -> Result<Option<Depots>, Refusal>
        ensures { Called (propose (policy_of P.Policy)) result self.old self.new
            out.old out.new }
    {
        if !P::governs(self.identity.code) {
            return Err(Refusal::OtherPolicy);
        }
        if self.standing(self.identity.depot) != Standing::Offered {
            return Err(Refusal::NotGathering);
        }
        let covered = elsewhere(self.gathered.as_slice(), self.identity.depot);
        if covered < u64::from(self.wish) {
            return Err(Refusal::TooFewGathered);
        }
        Ok(self.propose_gathered(out))
    }
}
