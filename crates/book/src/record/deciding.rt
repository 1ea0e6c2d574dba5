// What Receive looks at before it chooses a line: the refusals that come first, where the depot stands in the letter's
// handover, and what the guards of the lines ask.
ghost use Rattle.std.specs.Prelude.{◌≡◌, ℕ, ◌<◌, List};
ghost use Rattle.std.specs.List.{AllByRecursion};
ghost use Rattle.entries.specs.Limits.{max_depots};
ghost use Rattle.entries.specs.Sets.{has};
ghost use Rattle.protocol.specs.Listing.{every};
ghost use Rattle.entries.specs.declared.lists.Entry.{Entry};
ghost use Rattle.letters.specs.Code.{kind_number, says};
ghost use Rattle.letters.specs.Writing.{message_says};
ghost use Rattle.protocol.specs.Code.{standing_number};
ghost use Rattle.protocol.specs.State.{fits};
ghost use Rattle.protocol.specs.Steps.{fits_gathered, acceptable_list, situation};
ghost use Rattle.protocol.specs.Taking.{tells_end, strikes, standing_in};
ghost use Rattle.book.specs.Sharing.{policy_of};
ghost use Rattle.book.specs.View.{site, view};
ghost use Rattle.book.specs.Calls.{Admitted};

use crate::record::Record;
use entries::{Depots, Entry, entry_of, may_hold, names_of, on_list};
use letters::{Head, Kind, Message};
use policies::Policy;
use protocol::{Refusal, Situation, Standing};

/// Whether a depot tells by a letter of the kind that its handover has ended.
#[tactic(auto, unfolding(protocol::specs::Taking::tells_end))]
fn tells_end(kind: Kind) -> bool
    ensures { result ≡ tells_end kind }
{
    matches!(kind, Kind::No | Kind::Settle | Kind::Drop | Kind::Done)
}

/// Whether a set has all depots on a list.
#[tactic(auto, using(crate::proofs::Covering::covers_every))]
pub(crate) fn has_all(set: Depots, list: &[Entry]) -> bool
    requires { AllByRecursion (λ e. e.depot < max_depots) list.now }
    ensures { result ≡ every list.now (has set.0) }
{
    set.covers(names_of(list))
}

/// Whether an entry's depot is on the list with this very entry.
fn fits(list: &[Entry], own: Entry) -> bool
    ensures { result ≡ fits own.depot own.shelf own.wish list.now }
{
    entry_of(list, own.depot) == Some(own)
}

impl Record {
    /// Whether a letter is for this record now.
    ///
    /// Refuses another policy (18), a letter not sent to this depot (29), a sender or leader that the set does not have
    /// or the depot itself as sender (30), a number below that in the leader's row (31), one above it unless the letter
    /// is an Ask (32), a new Ask while the depot is engaged (8).
    // asked of kind and head alone, so that a letter that is refused is not copied
    pub(crate) fn admit<P: Policy>(&self, kind: Kind, head: Head) -> Result<(), Refusal>
        ensures { (es : List Entry) → Admitted (policy_of P.Policy) (says (kind_number kind) head es) self.now result }
    {
        let own = self.identity;
        if head.code != own.code || !P::governs(own.code) {
            return Err(Refusal::OtherPolicy);
        }
        if !head.to.contains(own.depot) {
            return Err(Refusal::NotAddressed);
        }
        if head.sender >= own.depots || head.leader >= own.depots || head.sender == own.depot {
            return Err(Refusal::NoSuchSender);
        }
        let known = self.row(head.leader).number;
        if head.number < known {
            return Err(Refusal::NumberPassed);
        }
        if known < head.number {
            if kind != Kind::Ask {
                return Err(Refusal::NumberUnknown);
            }
            if self.engaged() {
                return Err(Refusal::Engaged);
            }
        }
        Ok(())
    }

    /// Where the depot stands in the handover of a letter: nowhere in a new one.
    #[tactic(auto, unfolding(protocol::specs::State::pick, protocol::specs::Taking::newer))]
    pub(crate) fn standing_in(&self, letter: &Message) -> Standing
        ensures { standing_number result ≡ standing_in (view self.now) (message_says letter.now) }
    {
        let row = self.row(letter.head.leader);
        if row.number < letter.head.number {
            return Standing::Blank;
        }
        row.standing
    }

    /// Whether a letter strikes its sender from those owing: it tells the leader that its handover has ended.
    #[tactic(auto, using(protocol::proofs::LawfulLists::kind_back), unfolding(protocol::specs::Taking::strikes))]
    pub(crate) fn strikes(&self, letter: &Message) -> bool
        ensures { result ≡ strikes (site self.now) (message_says letter.now) }
    {
        tells_end(letter.kind) && letter.head.leader == self.identity.depot
    }

    /// Whether the depot can accept the list of a letter: it names only depots of the set, has the leader, and has the
    /// own entry as shelf and wish are.
    #[tactic(auto, using(crate::proofs::Covering::accepting))]
    fn can_accept(&self, letter: &Message) -> bool
        ensures { result ≡ acceptable_list (site self.now) (view self.now) letter.now.head.leader
            letter.now.head.sender letter.now.head.number letter.now.entries }
    {
        let list = letter.entries.as_slice();
        has_all(Depots::everyone(self.identity.depots), list)
            && on_list(list, letter.head.leader)
            && fits(list, self.own_entry())
    }

    /// Whether the depot can gather the entry of an Offer: its depot is not gathered yet, and the pool stays within the
    /// limit of a list.
    fn can_gather(&self, offered: &[Entry]) -> bool
        ensures { result ≡ fits_gathered (view self.now).gathered offered.now }
    {
        let gathered = self.gathered.as_slice();
        offered.first().is_some_and(|entry| !on_list(gathered, entry.depot)
            && may_hold(gathered, entry.shelf))
    }

    /// What the guards of the lines ask about a letter.
    pub(crate) fn situation(&self, letter: &Message) -> Situation
        ensures { result ≡ situation (site self.now) (view self.now) letter.now.head.leader letter.now.head.sender
            letter.now.head.number letter.now.entries }
    {
        let head = letter.head;
        let entries = letter.entries.as_slice();
        Situation {
            from_leader: head.sender == head.leader,
            to_leader: head.leader == self.identity.depot,
            from_listed: on_list(self.list.as_slice(), head.sender),
            acceptable: self.can_accept(letter),
            gatherable: self.can_gather(entries),
        }
    }
}
