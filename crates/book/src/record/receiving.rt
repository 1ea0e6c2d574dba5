// Receiving a letter: reading the bytes, taking the letter that was read, and carrying its line out.
ghost use Rattle.std.specs.Prelude.{◌≡◌, false, Ok};
ghost use Rattle.entries.specs.Lists.{Listed};
ghost use Rattle.letters.specs.Contents.{Lawful};
ghost use Rattle.letters.specs.Code.{letter_says, entry_part};
ghost use Rattle.letters.specs.Reading.{entries_in};
ghost use Rattle.letters.specs.Writing.{message_says};
ghost use Rattle.protocol.specs.declared.step.Step.TheVariants as steps;
ghost use Rattle.protocol.specs.Steps.{to_whom};
ghost use Rattle.protocol.specs.Taking.{take};
ghost use Rattle.book.specs.Sharing.{policy_of};
ghost use Rattle.book.specs.View.{site, view};
ghost use Rattle.book.specs.Calls.{stepped, lined, Sound, StepGrounds, Called, Received};

use crate::record::Record;
use crate::record::deciding::has_all;
use entries::{Depots, Entries, names_of};
use letters::{Fault, Kind, Letter, Message, entries_in, read};
use policies::{Policy, share_of};
use protocol::{Refusal, Standing, Step, Whom, decide};

/// A letter that was read as a message of its own, which does not refer to the caller's bytes any more.
// no `From`: it asks that the letter is lawful, which reading promises and the letter's type does not say
fn owned(letter: Letter<'_>) -> Message
    requires { Lawful (letter_says letter) }
    ensures { message_says result ≡ letter_says letter.entry }
{
    let entries = match letter {
        Letter::Offer(_, bytes) | Letter::List(_, bytes) => entries_in(bytes),
        _ => Entries::empty(),
    };
    Message {
        kind: letter.kind(),
        head: letter.head(),
        entries,
    }
}

impl Record {
    /// The depots to which the letter of a step goes, where the step answers this letter.
    fn to_whom(&self, whom: Whom, letter: &Message) -> Depots
        ensures { result.0 ≡ to_whom (site self.now) (view self.now) letter.now.head.leader letter.now.head.sender
            letter.now.head.number letter.now.entries whom }
    {
        match whom {
            Whom::Leader => Depots::mark(letter.head.leader),
            Whom::Sender => Depots::mark(letter.head.sender),
            Whom::Others => self.others(),
        }
    }

    /// Accepts the list of a letter: the depot is bound to it and sends Yes to the leader; where itself and the leader
    /// are all that the list has, it settles at once and sends Settle to the others.
    fn accept<P: Policy>(&mut self, letter: &Message, out: &mut Message) -> Option<Depots>
        requires listed { Listed letter.now.entries }
        requires sound { Sound (stepped (policy_of P.Policy) false (message_says letter.now)
            steps.Accept) self.old }
        ensures { Called (stepped (policy_of P.Policy) false (message_says letter.now)
            steps.Accept) (Ok result) self.old self.new out.old out.new }
    {
        let depot = self.identity.depot;
        let leader = letter.head.leader;
        let list = letter.entries.as_slice();
        if has_all(Depots::mark(depot).with(leader), list) {
            let share = share_of::<P>(list, depot);
            self.settle(leader, share);
            let to = names_of(list).without(depot);
            return self.say(Kind::Settle, to, leader, &[], out);
        }
        self.bind(leader, list);
        self.say(Kind::Yes, Depots::mark(leader), leader, &[], out)
    }

    /// Hears the sender of a Yes; where then all on the list are heard, the depot settles and sends Settle to the
    /// others.
    fn hear<P: Policy>(&mut self, letter: &Message, out: &mut Message) -> Option<Depots>
        requires bound { ((view self.old).rows letter.now.head.leader).standing ≡ 2 }
        requires sound { Sound (stepped (policy_of P.Policy) false (message_says letter.now)
            steps.Hear) self.old }
        ensures { Called (stepped (policy_of P.Policy) false (message_says letter.now) steps.Hear)
            (Ok result) self.old self.new out.old out.new }
    {
        let leader = letter.head.leader;
        let heard = self.heard.with(letter.head.sender);
        let list = self.list.as_slice();
        if has_all(heard, list) {
            let to = self.others();
            let share = share_of::<P>(list, self.identity.depot);
            self.settle(leader, share);
            return self.say(Kind::Settle, to, leader, &[], out);
        }
        self.note_heard(heard);
        None
    }

    /// Carries out a step that a letter calls for.
    // a step is an enum, and not a closure: the contract of `decide` and what carrying out means speak of it
    fn act<P: Policy>(
        &mut self,
        step: Step,
        strikes: bool,
        letter: &Message,
        out: &mut Message,
    ) -> Result<Option<Depots>, Refusal>
        requires grounds { StepGrounds (message_says letter.now) (view self.old) step }
        requires sound { Sound (stepped (policy_of P.Policy) strikes (message_says letter.now) step)
            self.old }
        ensures { Called (stepped (policy_of P.Policy) strikes (message_says letter.now) step)
            result self.old self.new out.old out.new }
    {
        let leader = letter.head.leader;
        match step {
            Step::Unlined if strikes => Ok(None),
            Step::Unlined => Err(Refusal::NoLine),
            Step::Stay => Ok(None),
            Step::Join => {
                self.join(leader, letter.head.number);
                Ok(self.offer(leader, out))
            }
            Step::OfferAgain => Ok(self.offer(leader, out)),
            Step::Gather => {
                self.gather(letter.entries.as_slice()[0]);
                Ok(None)
            }
            Step::Accept => Ok(self.accept::<P>(letter, out)),
            Step::Hear => Ok(self.hear::<P>(letter, out)),
            Step::Say(kind, whom) => {
                let to = self.to_whom(whom, letter);
                Ok(self.say(kind, to, leader, &[], out))
            }
            Step::Refuse(whom) => {
                let to = self.to_whom(whom, letter);
                self.end(leader, Standing::Refused);
                Ok(self.say(Kind::No, to, leader, &[], out))
            }
            Step::Settle(kind, whom) => {
                let to = self.to_whom(whom, letter);
                let share = share_of::<P>(self.list.as_slice(), self.identity.depot);
                self.settle(leader, share);
                Ok(self.say(kind, to, leader, &[], out))
            }
            Step::Drop(kind, whom) => {
                let to = self.to_whom(whom, letter);
                self.end(leader, Standing::Dropped);
                Ok(self.say(kind, to, leader, &[], out))
            }
        }
    }

    /// Carries out the line of a letter that no refusal before the lines keeps out.
    fn follow<P: Policy>(
        &mut self,
        letter: &Message,
        out: &mut Message,
    ) -> Result<Option<Depots>, Refusal>
        requires { Sound (lined (policy_of P.Policy) (message_says letter.now)) self.old }
        ensures { Called (lined (policy_of P.Policy) (message_says letter.now)) result self.old
            self.new out.old out.new }
    {
        let strikes = self.strikes(letter);
        self.strike(strikes, letter.head.sender);
        let step = decide(
            letter.kind,
            self.standing_in(letter),
            self.situation(letter),
        );
        self.act::<P>(step, strikes, letter, out)
    }

    /// Takes a letter that was read. Reading has seen to it that the letter is lawful.
    ///
    /// Refuses what `admit` refuses (18, 29, 30, 31, 32, 8), then a letter without a line (33).
    fn take<P: Policy>(
        &mut self,
        letter: Letter<'_>,
        out: &mut Message,
    ) -> Result<Option<Depots>, Refusal>
        requires { Lawful (letter_says letter) }
        ensures { Called (λ a s. take (policy_of P.Policy) a s (letter_says letter.entry)) result
            self.old self.new out.old out.new }
    {
        self.admit::<P>(letter.kind(), letter.head())?;
        let letter = owned(letter);
        self.follow::<P>(&letter, out)
    }

    /// Receives a letter in bytes: what it answers goes into the lent message. The call answers to whom, and `None` where
    /// there is nothing to send.
    ///
    /// Refuses bytes that reading refuses (22 to 28), then another policy than the record's (18), a letter not sent to
    /// this depot (29), a sender or leader that the set does not have or the depot itself as sender (30), a number below
    /// that in the leader's row (31), one above it unless the letter is an Ask (32), a new Ask while the depot is
    /// engaged (8), a letter without a line (33).
    pub(crate) fn receive<P: Policy>(
        &mut self,
        bytes: &[u8],
        out: &mut Message,
    ) -> Result<Option<Depots>, Fault<Refusal>>
        ensures { Received (policy_of P.Policy) bytes.now result self.old
            self.new out.old out.new }
    {
        let letter = read(bytes)?;
        self.take::<P>(letter, out).map_err(Fault::Handover)
    }
}
