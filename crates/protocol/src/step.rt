// Which step a letter calls for.
ghost use Rattle.std.specs.Prelude.{◌≡◌};
ghost use Rattle.protocol.specs.Code.{standing_number};
ghost use Rattle.protocol.specs.Lines.{decided, Grounds};

use crate::Standing;
use letters::Kind;

/// To whom the letter of a step goes.
#[derive(Clone, Copy, PartialEq, Eq, Debug)]
pub enum Whom {
    /// To the leader of the handover.
    Leader,
    /// To the depot whose letter was received.
    Sender,
    /// To the others on the list.
    Others,
}

/// What a letter that was received calls for.
#[derive(Clone, Copy, PartialEq, Eq, Debug)]
pub enum Step {
    /// No line is there for the letter.
    Unlined,
    /// Nothing changes and nothing is sent.
    Stay,
    /// The leader's row takes the letter's number and stands at 1; an Offer goes to the leader.
    Join,
    /// The same Offer goes to the leader again.
    OfferAgain,
    /// The letter's entry is gathered.
    Gather,
    /// The letter's list is accepted, and Yes goes to the leader; where all on it are heard, the depot settles.
    Accept,
    /// The sender is heard; where all on the list are heard, the depot settles.
    Hear,
    /// A letter of this kind tells how the handover stands.
    Say(Kind, Whom),
    /// The handover ends at 3, and No is sent.
    Refuse(Whom),
    /// The handover ends at 4, and a letter of this kind is sent.
    Settle(Kind, Whom),
    /// The handover ends at 5, and a letter of this kind is sent.
    Drop(Kind, Whom),
}

/// What the guards of the lines look at: who sent the letter, who received it, and what it carries.
#[derive(Clone, Copy, PartialEq, Eq, Debug)]
pub struct Situation {
    /// The sender is the leader.
    pub from_leader: bool,
    /// The depot that received the letter is the leader.
    pub to_leader: bool,
    /// The sender is on the depot's list.
    pub from_listed: bool,
    /// The letter carries a list that the depot can accept.
    pub acceptable: bool,
    /// The letter carries an entry that the depot can gather.
    pub gatherable: bool,
}

/// The step that a letter calls for, by its kind and by where the depot stands in the letter's handover: that of the
/// first line that fits, `Unlined` if none does. In a handover whose number is above that in the leader's row the depot
/// stands at `Blank`. The clause `grounds` says what whoever carries the step out may rely on.
// one match over kind and standing, though it is long: the project names that form, and it is the book's table
pub fn decide(kind: Kind, standing: Standing, about: Situation) -> Step
    ensures step { result ≡ decided kind (standing_number standing) about }
    ensures grounds { Grounds result (standing_number standing) about }
{
    match (kind, standing) {
        (Kind::Ask, Standing::Blank) if about.from_leader => Step::Join,
        (Kind::Ask, Standing::Offered) if about.from_leader => Step::OfferAgain,
        (Kind::Offer, Standing::Offered) if about.to_leader && about.gatherable => Step::Gather,
        (Kind::Offer, Standing::Offered) if about.to_leader => Step::Stay,
        (Kind::List, Standing::Offered) if about.from_leader && about.acceptable => Step::Accept,
        (Kind::List, Standing::Offered) if about.from_leader => Step::Refuse(Whom::Leader),
        (Kind::List, Standing::Accepted) if about.from_leader => Step::Say(Kind::Yes, Whom::Leader),
        (Kind::List, Standing::Refused) if about.from_leader => Step::Say(Kind::No, Whom::Leader),
        (Kind::List, Standing::Settled) if about.from_leader => Step::Say(
            Kind::Settle,
            Whom::Leader,
        ),
        (Kind::List, Standing::Dropped) if about.from_leader => Step::Say(Kind::Drop, Whom::Leader),
        (Kind::Yes, Standing::Accepted) if about.from_listed => Step::Hear,
        (Kind::No, Standing::Accepted) if about.from_listed => Step::Drop(Kind::Drop, Whom::Others),
        (Kind::Settle, Standing::Accepted) if about.from_listed && about.to_leader => {
            Step::Settle(Kind::Settle, Whom::Others)
        }
        (Kind::Settle, Standing::Accepted) if about.from_listed => Step::Settle(
            Kind::Done,
            Whom::Leader,
        ),
        (Kind::Settle, Standing::Settled) if !about.to_leader => Step::Say(
            Kind::Done,
            Whom::Leader,
        ),
        (Kind::Drop, Standing::Accepted) if about.from_listed && about.to_leader => {
            Step::Drop(Kind::Drop, Whom::Others)
        }
        (Kind::Drop, Standing::Accepted) if about.from_listed => Step::Drop(
            Kind::Done,
            Whom::Leader,
        ),
        (Kind::Drop, Standing::Offered) if !about.to_leader => Step::Refuse(Whom::Leader),
        (Kind::Drop, Standing::Refused) if !about.to_leader => Step::Say(Kind::No, Whom::Leader),
        (Kind::Drop, Standing::Dropped) if !about.to_leader => Step::Say(Kind::Done, Whom::Leader),
        (Kind::Query, Standing::Offered) if !about.to_leader => Step::Refuse(Whom::Sender),
        (Kind::Query, Standing::Accepted) => Step::Say(Kind::Yes, Whom::Sender),
        (Kind::Query, Standing::Refused) => Step::Say(Kind::No, Whom::Sender),
        (Kind::Query, Standing::Settled) => Step::Say(Kind::Settle, Whom::Sender),
        (Kind::Query, Standing::Dropped) => Step::Say(Kind::Drop, Whom::Sender),
        _ => Step::Unlined,
    }
}
