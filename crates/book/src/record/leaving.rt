// Leaving a handover.
ghost use Rattle.std.specs.Prelude.{◌≡◌, ◌<◌, ◌≤◌};
ghost use Rattle.entries.specs.Limits.{max_depots};
ghost use Rattle.protocol.specs.State.{ended, stocked};
ghost use Rattle.protocol.specs.Law.{Engages};
ghost use Rattle.protocol.specs.Own.{withdraw, restart};
ghost use Rattle.protocol.specs.Code.{standing_number};
ghost use Rattle.book.specs.View.{site, view};
ghost use Rattle.book.specs.Calls.{at, Becomes, MayBecome, Left, Called};

use crate::record::Record;
use entries::Depots;
use letters::{Kind, Message};
use protocol::{Refusal, Standing};

impl Record {
    /// Ends the handover of a leader with so many pieces on the shelf and this wish: the tray goes onto the shelf, and
    /// list, heard and gathered are emptied. The record that it leads to has to keep the law.
    pub(crate) fn finish(&mut self, leader: u8, at: Standing, shelf: u32, wish: u32)
        requires low { leader < max_depots }
        requires lawful { MayBecome (λ s. ended leader (standing_number at) (stocked shelf s.tray wish s)) self.old }
        ensures { Becomes (λ s. ended leader (standing_number at) (stocked shelf s.tray wish s)) self.old self.new }
    {
        self.shelf = shelf + self.tray;
        self.tray = 0;
        self.wish = wish;
        self.rows.stand(leader, at);
        self.list.clear();
        self.heard = Depots::none();
        self.gathered.clear();
    }

    /// Ends the handover of a leader with shelf and wish as they are.
    pub(crate) fn end(&mut self, leader: u8, at: Standing)
        requires alive { Engages ((view self.old).rows leader).standing }
        requires ends { 3 ≤ standing_number at }
        requires fits { standing_number at ≡ 3 → ((view self.old).rows leader).standing ≡ 1 }
        ensures { Becomes (ended leader (standing_number at)) self.old self.new }
    {
        self.finish(leader, at, self.shelf, self.wish);
    }

    /// Leaves a handover that the depot has only offered to, or gathers for: it ends at 3. A leader sends Drop to all
    /// others, another depot sends No to the leader. It answers to whom the letter goes, and `None` where there is nothing
    /// to send.
    ///
    /// Refuses a depot that stands nowhere at 1 (19).
    pub fn withdraw(&mut self, out: &mut Message) -> Result<Option<Depots>, Refusal>
        ensures { Called withdraw result self.old self.new out.old out.new }
    {
        let leader = self.leader();
        if self.standing(leader) != Standing::Offered {
            return Err(Refusal::NotOffered);
        }
        self.end(leader, Standing::Refused);
        if leader == self.identity.depot {
            let to = self.rest();
            return Ok(self.say(Kind::Drop, to, leader, &[], out));
        }
        Ok(self.say(Kind::No, Depots::mark(leader), leader, &[], out))
    }

    /// What a restart of the depot leaves of its record: a gathering depot ends at 3, a bound one has heard only itself
    /// and the leader. It is never refused and sends nothing.
    pub fn restart(&mut self)
        ensures { Left (at restart self.old) self.old self.new }
    {
        let depot = self.identity.depot;
        if self.standing(depot) == Standing::Offered {
            self.end(depot, Standing::Refused);
            return;
        }
        let leader = self.leader();
        if self.standing(leader) == Standing::Accepted {
            self.heard = Depots::mark(depot).with(leader);
        }
    }
}
