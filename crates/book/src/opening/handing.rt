// Handing out the records of an opened set.
ghost use Rattle.book.specs.Opening.{Handed};

use crate::opening::Opened;
use crate::parts::Identity;
use crate::record::Record;
use protocol::Refusal;

impl Opened {
    /// The record of a depot, with its opened share on the shelf and all else empty.
    ///
    /// Refuses a depot that the set does not have (3), a depot handed before (6).
    pub fn hand(&mut self, depot: u8) -> Result<Record, Refusal>
        ensures { Handed depot self.old result self.new }
    {
        let place = self.plan.place(depot)?;
        if self.handed.contains(depot) {
            return Err(Refusal::HandedBefore);
        }
        let identity = Identity {
            depot,
            depots: self.plan.depots,
            code: self.code,
        };
        let share = self.shares.of[place];
        self.handed = self.handed.with(depot);
        Ok(Record::handed(identity, share))
    }
}
