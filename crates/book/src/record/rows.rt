// The rows of a record, and where they engage the depot.
ghost use Rattle.std.specs.Prelude.{◌≡◌, ◌<◌, ℕ, length};
ghost use Rattle.entries.specs.Limits.{max_depots};
ghost use Rattle.protocol.specs.State.{upd, engaged, leader};
ghost use Rattle.protocol.specs.Code.{standing_number};
ghost use Rattle.book.specs.Fields.{row_of, rows_of, EngagedIn};
ghost use Rattle.book.specs.View.{site, view};

use crate::parts::{BLANK_ROW, Row, Rows};
use crate::record::Record;
use entries::PLACES;
use protocol::Standing;

/// One of these rows that engages the depot, and none only where none does. A record has at most one.
fn engaged_in(rows: &[Row]) -> Option<usize>
    ensures { EngagedIn rows.now result }
{
    rows.iter().position(|row| row.standing.engages())
}

impl Rows {
    /// Rows in which nothing has stood.
    pub(crate) fn blank() -> Rows
        ensures { rows_of result.of ≡ (λ _. record { number = 0; standing = 0 }) }
    {
        Rows {
            of: [BLANK_ROW; PLACES],
        }
    }

    /// The row of a leader, blank for a number that no depot has.
    pub(crate) fn row(&self, leader: u8) -> Row
        ensures { row_of result ≡ rows_of self.now.of leader }
    {
        self.of
            .get(usize::from(leader))
            .copied()
            .unwrap_or(BLANK_ROW)
    }

    /// Puts a row in place of a leader's.
    // asked, and no type of leaders: each caller would make one for this call, out of what the letter's or record's law says
    #[tactic(auto, using(crate::proofs::Kept::row_steps))]
    pub(crate) fn put(&mut self, leader: u8, row: Row)
        requires { leader < max_depots }
        ensures { rows_of self.new.of ≡ upd (rows_of self.old.of) leader (row_of row) }
    {
        self.of[usize::from(leader)] = row;
    }

    /// Has the depot stand there in the row of a leader, whose number stays.
    #[tactic(auto, using(entries::proofs::Width::as_many_marks))]
    pub(crate) fn stand(&mut self, leader: u8, at: Standing)
        requires { leader < max_depots }
        ensures { rows_of self.new.of ≡ upd (rows_of self.old.of) leader
            (record { number = (rows_of self.old.of leader).number; standing = standing_number at }) }
    {
        self.of[usize::from(leader)].standing = at;
    }
}

impl Record {
    /// The rows of the set's depots.
    #[tactic(auto, using(crate::proofs::Kept::row_steps), unfolding(crate::specs::Fields::rows_of))]
    fn rows(&self) -> &[Row]
        ensures length { length result.now ≡ (site self.now).n }
        ensures rows { (L : ℕ) → L < (site self.now).n → rows_of result.now L ≡ (view self.now).rows L }
    {
        &self.rows.of[..usize::from(self.identity.depots)]
    }

    /// Whether the depot is engaged in a handover.
    #[tactic(auto, using(crate::proofs::Engaged::engaged_is))]
    pub fn engaged(&self) -> bool
        ensures { result ≡ engaged (site self.now) (view self.now) }
    {
        engaged_in(self.rows()).is_some()
    }

    /// The leader in whose row the depot is engaged, 0 where it is engaged in none.
    // no Option: 0 is what the definition says too, and each caller looks at the row that is named
    #[tactic(auto, using(crate::proofs::Engaged::leader_is, entries::proofs::Width::as_many_marks))]
    pub(crate) fn leader(&self) -> u8
        ensures value { result ≡ leader (site self.now) (view self.now) }
        ensures low { result < max_depots }
    {
        // `as`: a place among sixteen rows fits, and `TryFrom` would add a case that cannot happen
        engaged_in(self.rows()).unwrap_or(0) as u8
    }
}
