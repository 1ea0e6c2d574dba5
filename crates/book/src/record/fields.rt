// What a record shows.
ghost use Rattle.std.specs.Prelude.{◌≡◌};
ghost use Rattle.protocol.specs.Code.{standing_number};
ghost use Rattle.book.specs.Fields.{site_of, row_of};
ghost use Rattle.book.specs.View.{site, view};

use crate::parts::{Identity, Row};
use crate::record::Record;
use protocol::Standing;

impl Record {
    /// Which depot it is, of how many, and under which policy's code.
    pub fn identity(&self) -> Identity
        ensures { site_of result ≡ site self.now }
    {
        self.identity
    }

    /// The pieces on the shelf.
    pub fn shelf(&self) -> u32
        ensures { result ≡ (view self.now).shelf }
    {
        self.shelf
    }

    /// The pieces brought back while the depot is engaged.
    pub fn tray(&self) -> u32
        ensures { result ≡ (view self.now).tray }
    {
        self.tray
    }

    /// The pieces that the depot wishes for.
    pub fn wish(&self) -> u32
        ensures { result ≡ (view self.now).wish }
    {
        self.wish
    }

    /// The row of a leader, blank for a number that no depot has.
    pub fn row(&self, leader: u8) -> Row
        ensures { row_of result ≡ (view self.now).rows leader }
    {
        self.rows.row(leader)
    }

    /// Where the depot stands in the row of a leader.
    pub(crate) fn standing(&self, leader: u8) -> Standing
        ensures { standing_number result ≡ ((view self.now).rows leader).standing }
    {
        self.row(leader).standing
    }
}
