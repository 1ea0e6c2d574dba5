// The record that an opened set hands out.
ghost use Rattle.std.specs.Prelude.{◌≡◌, ◌<◌, ◌≤◌};
ghost use Rattle.entries.specs.Limits.{max_depots, max_shelf};
ghost use Rattle.protocol.specs.State.{fresh};
ghost use Rattle.book.specs.Fields.{site_of};
ghost use Rattle.book.specs.View.{site, view};

use crate::parts::{Identity, Rows};
use crate::record::Record;
use entries::{Depots, Entries};

impl Record {
    /// A new record. Only an opened set makes one: it has checked the depot, and its shares are no more than its total.
    pub(crate) fn handed(identity: Identity, share: u32) -> Record
        requires depot { identity.depot < identity.depots }
        requires depots { identity.depots ≤ max_depots }
        requires code { 1 ≤ identity.code }
        requires share { share ≤ max_shelf }
        ensures state { view result ≡ fresh share }
        ensures site { site result ≡ site_of identity }
    {
        Record {
            identity,
            shelf: share,
            tray: 0,
            wish: 0,
            rows: Rows::blank(),
            list: Entries::empty(),
            heard: Depots::none(),
            gathered: Entries::empty(),
            owing: Depots::none(),
        }
    }
}
