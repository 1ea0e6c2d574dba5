// A depot's record. Its type carries the whole law.
ghost use Rattle.std.specs.Prelude.{◌≡◌};
ghost use Rattle.protocol.specs.Law.{Law};
ghost use Rattle.book.specs.Fields.{site_of, state_of, Bounds};

use crate::parts::{Identity, Rows};
use entries::{Depots, Entries};

mod asking;
mod deciding;
mod fields;
mod handing;
mod leading;
mod leaving;
mod mailing;
mod receiving;
mod rows;
mod stepping;
mod stock;

/// What one depot knows: its stock, where it stands in the handover of each leader, and what it gathers, is bound to
/// and is owed. An opened set hands it out, and nothing but its calls changes it. A call that may send a letter answers
/// to whom the lent message then goes, and `None` where there is nothing to send.
///
/// Its type carries what every record keeps: `kept` is the law, and `bounds` the part of it that sums and tests rely on.
#[derive(Drop)]
pub struct Record {
    identity: Identity,
    shelf: u32,
    tray: u32,
    wish: u32,
    rows: Rows,
    list: Entries,
    heard: Depots,
    gathered: Entries,
    owing: Depots,
    ghost bounds: { Bounds (site_of identity) (state_of shelf tray wish rows list heard gathered owing) },
    ghost kept: { ∥ Law (site_of identity) (state_of shelf tray wish rows list heard gathered owing) ∥₁ },
}
