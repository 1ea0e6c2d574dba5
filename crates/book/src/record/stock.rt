// Pieces taken and brought back, and the wish.
ghost use Rattle.std.specs.Prelude.{◌≡◌, if◌then◌else◌, Ok, Err};
ghost use Rattle.protocol.specs.declared.refusal.Refusal.TheVariants.{PiecesOutside};
ghost use Rattle.protocol.specs.Own.{outside, issue, give_back, set_wish};
ghost use Rattle.book.specs.Calls.{Moved};

use crate::record::Record;
use entries::{MAX_POOL, MAX_WISH};
use protocol::Refusal;

/// The most pieces that one call moves.
const MAX_AMOUNT: u32 = 1_000_000;

/// Refuses a number of pieces outside 1 to 1,000,000 (7).
#[tactic(auto, using(crate::proofs::Stock::stock_steps))]
fn check_amount(n: u32) -> Result<(), Refusal>
    ensures { result ≡ (if outside n then Err PiecesOutside else Ok tt) }
{
    if !(1..=MAX_AMOUNT).contains(&n) {
        return Err(Refusal::PiecesOutside);
    }
    Ok(())
}

impl Record {
    /// Takes `n` pieces off the shelf.
    ///
    /// Refuses `n` outside 1 to 1,000,000 (7), an engaged depot (8), a shelf below `n` (9).
    #[tactic(auto, using(crate::proofs::Stock::stock_steps), unfolding(protocol::specs::Own::issue))]
    pub fn issue(&mut self, n: u32) -> Result<(), Refusal>
        ensures { Moved (λ a s. issue a s n) result self.old self.new }
    {
        check_amount(n)?;
        if self.engaged() {
            return Err(Refusal::Engaged);
        }
        if self.shelf < n {
            return Err(Refusal::ShelfBelow);
        }
        self.shelf -= n;
        Ok(())
    }

    /// The book's Return: adds `n` pieces to the shelf, or to the tray while the depot is engaged.
    ///
    /// Refuses `n` outside 1 to 1,000,000 (7), then shelf, tray and `n` together above 1,000,000,000 (10).
    #[tactic(auto, using(crate::proofs::Stock::stock_steps), unfolding(protocol::specs::Own::give_back))]
    pub fn give_back(&mut self, n: u32) -> Result<(), Refusal>
        ensures { Moved (λ a s. give_back a s n) result self.old self.new }
    {
        check_amount(n)?;
        if self.shelf + self.tray + n > MAX_POOL {
            return Err(Refusal::StockTooGreat);
        }
        if self.engaged() {
            self.tray += n;
        } else {
            self.shelf += n;
        }
        Ok(())
    }

    /// Sets the wish.
    ///
    /// Refuses `n` above 1,000,000 (11), an engaged depot (8).
    #[tactic(auto, using(crate::proofs::Stock::stock_steps), unfolding(protocol::specs::Own::set_wish))]
    pub fn set_wish(&mut self, n: u32) -> Result<(), Refusal>
        ensures { Moved (λ a s. set_wish a s n) result self.old self.new }
    {
        if n > MAX_WISH {
            return Err(Refusal::WishTooGreat);
        }
        if self.engaged() {
            return Err(Refusal::Engaged);
        }
        self.wish = n;
        Ok(())
    }
}
