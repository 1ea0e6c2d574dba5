// Sharing policies: what a list's entries get of the pieces on their shelves.
#![tactic(auto)]

mod dealing;
mod evenly;
mod meaning;
mod sharing;
mod wishes;

pub use dealing::{deal, pieces_of};
pub use evenly::Level;
pub use meaning::Policy;
pub use sharing::{deal_out, share_of};
pub use wishes::WishesFirst;
