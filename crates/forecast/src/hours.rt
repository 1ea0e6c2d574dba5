// A forecast over lamps that were checked.
ghost use Rattle.std.specs.Prelude.{◌≡◌, ◌≤◌, true, vec_len};
ghost use Rattle.forecast.specs.Checking.{all_lawful, max_lamps, max_period};

use crate::lamp::Lamp;

mod asking;

pub use asking::proposed_wish;

/// Lamps and a period that were checked: at most 1,000 lamps, each lawful, and a period of at most 10,000 hours.
#[derive(Drop)]
pub struct LampHours {
    lamps: Vec<Lamp>,
    period: u64,
    ghost few: { vec_len lamps ≤ max_lamps },
    ghost short: { period ≤ max_period },
    ghost each: { all_lawful lamps.items ≡ true },
}
