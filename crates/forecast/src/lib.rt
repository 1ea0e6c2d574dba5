//! How many spares a depot will need, from the burning hours of its lamps.
#![tactic(auto)]

mod hours;
mod lamp;

pub use hours::{LampHours, proposed_wish};
pub use lamp::{Lamp, Refusal};
