// A set to try calls on, and what their answers are compared with.
use book::{Draft, Opened, Plan, Record};
use policies::Level;
use protocol::Refusal;

/// Whether the answer is a refusal with this number.
// by number, as kinds and standings here: the variant's name would be no plainer, and the book lists the numbers
pub(crate) fn refused<T: Drop>(answer: Result<T, Refusal>, number: u8) -> bool {
    answer.is_err_and(|refusal| refusal.number() == number)
}

/// A set of ten pieces that is opened without an allotment: depot 0 has them all.
pub(crate) fn opened(depots: u8) -> Result<Opened, Refusal> {
    let plan = Plan::check(10, depots)?;
    Ok(Draft::new::<Level>(plan).open())
}

/// The record of a depot in such a set.
pub(crate) fn record(depots: u8, depot: u8) -> Result<Record, Refusal> {
    let mut set = opened(depots)?;
    set.hand(depot)
}
