// What the calls of a depot make of its record, and what is promised of every series of them.
//
// The definitions stand in specs/: a record and its law, every call, the ordered lines of Receive, series of calls and
// the three promises. Of code there is the choice of a line, which a record's Receive is to carry out, and the types
// that it speaks of; the theorems stand as contracts of calls that do nothing.
#![tactic(auto)]

mod refusal;
mod standing;
mod step;
mod theorems;

pub use refusal::Refusal;
pub use standing::Standing;
pub use step::{Situation, Step, Whom, decide};
pub use theorems::{due_told_by_rows, examples_hold, law_kept, promises_hold};
