// A depot's record, its opening and the calls on it.
//
// A set is planned, drafted, allotted and opened, and an opened set hands each depot its record. After that the record
// changes only by the calls of `Record`, each of which says by the protocol's definitions what it answers, what it
// leaves in the record, and what it leaves in the lent message.
#![tactic(auto)]

pub mod opening;
pub mod parts;
pub mod record;

pub use opening::{Draft, Opened, Plan};
pub use parts::{Identity, Row, Rows};
pub use record::Record;
