//! The job of the program `lamp_hours`: reads a sheet of lamps' hours, and works out the text of the answer.
#![tactic(auto)]

mod job;
mod reading;
mod report;
mod sheet;

pub use job::{answer, explain};
pub use reading::read_sheet;
pub use report::write_report;
pub use sheet::{Fault, Sheet};
