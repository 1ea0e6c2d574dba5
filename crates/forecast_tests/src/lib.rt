//! Examples for the forecast, the text lines and the report of `lamp_hours`.
#![tactic(auto)]

#[cfg(test)]
mod hours;
#[cfg(test)]
mod lines;
#[cfg(test)]
mod report;
