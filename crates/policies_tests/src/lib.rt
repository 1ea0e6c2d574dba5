// Policies of others, written as anybody can write one, and all policies on examples.
#![tactic(auto)]

mod keeping;
mod last;

pub use keeping::Keep;
pub use last::LastTakesAll;

#[cfg(test)]
mod tests;
