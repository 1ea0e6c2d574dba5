// The tests of the book: opening a set, the stock of a depot, leading a handover and leaving it. Each refusal that
// these calls can come to is asked for once, and in order where two apply.
#![tactic(auto)]

#[cfg(test)]
mod leading;
#[cfg(test)]
mod opening;
#[cfg(test)]
mod samples;
#[cfg(test)]
mod stock;
