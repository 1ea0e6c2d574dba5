// The tests of letters: every refusal at every place, the limits at their edges, every length, and the worked letters
// written and read.
#![tactic(auto)]

#[cfg(test)]
mod codec;
#[cfg(test)]
mod damaged;
#[cfg(test)]
mod lengths;
#[cfg(test)]
mod limits;
#[cfg(test)]
mod page;
#[cfg(test)]
mod samples;
#[cfg(test)]
mod worked;
