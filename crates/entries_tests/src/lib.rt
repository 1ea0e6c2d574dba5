// Sets of depots and lists of entries on examples: the borders of every limit.
#![tactic(auto)]

#[cfg(test)]
mod tests;
