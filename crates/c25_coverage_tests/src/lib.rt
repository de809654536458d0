//! Tests of the counts of runs, with counts that are worked out by hand.
#![tactic(auto)]

#[cfg(test)]
mod programs;
