//! Tests of fronts of sources, and of files that are looked for in folders.
#![tactic(auto)]

#[cfg(test)]
mod fronts;
