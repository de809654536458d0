//! Tests of images as sources (`c25_source`).
#![tactic(auto)]

#[cfg(test)]
mod sources;
