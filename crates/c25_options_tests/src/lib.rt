//! Tests of how the command line is read.
#![tactic(auto)]

#[cfg(test)]
mod command_lines;
