//! Tests of the program's tasks, and of the lines that its notes show, through public calls: what no case of
//! c25_examples brings about with a command line, files and standard input.
#![tactic(auto)]

#[cfg(test)]
mod lines;
#[cfg(test)]
mod memory;
#[cfg(test)]
mod program;
#[cfg(test)]
mod public_calls;
#[cfg(test)]
mod values;
#[cfg(test)]
mod worlds;
