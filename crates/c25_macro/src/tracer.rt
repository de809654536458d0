//! An expansion that says which lines opened what is open.

use crate::answer::{ExpLine, ExpandFault};
use crate::state::ExpanderState;
use c25_files::files::Files;
use c25_meaning_common::placed::FileLine;

/// The expansion of a module, one rewriting after another, with the lines that opened the files, expansions
/// and turns that are open.
#[derive(Drop)]
pub struct Tracer<'a> {
    pub(crate) files: &'a Files,
    pub(crate) state: Box<ExpanderState<'a>>,
    /// The places of the lines that opened what is open, the outermost first.
    pub(crate) trail: Vec<FileLine<usize>>,
}

/// What one rewriting gives.
#[derive(Drop)]
pub enum Step<'a> {
    /// A line is given.
    Given(ExpLine<'a>),
    /// No line is given, and expansion goes on.
    Consumed,
    /// No line is left.
    Finished,
}

/// Why a rewriting fails.
#[derive(Drop)]
pub enum StepFault<'a> {
    /// A line has a fault.
    Faulty(ExpandFault<'a>),
    /// A line asks for the file with this name, which is not there.
    Missing {
        file: &'a str,
        line: usize,
        name: String,
    },
}
