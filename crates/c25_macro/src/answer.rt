//! The answers of an expander.

use crate::tracer::StepFault;
use c25_meaning_common::placed::{FileLine, Placed};
use c25_meaning_language::statement::FaultKind;
use std::borrow::CowStr;

/// A line that expansion gives.
#[derive(Drop)]
pub struct ExpLine<'a> {
    /// The name of the file in which the line stands; a line of a macro stands where the macro's body does.
    pub file: &'a str,
    /// The number of the line in the file, from 1.
    pub line: usize,
    /// The text of the line after substitution, without its end; borrowed from the file's text where nothing
    /// was replaced.
    pub text: CowStr<'a>,
}

/// What a call for the next line gives where the lines that are refused are left out.
#[derive(Drop)]
pub enum NextLine<'a> {
    /// A line is given.
    Given(ExpLine<'a>),
    /// A line is refused and left out, and expansion goes on.
    LeftOut(StepFault<'a>),
    /// No line is left.
    Finished,
}

/// A fault of a line, or of a file that a line copies and that is not there, with its place (10 to 13, 20 to
/// 25, 30 to 36, 38, 51, 52). Where the module itself is not there (30), the place is its line 0.
pub type ExpandFault<'a> = Placed<FileLine<&'a str>, FaultKind>;
