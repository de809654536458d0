//! A fault, and where it is.

use std::fmt;
use thiserror::Error;

/// A fault with its place: the number of a line, a name, or a line of a file. A name is a text in code and a
/// list of bytes in definitions.
#[derive(Clone, Copy, PartialEq, Debug, Drop, Error)]
#[error_bound(Place: fmt::Display, Fault: fmt::Display)]
#[error("{place}: {fault}")]
pub struct Placed<Place, Fault> {
    pub place: Place,
    pub fault: Fault,
}

/// A line of a file. The file is given by its name, or by its number among the files of a source, counted
/// from 0 in the order in which they were added. Lines count from 1; line 0 stands for the file itself.
#[derive(Clone, Copy, PartialEq, Debug, Drop)]
pub struct FileLine<Name> {
    pub file: Name,
    pub line: usize,
}

impl<Name: fmt::Display> fmt::Display for FileLine<Name> {
    ghost use Rattle.std.specs.Prelude.{◌++◌, codes};
    ghost use Rattle.std.specs.Fmt.{decimal};
    ghost use Rattle.std.specs.Option.{option_map};

    ghost output = { λ place. option_map (λ file. file ++ codes ":" ++ decimal place.line) (Name.output place.file) };

    fn fmt<W: fmt::Write>(&self, f: &mut fmt::Formatter<W>) -> fmt::Result {
        write!(f, "{}:{}", self.file, self.line)
    }
}
