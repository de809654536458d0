//! The parts of an explanation.

use std::fmt;

/// An explanation of a fault: what it means and what to do. Each text is lines of at most 100 columns, and
/// the last line has its line feed too.
#[derive(Clone, Copy)]
pub struct Explanation {
    /// The fault number shown to the user.
    pub number: u8,
    /// The fault name shown to the user, after the number.
    pub name: &'static str,
    /// What the fault means. Its first sentence says it in brief.
    pub meaning: &'static str,
    /// The smallest example, with the line that reports its fault. There is none where no small text gives the fault, as out of memory.
    pub example: Option<&'static str>,
    /// What to do.
    pub advice: &'static str,
}

impl fmt::Display for Explanation {
    ghost use Rattle.std.specs.Prelude.{Some};
    ghost use Rattle.c25_explain.specs.Explanation.{whole_text};

    ghost output = { λ explanation. Some (whole_text explanation) };

    /// The whole explanation: number and name, meaning, example and advice, with an empty line between them.
    fn fmt<W: fmt::Write>(&self, f: &mut fmt::Formatter<W>) -> fmt::Result {
        let Explanation {
            number,
            name,
            meaning,
            example,
            advice,
        } = self;
        match example {
            Some(example) => write!(f, "{number} {name}\n\n{meaning}\n{example}\n{advice}"),
            None => write!(f, "{number} {name}\n\n{meaning}\n{advice}"),
        }
    }
}
