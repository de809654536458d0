//! The parts of a warning's page.

use std::fmt;

/// What a warning means and what to do. Each text is lines of at most 100 columns, and the last line has its line
/// feed too; the summary is one line without it.
#[derive(Clone, Copy)]
pub struct Page {
    /// The name shown to the user.
    pub name: &'static str,
    /// The first sentence of what the warning means, in one line.
    pub summary: &'static str,
    /// What the warning means.
    pub meaning: &'static str,
    /// The smallest example, with the line that is printed for it.
    pub example: &'static str,
    /// What to do.
    pub advice: &'static str,
}

impl fmt::Display for Page {
    ghost use Rattle.std.specs.Prelude.{Some};
    ghost use Rattle.c25_warning_pages.specs.Pages.{whole_text};

    ghost output = { λ page. Some (whole_text page) };

    /// The whole page: name, meaning, example and advice, with an empty line between them.
    fn fmt<W: fmt::Write>(&self, f: &mut fmt::Formatter<W>) -> fmt::Result {
        let Page {
            name,
            meaning,
            example,
            advice,
            ..
        } = self;
        write!(f, "{name}\n\n{meaning}\n{example}\n{advice}")
    }
}
