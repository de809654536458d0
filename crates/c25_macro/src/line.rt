//! Lines that expansion gives.

ghost use Rattle.std.specs.Prelude.{◌≡◌};
ghost use Rattle.std.specs.Cow.{cow_str_bytes};

use c25_meaning_common::placed::FileLine;
use std::borrow::CowStr;
use std::marker::Model;

/// A line after substitution, or a label that becomes a line: its place, and its text without its end, which
/// is borrowed from the file's text where nothing was replaced.
#[derive(Drop)]
pub(crate) struct Line<'a> {
    place: FileLine<usize>,
    text: CowStr<'a>,
}

impl<'a> Model for Line<'a> {
    ghost use Rattle.std.specs.Cow.{cow_str_bytes};
    ghost use Rattle.c25_meaning_expansion.specs.Rows.{Row};

    ghost Value = { Row };

    ghost view = { λ line. record { place = line.place; text = cow_str_bytes line.text } };
}

impl<'a> Line<'a> {
    pub(crate) fn new(place: FileLine<usize>, text: CowStr<'a>) -> Line<'a>
        ensures { result ≡ record { place = place; text = cow_str_bytes text.entry } }
    {
        Line { place, text }
    }

    pub(crate) fn place(&self) -> FileLine<usize>
        ensures { result ≡ self.now.place }
    {
        self.place
    }

    pub(crate) fn text(&self) -> &str
        ensures { result.now ≡ self.now.text }
    {
        self.text.as_str()
    }

    /// The text of the line alone.
    pub(crate) fn into_text(self) -> CowStr<'a>
        ensures { cow_str_bytes result ≡ self.entry.text }
    {
        self.text
    }
}
