//! Lines of a file, each with its place.

ghost use Rattle.std.specs.Prelude.{◌≡◌, [], length, ◌≤◌};
ghost use Rattle.std.specs.Str.Lines.{lines};
ghost use Rattle.c25_meaning_expansion.specs.Rows.{is_empty, last_place, rows_of};
ghost use Rattle.c25_files.specs.Passages.{IsRange, rows_in};

use crate::passage::Passage;
use c25_meaning_common::placed::FileLine;
use std::marker::Model;

/// A line of a file: its place, and its text without its end.
#[derive(Drop)]
pub struct Row<'a> {
    place: FileLine<usize>,
    text: &'a str,
}

impl<'a> Model for Row<'a> {
    ghost use Rattle.c25_meaning_expansion.specs.Rows.{Row};

    ghost Value = { Row };

    ghost view = { λ row. record { place = row.place; text = row.text.now } };
}

impl<'a> Row<'a> {
    pub(crate) fn new(place: FileLine<usize>, text: &'a str) -> Row<'a>
        ensures { result ≡ record { place = place; text = text.now } }
    {
        Row { place, text }
    }

    /// The place of the line.
    pub fn place(&self) -> FileLine<usize>
        ensures { result ≡ self.now.place }
    {
        self.place
    }

    /// The text of the line, borrowed from that of the file.
    pub fn text(&self) -> &'a str
        ensures { result.now ≡ self.now.text }
    {
        self.text
    }
}

/// Lines of a file, in order: the first `count` lines of a text.
#[derive(Drop)]
pub struct Rows<'a> {
    text: &'a str,
    file: usize,
    /// The number of the first of these lines in the file.
    line: usize,
    count: usize,
}

impl<'a> Model for Rows<'a> {
    ghost use Rattle.std.specs.Prelude.{List};
    ghost use Rattle.c25_meaning_expansion.specs.Rows.{Row};
    ghost use Rattle.c25_files.specs.Passages.{IsRange, rows_in};

    ghost Value = { List Row };

    ghost view = { λ r. rows_in r.file r.line r.count r.text.now };

    ghost invariant = { λ r. IsRange r.line r.count r.text.now };
}

impl<'a> Rows<'a> {
    /// The first `count` lines of a text, of which the first is line `line` of a file.
    pub(crate) fn new(text: &'a str, file: usize, line: usize, count: usize) -> Rows<'a>
        requires { IsRange line count text.now }
        ensures { result ≡ rows_in file line count text.now }
    {
        Rows {
            text,
            file,
            line,
            count,
        }
    }

    /// All lines of a file with this text, of which there are `count`.
    pub fn of_file(file: usize, text: &'a str, count: usize) -> Rows<'a>
        requires counted { count ≡ length (lines text.now) }
        requires few { count ≤ length text.now }
        ensures { result ≡ rows_of file text.now }
    {
        Rows {
            text,
            file,
            line: 1,
            count,
        }
    }

    /// No lines.
    pub fn none() -> Rows<'a>
        ensures { result ≡ [] }
    {
        Rows {
            text: "",
            file: 0,
            line: 0,
            count: 0,
        }
    }

    /// A second list of these lines. The text is not copied.
    pub fn copy(&self) -> Rows<'a>
        ensures { result ≡ self.now }
    {
        Rows {
            text: self.text,
            file: self.file,
            line: self.line,
            count: self.count,
        }
    }

    /// Makes a passage of the lines, which are then read one after another.
    pub fn into_passage(self) -> Passage<'a>
        ensures rest { result.rest ≡ self.entry }
        ensures passed { result.passed ≡ [] }
    {
        Passage::new(self.text, self.file, self.line, self.count)
    }

    /// Whether there are no lines.
    pub fn is_empty(&self) -> bool
        ensures { result ≡ is_empty self.now }
    {
        self.count == 0
    }

    /// The place of the last line, or `place` where there are no lines.
    pub fn last_place(&self, place: FileLine<usize>) -> FileLine<usize>
        ensures { result ≡ last_place place self.now }
    {
        if self.count == 0 {
            place
        } else {
            FileLine {
                file: self.file,
                line: self.line + (self.count - 1),
            }
        }
    }
}
