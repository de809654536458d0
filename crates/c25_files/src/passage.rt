//! Lines that are read one after another, with those read since a mark.

ghost use Rattle.std.specs.Prelude.{List, ◌≡◌, ◌∷◌, ◌++◌, [], option_map, option_to_list, slice_get, IfNone};
ghost use Rattle.c25_meaning_expansion.specs.Rows.{Row};
ghost use Rattle.c25_files.specs.Passages.{IsRange, rows_in};

use crate::first::first_line;
use crate::rows::{Row, Rows};
use c25_meaning_common::placed::FileLine;
use std::marker::Model;

/// Lines of a file that are read one after another. Those read since the mark are kept as a part of the text,
/// so that a macro's body is collected without a copy.
#[derive(Drop)]
pub struct Passage<'a> {
    /// The text from the next line on.
    rest: &'a str,
    file: usize,
    /// The number of the next line.
    line: usize,
    /// How many lines are still to come.
    count: usize,
    /// The text from the mark on.
    begun: &'a str,
    /// How many lines were read since the mark.
    passed: usize,
}

impl<'a> Model for Passage<'a> {
    ghost use Rattle.std.specs.Prelude.{◌-◌};
    ghost use Rattle.c25_files.specs.Passages as passages;
    ghost use Rattle.c25_files.specs.Passages.{rows_in, IsPassage};

    ghost Value = { passages.Passage };

    ghost view = { λ p. record { passed = rows_in p.file (p.line - p.passed) p.passed p.begun.now; rest = rows_in p.file p.line p.count p.rest.now } };

    ghost invariant = { λ p. IsPassage p.line p.count p.passed p.begun.now p.rest.now };
}

impl<'a> Passage<'a> {
    /// The first `count` lines of a text, of which the first is line `line` of a file.
    pub(crate) fn new(text: &'a str, file: usize, line: usize, count: usize) -> Passage<'a>
        requires { IsRange line count text.now }
        ensures rest { result.rest ≡ rows_in file line count text.now }
        ensures passed { result.passed ≡ [] }
    {
        Passage {
            rest: text,
            file,
            line,
            count,
            begun: text,
            passed: 0,
        }
    }

    /// Takes the next line, if there is one.
    pub fn next(&mut self) -> Option<Row<'a>>
        ensures taken { self.old.rest ≡ option_to_list result ++ self.new.rest }
        ensures passed { self.new.passed ≡ self.old.passed ++ option_to_list result }
        ensures none { IfNone result (self.old.rest ≡ []) }
    {
        if self.count == 0 {
            return None;
        }
        let place = FileLine {
            file: self.file,
            line: self.line,
        };
        let (text, behind) = first_line(self.rest);
        self.rest = behind;
        self.line += 1;
        self.count -= 1;
        self.passed += 1;
        Some(Row::new(place, text))
    }

    /// The place of the next line, if there is one.
    pub fn next_place(&self) -> Option<FileLine<usize>>
        ensures { result ≡ option_map (λ row. row.place) (slice_get self.now.rest 0) }
    {
        if self.count == 0 {
            return None;
        }
        let file = self.file;
        let line = self.line;
        Some(FileLine { file, line })
    }

    /// Sets the mark before the next line.
    pub fn mark(&mut self)
        ensures passed { self.new.passed ≡ [] }
        ensures rest { self.new.rest ≡ self.old.rest }
    {
        self.begun = self.rest;
        self.passed = 0;
    }

    /// The lines read since the mark, without the last one; no lines where none was read.
    pub fn body(&self) -> Rows<'a>
        ensures { (body : List Row) → (last : Row) → self.now.passed ≡ body ++ last ∷ [] → result ≡ body }
    {
        let passed = self.passed;
        let line = self.line;
        if passed == 0 {
            return Rows::new(self.begun, self.file, line, 0);
        }
        Rows::new(self.begun, self.file, line - passed, passed - 1)
    }
}
