//! The files and lines of a module's marks, as its records have them.

ghost use Rattle.std.specs.Prelude.{◌≡◌, ◌≤◌, ◌<◌, true, length, map, OnOk, IfOk};
ghost use Rattle.std.specs.List.{fold, position_or_len};
ghost use Rattle.std.specs.Str.{bytes_eq};
ghost use Rattle.c25_meaning_assembly.specs.Sections.{once};
ghost use Rattle.c25_meaning_assembly.specs.Emission.{no_lines, with_line};
ghost use Rattle.c25_phases.specs.Lined.{IsAt, IsLined};
ghost use Rattle.c25_phases.specs.Runs.{lines_of};
ghost use Rattle.c25_phases.specs.SourceLines.{origins_of};

use crate::names::copied;
use crate::source_lines::SourceLines;
use c25_meaning_common::no_memory::NoMemory;
use c25_meaning_objects::object::LineMark;
use indexmap::IndexSet;
use std::alloc::Global;
use std::marker::Model;
use std::mem;

/// Files in the order of their first use, and lines with the numbers of their files.
#[derive(Drop)]
pub(crate) struct Lines<'a> {
    alloc: Global,
    files: IndexSet<&'a str>,
    /// The number of the last line's file, so that most lines need no look-up of their file.
    recent: usize,
    lines: Vec<LineMark>,
}

/// Whether the file of a number has this name.
fn is_at(files: &IndexSet<&str>, number: usize, file: &str) -> bool
    ensures { result ≡ true → IsAt (map (λ f. f.now) files.now.keys) number file.now }
{
    match files.as_slice().get(number) {
        Some(other) => file == *other,
        None => false,
    }
}

impl<'a> Model for Lines<'a> {
    ghost use Rattle.std.specs.Prelude.{map};
    ghost use Rattle.c25_meaning_assembly.specs.Emission.{Lines};

    ghost Value = { Lines };

    ghost view = { λ l. record { files = map (λ f. f.now) l.files.keys; lines = l.lines.items } };
}

impl<'a> Lines<'a> {
    /// The lists before the first mark.
    pub(crate) fn new(alloc: Global) -> Self
        ensures { result ≡ no_lines }
    {
        Lines {
            alloc,
            files: IndexSet::new(alloc),
            recent: 0,
            lines: Vec::new(alloc),
        }
    }

    /// The number of a file; a new file gets the next number.
    fn number_of(&mut self, file: &'a str) -> Result<usize, NoMemory>
        requires { length (once self.old.files file.now) ≤ 65535 }
        ensures number { IfOk result (λ n. n ≡ position_or_len (bytes_eq file.now) self.old.files) }
        ensures small { IfOk result (λ n. n < 65536) }
        ensures files { OnOk result (self.new ≡ record self.old { files = once self.old.files file.now }) }
    {
        if is_at(&self.files, self.recent, file) {
            return Ok(self.recent);
        }
        let (number, _) = self.files.insert_full(file)?;
        self.recent = number;
        Ok(number)
    }

    /// Adds the line of one mark more.
    fn add(&mut self, file: &'a str, line: u32) -> Result<(), NoMemory>
        requires { length (with_line self.old (record { file = file.now; line = line })).files ≤ 65535 }
        ensures { OnOk result (self.new ≡ with_line self.old (record { file = file.entry.now; line = line })) }
    {
        let number = self.number_of(file)?;
        let mark = LineMark {
            file: number as u16,
            line,
        };
        self.lines.push(mark).map_err(NoMemory::from)
    }

    /// Adds lines of one file, by their numbers.
    fn add_run(&mut self, file: &'a str, numbers: &[u32]) -> Result<(), NoMemory>
        requires { length (fold with_line self.old (lines_of file.now numbers.now)).files ≤ 65535 }
        ensures { OnOk result (self.new ≡ fold with_line self.old (lines_of file.entry.now numbers.now)) }
    {
        for number in numbers {
            self.add(file, *number)?;
        }
        Ok(())
    }

    /// Adds the lines of the marks of a section.
    pub(crate) fn add_all(&mut self, lines: &SourceLines<'a>) -> Result<(), NoMemory>
        requires { length (fold with_line self.old (origins_of lines.now)).files ≤ 65535 }
        ensures { OnOk result (self.new ≡ fold with_line self.old (origins_of lines.now)) }
    {
        let mut rest = lines.numbers.as_slice();
        for run in &lines.runs {
            let (numbers, after) = rest.split_at(run.count);
            self.add_run(run.file, numbers)?;
            rest = after;
        }
        self.add_run(lines.file, rest)
    }

    /// The names of the files, and the lines with the numbers of their files, for the module.
    pub(crate) fn into_parts(self) -> Result<(Vec<String>, Vec<LineMark>), NoMemory>
        ensures { IfOk result (λ p. IsLined self.entry p.0.items p.1.items) }
    {
        let Lines {
            alloc,
            files,
            recent: _,
            lines,
        } = self;
        let names = copied(alloc, files.as_slice());
        // The set borrows the sources' names, which the module has copies of.
        mem::drop(files);
        match names {
            Ok(names) => Ok((names, lines)),
            Err(error) => Err(error),
        }
    }
}
