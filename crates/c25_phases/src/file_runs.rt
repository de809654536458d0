//! Building lists of lines of files. `SourceLines`, the type of these methods, is in
//! `source_lines.rt`.

ghost use Rattle.std.specs.Prelude.{◌≡◌, ◌++◌, ◌∷◌, [], OnOk};
ghost use Rattle.c25_phases.specs.SourceLines.{TurnsTo, origins_of};

use crate::source_lines::{FileRun, SourceLines};
use c25_meaning_common::no_memory::NoMemory;
use std::alloc::Global;

impl<'a> SourceLines<'a> {
    /// An empty list of lines.
    pub(crate) fn new(alloc: Global) -> Self
        ensures { origins_of result ≡ [] }
    {
        SourceLines {
            runs: Vec::new(alloc),
            before: 0,
            file: "",
            numbers: Vec::new(alloc),
        }
    }

    /// Makes a file the one whose lines come next.
    fn turn_to(&mut self, file: &'a str) -> Result<(), NoMemory>
        ensures { OnOk result (TurnsTo self.old self.new file.entry.now) }
    {
        if self.file == file {
            return Ok(());
        }
        let count = self.numbers.len() - self.before;
        self.runs.push(FileRun {
            file: self.file,
            count,
        })?;
        self.before = self.numbers.len();
        self.file = file;
        Ok(())
    }

    /// Appends a line, by its file's name and its number there.
    pub(crate) fn push(&mut self, file: &'a str, line: u32) -> Result<(), NoMemory>
        ensures { OnOk result (origins_of self.new ≡ origins_of self.old ++ record { file = file.entry.now; line = line } ∷ []) }
    {
        self.turn_to(file)?;
        self.numbers.push(line)?;
        Ok(())
    }
}
