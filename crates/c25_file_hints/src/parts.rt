//! The lines of the parts of a command file that come once.

ghost use Rattle.std.specs.Prelude.{◌≡◌, ◌++◌, IfOk};
ghost use Rattle.c25_file_hints.specs.Parts.{front_of, part_line, twice_at};

use c25_cmd::read_command;
use c25_meaning_common::failure::Failure;
use c25_meaning_common::no_memory::NoMemory;
use c25_meaning_linking::command_fault::CommandFault;
use std::alloc::Global;

/// A part of a command file that comes once.
#[derive(Clone, Copy, PartialEq, Debug)]
pub enum Part {
    /// `-e NAME`.
    Entry,
    Memory,
    Sections,
}

impl Part {
    /// The shortest text of the part, with a blank after it.
    fn front(self) -> &'static str
        ensures { result.now ≡ front_of self }
    {
        match self {
            Part::Entry => "-e X ",
            Part::Memory => "MEMORY { } ",
            Part::Sections => "SECTIONS { } ",
        }
    }
}

/// The line of a fault, where it is that a part comes twice.
fn twice_at(fault: CommandFault, line: usize) -> Option<usize>
    ensures { result ≡ twice_at fault line }
{
    match fault {
        CommandFault::Twice => Some(line),
        CommandFault::Syntax | CommandFault::RangeOverlap | CommandFault::RangeSize => None,
    }
}

/// The line in which this part of a command file begins, counted from 1: with another one in front of the text it
/// is refused there, as the second. `None` where the text has no such part. `NoMemory` where memory runs out.
pub fn part_line(alloc: Global, text: &str, part: Part) -> Result<Option<usize>, NoMemory>
    ensures { IfOk result (λ line. line ≡ part_line text.now part) }
{
    let front = part.front();
    let doubled = format!(in alloc; "{front}{text}")?;
    match read_command(alloc, doubled.as_str()) {
        Ok(_) => Ok(None),
        Err(Failure::NoMemory(error)) => Err(error),
        Err(Failure::Fault(first)) => Ok(twice_at(first.fault, first.place)),
    }
}
