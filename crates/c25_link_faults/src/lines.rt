//! The lines of instructions, in modules that have them.

ghost use Rattle.std.specs.List.{slice_get};
ghost use Rattle.std.specs.Option.{option_map};
ghost use Rattle.std.specs.Prelude.{◌≡◌};
ghost use Rattle.c25_link.specs.Misfits.{has_word, line_in, line_of};
ghost use Rattle.c25_module.specs.View.{contents};
ghost use Rattle.c25_link_faults.specs.Sites.{is_wanted, wanted_line};

use c25_meaning_common::placed::FileLine;
use c25_meaning_objects::object::{LineMark, ModuleMark, Relocation};
use c25_module::Parts;

/// Which instruction of a module is looked for.
#[derive(Clone, Copy)]
pub(crate) enum Wanted {
    /// The one that has the word of this relocation.
    WordOf(Relocation),
    /// The one that stands in a section at an offset.
    At { section: u16, offset: i32 },
}

/// Whether the word of a relocation belongs to the instruction of a mark.
fn has_word(relocation: &Relocation, mark: &ModuleMark) -> bool
    ensures { result ≡ has_word relocation.now mark.now }
{
    let first = u32::from(mark.offset);
    let word = u32::from(relocation.offset);
    mark.section == relocation.section && first <= word && word < first + u32::from(mark.size)
}

/// Whether an instruction is the one that is looked for.
fn is_wanted(wanted: &Wanted, mark: &ModuleMark) -> bool
    ensures { result ≡ is_wanted wanted.now mark.now }
{
    match wanted {
        Wanted::WordOf(relocation) => has_word(relocation, mark),
        Wanted::At { section, offset } => {
            mark.section == *section && i32::from(mark.offset) == *offset
        }
    }
}

/// A line of a file, by the line's record in its module.
fn source_line<'a>(owner: &'a Parts, told: &LineMark) -> FileLine<&'a str>
    ensures { line_of result ≡ line_in (contents owner.now) told.now }
{
    let file = match owner.files.get(usize::from(told.file)) {
        Some(name) => name.as_str(),
        None => "",
    };
    FileLine {
        file,
        line: told.line as usize,
    }
}

/// The line of a number among a module's lines, if there is one.
fn line_at(owner: &Parts, index: usize) -> Option<FileLine<&str>>
    ensures { option_map line_of result ≡ option_map (line_in (contents owner.now)) (slice_get (contents owner.now).lines index) }
{
    match owner.lines.get(index) {
        Some(told) => Some(source_line(owner, told)),
        None => None,
    }
}

/// The line of the instruction that is looked for, if the module has that instruction and its line.
pub(crate) fn wanted_line<'a>(owner: &'a Parts, wanted: &Wanted) -> Option<FileLine<&'a str>>
    ensures { option_map line_of result ≡ wanted_line (contents owner.now) wanted.now }
{
    for (index, mark) in owner.marks.iter().enumerate() {
        if is_wanted(wanted, mark) {
            return line_at(owner, index);
        }
    }
    None
}
