//! The text of a module.

ghost use Rattle.std.specs.Prelude.{IfOk, string_bytes};
ghost use Rattle.c25_dis.specs.Sections.{IsModuleText};

use crate::section::push_section;
use c25_meaning_common::no_memory::NoMemory;
use c25_module::Module;
use std::alloc::Global;

/// The text of an object module: for each section, in the order of the module, a line with its name and
/// whether it is initialised or how many words it reserves, and then for each of its places in order, also
/// after the last, a line `0004 NAME:` for each symbol that stands there, and one for the word there. Where a
/// mark says that an instruction starts, that line has its address in the section, its one or two words, and
/// the instruction as the assembler reads it; else, and where the words are not an instruction's, it has them
/// as data: `.word 05541h`. After that, and after `  ; `, it has what linking fills into each word: a name,
/// and an addend with its sign if it is not 0. Addresses and words are hexadecimal. Symbols with a value
/// outside their section, absolute and external ones have no line.
///
/// `NoMemory` where memory runs out.
pub fn disassemble_module(alloc: Global, object: &Module) -> Result<String, NoMemory>
    ensures { IfOk result (λ text. IsModuleText object.now (string_bytes text)) }
{
    let parts = object.parts();
    let mut text = String::new(alloc);
    for (number, section) in parts.sections.iter().enumerate() {
        push_section(alloc, &mut text, parts, number, section)?;
    }
    Ok(text)
}
