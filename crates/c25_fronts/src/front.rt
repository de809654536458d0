//! Fronts: texts that define symbols and then copy a source.

ghost use Rattle.std.specs.Prelude.{◌≡◌, ◌++◌, IfOk, OnOk, map, string_bytes};
ghost use Rattle.std.specs.List.{flat_map};
ghost use Rattle.c25_fronts.specs.Fronts.{entry_of, front, front_name, fronts, set_line, set_lines};

use crate::definition::{Definition, definition_of};
use c25_meaning_common::no_memory::NoMemory;
use c25_texts::appending::push_texts;
use std::alloc::Global;

/// The text that stands for a source on a disk, and the name under which it stands there.
#[derive(Drop)]
pub struct Front {
    pub name: String,
    pub text: String,
}

/// Appends the line that defines the symbol of `NAME=VALUE`, or of `NAME` alone.
fn push_set_line(text: &mut String, definition: &str) -> Result<(), NoMemory>
    ensures { OnOk result (string_bytes text.new ≡ string_bytes text.old ++ set_line definition.now) }
{
    let Definition { name, value } = definition_of(definition);
    push_texts(text, &[name, " .set ", value, "\n"])
}

/// Appends a line for each definition.
fn push_set_lines(text: &mut String, definitions: &[&str]) -> Result<(), NoMemory>
    ensures { OnOk result (string_bytes text.new ≡ string_bytes text.old ++ set_lines (map (λ definition. definition.now) definitions.now)) }
{
    for definition in definitions {
        push_set_line(text, definition)?;
    }
    Ok(())
}

/// The text of a front: the definitions, and then the source.
fn front_text(alloc: Global, definitions: &[&str], source: &str) -> Result<String, NoMemory>
    ensures { IfOk result (λ text. string_bytes text ≡ front (map (λ definition. definition.now) definitions.now) source.now) }
{
    let mut text = String::new(alloc);
    push_set_lines(&mut text, definitions)?;
    push_texts(&mut text, &[" .copy \"", source, "\"\n"])?;
    Ok(text)
}

/// The name under which the front of a source stands on a disk.
pub fn front_name(alloc: Global, source: &str) -> Result<String, NoMemory>
    ensures { IfOk result (λ name. string_bytes name ≡ front_name source.now) }
{
    let mut name = String::new(alloc);
    push_texts(&mut name, &["-D ", source])?;
    Ok(name)
}

/// The front of a source.
fn front_of(alloc: Global, definitions: &[&str], source: &str) -> Result<Front, NoMemory>
    ensures { IfOk result (λ made. entry_of made ≡ (front_name source.now, front (map (λ definition. definition.now) definitions.now) source.now)) }
{
    let name = front_name(alloc, source)?;
    let text = front_text(alloc, definitions, source)?;
    Ok(Front { name, text })
}

/// The fronts of sources, in their order.
pub fn fronts_of(
    alloc: Global,
    definitions: &[&str],
    sources: &[&str],
) -> Result<Vec<Front>, NoMemory>
    ensures { IfOk result (λ made. map entry_of made.items ≡ fronts (map (λ definition. definition.now) definitions.now) (map (λ source. source.now) sources.now)) }
{
    let mut made = Vec::new(alloc);
    for source in sources {
        made.push(front_of(alloc, definitions, source)?)?;
    }
    Ok(made)
}
