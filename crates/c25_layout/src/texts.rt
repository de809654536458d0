//! The two texts of parts: a source and a command file.

ghost use Rattle.std.specs.Prelude.{◌≡◌, ◌++◌, IfOk, OnOk, codes, string_bytes};
ghost use Rattle.std.specs.List.{flat_map};
ghost use Rattle.c25_layout.specs.SourceText.{command_text, load_text, part_text, place_line, row_text, run_at_text, run_text, section_text, source_text};

use crate::layout::{Part, Row};
use crate::row_text::{push_constant, push_row};
use c25_meaning_common::no_memory::NoMemory;
use c25_texts::appending::{push_four, push_text};
use std::alloc::Global;

/// Appends the line with which the section of a part at an address begins.
fn push_section(text: &mut String, address: u16) -> Result<(), NoMemory>
    ensures { OnOk result (string_bytes text.new ≡ string_bytes text.old ++ section_text address) }
{
    push_text(text, "\t.sect \"p")?;
    push_four(text, address)?;
    push_text(text, "\"\n")
}

/// Appends the lines of rows.
fn push_rows(alloc: Global, text: &mut String, rows: &[Row]) -> Result<(), NoMemory>
    ensures { OnOk result (string_bytes text.new ≡ string_bytes text.old ++ flat_map row_text rows.now) }
{
    for row in rows {
        push_row(alloc, text, row)?;
    }
    Ok(())
}

/// Appends the lines of a part.
fn push_part(alloc: Global, text: &mut String, part: &Part) -> Result<(), NoMemory>
    ensures { OnOk result (string_bytes text.new ≡ string_bytes text.old ++ part_text part.now) }
{
    push_section(text, part.address)?;
    push_rows(alloc, text, &part.rows)
}

/// Appends the lines of parts.
fn push_parts(alloc: Global, text: &mut String, parts: &[Part]) -> Result<(), NoMemory>
    ensures { OnOk result (string_bytes text.new ≡ string_bytes text.old ++ flat_map part_text parts.now) }
{
    for part in parts {
        push_part(alloc, text, part)?;
    }
    Ok(())
}

/// The source of parts: a section for each, named by its address, and a line for each row.
///
/// `NoMemory` where memory runs out.
pub fn source_text(alloc: Global, parts: &[Part]) -> Result<String, NoMemory>
    ensures { IfOk result (λ text. string_bytes text ≡ source_text parts.now) }
{
    let mut text = String::new(alloc);
    push_parts(alloc, &mut text, parts)?;
    Ok(text)
}

/// Appends the name of the section of a part at an address, and where it is loaded.
fn push_load(text: &mut String, address: u16) -> Result<(), NoMemory>
    ensures { OnOk result (string_bytes text.new ≡ string_bytes text.old ++ load_text address) }
{
    push_text(text, "  p")?;
    push_four(text, address)?;
    push_text(text, " : load = ")?;
    push_constant(text, address)?;
    push_text(text, " PAGE 0")
}

/// Appends where a section runs.
fn push_run_at(text: &mut String, run: u16) -> Result<(), NoMemory>
    ensures { OnOk result (string_bytes text.new ≡ string_bytes text.old ++ run_at_text run) }
{
    push_text(text, ", run = ")?;
    push_constant(text, run)
}

/// Appends where a section runs, if that is not where it is loaded.
fn push_run(text: &mut String, run: Option<u16>) -> Result<(), NoMemory>
    ensures { OnOk result (string_bytes text.new ≡ string_bytes text.old ++ run_text run) }
{
    match run {
        None => Ok(()),
        Some(run) => push_run_at(text, run),
    }
}

/// Appends the line of a part's section in the command file.
fn push_place(text: &mut String, part: &Part) -> Result<(), NoMemory>
    ensures { OnOk result (string_bytes text.new ≡ string_bytes text.old ++ place_line part.now) }
{
    push_load(text, part.address)?;
    push_run(text, part.run)?;
    push_text(text, "\n")
}

/// Appends the lines of parts' sections in the command file.
fn push_places(text: &mut String, parts: &[Part]) -> Result<(), NoMemory>
    ensures { OnOk result (string_bytes text.new ≡ string_bytes text.old ++ flat_map place_line parts.now) }
{
    for part in parts {
        push_place(text, part)?;
    }
    Ok(())
}

/// The command file of parts: each section is loaded at its part's address, and runs there or where its part
/// says.
///
/// `NoMemory` where memory runs out.
pub fn command_text(alloc: Global, parts: &[Part]) -> Result<String, NoMemory>
    ensures { IfOk result (λ text. string_bytes text ≡ command_text parts.now) }
{
    let mut text = String::new(alloc);
    push_text(&mut text, "SECTIONS\n{\n")?;
    push_places(&mut text, parts)?;
    push_text(&mut text, "}\n")?;
    Ok(text)
}
