//! The macros that files define, before expansion.

ghost use Rattle.std.specs.Prelude.{◌≡◌, ◌++◌, IfOk, OnOk, map, option_map, option_to_list};
ghost use Rattle.std.specs.List.{flat_map};
ghost use Rattle.std.specs.Str.Lines.{lines};
ghost use Rattle.c25_outline.specs.Macros as meaning;

use c25_files::files::Files;
use c25_meaning_common::no_memory::NoMemory;
use c25_text::line::{first_word, label_in};
use std::alloc::{AllocError, Global};

/// The name of the macro that begins in a line, if one does.
pub(crate) fn macro_in(text: &str) -> Option<&str>
    ensures { option_map (λ n. n.now) result ≡ meaning.macro_in text.now }
{
    match (first_word(text), label_in(text)) {
        (Some(word), Ok(label)) if word.eq_ignore_ascii_case(".macro") => label,
        _ => None,
    }
}

/// Appends the name of the macro that begins in a line, if one does.
fn push_line<'a>(names: &mut Vec<&'a str>, text: &'a str) -> Result<(), NoMemory>
    ensures { OnOk result (map (λ n. n.now) names.new.items ≡ map (λ n. n.now) names.old.items ++ option_to_list (meaning.macro_in text.now)) }
{
    match macro_in(text) {
        Some(name) => names.push(name).map_err(NoMemory::from),
        None => Ok(()),
    }
}

/// The lines of a text.
fn lines_in(alloc: Global, text: &str) -> Result<Vec<&str>, AllocError>
    ensures { IfOk result (λ v. map (λ l. l.now) v.items ≡ lines text.now) }
{
    text.lines().collect(alloc)
}

/// Appends the names of the macros that begin in lines.
fn push_lines<'a>(names: &mut Vec<&'a str>, lines: &[&'a str]) -> Result<(), NoMemory>
    ensures { OnOk result (map (λ n. n.now) names.new.items ≡ map (λ n. n.now) names.old.items ++ flat_map (λ line. option_to_list (meaning.macro_in line)) (map (λ l. l.now) lines.now)) }
{
    for line in lines {
        push_line(names, line)?;
    }
    Ok(())
}

/// Appends the names of the macros that begin in the lines of a file.
#[tactic(auto, unfolding(crate::specs::Macros::macros_in_file))]
fn push_file<'a>(
    alloc: Global,
    names: &mut Vec<&'a str>,
    text: Option<&'a str>,
) -> Result<(), NoMemory>
    ensures { OnOk result (map (λ n. n.now) names.new.items ≡ map (λ n. n.now) names.old.items ++ meaning.macros_in_file (option_map (λ t. t.now) text.entry)) }
{
    match text {
        Some(text) => {
            let lines = lines_in(alloc, text)?;
            push_lines(names, lines.as_slice())
        }
        None => Ok(()),
    }
}

/// Appends the names of the macros that begin in lines of files.
fn push_files<'a>(alloc: Global, names: &mut Vec<&'a str>, files: &'a Files) -> Result<(), NoMemory>
    ensures { OnOk result (map (λ n. n.now) names.new.items ≡ map (λ n. n.now) names.old.items ++ meaning.macros_in_files files.now) }
{
    for number in 0..files.len() {
        push_file(alloc, names, files.text(files.name(number)))?;
    }
    Ok(())
}

/// The names of the macros that begin in lines of these files, in the order of the files, whether the lines are
/// assembled or not. `NoMemory` (9) where memory runs out.
pub fn macros_in_files<'a>(alloc: Global, files: &'a Files) -> Result<Vec<&'a str>, NoMemory>
    ensures { IfOk result (λ v. map (λ n. n.now) v.items ≡ meaning.macros_in_files files.now) }
{
    let mut names = Vec::new(alloc);
    push_files(alloc, &mut names, files)?;
    Ok(names)
}
