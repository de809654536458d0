//! The lines of notes as they are shown of sources with fronts.

ghost use Rattle.std.specs.Prelude.{◌≡◌, ◌++◌, IfOk, OnOk, map, string_bytes};
ghost use Rattle.std.specs.List.{flat_map, list_any};
ghost use Rattle.std.specs.Str.Lines.{lines};
ghost use Rattle.c25_options.specs.Task.{texts_of};
ghost use Rattle.c25_source_notes.specs.Lines.{is_of_module, says_front, shown_line, shown_text, unfronted};

use c25_meaning_common::no_memory::NoMemory;
use c25_texts::appending::push_texts;
use std::alloc::{AllocError, Global};

/// Whether a line says that a front copies its source.
fn says_front(line: &str) -> bool
    ensures { result ≡ says_front line.now }
{
    line.as_bytes().starts_with(b"  from -D ")
}

/// Whether what follows `-D ` in a line is what the module of this source is said to do.
fn is_of_module(rest: &[u8], source: &str) -> bool
    ensures { result ≡ is_of_module rest.now source.now }
{
    let name = source.as_bytes();
    rest.starts_with(name) && rest[name.len()..].starts_with(b": module ")
}

/// Whether it is what the module of one of these sources is said to do.
fn is_of_one(rest: &[u8], sources: &[&str]) -> bool
    ensures { result ≡ list_any (is_of_module rest.now) (texts_of sources.now) }
{
    for source in sources {
        if is_of_module(rest, source) {
            return true;
        }
    }
    false
}

/// A line, of which `-D ` in front of the name of a source is left out where the line says what its module does.
#[tactic(auto, using(std::proofs::lemmas::Str::Pattern::split_once_first))]
fn unfronted<'a>(line: &'a str, sources: &[&str]) -> &'a str
    ensures { result.now ≡ unfronted (texts_of sources.now) line.entry.now }
{
    match line.split_once(' ') {
        Some((first, rest)) => {
            if first == "-D" && is_of_one(rest.as_bytes(), sources) {
                rest
            } else {
                line
            }
        }
        None => line,
    }
}

/// Appends a line as it is shown: nothing of one that says that a front copies its source.
fn push_line(text: &mut String, line: &str, sources: &[&str]) -> Result<(), NoMemory>
    ensures { OnOk result (string_bytes text.new ≡ string_bytes text.old ++ shown_line (texts_of sources.now) line.now) }
{
    if says_front(line) {
        return push_texts(text, &[]);
    }
    push_texts(text, &[unfronted(line, sources), "\n"])
}

/// The lines of a text.
fn lines_of(alloc: Global, text: &str) -> Result<Vec<&str>, AllocError>
    ensures { IfOk result (λ v. map (λ line. line.now) v.items ≡ lines text.now) }
{
    text.lines().collect(alloc)
}

/// Lines as they are shown.
fn joined(alloc: Global, lines: &[&str], sources: &[&str]) -> Result<String, NoMemory>
    ensures { IfOk result (λ text. string_bytes text ≡ flat_map (shown_line (texts_of sources.now)) (map (λ line. line.now) lines.now)) }
{
    let mut text = String::new(alloc);
    for line in lines {
        push_line(&mut text, line, sources)?;
    }
    Ok(text)
}

/// The lines of the note of fronts of these sources as they are shown.
pub(crate) fn shown_text(alloc: Global, text: &str, sources: &[&str]) -> Result<String, NoMemory>
    ensures { IfOk result (λ shown. string_bytes shown ≡ shown_text (texts_of sources.now) text.now) }
{
    let lines = lines_of(alloc, text)?;
    joined(alloc, lines.as_slice(), sources)
}
