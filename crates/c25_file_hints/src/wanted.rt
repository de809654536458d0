//! What is wanted where a command file is refused, as far as one thing alone can stand there.

ghost use Rattle.std.specs.Option.{option_map};
ghost use Rattle.std.specs.Prelude.{◌≡◌, ◌++◌, IfOk, codes};
ghost use Rattle.c25_cmd.specs.Refused.{standing_data};
ghost use Rattle.c25_file_hints.specs.Wanted.{IsWantedAfter, IsWantedOn, could_stand, is_end, wanted_after, wanted_text};

use crate::command_files::text_before;
use c25_cmd::{RefusedAt, refused_at};
use c25_meaning_common::no_memory::NoMemory;
use std::alloc::Global;

/// What is wanted where a command file is refused.
#[derive(Clone, Copy, PartialEq, Debug)]
pub enum Wanted {
    /// The origin of a range.
    Origin,
    /// Its length.
    Length,
    /// The sign after `origin`, `length`, `run` or `load`.
    Equals,
}

impl Wanted {
    /// The sentence that says so.
    pub fn text(self) -> &'static str
        ensures { result.now ≡ wanted_text self }
    {
        match self {
            Wanted::Origin => "origin (or o, org) is wanted here",
            Wanted::Length => "length (or l, len) is wanted here",
            Wanted::Equals => "= is wanted here",
        }
    }
}

/// Whether a command is refused at the end of its text.
fn is_end(standing: Option<RefusedAt<'_>>) -> bool
    ensures { result ≡ is_end (option_map standing_data standing.entry) }
{
    match standing {
        Some(RefusedAt::End) => true,
        Some(RefusedAt::Word { .. } | RefusedAt::Character { .. }) | None => false,
    }
}

/// Whether these words could stand after a text: the text with them is refused at its end, not before.
fn could_stand(alloc: Global, before: &str, words: &str) -> Result<bool, NoMemory>
    ensures { IfOk result (λ could. could ≡ could_stand before.now words.now) }
{
    let text = format!(in alloc; "{before} {words}")?;
    let standing = refused_at(alloc, text.as_str())?;
    Ok(is_end(standing))
}

/// What is wanted after a text, if that is the origin or the length of a range or `=`.
fn wanted_after(alloc: Global, before: &str) -> Result<Option<Wanted>, NoMemory>
    ensures { IfOk result (λ wanted. wanted ≡ wanted_after before.now) }
{
    if could_stand(alloc, before, "o =")? {
        return Ok(Some(Wanted::Origin));
    }
    if could_stand(alloc, before, "l =")? {
        return Ok(Some(Wanted::Length));
    }
    if could_stand(alloc, before, "=")? {
        return Ok(Some(Wanted::Equals));
    }
    Ok(None)
}

/// The same of the bytes of a text; `None` where they are not UTF-8.
fn wanted_after_bytes(alloc: Global, before: &[u8]) -> Result<Option<Wanted>, NoMemory>
    ensures { IfOk result (λ wanted. IsWantedAfter before.now wanted) }
{
    match str::from_utf8(before) {
        Ok(before) => wanted_after(alloc, before),
        Err(_) => Ok(None),
    }
}

/// What is wanted where the text of a command file is refused: in this line, where `c25_cmd::refused_at` says what
/// stands there. `None` where neither the origin nor the length of a range nor `=` is wanted there. `NoMemory` where
/// memory runs out.
pub fn wanted_hint(
    alloc: Global,
    text: &str,
    line: usize,
    standing: RefusedAt<'_>,
) -> Result<Option<Wanted>, NoMemory>
    ensures { IfOk result (λ wanted. IsWantedOn text.now line (standing_data standing.entry) wanted) }
{
    let text = text.as_bytes();
    match standing {
        RefusedAt::Word { column, .. } | RefusedAt::Character { column, .. } => {
            wanted_after_bytes(alloc, text_before(text, line, column))
        }
        RefusedAt::End => Ok(None),
    }
}
