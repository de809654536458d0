//! The hints of a text.

ghost use Rattle.std.specs.Prelude.{◌≡◌, [], ◌∷◌, ◌++◌, IfOk, Some, None, if◌then◌else◌, map, option_map};
ghost use Rattle.std.specs.Str.Lines.{lines};
ghost use Rattle.c25_layout.specs.Hints.{fitting, hint_data, hint_of, hints_of, without_comment};
ghost use Rattle.c25_meaning_common.specs.Items.{items, line_words, with_line};
ghost use Rattle.c25_meaning_common.specs.Results.{MeetsBy};

use crate::fitting::fits;
use crate::hint::{BadHint, Hint};
use crate::hint_line::hint_said;
use c25_meaning_common::bytes::is_blank;
use c25_meaning_common::failure::Failure;
use c25_meaning_common::no_memory::NoMemory;
use c25_meaning_common::placed::Placed;
use std::alloc::{AllocError, Global};

/// The lines of a text.
fn lines_of(alloc: Global, text: &str) -> Result<Vec<&str>, AllocError>
    ensures { IfOk result (λ v. map (λ l. l.now) v.items ≡ lines text.now) }
{
    text.lines().collect(alloc)
}

/// A line up to its comment.
fn without_comment(line: &str) -> &str
    ensures { result.now ≡ without_comment line.now }
{
    match line.split_once(';') {
        None => line,
        Some((front, _)) => front,
    }
}

/// The fields of a line: what its blanks and tabs part.
fn fields_of(alloc: Global, line: &[u8]) -> Result<Vec<&[u8]>, AllocError>
    ensures { IfOk result (λ v. map (λ w. w.now) v.items ≡ line_words line.now) }
{
    line.split(|b| is_blank(*b))
        .filter(|word| word.len() != 0)
        .collect(alloc)
}

/// Adds a hint, and returns true, if it goes together with those before it.
fn add_fitting(hints: &mut Vec<Hint<String>>, hint: Hint<String>) -> Result<bool, NoMemory>
    ensures { IfOk result (λ fine. option_map (λ a. map hint_data hints.old.items ++ a ∷ []) (fitting (map hint_data hints.old.items) (hint_data hint))
        ≡ (if fine then Some (map hint_data hints.new.items) else None)) }
{
    if !fits(hints.as_slice(), &hint) {
        return Ok(false);
    }
    hints.push(hint)?;
    Ok(true)
}

/// Adds the hint of a line; a line without fields adds none. False where the line has fields and is no hint, or one that
/// does not go together with those before it.
fn add_line(alloc: Global, hints: &mut Vec<Hint<String>>, line: &str) -> Result<bool, NoMemory>
    ensures { IfOk result (λ fine. with_line hint_of (map hint_data hints.old.items) (line_words line.now)
        ≡ (if fine then Some (map hint_data hints.new.items) else None)) }
{
    let fields = fields_of(alloc, line.as_bytes())?;
    if fields.len() == 0 {
        return Ok(true);
    }
    match hint_said(alloc, fields.as_slice())? {
        None => Ok(false),
        Some(hint) => add_fitting(hints, hint),
    }
}

/// The hints of lines, or the first line that is no hint, counted from 1.
fn hints_in(
    alloc: Global,
    lines: &[&str],
) -> Result<Vec<Hint<String>>, Failure<Placed<usize, BadHint>>>
    ensures { MeetsBy (λ f. f.place) (λ v. map hint_data v.items) (items hint_of [] 1 (map (λ l. without_comment l.now) lines.now)) result }
{
    let mut hints = Vec::new(alloc);
    for (index, line) in lines.iter().enumerate() {
        let fine = add_line(alloc, &mut hints, without_comment(line))?;
        if !fine {
            return Err(Failure::Fault(Placed {
                place: index + 1,
                fault: BadHint,
            }));
        }
    }
    Ok(hints)
}

/// The hints of a text, one on each line that has more than a comment. `BadHint` comes with the first line
/// that is no hint or does not go together with those before it, counted from 1, and `NoMemory` where memory runs out.
///
/// A comment begins with `;`, numbers are hexadecimal, words are in upper or lower case: `code A`, `data A
/// N`, `table A N` or `table A N STEP`, `label A NAME`, `ref A`, `noref A`, `run A N R`, `noreturn A`. All
/// words that a hint speaks of must lie in the memory, and those of `run` in block B0 where they run. A name of `label` has
/// at most 128 bytes, is no register's and no port's, and is that of one address; of two names of one address the later
/// one counts. Two hints `run` have no word in common where they are loaded or run, unless they say the same of it.
pub fn read_hints(
    alloc: Global,
    text: &str,
) -> Result<Vec<Hint<String>>, Failure<Placed<usize, BadHint>>>
    ensures { MeetsBy (λ f. f.place) (λ v. map hint_data v.items) (hints_of text.now) result }
{
    let lines = lines_of(alloc, text)?;
    hints_in(alloc, lines.as_slice())
}
