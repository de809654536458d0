//! The blocks of a file's text, before expansion: the lines from an `.if`, `.loop` or `.macro` to the line that ends
//! it.

ghost use Rattle.std.specs.Prelude.{◌≡◌, IfOk, OnOk, map, option_map};
ghost use Rattle.c25_outline.specs.Blocks as meaning;

use c25_files::{Row, Rows, count_lines};
use c25_meaning_common::no_memory::NoMemory;
use c25_text::line::first_word;
use std::alloc::Global;

/// The directives with which a block begins.
static OPENERS: [&str; 3] = [".if", ".loop", ".macro"];

/// The directives with which a block ends.
static CLOSERS: [&str; 3] = [".endif", ".endloop", ".endm"];

/// Whether two words have the same letters, in either case.
#[tactic(auto, unfolding(crate::specs::Blocks::is_spelled))]
fn is_spelled(word: &str, name: &str) -> bool
    ensures { result ≡ meaning.is_spelled word.now name.now }
{
    word.eq_ignore_ascii_case(name)
}

/// Whether a word is one of these directives, letters in either case.
#[tactic(auto, unfolding(crate::specs::Blocks::is_one_of))]
fn is_one_of(directives: &[&str], word: &str) -> bool
    ensures { result ≡ meaning.is_one_of (map (λ d. d.now) directives.now) word.now }
{
    for directive in directives {
        if is_spelled(directive, word) {
            return true;
        }
    }
    false
}

fn has_one_of(directives: &[&str], word: Option<&str>) -> bool
    ensures { result ≡ meaning.has_one_of (map (λ d. d.now) directives.now) (option_map (λ w. w.now) word.entry) }
{
    match word {
        Some(word) => is_one_of(directives, word),
        None => false,
    }
}

/// Follows the blocks that are open through a line of this number with this word: `begun` has the numbers of the
/// lines that began them, the innermost last.
fn follow(begun: &mut Vec<usize>, number: usize, word: Option<&str>) -> Result<(), NoMemory>
    ensures { OnOk result (begun.new.items ≡ meaning.open_after_word number (option_map (λ w. w.now) word.entry) begun.old.items) }
{
    if has_one_of(&OPENERS, word) {
        begun.push(number)?;
    } else if has_one_of(&CLOSERS, word) {
        begun.truncate(begun.len().saturating_sub(1));
    }
    Ok(())
}

/// Follows the blocks that are open through a line, if it is among the lines up to `last`.
fn follow_row(begun: &mut Vec<usize>, last: usize, row: &Row<'_>) -> Result<(), NoMemory>
    ensures { OnOk result (begun.new.items ≡ meaning.open_after_row last row.now begun.old.items) }
{
    let number = row.place().line;
    if number <= last {
        follow(begun, number, first_word(row.text()))
    } else {
        Ok(())
    }
}

/// The number of the line that began the innermost block of a text that is open after the line of the number
/// `last`, if one is open. Lines are taken as they stand in the text, before expansion. `NoMemory` (9) where memory
/// runs out.
#[tactic(auto, unfolding(crate::specs::Blocks::open_after))]
pub fn innermost(alloc: Global, text: &str, last: usize) -> Result<Option<usize>, NoMemory>
    ensures { IfOk result (λ number. number ≡ meaning.innermost last text.now) }
{
    let mut begun = Vec::new(alloc);
    let mut passage = Rows::of_file(0, text, count_lines(text)).into_passage();
    while let Some(row) = passage.next() {
        follow_row(&mut begun, last, &row)?;
    }
    Ok(begun.last().copied())
}
