//! The line that says how much of an image its source has.

ghost use Rattle.std.specs.Prelude.{◌≡◌, ◌+◌, ◌++◌, ◌<◌, IfOk, OnOk, codes, string_bytes};
ghost use Rattle.c25_reach.specs.ReachLine.{counted, left_out, reach_line, reach_text};

use crate::reach::Reach;
use c25_meaning_common::no_memory::NoMemory;
use c25_texts::appending::push_text;
use std::alloc::Global;

/// Appends a number in decimal digits, and what it counts.
fn push_counted(text: &mut String, count: usize, what: &str) -> Result<(), NoMemory>
    ensures { OnOk result (string_bytes text.new ≡ string_bytes text.old ++ counted count what.now) }
{
    Ok(write!(text, "{count}{what}")?)
}

/// Appends instructions, their words, and words of data.
#[tactic(auto, unfolding(crate::specs::ReachLine::reach_text))]
fn push_reach(text: &mut String, reach: &Reach) -> Result<(), NoMemory>
    ensures { OnOk result (string_bytes text.new ≡ string_bytes text.old ++ reach_text reach.now) }
{
    push_counted(text, reach.instructions, " instructions (")?;
    push_counted(text, reach.instruction_words, " words), ")?;
    push_counted(text, reach.data_words, " data, ")
}

/// How many words of an image are in no row.
fn left_out(words: usize, reach: &Reach) -> usize
    ensures { result ≡ left_out words reach.now }
{
    words
        .saturating_sub(reach.instruction_words)
        .saturating_sub(reach.data_words)
}

/// Appends how many words of an image are in no row.
fn push_left(text: &mut String, words: usize, reach: &Reach) -> Result<(), NoMemory>
    ensures { OnOk result (string_bytes text.new ≡ string_bytes text.old ++ counted (left_out words reach.now) (codes " left out as blank\n")) }
{
    push_counted(text, left_out(words, reach), " left out as blank\n")
}

/// The line of an image of so many words, after a name: how many instructions its source has, how many words they
/// have, how many words of data there are, and how many words are left out.
///
/// `NoMemory` where memory runs out.
pub fn reach_line(
    alloc: Global,
    name: &str,
    words: usize,
    reach: &Reach,
) -> Result<String, NoMemory>
    ensures { IfOk result (λ line. string_bytes line ≡ reach_line name.now words reach.now) }
{
    let mut text = String::new(alloc);
    push_text(&mut text, name)?;
    push_text(&mut text, ": ")?;
    push_counted(&mut text, words, " words, ")?;
    push_reach(&mut text, reach)?;
    push_left(&mut text, words, reach)?;
    Ok(text)
}
