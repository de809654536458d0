//! What is printed of the source of an image: how much of it was reached, and proposals of hints, each in a line after
//! `;`, so that the text is a file of hints of which each line is a comment.

ghost use Rattle.std.specs.Prelude.{◌≡◌, ◌++◌, ◌≤◌, IfOk, OnOk, codes, length, string_bytes};
ghost use Rattle.std.specs.List.{flat_map};
ghost use Rattle.c25_image_source.specs.Told.{IsTold, comment_line, comment_of, count_of};
ghost use Rattle.c25_layout.specs.Layout.{parts_words};

use c25_layout::hint::Hint;
use c25_layout::layout::Part;
use c25_meaning_common::no_memory::NoMemory;
use c25_meaning_image::word_map::WordMap;
use c25_reach::{proposals_of, reach_line, reach_of};
use c25_texts::appending::push_text;
use std::alloc::Global;

/// How many words an image has.
fn count_of(words: &WordMap) -> usize
    ensures { result ≡ count_of words.now }
{
    words.iter().count()
}

/// Appends a line as a comment.
fn push_comment(text: &mut String, line: &str) -> Result<(), NoMemory>
    ensures { OnOk result (string_bytes text.new ≡ string_bytes text.old ++ comment_line line.now) }
{
    push_text(text, "; ")?;
    push_text(text, line)?;
    push_text(text, "\n")
}

/// Appends lines as comments.
fn push_comments(text: &mut String, lines: &[String]) -> Result<(), NoMemory>
    ensures { OnOk result (string_bytes text.new ≡ string_bytes text.old ++ flat_map comment_of lines.now) }
{
    for line in lines {
        push_comment(text, line.as_str())?;
    }
    Ok(())
}

/// The comment of a line, which has its line end, and those of other lines.
fn comments_of(alloc: Global, line: &str, lines: &[String]) -> Result<String, NoMemory>
    ensures { IfOk result (λ text. string_bytes text ≡ codes "; " ++ line.now ++ flat_map comment_of lines.now) }
{
    let mut text = String::from_str(alloc, "; ")?;
    push_text(&mut text, line)?;
    push_comments(&mut text, lines)?;
    Ok(text)
}

/// What is printed of the source of an image: after the name how much of it was reached, and proposals of hints.
pub(crate) fn told_of(
    alloc: Global,
    name: &str,
    words: &WordMap,
    parts: &[Part],
    hints: &[Hint<String>],
) -> Result<String, NoMemory>
    requires { length (parts_words parts.now) ≤ 65536 }
    ensures { IfOk result (λ text. IsTold name.now words.now parts.now (string_bytes text)) }
{
    let reached = reach_line(alloc, name, count_of(words), &reach_of(parts))?;
    let proposals = proposals_of(alloc, words, parts, hints)?;
    let text = comments_of(alloc, &reached, &proposals)?;
    Ok(text)
}
