//! The first sentence of a text.

ghost use Rattle.std.specs.Prelude.{◌≡◌, IfOk, string_bytes};
ghost use Rattle.c25_explain.specs.Sentence.{first_sentence, in_one_line, is_blank};

use c25_meaning_common::no_memory::NoMemory;
use std::alloc::Global;

/// Whether a character is a blank or a line feed.
fn is_blank(c: char) -> bool
    ensures { result ≡ is_blank c }
{
    c == ' ' || c == '\n'
}

/// A line feed as a blank, and any other character as it is.
fn in_one_line(c: char) -> char
    ensures { result ≡ in_one_line c }
{
    if is_blank(c) { ' ' } else { c }
}

/// The first sentence of a text, in one line: up to and with the first full stop before a blank or the end of a
/// line. It is all of a text in which no sentence ends.
pub(crate) fn first_sentence(alloc: Global, text: &str) -> Result<String, NoMemory>
    ensures { IfOk result (λ sentence. string_bytes sentence ≡ first_sentence text.now) }
{
    let mut sentence = String::new(alloc);
    let mut stopped = false;
    for c in text.chars() {
        if stopped && is_blank(c) {
            return Ok(sentence);
        }
        sentence.push(in_one_line(c))?;
        stopped = c == '.';
    }
    Ok(sentence)
}
