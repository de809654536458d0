//! Strings in quotes, and arguments that may be one string.

ghost use Rattle.std.specs.Prelude.{◌≡◌, ◌≤◌, ◌==◌, ◌&&◌, false, length, IfOk};
ghost use Rattle.std.specs.List.{suffix_len};
ghost use Rattle.std.specs.String.{string_bytes};
ghost use Rattle.c25_meaning_language.specs.Arguments.{before_quote, folded, is_one_string, past_quote, string_text, trimmed, trimmed_end, trimmed_start, unquoted};
ghost use Rattle.c25_meaning_common.specs.Bytes.{is_blank};

use c25_meaning_common::bytes::{byte_at, is_blank};
use c25_meaning_common::no_memory::NoMemory;
use c25_text::{past_blanks, quoted_len};
use std::alloc::Global;

fn trimmed_start(text: &str) -> &str
    ensures { result.now ≡ trimmed_start text.now }
{
    &text[past_blanks(text.as_bytes(), 0)..]
}

/// How many blanks and tabs a text ends with.
fn blank_tail(text: &[u8]) -> usize
    ensures value { result ≡ suffix_len is_blank text.now }
    ensures bound { result ≤ length text.now }
{
    text.iter().rev().take_while(|b| is_blank(**b)).count()
}

/// A text without the blanks and tabs at its end.
pub fn trimmed_end(text: &str) -> &str
    ensures { result.now ≡ trimmed_end text.now }
{
    &text[..text.len() - blank_tail(text.as_bytes())]
}

/// A text without the blanks and tabs at both ends.
fn trimmed(text: &str) -> &str
    ensures { result.now ≡ trimmed text.now }
{
    trimmed_end(trimmed_start(text))
}

/// Whether a text is one string and nothing else.
fn is_one_string(text: &[u8]) -> bool
    ensures { result ≡ is_one_string text.now }
{
    if byte_at(text, 0) != b'"' {
        return false;
    }
    match quoted_len(&text[1..]) {
        Some(length) => length == text.len() - 1,
        None => false,
    }
}

/// A text without the quote that it may begin with.
fn past_quote(text: &str) -> &str
    ensures { result.now ≡ past_quote text.now }
{
    if byte_at(text.as_bytes(), 0) == b'"' {
        &text[1..]
    } else {
        text
    }
}

/// A text without the quote that it may end with.
fn before_quote(text: &str) -> &str
    ensures { result.now ≡ before_quote text.now }
{
    match text.as_bytes().split_last() {
        Some((b'"', front)) => &text[..front.len()],
        _ => text,
    }
}

/// Whether a byte is the second of two quotes in a row.
fn is_second(again: bool, b: u8) -> bool
    ensures { result ≡ (again && b == 34) }
{
    again && b == b'"'
}

/// A text in which each two quotes in a row have become one.
fn folded(alloc: Global, text: &str) -> Result<String, NoMemory>
    ensures { IfOk result (λ out. string_bytes out ≡ folded false text.now) }
{
    let mut out = String::new(alloc);
    let mut from = 0;
    let mut again = false;
    for (i, b) in text.as_bytes().iter().enumerate() {
        if is_second(again, *b) {
            out.push_str(&text[from..i])?;
            from = i + 1;
            again = false;
            continue;
        }
        again = *b == b'"';
    }
    out.push_str(&text[from..])?;
    Ok(out)
}

/// The text that a string token stands for: without the quotes at its ends, and with each two quotes in a row
/// within it as one. `NoMemory` (9) where memory runs out.
pub fn string_text(alloc: Global, token: &str) -> Result<String, NoMemory>
    ensures { IfOk result (λ out. string_bytes out ≡ string_text token.now) }
{
    folded(alloc, before_quote(past_quote(token)))
}

/// An argument of a macro, or the text of `.asg`, without the blanks around it; if that is one string, the
/// text that the string stands for.
pub(crate) fn unquoted(alloc: Global, text: &str) -> Result<String, NoMemory>
    ensures { IfOk result (λ out. string_bytes out ≡ unquoted text.now) }
{
    let text = trimmed(text);
    if is_one_string(text.as_bytes()) {
        string_text(alloc, text)
    } else {
        String::from_str(alloc, text).map_err(NoMemory::from)
    }
}
