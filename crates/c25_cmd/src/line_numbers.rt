//! The number of the line of a place in a text.

ghost use Rattle.std.specs.Prelude.{◌≡◌, ◌==◌, ◌≤◌, length, count_by};
ghost use Rattle.std.specs.Str.Lines.{lines};
ghost use Rattle.c25_meaning_linking.specs.CommandTokens.{line_at};

use crate::bytes::front;

fn line_feeds(text: &[u8]) -> usize
    ensures value { result ≡ count_by (λ b. b == 10) text.now }
    ensures bound { result ≤ length text.now }
{
    text.iter().filter(|b| **b == b'\n').count()
}

fn line_count(text: &str) -> usize
    ensures { result ≡ length (lines text.now) }
{
    text.lines().count()
}

/// The number of the line of a place, from 1. The end of the text is on the last line.
pub(crate) fn line_at(text: &str, place: usize) -> usize
    ensures { result ≡ line_at text.now place }
{
    let before = line_feeds(front(text.as_bytes(), place));
    (before + 1).min(line_count(text))
}
