//! The lines of a text with their ends.

ghost use Rattle.std.specs.Prelude.{◌≡◌, ◌<◌, ◌++◌, ◌∷◌, [], length};
ghost use Rattle.c25_move.specs.Rewritten.{end_bytes};

use crate::moved_line::LineEnd;

/// The first line of a text: its bytes, how it ends, and the text after it.
#[derive(Clone, Copy)]
pub(crate) struct FirstLine<'a> {
    pub line: &'a str,
    pub end: LineEnd,
    pub rest: &'a str,
}

/// A line that ends with a line feed: whether a carriage return is before it.
fn ended<'a>(line: &'a str, rest: &'a str) -> FirstLine<'a>
    ensures text { result.line.now ++ end_bytes result.end ≡ line.entry.now ++ 10 ∷ [] }
    ensures rest { result.rest.now ≡ rest.entry.now }
{
    match line.strip_suffix('\r') {
        Some(line) => FirstLine {
            line,
            end: LineEnd::ReturnFeed,
            rest,
        },
        None => FirstLine {
            line,
            end: LineEnd::Feed,
            rest,
        },
    }
}

/// The first line of a text that is not empty.
pub(crate) fn first_line(text: &str) -> FirstLine<'_>
    requires { 0 < length text.now }
    ensures text { (result.line.now ++ end_bytes result.end) ++ result.rest.now ≡ text.now }
    ensures shorter { length result.rest.now < length text.now }
{
    match text.split_once('\n') {
        Some((line, rest)) => ended(line, rest),
        None => FirstLine {
            line: text,
            end: LineEnd::End,
            rest: "",
        },
    }
}
