//! Which bytes of a line lie outside quotes and the comment.

ghost use Rattle.std.specs.Prelude.{◌≡◌, IsTrue, ◌<◌, ◌≤◌, length, slice_index};
ghost use Rattle.c25_meaning_language.specs.Quoting.{behind, is_outer, outer_len, last_comma_len};
ghost use Rattle.c25_meaning_language.specs.Fragments.{inside};
ghost use Rattle.c25_meaning_language.specs.declared.quoting.Quoting.TheVariants.{Comment, Outside};

use c25_meaning_language::quoting::Quoting;

/// The quoting of the byte after `b`, where `b` has the quoting `quoting`.
pub(crate) fn behind(b: u8, quoting: Quoting) -> Quoting
    ensures { result ≡ behind b quoting }
{
    match quoting {
        Quoting::Outside if b == b'"' || b == b'\'' => Quoting::Within(b),
        Quoting::Outside if b == b';' => Quoting::Comment,
        Quoting::Within(quote) if b == quote => Quoting::Outside,
        other => other,
    }
}

/// Whether the rest of the line is a comment.
pub(crate) fn is_comment(quoting: Quoting) -> bool
    ensures { IsTrue result → quoting ≡ Comment }
{
    matches!(quoting, Quoting::Comment)
}

/// The quoting in which a text begins that replaces a name in this quoting.
pub(crate) fn inside(quoting: Quoting) -> Quoting
    ensures { result ≡ inside quoting }
{
    match quoting {
        Quoting::Within(_) => Quoting::Throughout,
        other => other,
    }
}

fn is_outer(sought: u8, b: u8, quoting: Quoting) -> bool
    ensures { result ≡ is_outer sought b quoting }
{
    match quoting {
        Quoting::Outside => b == sought,
        _ => false,
    }
}

#[tactic(auto, using(crate::proofs::Quotings::outer_lens))]
/// How many bytes a text has before the first `sought` byte outside quotes and the comment; all of them where
/// there is none.
pub(crate) fn outer_len(sought: u8, text: &[u8]) -> usize
    ensures value { result ≡ outer_len sought Outside text.now }
    ensures bound { result ≤ length text.now }
    ensures stop { result < length text.now → slice_index text.now result ≡ sought }
{
    let mut quoting = Quoting::Outside;
    for (i, b) in text.iter().enumerate() {
        if is_outer(sought, *b, quoting) {
            return i;
        }
        quoting = behind(*b, quoting);
    }
    text.len()
}

#[tactic(auto, using(crate::proofs::Quotings::last_commas))]
/// How many bytes a text has before its last comma outside quotes and the comment; all of them where there is
/// none.
pub(crate) fn last_comma_len(text: &[u8]) -> usize
    ensures value { result ≡ last_comma_len text.now }
    ensures bound { result ≤ length text.now }
    ensures stop { result < length text.now → slice_index text.now result ≡ 44 }
{
    let mut quoting = Quoting::Outside;
    let mut found = text.len();
    for (i, b) in text.iter().enumerate() {
        if is_outer(b',', *b, quoting) {
            found = i;
        }
        quoting = behind(*b, quoting);
    }
    found
}
