//! Comments in files that have none.

ghost use Rattle.std.specs.List.{list_any};
ghost use Rattle.std.specs.Prelude.{◌≡◌, ◌==◌, map};
ghost use Rattle.c25_file_hints.specs.Items.{begins_comment, is_comment, or_comment};

use crate::cause::Cause;
use c25_meaning_common::bytes::byte_at;

/// Whether a byte begins a comment in other files, in addition to `;`.
fn begins_comment(byte: u8) -> bool
    ensures { result ≡ begins_comment byte }
{
    byte == b'*' || byte == b'#' || byte == b'/'
}

/// Whether a part of a line has a `;`.
fn has_semicolon(part: &[u8]) -> bool
    ensures { result ≡ list_any (λ b. b == 59) part.now }
{
    part.iter().any(|byte| *byte == b';')
}

/// Whether a part of a line is of a comment, as other files have them.
fn is_comment(part: &[u8]) -> bool
    ensures { result ≡ is_comment part.now }
{
    has_semicolon(part) || begins_comment(byte_at(part, 0))
}

/// Whether a comment stands in a line of these parts.
fn has_comment(parts: &[&[u8]]) -> bool
    ensures { result ≡ list_any is_comment (map (λ w. w.now) parts.now) }
{
    for part in parts {
        if is_comment(part) {
            return true;
        }
    }
    false
}

/// That a comment stands in a line of these parts, if one does, and else this cause.
pub(crate) fn or_comment(parts: &[&[u8]], cause: Cause) -> Cause
    ensures { result ≡ or_comment (map (λ w. w.now) parts.now) cause }
{
    if has_comment(parts) {
        Cause::Comment
    } else {
        cause
    }
}
