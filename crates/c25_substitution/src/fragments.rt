//! A text in fragments: what is kept, and what is replaced.

ghost use Rattle.std.specs.Prelude.{◌≡◌, ◌+◌, ◌<◌, ◌≤◌, ◌==◌, max, length, map, slice_index, take, drop, Some, None, IfSome};
ghost use Rattle.std.specs.List.{prefix_len, take_while, list_any};
ghost use Rattle.std.specs.Option.{option_map};
ghost use Rattle.std.specs.Str.{bytes_eq, IsCharBoundary};
ghost use Rattle.c25_meaning_common.specs.Bytes.{goes_on_name};
ghost use Rattle.c25_meaning_language.specs.Fragments.{is_beyond_ascii, between_colons, character, forced, front, kept, unforced, unit, whole_name};
ghost use Rattle.c25_meaning_language.specs.Fragments.{without};
ghost use Rattle.c25_substitution.specs.Fresh.{IsFresh};
ghost use Rattle.c25_substitution.specs.View.{names_of, fragment_of};

use crate::aside::Aside;
use crate::quoting::inside;
use crate::visible::Visible;
use c25_meaning_common::bytes::{begins_name, byte_at, is_digit};
use c25_meaning_common::runs::{constant_run, name_run};
use c25_meaning_language::quoting::Quoting;

/// A fragment of a text.
#[derive(Clone, Copy)]
pub(crate) enum Fragment<'a> {
    /// A text that is kept as it is.
    Kept(&'a str),
    /// The name of `name?`, a label that gets the number of the expansion.
    Numbered(&'a str),
    /// A name, the text that replaces it, and the quoting in which that text begins.
    Replaced(&'a str, &'a str, Quoting),
}

/// The text that a name stands for; None where it stands for none or is set aside.
fn text_of<'a>(names: &Visible<'a>, aside: &Aside<'_>, name: &str) -> Option<&'a str>
    ensures { option_map (λ s. s.now) result ≡ without aside.now (names_of names.now) name.now }
{
    if aside.has(name) {
        None
    } else {
        names.get(name)
    }
}

/// Whether a byte is beyond ASCII: 128 or more.
fn is_beyond_ascii(b: u8) -> bool
    ensures { result ≡ is_beyond_ascii b }
{
    b >= 128
}

/// How many bytes beyond ASCII a text begins with.
fn beyond_run(text: &[u8]) -> usize
    ensures value { result ≡ prefix_len is_beyond_ascii text.now }
    ensures bound { result ≤ length text.now }
{
    text.iter().take_while(|b| is_beyond_ascii(**b)).count()
}

/// The first bytes of a text, kept as they are, and the rest of the text.
fn kept(text: &str, size: usize) -> (Fragment<'_>, &str)
    requires cut { IsCharBoundary text.now size }
    ensures fragment { fragment_of result.0 ≡ (kept size text.now).fragment }
    ensures rest { result.1.now ≡ drop size text.now }
{
    let (front, rest) = text.split_at(size);
    (Fragment::Kept(front), rest)
}

/// One ASCII character, or a run of bytes beyond ASCII, kept as it is, and the rest of the text.
fn character(text: &str) -> (Fragment<'_>, &str)
    requires { 0 < length text.now }
    ensures fragment { fragment_of result.0 ≡ (character text.now).fragment }
    ensures rest { result.1.now ≡ drop (character text.now).size text.now }
    ensures shorter { length result.1.now < length text.now }
{
    kept(text, beyond_run(text.as_bytes()).max(1))
}

/// The text after a blank, which is a fragment of its own.
#[inline]
pub(crate) fn behind_blank(text: &str) -> &str
    requires { slice_index text.now 0 ≡ 32 }
    ensures rest { result.now ≡ drop 1 text.now }
    ensures shorter { length result.now < length text.now }
{
    &text[1..]
}

/// The name between two colons at the front of a text, if the text begins so.
fn between_colons(text: &str) -> Option<&str>
    ensures value { option_map (λ s. s.now) result ≡ between_colons text.now }
    ensures within { IfSome result (λ name. length name.now + 2 ≤ length text.now) }
    ensures closed { IfSome result (λ name. slice_index text.now (length name.now + 1) ≡ 58) }
{
    let bytes = text.as_bytes();
    if byte_at(bytes, 0) != b':' || !begins_name(byte_at(bytes, 1)) {
        return None;
    }
    let end = name_run(&bytes[1..]) + 1;
    if byte_at(bytes, end) == b':' {
        Some(&text[1..end])
    } else {
        None
    }
}

/// The fragment of a name of this length at the front of a text, and the rest of the text.
fn whole_name<'a>(
    names: &Visible<'a>,
    aside: &Aside<'_>,
    text: &'a str,
    size: usize,
) -> (Fragment<'a>, &'a str)
    requires some { 0 < size }
    requires name { size ≡ prefix_len goes_on_name text.now }
    ensures fragment { fragment_of result.0 ≡ (whole_name (without aside.now (names_of names.now)) (take_while goes_on_name text.now) (slice_index text.now size == 63)).fragment }
    ensures rest { result.1.now ≡ drop (whole_name (without aside.now (names_of names.now)) (take_while goes_on_name text.now) (slice_index text.now size == 63)).size text.now }
    ensures shorter { length result.1.now < length text.now }
{
    let (name, rest) = text.split_at(size);
    if byte_at(text.as_bytes(), size) == b'?' {
        return (Fragment::Numbered(name), &text[size + 1..]);
    }
    match text_of(names, aside, name) {
        Some(inner) => (Fragment::Replaced(name, inner, Quoting::Outside), rest),
        None => (Fragment::Kept(name), rest),
    }
}

/// A dot and the name after it, kept as they are, and the rest of the text.
fn dotted_name(text: &str) -> (Fragment<'_>, &str)
    requires { slice_index text.now 0 ≡ 46 }
    ensures fragment { fragment_of result.0 ≡ (kept (prefix_len goes_on_name (drop 1 text.now) + 1) text.now).fragment }
    ensures rest { result.1.now ≡ drop (prefix_len goes_on_name (drop 1 text.now) + 1) text.now }
    ensures shorter { length result.1.now < length text.now }
{
    let size = name_run(&text.as_bytes()[1..]) + 1;
    kept(text, size)
}

/// The fragment at the front of a text outside quotes, and the rest of the text: a constant, a dot with a
/// name, a name, or a character.
fn unit<'a>(names: &Visible<'a>, aside: &Aside<'_>, text: &'a str) -> (Fragment<'a>, &'a str)
    requires { 0 < length text.now }
    ensures fragment { fragment_of result.0 ≡ (unit (without aside.now (names_of names.now)) text.now).fragment }
    ensures rest { result.1.now ≡ drop (unit (without aside.now (names_of names.now)) text.now).size text.now }
    ensures shorter { length result.1.now < length text.now }
{
    let bytes = text.as_bytes();
    let first = byte_at(bytes, 0);
    if is_digit(first) {
        kept(text, constant_run(bytes))
    } else if first == b'.' && begins_name(byte_at(bytes, 1)) {
        dotted_name(text)
    } else if begins_name(first) {
        whole_name(names, aside, text, name_run(bytes))
    } else {
        character(text)
    }
}

/// The fragment at the front of a text that does not begin with a forced substitution, and the rest of the
/// text.
fn unforced<'a>(
    names: &Visible<'a>,
    aside: &Aside<'_>,
    quoting: Quoting,
    text: &'a str,
) -> (Fragment<'a>, &'a str)
    requires { 0 < length text.now }
    ensures fragment { fragment_of result.0 ≡ (unforced (without aside.now (names_of names.now)) quoting text.now).fragment }
    ensures rest { result.1.now ≡ drop (unforced (without aside.now (names_of names.now)) quoting text.now).size text.now }
    ensures shorter { length result.1.now < length text.now }
{
    match quoting {
        Quoting::Outside => unit(names, aside, text),
        _ => character(text),
    }
}

/// The forced substitution at the front of a text, if there is one: the name between two colons, and the text
/// that it stands for.
fn forced<'a>(
    names: &Visible<'a>,
    aside: &Aside<'_>,
    quoting: Quoting,
    text: &'a str,
) -> Option<(&'a str, &'a str)>
    ensures value { option_map (λ p. (p.0.now, p.1.now)) result ≡ forced (without aside.now (names_of names.now)) quoting text.now }
    ensures within { IfSome result (λ p. length p.0.now + 2 ≤ length text.now) }
    ensures closed { IfSome result (λ p. slice_index text.now (length p.0.now + 1) ≡ 58) }
{
    if matches!(quoting, Quoting::Comment) {
        return None;
    }
    let name = between_colons(text)?;
    let inner = text_of(names, aside, name)?;
    Some((name, inner))
}

/// The fragment at the front of a text, and the rest of the text.
#[tactic(auto, unfolding(c25_meaning_language::specs::Fragments::front))]
pub(crate) fn first_fragment<'a>(
    names: &Visible<'a>,
    aside: &Aside<'_>,
    quoting: Quoting,
    text: &'a str,
) -> (Fragment<'a>, &'a str)
    requires { 0 < length text.now }
    ensures fragment { fragment_of result.0 ≡ (front (without aside.now (names_of names.now)) quoting text.now).fragment }
    ensures rest { result.1.now ≡ drop (front (without aside.now (names_of names.now)) quoting text.now).size text.now }
    ensures shorter { length result.1.now < length text.now }
    ensures fresh { IsFresh aside.now (fragment_of result.0) }
{
    match forced(names, aside, quoting, text) {
        Some((name, inner)) => (
            Fragment::Replaced(name, inner, inside(quoting)),
            &text[name.len() + 2..],
        ),
        None => unforced(names, aside, quoting, text),
    }
}
