//! The names that local labels get.

ghost use Rattle.std.specs.Prelude.{◌≡◌, true, map, slice_index_or, string_bytes};
ghost use Rattle.std.specs.Option.{option_map};
ghost use Rattle.c25_meaning_language.specs.Line.{some_text, without_colon};
ghost use Rattle.c25_old_expressions.specs.Labels as meaning;

use crate::lexemes::up_to;
use c25_meaning_common::bytes::byte_at;
use c25_text::past_field;

/// Whether a name is a local label: `$` and a digit.
fn is_local_label(name: &[u8]) -> bool
    ensures { result ≡ meaning.is_local_label name.now }
{
    match name {
        [sign, digit] => *sign == b'$' && digit.is_ascii_digit(),
        _ => false,
    }
}

/// Whether local labels get names.
pub(crate) fn are_renamed(labels: &[String]) -> bool
    ensures { result ≡ meaning.are_renamed (map string_bytes labels.now) }
{
    !labels.is_empty()
}

/// The name of a digit, if there is one; else this one.
fn name_at<'a>(labels: &'a [String], digit: u8, name: &'a [u8]) -> &'a [u8]
    ensures { result.now ≡ slice_index_or (map string_bytes labels.now) digit name.now }
{
    match labels.get(usize::from(digit)) {
        Some(label) => label.as_bytes(),
        None => name,
    }
}

/// The name that takes the place of a name, where the local labels `$0` to `$9` get these names, or none.
pub(crate) fn renamed<'a>(labels: &'a [String], name: &'a [u8]) -> &'a [u8]
    ensures { result.now ≡ meaning.renamed (map string_bytes labels.now) name.now }
{
    if are_renamed(labels) && is_local_label(name) {
        name_at(labels, byte_at(name, 1).saturating_sub(b'0'), name)
    } else {
        name
    }
}

/// A label without the colon that may end it.
fn without_colon(field: &[u8]) -> &[u8]
    ensures { result.now ≡ without_colon field.now }
{
    let last = field.len().saturating_sub(1);
    if byte_at(field, last) == b':' {
        up_to(field, last)
    } else {
        field
    }
}

/// The label of an old line, without the colon that may end it; empty where there is none.
pub(crate) fn old_label(line: &[u8]) -> &[u8]
    ensures { result.now ≡ meaning.old_label line.now }
{
    without_colon(up_to(line, past_field(line, 0)))
}

/// Whether a line has this label, or none where the label is empty.
pub(crate) fn is_label(label: Option<&str>, name: &[u8]) -> bool
    ensures { result ≡ true → option_map (λ s. s.now) label.entry ≡ some_text name.now }
{
    match label {
        Some(label) => !name.is_empty() && label.as_bytes() == name,
        None => name.is_empty(),
    }
}
