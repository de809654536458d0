//! How many bytes of one kind a text begins with.

ghost use Rattle.std.specs.Prelude.{◌≡◌, ◌≤◌, length};
ghost use Rattle.std.specs.List.{prefix_len, list_all};
ghost use Rattle.c25_meaning_common.specs.Bytes.{goes_on_name, is_letter_or_digit};

use crate::bytes::{goes_on_name, is_letter_or_digit};

/// How many bytes at the front of a text may go on with a name: letters, digits, `_` and `$`.
pub fn name_run(text: &[u8]) -> usize
    ensures value { result ≡ prefix_len goes_on_name text.now }
    ensures bound { result ≤ length text.now }
{
    text.iter().take_while(|b| goes_on_name(**b)).count()
}

/// How many letters and digits stand at the front of a text.
pub fn constant_run(text: &[u8]) -> usize
    ensures value { result ≡ prefix_len is_letter_or_digit text.now }
    ensures bound { result ≤ length text.now }
{
    text.iter().take_while(|b| is_letter_or_digit(**b)).count()
}

/// Whether each byte of a text may go on with a name: a letter, a digit, `_` or `$`.
pub fn all_go_on_name(text: &[u8]) -> bool
    ensures { result ≡ list_all goes_on_name text.now }
{
    text.iter().all(|b| goes_on_name(*b))
}
