//! Where the blanks and the fields of a line end.

ghost use Rattle.std.specs.Prelude.{◌≡◌, ◌≤◌, length};
ghost use Rattle.std.specs.List.{prefix_len};
ghost use Rattle.c25_meaning_common.specs.Bytes.{is_blank, is_field};
ghost use Rattle.c25_meaning_language.specs.Line.{past_blanks, past_field};

use c25_meaning_common::bytes::is_blank;

/// Whether a byte belongs to a field: it is neither a blank, a tab nor `;`.
fn is_field(b: u8) -> bool
    ensures { result ≡ is_field b }
{
    !(is_blank(b) || b == b';')
}

fn blank_run(text: &[u8]) -> usize
    ensures value { result ≡ prefix_len is_blank text.now }
    ensures bound { result ≤ length text.now }
{
    text.iter().take_while(|b| is_blank(**b)).count()
}

fn field_run(text: &[u8]) -> usize
    ensures value { result ≡ prefix_len is_field text.now }
    ensures bound { result ≤ length text.now }
{
    text.iter().take_while(|b| is_field(**b)).count()
}

/// The place after the blanks and tabs that begin at a place; that place itself where none begin there.
pub fn past_blanks(text: &[u8], from: usize) -> usize
    requires { from ≤ length text.now }
    ensures value { result ≡ past_blanks from text.now }
    ensures least { from ≤ result }
    ensures bound { result ≤ length text.now }
{
    from + blank_run(&text[from..])
}

/// The place after the field that begins at a place; that place itself where none begins there.
pub fn past_field(text: &[u8], from: usize) -> usize
    requires { from ≤ length text.now }
    ensures value { result ≡ past_field from text.now }
    ensures least { from ≤ result }
    ensures bound { result ≤ length text.now }
{
    from + field_run(&text[from..])
}
