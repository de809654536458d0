//! Labels that were most likely meant as an instruction or a directive.

ghost use Rattle.std.specs.Prelude.{◌≡◌, option_map};
ghost use Rattle.c25_line_warnings.specs.Labels.{directive_label, is_directive, lone_label, mnemonic_label};

use crate::said::label_of;
use c25_meaning_common::bytes::byte_at;
use c25_statements::spelled;
use c25_text::line::first_word;

/// The label of a line, where it stands alone and has no colon after it.
#[tactic(auto, unfolding(crate::specs::Labels::lone_label))]
fn lone_label(text: &str) -> Option<&str>
    ensures { option_map (λ t. t.now) result ≡ lone_label text.now }
{
    let label = label_of(text)?;
    if byte_at(text.as_bytes(), label.len()) == b':' || first_word(text).is_some() {
        None
    } else {
        Some(label)
    }
}

/// The label of a line, where it is a mnemonic and stands alone without a colon: `NOP` in column 1.
#[tactic(auto, unfolding(crate::specs::Labels::mnemonic_label))]
pub fn mnemonic_label(text: &str) -> Option<&str>
    ensures { option_map (λ t. t.now) result ≡ mnemonic_label text.now }
{
    let label = lone_label(text)?;
    match spelled(label) {
        Ok(_) => Some(label),
        Err(_) => None,
    }
}

/// The directives that may stand without operands, without their dots.
static WITHOUT_OPERANDS: [&str; 14] = [
    "text", "data", "mmregs", "end", "else", "endif", "endm", "mexit", "loop", "break", "endloop",
    "list", "nolist", "page",
];

/// Whether a label is the name of a directive that may stand without operands, whatever the case of its letters.
fn is_directive(label: &str) -> bool
    ensures { result ≡ is_directive label.now }
{
    WITHOUT_OPERANDS
        .iter()
        .any(|name| label.eq_ignore_ascii_case(name))
}

/// The label of a line, where it is a directive without its dot and stands alone without a colon: `END` in column 1.
#[tactic(auto, unfolding(crate::specs::Labels::directive_label))]
pub fn directive_label(text: &str) -> Option<&str>
    ensures { option_map (λ t. t.now) result ≡ directive_label text.now }
{
    let label = lone_label(text)?;
    if is_directive(label) {
        Some(label)
    } else {
        None
    }
}
