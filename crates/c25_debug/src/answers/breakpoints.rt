//! The answers of commands that set and clear breakpoints.

ghost use Rattle.std.specs.Prelude.{◌≡◌, ◌++◌, OnOk, string_bytes};
ghost use Rattle.c25_meaning_debugger.specs.Texts.{address_line, cleared_text, set_text};

use crate::answers::digits::{push_text, push_texts};
use c25_meaning_common::no_memory::NoMemory;
use c25_texts::digits::four;
use std::alloc::Global;

/// Appends a line of a text and an address.
fn push_line(text: &mut String, word: &str, address: u16) -> Result<(), NoMemory>
    ensures { OnOk result (string_bytes text.new ≡ string_bytes text.old ++ address_line word.now address) }
{
    push_texts(text, &[word, " ", four(address).as_str(), "\n"])
}

/// Appends the answer to a breakpoint that was to be set: it is set, or as many as may be are set already.
pub(crate) fn push_set(text: &mut String, address: u16, is_set: bool) -> Result<(), NoMemory>
    ensures { OnOk result (string_bytes text.new ≡ string_bytes text.old ++ set_text is_set address) }
{
    if is_set {
        push_line(text, "set", address)
    } else {
        push_text(text, "full\n")
    }
}

/// Appends the answer to a breakpoint that was cleared: whether there was one.
pub(crate) fn push_cleared(text: &mut String, address: u16, was_set: bool) -> Result<(), NoMemory>
    ensures { OnOk result (string_bytes text.new ≡ string_bytes text.old ++ cleared_text was_set address) }
{
    if was_set {
        push_line(text, "cleared", address)
    } else {
        push_line(text, "none", address)
    }
}
