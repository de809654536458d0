//! Commands that set and clear breakpoints.

ghost use Rattle.std.specs.Prelude.{◌≡◌, false, IfOk, OnErr, OnOk, string_bytes};
ghost use Rattle.c25_meaning_processor.specs.Goes.{is_breakpoint};
ghost use Rattle.c25_meaning_processor.specs.Set.{can_set, with_breakpoint, without_breakpoint};
ghost use Rattle.c25_meaning_debugger.specs.Texts.{cleared_text, set_text};

use crate::answers::{push_cleared, push_set};
use crate::steps::{Answer, shown};
use c25_board::breakpoints::{Breakpoints, MOST};
use c25_meaning_common::no_memory::NoMemory;
use std::alloc::Global;

/// Whether a breakpoint can be set: it is set already, or fewer than `MOST` are.
fn can_be_set(breakpoints: &Breakpoints, address: u16) -> bool
    ensures { result ≡ can_set breakpoints.now address }
{
    breakpoints.contains(address) || breakpoints.as_slice().len() < MOST
}

/// Sets a breakpoint, and answers whether it is set.
pub fn answer_set(
    alloc: Global,
    breakpoints: &mut Breakpoints,
    address: u16,
) -> Result<Answer, NoMemory>
    ensures text { IfOk result (λ answer. string_bytes answer.text ≡ set_text (can_set breakpoints.old address) address) }
    ensures refused { IfOk result (λ answer. answer.is_refused ≡ false) }
    ensures breakpoints { OnOk result (breakpoints.new ≡ with_breakpoint breakpoints.old address) }
    ensures kept { OnErr result (breakpoints.new ≡ breakpoints.old) }
{
    let mut text = String::new(alloc);
    push_set(&mut text, address, can_be_set(breakpoints, address))?;
    breakpoints.set(address);
    Ok(shown(text))
}

/// Clears a breakpoint, and answers whether there was one.
pub fn answer_cleared(
    alloc: Global,
    breakpoints: &mut Breakpoints,
    address: u16,
) -> Result<Answer, NoMemory>
    ensures text { IfOk result (λ answer. string_bytes answer.text ≡ cleared_text (is_breakpoint breakpoints.old address) address) }
    ensures refused { IfOk result (λ answer. answer.is_refused ≡ false) }
    ensures breakpoints { OnOk result (breakpoints.new ≡ without_breakpoint breakpoints.old address) }
    ensures kept { OnErr result (breakpoints.new ≡ breakpoints.old) }
{
    let mut text = String::new(alloc);
    push_cleared(&mut text, address, breakpoints.contains(address))?;
    breakpoints.clear(address);
    Ok(shown(text))
}
