//! The registers as the debugger prints them.

ghost use Rattle.std.specs.Prelude.{◌≡◌, ◌++◌, OnOk, codes, string_bytes};
ghost use Rattle.c25_meaning_common.specs.Digits.{four_digits, two_digits};
ghost use Rattle.c25_meaning_debugger.specs.Texts.{regs_text, spaced, stack_text};
ghost use Rattle.c25_meaning_linking.specs.MapText.{eight_digits};

use crate::answers::digits::{push_byte, push_named, push_named_long, push_spaced, push_text};
use c25_meaning_common::no_memory::NoMemory;
use c25_meaning_processor::registers::Regs;
use std::alloc::Global;

/// Appends PC, ACC, P and T.
fn push_factors(text: &mut String, registers: &Regs) -> Result<(), NoMemory>
    ensures { OnOk result (string_bytes text.new ≡ string_bytes text.old
        ++ (codes "PC " ++ four_digits registers.now.pc ++ codes " ACC " ++ eight_digits registers.now.acc ++ codes " P " ++ eight_digits registers.now.p ++ codes " T " ++ four_digits registers.now.t)) }
{
    push_named(text, "PC ", registers.pc)?;
    push_named_long(text, " ACC ", registers.acc)?;
    push_named_long(text, " P ", registers.p)?;
    push_named(text, " T ", registers.t)
}

/// Appends the status words and the repeat counter.
fn push_status(text: &mut String, registers: &Regs) -> Result<(), NoMemory>
    ensures { OnOk result (string_bytes text.new ≡ string_bytes text.old
        ++ (codes " ST0 " ++ four_digits registers.now.st0 ++ codes " ST1 " ++ four_digits registers.now.st1 ++ codes " RPTC " ++ two_digits registers.now.rptc)) }
{
    push_named(text, " ST0 ", registers.st0)?;
    push_named(text, " ST1 ", registers.st1)?;
    push_text(text, " RPTC ")?;
    push_byte(text, registers.rptc)
}

/// Appends a name, words with a blank before each, and the line's end.
fn push_row(text: &mut String, name: &str, words: &[u16]) -> Result<(), NoMemory>
    ensures { OnOk result (string_bytes text.new ≡ string_bytes text.old ++ (name.now ++ spaced words.now ++ codes "\n")) }
{
    push_text(text, name)?;
    push_spaced(text, words)?;
    push_text(text, "\n")
}

/// Appends the registers but for the stack: a line of PC, ACC, P, T, the status words and the repeat counter,
/// and a line of the auxiliary registers.
#[tactic(auto, unfolding(c25_meaning_debugger::specs::Texts::regs_text))]
pub(crate) fn push_registers(text: &mut String, registers: &Regs) -> Result<(), NoMemory>
    ensures { OnOk result (string_bytes text.new ≡ string_bytes text.old ++ regs_text registers.now) }
{
    push_factors(text, registers)?;
    push_status(text, registers)?;
    push_row(text, "\nAR", &registers.ar)?;
    Ok(())
}

/// Appends the line of the hardware stack, its top first.
#[tactic(auto, unfolding(c25_meaning_debugger::specs::Texts::stack_text))]
pub(crate) fn push_stack(text: &mut String, registers: &Regs) -> Result<(), NoMemory>
    ensures { OnOk result (string_bytes text.new ≡ string_bytes text.old ++ stack_text registers.now) }
{
    push_row(text, "STACK", &registers.stack)
}
