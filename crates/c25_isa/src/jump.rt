//! Jumps: two words, the first with an indirect operand byte below a high byte of the row's own.

ghost use Rattle.std.specs.Prelude.{◌≡◌, ℕ, Option, ◌+◌, ◌*◌, ◌++◌, ◌≤◌, ◌^◌, IfSome, IfNone, OnOk, string_bytes};
ghost use Rattle.c25_meaning_instructions.specs.Table.{jump_row, size, opcode_word, Reads, NextInRange};
ghost use Rattle.c25_meaning_instructions.specs.Show.{show};
ghost use Rattle.c25_meaning_instructions.specs.declared.mnemonic.JumpName.{JumpName};
ghost use Rattle.c25_meaning_instructions.specs.declared.mnemonic.Mnemonic.TheVariants as family;
ghost use Rattle.c25_meaning_instructions.specs.declared.insn.Change.{Change};
ghost use Rattle.c25_meaning_instructions.specs.declared.insn.Insn.TheVariants as insn;

use crate::{addr, rows, text};
use c25_bits::Field;
use c25_meaning_instructions::insn::{Change, Insn};
use c25_meaning_instructions::mnemonic::JumpName;
use std::alloc::AllocError;

macro_rules! jump_rows {
    ($what:ident $value:expr) => {
        rows::$what! { JumpName 2 $value;
            Bc "BC" 0x5e,
            Bnc "BNC" 0x5f,
            Bv "BV" 0xf0,
            Bgz "BGZ" 0xf1,
            Blez "BLEZ" 0xf2,
            Blz "BLZ" 0xf3,
            Bgez "BGEZ" 0xf4,
            Bnz "BNZ" 0xf5,
            Bz "BZ" 0xf6,
            Bnv "BNV" 0xf7,
            Bbz "BBZ" 0xf8,
            Bbnz "BBNZ" 0xf9,
            Bioz "BIOZ" 0xfa,
            Banz "BANZ" 0xfb,
            Call "CALL" 0xfe,
            B "B" 0xff,
        }
    };
}

/// A row's first word where every operand is 0.
fn base_of(name: JumpName) -> u16
    ensures value { result ≡ (jump_row name).base }
    ensures room { result + 256 ≤ 2 ^ 16 }
{
    jump_rows!(base_of name)
}

/// The row that has a high byte.
fn name_at(high: u16) -> Option<JumpName>
    ensures found { IfSome result (λ name. (jump_row name).base ≡ 256 * high) }
    ensures none { IfNone result ((name : JumpName) → (jump_row name).base ≡ 256 * high → ⊥) }
{
    jump_rows!(name_at high)
}

/// A row's mnemonic.
pub(crate) fn text_of(name: JumpName) -> &'static str
    ensures { result.now ≡ (jump_row name).name }
{
    jump_rows!(text_of name)
}

/// How many words an instruction of a row has.
pub(crate) fn size_of(name: JumpName) -> u16
    ensures { result ≡ size (family.Jump name) }
{
    jump_rows!(words_of name)
}

/// The first word of an instruction.
pub(crate) fn encode(name: JumpName, word: u16, change: Change, next: Option<u16>) -> u16
    requires { NextInRange next }
    ensures { result ≡ opcode_word (insn.Jump name word change next) }
{
    base_of(name) + addr::byte_of_indirect(change, next)
}

/// The instruction of this family that two words make.
pub(crate) fn decode(first: u16, second: u16) -> Option<Insn>
    ensures found { IfSome result (Reads first second) }
    ensures none { IfNone result ((name : JumpName) (word : ℕ) (change : Change) (next : Option ℕ)
        → Reads first second (insn.Jump name word change next) → ⊥) }
{
    let name = name_at(Field::<8, 8>::get(first))?;
    let byte = Field::<0, 8>::get(first);
    if byte < 0x80 {
        return None;
    }
    let (change, next) = addr::indirect_of_byte(byte)?;
    Some(Insn::Jump(name, second, change, next))
}

/// Appends an instruction's text.
pub(crate) fn show(
    out: &mut String,
    name: JumpName,
    word: u16,
    change: Change,
    next: Option<u16>,
) -> Result<(), AllocError>
    ensures { OnOk result
        (string_bytes out.new ≡ string_bytes out.old ++ show (insn.Jump name word change next)) }
{
    text::push_with_long(out, text_of(name), word)?;
    out.push_str(",")?;
    out.push_str(text::text_of_change(change))?;
    text::push_next(out, next)
}
