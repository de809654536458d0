//! Instructions with a long number: two words, the first with a register or a shift in its high
//! byte.

ghost use Rattle.std.specs.Prelude.{◌≡◌, ℕ, ◌+◌, ◌*◌, ◌++◌, ◌<◌, ◌^◌, IfSome, IfNone, OnOk, string_bytes};
ghost use Rattle.c25_meaning_instructions.specs.Table.{long_row, size, high_limit, opcode_word, Reads};
ghost use Rattle.c25_meaning_instructions.specs.Show.{show};
ghost use Rattle.c25_meaning_instructions.specs.declared.mnemonic.LongName.{LongName};
ghost use Rattle.c25_meaning_instructions.specs.declared.mnemonic.Mnemonic.TheVariants as family;
ghost use Rattle.c25_meaning_instructions.specs.declared.insn.Insn.TheVariants as insn;

use crate::{rows, text};
use c25_bits::Field;
use c25_meaning_instructions::insn::Insn;
use c25_meaning_instructions::mnemonic::LongName;
use std::alloc::AllocError;

macro_rules! long_rows {
    ($what:ident $value:expr) => {
        rows::$what! { LongName 2 $value;
            Lrlk "LRLK" 0xd000,
            Lalk "LALK" 0xd001,
            Adlk "ADLK" 0xd002,
            Sblk "SBLK" 0xd003,
            Andk "ANDK" 0xd004,
            Ork "ORK" 0xd005,
            Xork "XORK" 0xd006,
        }
    };
}

/// A row's first word where every operand is 0.
fn base_of(name: LongName) -> u16
    ensures value { result ≡ (long_row name).base }
    ensures room { result + 4096 < 2 ^ 16 }
{
    long_rows!(word_of name)
}

/// The row that has a first word, where its register or shift is 0.
fn name_at(base: u16) -> Option<LongName>
    ensures found { IfSome result (λ name. (long_row name).base ≡ base) }
    ensures none { IfNone result ((name : LongName) → (long_row name).base ≡ base → ⊥) }
{
    long_rows!(name_at base)
}

/// A row's mnemonic.
pub(crate) fn text_of(name: LongName) -> &'static str
    ensures { result.now ≡ (long_row name).name }
{
    long_rows!(text_of name)
}

/// How many words an instruction of a row has.
pub(crate) fn size_of(name: LongName) -> u16
    ensures { result ≡ size (family.Long name) }
{
    long_rows!(words_of name)
}

/// The first word of an instruction.
pub(crate) fn encode(name: LongName, number: u16, high: u16) -> u16
    requires { high < high_limit name }
    ensures { result ≡ opcode_word (insn.Long name number high) }
{
    base_of(name) + (high << 8)
}

/// The instruction of this family that two words make.
pub(crate) fn decode(first: u16, second: u16) -> Option<Insn>
    ensures found { IfSome result (Reads first second) }
    ensures none { IfNone result ((name : LongName) (number high : ℕ)
        → Reads first second (insn.Long name number high) → ⊥) }
{
    let high = Field::<8, 4>::get(first);
    let name = name_at(first - (high << 8))?;
    if matches!(name, LongName::Lrlk) && high >= 8 {
        return None;
    }
    Some(Insn::Long(name, second, high))
}

/// Appends an instruction's text.
pub(crate) fn show(
    out: &mut String,
    name: LongName,
    number: u16,
    high: u16,
) -> Result<(), AllocError>
    ensures { OnOk result
        (string_bytes out.new ≡ string_bytes out.old ++ show (insn.Long name number high)) }
{
    match name {
        LongName::Lrlk => {
            out.push_str(text_of(name))?;
            write!(out, " AR{high},")?;
            text::push_long(out, number)
        }
        _ => {
            text::push_with_long(out, text_of(name), number)?;
            write!(out, ",{high}")
        }
    }
}
