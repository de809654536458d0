//! Instructions with a short number: one word, whose low 8, 9 or 13 bits hold the number.

ghost use Rattle.std.specs.Prelude.{◌≡◌, ℕ, ℤ, ◌+◌, ◌*◌, ◌++◌, ◌<◌, ◌≤◌, ◌^◌, IfSome, IfNone, OnOk, string_bytes};
ghost use Rattle.c25_bits.specs.Cut.{cut};
ghost use Rattle.c25_isa.specs.Extent.{extent};
ghost use Rattle.c25_meaning_instructions.specs.Table.{short_row, size, short_width, ShortInRange, opcode_word, Reads};
ghost use Rattle.c25_meaning_instructions.specs.Show.{show};
ghost use Rattle.c25_meaning_instructions.specs.declared.mnemonic.ShortName.{ShortName};
ghost use Rattle.c25_meaning_instructions.specs.declared.mnemonic.Mnemonic.TheVariants as family;
ghost use Rattle.c25_meaning_instructions.specs.declared.insn.Insn.TheVariants as insn;

use crate::rows;
use c25_bits::Field;
use c25_meaning_instructions::insn::Insn;
use c25_meaning_instructions::mnemonic::ShortName;
use std::alloc::AllocError;

macro_rules! short_rows {
    ($what:ident $value:expr) => {
        rows::$what! { ShortName 1 $value;
            Adrk "ADRK" 0x7e,
            Sbrk "SBRK" 0x7f,
            Lark "LARK" 0xc0 0xc7,
            Lack "LACK" 0xca,
            Rptk "RPTK" 0xcb,
            Addk "ADDK" 0xcc,
            Subk "SUBK" 0xcd,
            Ldpk "LDPK" 0xc8 0xc9,
            Mpyk "MPYK" 0xa0 0xbf,
        }
    };
}

/// A row's first word where every operand is 0.
fn base_of(name: ShortName) -> u16
    ensures value { result ≡ (short_row name).base }
    ensures room { result + extent name ≤ 2 ^ 16 }
{
    short_rows!(base_of name)
}

/// The row that has a first word.
fn name_at(first: u16) -> Option<ShortName>
    ensures found { IfSome result
        (λ name. ((short_row name).base ≤ first) × (first < (short_row name).base + extent name)) }
    ensures none { IfNone result ((name : ShortName) → (short_row name).base ≤ first
        → first < (short_row name).base + extent name → ⊥) }
{
    short_rows!(name_at first >> 8)
}

/// A row's mnemonic.
pub(crate) fn text_of(name: ShortName) -> &'static str
    ensures { result.now ≡ (short_row name).name }
{
    short_rows!(text_of name)
}

/// How many words an instruction of a row has.
pub(crate) fn size_of(name: ShortName) -> u16
    ensures { result ≡ size (family.Short name) }
{
    short_rows!(words_of name)
}

/// The bits that a register and a number have in the first word.
fn bits_of(name: ShortName, register: u16, number: i16) -> u16
    requires { ShortInRange name register number }
    ensures value { result ≡ register * 2 ^ 8 + cut number (short_width name) }
    ensures small { result < extent name }
{
    let number = if number < 0 { number + 0x2000 } else { number };
    (register << 8) + number as u16
}

/// The first word of an instruction.
pub(crate) fn encode(name: ShortName, register: u16, number: i16) -> u16
    requires { ShortInRange name register number }
    ensures { result ≡ opcode_word (insn.Short name register number) }
{
    base_of(name) + bits_of(name, register, number)
}

/// The instruction of this family that has a first word.
pub(crate) fn decode(first: u16) -> Option<Insn>
    ensures found { (second : ℕ) → IfSome result (Reads first second) }
    ensures none { IfNone result ((second : ℕ) (name : ShortName) (register : ℕ) (number : ℤ)
        → Reads first second (insn.Short name register number) → ⊥) }
{
    let name = name_at(first)?;
    let low = Field::<0, 8>::get(first) as i16;
    Some(match name {
        ShortName::Lark => Insn::Short(name, Field::<8, 3>::get(first), low),
        ShortName::Ldpk => Insn::Short(name, 0, Field::<0, 9>::get(first) as i16),
        ShortName::Mpyk => {
            let bits = Field::<0, 13>::get(first) as i16;
            Insn::Short(name, 0, if bits < 0x1000 { bits } else { bits - 0x2000 })
        }
        _ => Insn::Short(name, 0, low),
    })
}

/// Appends an instruction's text.
pub(crate) fn show(
    out: &mut String,
    name: ShortName,
    register: u16,
    number: i16,
) -> Result<(), AllocError>
    ensures { OnOk result
        (string_bytes out.new ≡ string_bytes out.old ++ show (insn.Short name register number)) }
{
    out.push_str(text_of(name))?;
    match name {
        ShortName::Lark => write!(out, " AR{register},{number}"),
        _ => write!(out, " {number}"),
    }
}
