//! Instructions with a memory operand and a shift: one word, the shift in the high byte.

ghost use Rattle.std.specs.Prelude.{◌≡◌, ℕ, pos, ◌+◌, ◌*◌, ◌%◌, ◌++◌, ◌<◌, ◌≤◌, ◌^◌, IfSome, IfNone, OnOk, string_bytes};
ghost use Rattle.c25_meaning_instructions.specs.Table.{shifted_row, size, placed, opcode_word, Reads, AddrInRange, shift_limit};
ghost use Rattle.c25_meaning_instructions.specs.Show.{show};
ghost use Rattle.c25_meaning_instructions.specs.declared.mnemonic.ShiftedName.{ShiftedName};
ghost use Rattle.c25_meaning_instructions.specs.declared.mnemonic.Mnemonic.TheVariants as family;
ghost use Rattle.c25_meaning_instructions.specs.declared.insn.Addr.{Addr};
ghost use Rattle.c25_meaning_instructions.specs.declared.insn.Insn.TheVariants as insn;

use crate::{addr, rows, text};
use c25_bits::Field;
use c25_meaning_instructions::insn::{Addr, Insn};
use c25_meaning_instructions::mnemonic::ShiftedName;
use std::alloc::AllocError;

macro_rules! shifted_rows {
    ($what:ident $value:expr) => {
        rows::$what! { ShiftedName 1 $value;
            Add "ADD" 0x00 0x0f,
            Sub "SUB" 0x10 0x1f,
            Lac "LAC" 0x20 0x2f,
            Sacl "SACL" 0x60 0x67,
            Sach "SACH" 0x68 0x6f,
        }
    };
}

/// A row's first word where every operand is 0.
fn base_of(name: ShiftedName) -> u16
    ensures value { result ≡ (shifted_row name).base }
    ensures room { result + 256 * shift_limit name ≤ 2 ^ 16 }
{
    shifted_rows!(base_of name)
}

/// The row of a first word, and the shift in its high byte.
fn row_of(first: u16) -> Option<(ShiftedName, u16)>
    ensures found { IfSome result (λ found. (found.1 < shift_limit found.0)
        × ((shifted_row found.0).base + found.1 * 2 ^ 8 + first % 256 ≡ first)) }
    ensures none { IfNone result ((name : ShiftedName) (shift low : ℕ) → shift < shift_limit name
        → low < 256 → (shifted_row name).base + placed (pos shift) 8 4 + low ≡ first → ⊥) }
{
    shifted_rows!(numbered_at first >> 8)
}

/// A row's mnemonic.
pub(crate) fn text_of(name: ShiftedName) -> &'static str
    ensures { result.now ≡ (shifted_row name).name }
{
    shifted_rows!(text_of name)
}

/// How many words an instruction of a row has.
pub(crate) fn size_of(name: ShiftedName) -> u16
    ensures { result ≡ size (family.Shifted name) }
{
    shifted_rows!(words_of name)
}

/// The first word of an instruction.
pub(crate) fn encode(name: ShiftedName, addr: Addr, shift: u16) -> u16
    requires shift_in_range { shift < shift_limit name }
    requires addr_in_range { AddrInRange addr }
    ensures { result ≡ opcode_word (insn.Shifted name addr shift) }
{
    base_of(name) + (shift << 8) + addr::byte_of_addr(addr)
}

/// The instruction of this family that has a first word.
pub(crate) fn decode(first: u16) -> Option<Insn>
    ensures found { (second : ℕ) → IfSome result (Reads first second) }
    ensures none { IfNone result ((second : ℕ) (name : ShiftedName) (addr : Addr) (shift : ℕ)
        → Reads first second (insn.Shifted name addr shift) → ⊥) }
{
    let (name, shift) = row_of(first)?;
    let addr = addr::addr_of_byte(Field::<0, 8>::get(first))?;
    Some(Insn::Shifted(name, addr, shift))
}

/// Appends an instruction's text.
pub(crate) fn show(
    out: &mut String,
    name: ShiftedName,
    addr: Addr,
    shift: u16,
) -> Result<(), AllocError>
    ensures { OnOk result
        (string_bytes out.new ≡ string_bytes out.old ++ show (insn.Shifted name addr shift)) }
{
    text::push_with_place(out, text_of(name), addr)?;
    write!(out, ",{shift}")?;
    text::push_tail(out, addr)
}
