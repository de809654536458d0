//! The test of a bit of a memory operand: one word, the bit code in the high byte.

ghost use Rattle.std.specs.Prelude.{◌≡◌, ℕ, pos, ◌+◌, ◌*◌, ◌%◌, ◌++◌, ◌<◌, ◌≤◌, ◌^◌, IfSome, IfNone, OnOk, string_bytes};
ghost use Rattle.c25_meaning_instructions.specs.Table.{bit_row, size, placed, opcode_word, Reads, AddrInRange};
ghost use Rattle.c25_meaning_instructions.specs.Show.{show};
ghost use Rattle.c25_meaning_instructions.specs.declared.mnemonic.BitName.{BitName};
ghost use Rattle.c25_meaning_instructions.specs.declared.mnemonic.Mnemonic.TheVariants as family;
ghost use Rattle.c25_meaning_instructions.specs.declared.insn.Addr.{Addr};
ghost use Rattle.c25_meaning_instructions.specs.declared.insn.Insn.TheVariants as insn;

use crate::{addr, rows, text};
use c25_bits::Field;
use c25_meaning_instructions::insn::{Addr, Insn};
use c25_meaning_instructions::mnemonic::BitName;
use std::alloc::AllocError;

macro_rules! bit_rows {
    ($what:ident $value:expr) => {
        rows::$what! { BitName 1 $value;
            Bit "BIT" 0x90 0x9f,
        }
    };
}

/// A row's first word where every operand is 0.
fn base_of(name: BitName) -> u16
    ensures value { result ≡ (bit_row name).base }
    ensures room { result + 256 * 16 ≤ 2 ^ 16 }
{
    bit_rows!(base_of name)
}

/// The row of a first word, and the bit code in its high byte.
fn row_of(first: u16) -> Option<(BitName, u16)>
    ensures found { IfSome result (λ found. (found.1 < 16)
        × ((bit_row found.0).base + found.1 * 2 ^ 8 + first % 256 ≡ first)) }
    ensures none { IfNone result ((name : BitName) (code low : ℕ) → code < 16 → low < 256
        → (bit_row name).base + placed (pos code) 8 4 + low ≡ first → ⊥) }
{
    bit_rows!(numbered_at first >> 8)
}

/// A row's mnemonic.
pub(crate) fn text_of(name: BitName) -> &'static str
    ensures { result.now ≡ (bit_row name).name }
{
    bit_rows!(text_of name)
}

/// How many words an instruction of a row has.
pub(crate) fn size_of(name: BitName) -> u16
    ensures { result ≡ size (family.Bit name) }
{
    bit_rows!(words_of name)
}

/// The first word of an instruction.
pub(crate) fn encode(name: BitName, addr: Addr, code: u16) -> u16
    requires code_in_range { code < 16 }
    requires addr_in_range { AddrInRange addr }
    ensures { result ≡ opcode_word (insn.Bit name addr code) }
{
    base_of(name) + (code << 8) + addr::byte_of_addr(addr)
}

/// The instruction of this family that has a first word.
pub(crate) fn decode(first: u16) -> Option<Insn>
    ensures found { (second : ℕ) → IfSome result (Reads first second) }
    ensures none { IfNone result ((second : ℕ) (name : BitName) (addr : Addr) (code : ℕ)
        → Reads first second (insn.Bit name addr code) → ⊥) }
{
    let (name, code) = row_of(first)?;
    let addr = addr::addr_of_byte(Field::<0, 8>::get(first))?;
    Some(Insn::Bit(name, addr, code))
}

/// Appends an instruction's text.
pub(crate) fn show(out: &mut String, name: BitName, addr: Addr, code: u16) -> Result<(), AllocError>
    ensures { OnOk result
        (string_bytes out.new ≡ string_bytes out.old ++ show (insn.Bit name addr code)) }
{
    text::push_with_place(out, text_of(name), addr)?;
    write!(out, ",{code}")?;
    text::push_tail(out, addr)
}
