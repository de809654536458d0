//! Instructions with an auxiliary register and a memory operand: one word, the register in the high
//! byte.

ghost use Rattle.std.specs.Prelude.{◌≡◌, ℕ, pos, ◌+◌, ◌*◌, ◌%◌, ◌++◌, ◌<◌, ◌≤◌, ◌^◌, IfSome, IfNone, OnOk, string_bytes};
ghost use Rattle.c25_meaning_instructions.specs.Table.{ar_mem_row, size, placed, opcode_word, Reads, AddrInRange};
ghost use Rattle.c25_meaning_instructions.specs.Show.{show};
ghost use Rattle.c25_meaning_instructions.specs.declared.mnemonic.ArMemName.{ArMemName};
ghost use Rattle.c25_meaning_instructions.specs.declared.mnemonic.Mnemonic.TheVariants as family;
ghost use Rattle.c25_meaning_instructions.specs.declared.insn.Addr.{Addr};
ghost use Rattle.c25_meaning_instructions.specs.declared.insn.Insn.TheVariants as insn;

use crate::{addr, rows, text};
use c25_bits::Field;
use c25_meaning_instructions::insn::{Addr, Insn};
use c25_meaning_instructions::mnemonic::ArMemName;
use std::alloc::AllocError;

macro_rules! ar_mem_rows {
    ($what:ident $value:expr) => {
        rows::$what! { ArMemName 1 $value;
            Lar "LAR" 0x30 0x37,
            Sar "SAR" 0x70 0x77,
        }
    };
}

/// A row's first word where every operand is 0.
fn base_of(name: ArMemName) -> u16
    ensures value { result ≡ (ar_mem_row name).base }
    ensures room { result + 256 * 8 ≤ 2 ^ 16 }
{
    ar_mem_rows!(base_of name)
}

/// The row of a first word, and the register in its high byte.
fn row_of(first: u16) -> Option<(ArMemName, u16)>
    ensures found { IfSome result (λ found. (found.1 < 8)
        × ((ar_mem_row found.0).base + found.1 * 2 ^ 8 + first % 256 ≡ first)) }
    ensures none { IfNone result ((name : ArMemName) (register low : ℕ) → register < 8 → low < 256
        → (ar_mem_row name).base + placed (pos register) 8 3 + low ≡ first → ⊥) }
{
    ar_mem_rows!(numbered_at first >> 8)
}

/// A row's mnemonic.
pub(crate) fn text_of(name: ArMemName) -> &'static str
    ensures { result.now ≡ (ar_mem_row name).name }
{
    ar_mem_rows!(text_of name)
}

/// How many words an instruction of a row has.
pub(crate) fn size_of(name: ArMemName) -> u16
    ensures { result ≡ size (family.ArMem name) }
{
    ar_mem_rows!(words_of name)
}

/// The first word of an instruction.
pub(crate) fn encode(name: ArMemName, register: u16, addr: Addr) -> u16
    requires register_in_range { register < 8 }
    requires addr_in_range { AddrInRange addr }
    ensures { result ≡ opcode_word (insn.ArMem name register addr) }
{
    base_of(name) + (register << 8) + addr::byte_of_addr(addr)
}

/// The instruction of this family that has a first word.
pub(crate) fn decode(first: u16) -> Option<Insn>
    ensures found { (second : ℕ) → IfSome result (Reads first second) }
    ensures none { IfNone result ((second : ℕ) (name : ArMemName) (register : ℕ) (addr : Addr)
        → Reads first second (insn.ArMem name register addr) → ⊥) }
{
    let (name, register) = row_of(first)?;
    let addr = addr::addr_of_byte(Field::<0, 8>::get(first))?;
    Some(Insn::ArMem(name, register, addr))
}

/// Appends an instruction's text.
pub(crate) fn show(
    out: &mut String,
    name: ArMemName,
    register: u16,
    addr: Addr,
) -> Result<(), AllocError>
    ensures { OnOk result
        (string_bytes out.new ≡ string_bytes out.old ++ show (insn.ArMem name register addr)) }
{
    out.push_str(text_of(name))?;
    write!(out, " AR{register},")?;
    text::push_place(out, addr)?;
    text::push_tail(out, addr)
}
