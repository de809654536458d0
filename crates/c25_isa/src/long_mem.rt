//! Instructions with a long address and a memory operand: two words, the first like that of an instruction
//! with a memory operand alone.

ghost use Rattle.std.specs.Prelude.{◌≡◌, ℕ, ◌+◌, ◌*◌, ◌++◌, ◌≤◌, ◌^◌, IfSome, IfNone, OnOk, string_bytes};
ghost use Rattle.c25_meaning_instructions.specs.Table.{long_mem_row, size, opcode_word, Reads, AddrInRange};
ghost use Rattle.c25_meaning_instructions.specs.Show.{show};
ghost use Rattle.c25_meaning_instructions.specs.declared.mnemonic.LongMemName.{LongMemName};
ghost use Rattle.c25_meaning_instructions.specs.declared.mnemonic.Mnemonic.TheVariants as family;
ghost use Rattle.c25_meaning_instructions.specs.declared.insn.Addr.{Addr};
ghost use Rattle.c25_meaning_instructions.specs.declared.insn.Insn.TheVariants as insn;

use crate::{addr, rows, text};
use c25_bits::Field;
use c25_meaning_instructions::insn::{Addr, Insn};
use c25_meaning_instructions::mnemonic::LongMemName;
use std::alloc::AllocError;

macro_rules! long_mem_rows {
    ($what:ident $value:expr) => {
        rows::$what! { LongMemName 2 $value;
            Macd "MACD" 0x5c,
            Mac "MAC" 0x5d,
            Blkp "BLKP" 0xfc,
            Blkd "BLKD" 0xfd,
        }
    };
}

/// A row's first word where every operand is 0.
fn base_of(name: LongMemName) -> u16
    ensures value { result ≡ (long_mem_row name).base }
    ensures room { result + 256 ≤ 2 ^ 16 }
{
    long_mem_rows!(base_of name)
}

/// The row that has a high byte.
fn name_at(high: u16) -> Option<LongMemName>
    ensures found { IfSome result (λ name. (long_mem_row name).base ≡ 256 * high) }
    ensures none { IfNone result ((name : LongMemName)
        → (long_mem_row name).base ≡ 256 * high → ⊥) }
{
    long_mem_rows!(name_at high)
}

/// A row's mnemonic.
pub(crate) fn text_of(name: LongMemName) -> &'static str
    ensures { result.now ≡ (long_mem_row name).name }
{
    long_mem_rows!(text_of name)
}

/// How many words an instruction of a row has.
pub(crate) fn size_of(name: LongMemName) -> u16
    ensures { result ≡ size (family.LongMem name) }
{
    long_mem_rows!(words_of name)
}

/// The first word of an instruction.
pub(crate) fn encode(name: LongMemName, word: u16, addr: Addr) -> u16
    requires { AddrInRange addr }
    ensures { result ≡ opcode_word (insn.LongMem name word addr) }
{
    base_of(name) + addr::byte_of_addr(addr)
}

/// The instruction of this family that two words make.
pub(crate) fn decode(first: u16, second: u16) -> Option<Insn>
    ensures found { IfSome result (Reads first second) }
    ensures none { IfNone result ((name : LongMemName) (word : ℕ) (addr : Addr)
        → Reads first second (insn.LongMem name word addr) → ⊥) }
{
    let name = name_at(Field::<8, 8>::get(first))?;
    let addr = addr::addr_of_byte(Field::<0, 8>::get(first))?;
    Some(Insn::LongMem(name, second, addr))
}

/// Appends an instruction's text.
pub(crate) fn show(
    out: &mut String,
    name: LongMemName,
    word: u16,
    addr: Addr,
) -> Result<(), AllocError>
    ensures { OnOk result
        (string_bytes out.new ≡ string_bytes out.old ++ show (insn.LongMem name word addr)) }
{
    text::push_with_long(out, text_of(name), word)?;
    out.push_str(",")?;
    text::push_place(out, addr)?;
    text::push_tail(out, addr)
}
