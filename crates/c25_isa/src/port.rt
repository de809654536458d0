//! Instructions with a memory operand and a port: one word, the port in the high byte.

ghost use Rattle.std.specs.Prelude.{◌≡◌, ℕ, pos, ◌+◌, ◌*◌, ◌%◌, ◌++◌, ◌<◌, ◌≤◌, ◌^◌, IfSome, IfNone, OnOk, string_bytes};
ghost use Rattle.c25_meaning_instructions.specs.Table.{port_row, size, placed, opcode_word, Reads, AddrInRange};
ghost use Rattle.c25_meaning_instructions.specs.Show.{show};
ghost use Rattle.c25_meaning_instructions.specs.declared.mnemonic.PortName.{PortName};
ghost use Rattle.c25_meaning_instructions.specs.declared.mnemonic.Mnemonic.TheVariants as family;
ghost use Rattle.c25_meaning_instructions.specs.declared.insn.Addr.{Addr};
ghost use Rattle.c25_meaning_instructions.specs.declared.insn.Insn.TheVariants as insn;

use crate::{addr, rows, text};
use c25_bits::Field;
use c25_meaning_instructions::insn::{Addr, Insn};
use c25_meaning_instructions::mnemonic::PortName;
use std::alloc::AllocError;

macro_rules! port_rows {
    ($what:ident $value:expr) => {
        rows::$what! { PortName 1 $value;
            In "IN" 0x80 0x8f,
            Out "OUT" 0xe0 0xef,
        }
    };
}

/// A row's first word where every operand is 0.
fn base_of(name: PortName) -> u16
    ensures value { result ≡ (port_row name).base }
    ensures room { result + 256 * 16 ≤ 2 ^ 16 }
{
    port_rows!(base_of name)
}

/// The row of a first word, and the port in its high byte.
fn row_of(first: u16) -> Option<(PortName, u16)>
    ensures found { IfSome result (λ found. (found.1 < 16)
        × ((port_row found.0).base + found.1 * 2 ^ 8 + first % 256 ≡ first)) }
    ensures none { IfNone result ((name : PortName) (port low : ℕ) → port < 16 → low < 256
        → (port_row name).base + placed (pos port) 8 4 + low ≡ first → ⊥) }
{
    port_rows!(numbered_at first >> 8)
}

/// A row's mnemonic.
pub(crate) fn text_of(name: PortName) -> &'static str
    ensures { result.now ≡ (port_row name).name }
{
    port_rows!(text_of name)
}

/// How many words an instruction of a row has.
pub(crate) fn size_of(name: PortName) -> u16
    ensures { result ≡ size (family.Port name) }
{
    port_rows!(words_of name)
}

/// The first word of an instruction.
pub(crate) fn encode(name: PortName, addr: Addr, port: u16) -> u16
    requires port_in_range { port < 16 }
    requires addr_in_range { AddrInRange addr }
    ensures { result ≡ opcode_word (insn.Port name addr port) }
{
    base_of(name) + (port << 8) + addr::byte_of_addr(addr)
}

/// The instruction of this family that has a first word.
pub(crate) fn decode(first: u16) -> Option<Insn>
    ensures found { (second : ℕ) → IfSome result (Reads first second) }
    ensures none { IfNone result ((second : ℕ) (name : PortName) (addr : Addr) (port : ℕ)
        → Reads first second (insn.Port name addr port) → ⊥) }
{
    let (name, port) = row_of(first)?;
    let addr = addr::addr_of_byte(Field::<0, 8>::get(first))?;
    Some(Insn::Port(name, addr, port))
}

/// Appends an instruction's text.
pub(crate) fn show(
    out: &mut String,
    name: PortName,
    addr: Addr,
    port: u16,
) -> Result<(), AllocError>
    ensures { OnOk result
        (string_bytes out.new ≡ string_bytes out.old ++ show (insn.Port name addr port)) }
{
    text::push_with_place(out, text_of(name), addr)?;
    write!(out, ",PA{port}")?;
    text::push_tail(out, addr)
}
