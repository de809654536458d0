//! Instructions with one memory operand: one word, a high byte of the row's own above the operand
//! byte.

ghost use Rattle.std.specs.Prelude.{◌≡◌, ℕ, ◌+◌, ◌*◌, ◌++◌, ◌≤◌, ◌^◌, IfSome, IfNone, OnOk, string_bytes};
ghost use Rattle.c25_meaning_instructions.specs.Table.{mem_row, size, opcode_word, Reads, AddrInRange};
ghost use Rattle.c25_meaning_instructions.specs.Show.{show};
ghost use Rattle.c25_meaning_instructions.specs.declared.mnemonic.MemName.{MemName};
ghost use Rattle.c25_meaning_instructions.specs.declared.mnemonic.Mnemonic.TheVariants as family;
ghost use Rattle.c25_meaning_instructions.specs.declared.insn.Addr.{Addr};
ghost use Rattle.c25_meaning_instructions.specs.declared.insn.Insn.TheVariants as insn;

use crate::{addr, rows, text};
use c25_bits::Field;
use c25_meaning_instructions::insn::{Addr, Insn};
use c25_meaning_instructions::mnemonic::MemName;
use std::alloc::AllocError;

macro_rules! mem_rows {
    ($what:ident $value:expr) => {
        rows::$what! { MemName 1 $value;
            Mpy "MPY" 0x38,
            Sqra "SQRA" 0x39,
            Mpya "MPYA" 0x3a,
            Mpys "MPYS" 0x3b,
            Lt "LT" 0x3c,
            Lta "LTA" 0x3d,
            Ltp "LTP" 0x3e,
            Ltd "LTD" 0x3f,
            Zalh "ZALH" 0x40,
            Zals "ZALS" 0x41,
            Lact "LACT" 0x42,
            Addc "ADDC" 0x43,
            Subh "SUBH" 0x44,
            Subs "SUBS" 0x45,
            Subt "SUBT" 0x46,
            Subc "SUBC" 0x47,
            Addh "ADDH" 0x48,
            Adds "ADDS" 0x49,
            Addt "ADDT" 0x4a,
            Rpt "RPT" 0x4b,
            Xor "XOR" 0x4c,
            Or "OR" 0x4d,
            And "AND" 0x4e,
            Subb "SUBB" 0x4f,
            Lst "LST" 0x50,
            Lst1 "LST1" 0x51,
            Ldp "LDP" 0x52,
            Lph "LPH" 0x53,
            Pshd "PSHD" 0x54,
            Mar "MAR" 0x55,
            Dmov "DMOV" 0x56,
            Bitt "BITT" 0x57,
            Tblr "TBLR" 0x58,
            Tblw "TBLW" 0x59,
            Sqrs "SQRS" 0x5a,
            Lts "LTS" 0x5b,
            Sst "SST" 0x78,
            Sst1 "SST1" 0x79,
            Popd "POPD" 0x7a,
            Zalr "ZALR" 0x7b,
            Spl "SPL" 0x7c,
            Sph "SPH" 0x7d,
            Mpyu "MPYU" 0xcf,
        }
    };
}

/// A row's first word where every operand is 0.
fn base_of(name: MemName) -> u16
    ensures value { result ≡ (mem_row name).base }
    ensures room { result + 256 ≤ 2 ^ 16 }
{
    mem_rows!(base_of name)
}

/// The row that has a high byte.
fn name_at(high: u16) -> Option<MemName>
    ensures found { IfSome result (λ name. (mem_row name).base ≡ 256 * high) }
    ensures none { IfNone result ((name : MemName) → (mem_row name).base ≡ 256 * high → ⊥) }
{
    mem_rows!(name_at high)
}

/// A row's mnemonic.
pub(crate) fn text_of(name: MemName) -> &'static str
    ensures { result.now ≡ (mem_row name).name }
{
    mem_rows!(text_of name)
}

/// How many words an instruction of a row has.
pub(crate) fn size_of(name: MemName) -> u16
    ensures { result ≡ size (family.Mem name) }
{
    mem_rows!(words_of name)
}

/// The first word of an instruction.
pub(crate) fn encode(name: MemName, addr: Addr) -> u16
    requires { AddrInRange addr }
    ensures { result ≡ opcode_word (insn.Mem name addr) }
{
    base_of(name) + addr::byte_of_addr(addr)
}

/// The instruction of this family that has a first word.
pub(crate) fn decode(first: u16) -> Option<Insn>
    ensures found { (second : ℕ) → IfSome result (Reads first second) }
    ensures none { IfNone result ((second : ℕ) (name : MemName) (addr : Addr)
        → Reads first second (insn.Mem name addr) → ⊥) }
{
    let name = name_at(Field::<8, 8>::get(first))?;
    let addr = addr::addr_of_byte(Field::<0, 8>::get(first))?;
    Some(Insn::Mem(name, addr))
}

/// Appends an instruction's text.
pub(crate) fn show(out: &mut String, name: MemName, addr: Addr) -> Result<(), AllocError>
    ensures { OnOk result
        (string_bytes out.new ≡ string_bytes out.old ++ show (insn.Mem name addr)) }
{
    text::push_with_place(out, text_of(name), addr)?;
    text::push_tail(out, addr)
}
