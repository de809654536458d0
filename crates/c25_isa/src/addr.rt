//! The operand byte: where an instruction finds its data word (SPRU014, "Memory Addressing Modes").

ghost use Rattle.std.specs.Prelude.{◌≡◌, ◌+◌, ◌*◌, ◌<◌, ◌≤◌, ◌^◌, IfSome, IfNone, Option, ℕ};
ghost use Rattle.c25_meaning_instructions.specs.Table.{operand_byte, indirect_byte, change_number, AddrInRange, NextInRange};
ghost use Rattle.c25_meaning_instructions.specs.declared.insn.Addr.{Addr};
ghost use Rattle.c25_meaning_instructions.specs.declared.insn.Change.{Change};

use c25_bits::Field;
use c25_meaning_instructions::insn::{Addr, Change};

/// The bits of an indirect operand byte that say how the auxiliary register changes.
type ChangeField = Field<4, 3>;

/// The bits of an indirect operand byte that name the next auxiliary register.
type LowField = Field<0, 4>;

/// The code of a change of the auxiliary register in an operand byte.
pub(crate) fn number_of_change(change: Change) -> u16
    ensures value { result ≡ change_number change }
    ensures small { result < 8 }
{
    match change {
        Change::Keep => 0,
        Change::Decrement => 1,
        Change::Increment => 2,
        Change::ReverseSubtract => 4,
        Change::Subtract => 5,
        Change::Add => 6,
        Change::ReverseAdd => 7,
    }
}

/// The change of the auxiliary register that has a code; 3 is reserved.
pub(crate) fn change_of_number(number: u16) -> Option<Change>
    ensures found { IfSome result (λ change. change_number change ≡ number) }
    ensures none { IfNone result ((change : Change) → change_number change ≡ number → ⊥) }
{
    match number {
        0 => Some(Change::Keep),
        1 => Some(Change::Decrement),
        2 => Some(Change::Increment),
        4 => Some(Change::ReverseSubtract),
        5 => Some(Change::Subtract),
        6 => Some(Change::Add),
        7 => Some(Change::ReverseAdd),
        _ => None,
    }
}

/// The byte of an indirect operand.
pub(crate) fn byte_of_indirect(change: Change, next: Option<u16>) -> u16
    requires { NextInRange next }
    ensures value { result ≡ indirect_byte change next }
    ensures large { 128 ≤ result }
    ensures small { result < 256 }
{
    let byte = 0x80 + (number_of_change(change) << 4);
    match next {
        None => byte,
        Some(next) => byte + 8 + next,
    }
}

/// The byte of an operand.
pub(crate) fn byte_of_addr(addr: Addr) -> u16
    requires { AddrInRange addr }
    ensures value { result ≡ operand_byte addr }
    ensures small { result < 256 }
{
    match addr {
        Addr::Direct(low) => low,
        Addr::Indirect(change, next) => byte_of_indirect(change, next),
    }
}

/// The change and the next register of an indirect operand byte. Where the byte names no next register, its
/// low bits must be 0.
pub(crate) fn indirect_of_byte(byte: u16) -> Option<(Change, Option<u16>)>
    requires low { 128 ≤ byte }
    requires high { byte < 256 }
    ensures found { IfSome result
        (λ found. NextInRange found.1 × (indirect_byte found.0 found.1 ≡ byte)) }
    ensures none { IfNone result ((change : Change) (next : Option ℕ) → NextInRange next
        → indirect_byte change next ≡ byte → ⊥) }
{
    let change = change_of_number(ChangeField::get(byte))?;
    match LowField::get(byte) {
        0 => Some((change, None)),
        low @ 8..=15 => Some((change, Some(low - 8))),
        _ => None,
    }
}

/// The operand that a byte stands for.
pub(crate) fn addr_of_byte(byte: u16) -> Option<Addr>
    requires { byte < 256 }
    ensures found { IfSome result (λ addr. AddrInRange addr × (operand_byte addr ≡ byte)) }
    ensures none { IfNone result ((addr : Addr) → AddrInRange addr → operand_byte addr ≡ byte → ⊥) }
{
    if byte < 0x80 {
        return Some(Addr::Direct(byte));
    }
    let (change, next) = indirect_of_byte(byte)?;
    Some(Addr::Indirect(change, next))
}
