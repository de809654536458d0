//! The printed text of an instruction, as the assembler reads it.

ghost use Rattle.std.specs.Prelude.{◌≡◌, ◌++◌, ◌<◌, IfOk, OnOk, codes, string_bytes};
ghost use Rattle.c25_meaning_instructions.specs.Show.{show, long_text, change_text, place_text, next_text, tail_text};
ghost use Rattle.c25_meaning_common.specs.Digits.{hex_digit, two_digits, four_digits};

use crate::{ar_mem, bit, jump, long, long_mem, mem, plain, port, shifted, short};
use c25_meaning_common::no_memory::NoMemory;
use c25_meaning_instructions::insn::{Addr, Change, Insn};
use std::alloc::{AllocError, Global};

/// Appends a word as a hexadecimal constant of four digits.
#[tactic(auto, using(std::proofs::lemmas::Fmt::hex_byte))]
pub(crate) fn push_long(out: &mut String, number: u16) -> Result<(), AllocError>
    ensures { OnOk result (string_bytes out.new ≡ string_bytes out.old ++ long_text number) }
{
    let high = number >> 8;
    let low = number % 256;
    write!(out, "0{high:02X}{low:02X}h")
}

/// The printed text of an indirect form.
pub(crate) fn text_of_change(change: Change) -> &'static str
    ensures { result.now ≡ change_text change }
{
    match change {
        Change::Keep => "*",
        Change::Decrement => "*-",
        Change::Increment => "*+",
        Change::ReverseSubtract => "*BR0-",
        Change::Subtract => "*0-",
        Change::Add => "*0+",
        Change::ReverseAdd => "*BR0+",
    }
}

/// Appends a memory operand: a direct address or an indirect form.
#[tactic(auto, using(std::proofs::lemmas::Fmt::hex_byte))]
pub(crate) fn push_place(out: &mut String, addr: Addr) -> Result<(), AllocError>
    ensures { OnOk result (string_bytes out.new ≡ string_bytes out.old ++ place_text addr) }
{
    match addr {
        Addr::Direct(low) => write!(out, "0{:02X}h", low % 256),
        Addr::Indirect(change, _) => out.push_str(text_of_change(change)),
    }
}

/// Appends a comma and the next register, where there is one.
pub(crate) fn push_next(out: &mut String, next: Option<u16>) -> Result<(), AllocError>
    ensures { OnOk result (string_bytes out.new ≡ string_bytes out.old ++ next_text next) }
{
    match next {
        None => Ok(()),
        Some(next) => write!(out, ",AR{next}"),
    }
}

/// Appends the next register of a memory operand, where there is one.
pub(crate) fn push_tail(out: &mut String, addr: Addr) -> Result<(), AllocError>
    ensures { OnOk result (string_bytes out.new ≡ string_bytes out.old ++ tail_text addr) }
{
    match addr {
        Addr::Direct(_) => Ok(()),
        Addr::Indirect(_, next) => push_next(out, next),
    }
}

/// Appends a mnemonic, a blank, and a direct address or an indirect form.
pub(crate) fn push_with_place(out: &mut String, name: &str, addr: Addr) -> Result<(), AllocError>
    ensures { OnOk result
        (string_bytes out.new ≡ string_bytes out.old ++ name.now ++ codes " " ++ place_text addr) }
{
    out.push_str(name)?;
    out.push_str(" ")?;
    push_place(out, addr)
}

/// Appends a mnemonic, a blank, and a word as a hexadecimal constant.
pub(crate) fn push_with_long(out: &mut String, name: &str, number: u16) -> Result<(), AllocError>
    ensures { OnOk result
        (string_bytes out.new ≡ string_bytes out.old ++ name.now ++ codes " " ++ long_text number) }
{
    out.push_str(name)?;
    out.push_str(" ")?;
    push_long(out, number)
}

/// Appends an instruction's text.
fn push(out: &mut String, insn: &Insn) -> Result<(), AllocError>
    ensures { OnOk result (string_bytes out.new ≡ string_bytes out.old ++ show insn.now) }
{
    match *insn {
        Insn::Mem(name, addr) => mem::show(out, name, addr),
        Insn::Shifted(name, addr, shift) => shifted::show(out, name, addr, shift),
        Insn::ArMem(name, register, addr) => ar_mem::show(out, name, register, addr),
        Insn::Port(name, addr, port) => port::show(out, name, addr, port),
        Insn::Bit(name, addr, code) => bit::show(out, name, addr, code),
        Insn::Short(name, register, number) => short::show(out, name, register, number),
        Insn::Long(name, number, high) => long::show(out, name, number, high),
        Insn::LongMem(name, word, addr) => long_mem::show(out, name, word, addr),
        Insn::Jump(name, word, change, next) => jump::show(out, name, word, change, next),
        Insn::Plain(name, operand) => plain::show(out, name, operand),
    }
}

/// The text of an instruction: its mnemonic, a blank, and its operands in the order of the syntax, joined by
/// commas. Addresses and long numbers are hexadecimal constants, auxiliary registers `AR1`, ports `PA1`,
/// other numbers decimal. A shift of 0 is printed, and so is the indirect form of a jump or of `NORM`.
///
/// `NoMemory` where memory runs out.
pub fn show(alloc: Global, insn: &Insn) -> Result<String, NoMemory>
    ensures { IfOk result (λ text. string_bytes text ≡ show insn.now) }
{
    let mut out = String::new(alloc);
    push(&mut out, insn)?;
    Ok(out)
}
