//! The printed text of an instruction with a name in place of its second word.

ghost use Rattle.std.specs.Prelude.{◌≡◌, ◌++◌, ℕ, OnOk, codes, string_bytes};
ghost use Rattle.c25_layout.specs.SourceText.{after_text, show_with, target_text};
ghost use Rattle.c25_meaning_instructions.specs.Show.{change_text, next_text, place_text, show, tail_text};
ghost use Rattle.c25_meaning_instructions.specs.Table.{jump_row, long_mem_row, long_row};
ghost use Rattle.c25_meaning_instructions.specs.declared.insn.Insn.TheVariants as insn;

use crate::layout::Target;
use c25_isa::show;
use c25_meaning_common::no_memory::NoMemory;
use c25_meaning_instructions::insn::{Addr, Change, Insn};
use c25_meaning_instructions::mnemonic::{JumpName, LongMemName, LongName};
use c25_texts::appending::{push_text, push_texts, push_two};
use std::alloc::Global;

/// Appends how many words after a name an address is.
fn push_after(text: &mut String, after: u16) -> Result<(), NoMemory>
    ensures { OnOk result (string_bytes text.new ≡ string_bytes text.old ++ after_text after) }
{
    if after == 0 {
        Ok(())
    } else {
        Ok(write!(text, "+{after}")?)
    }
}

/// Appends the address of a name, or one after it.
pub(crate) fn push_target(text: &mut String, target: &Target) -> Result<(), NoMemory>
    ensures { OnOk result (string_bytes text.new ≡ string_bytes text.old ++ target_text target.now) }
{
    push_text(text, &target.name)?;
    push_after(text, target.after)
}

/// The mnemonic of a jump.
fn jump_name(name: JumpName) -> &'static str
    ensures { result.now ≡ (jump_row name).name }
{
    match name {
        JumpName::Bc => "BC",
        JumpName::Bnc => "BNC",
        JumpName::Bv => "BV",
        JumpName::Bgz => "BGZ",
        JumpName::Blez => "BLEZ",
        JumpName::Blz => "BLZ",
        JumpName::Bgez => "BGEZ",
        JumpName::Bnz => "BNZ",
        JumpName::Bz => "BZ",
        JumpName::Bnv => "BNV",
        JumpName::Bbz => "BBZ",
        JumpName::Bbnz => "BBNZ",
        JumpName::Bioz => "BIOZ",
        JumpName::Banz => "BANZ",
        JumpName::Call => "CALL",
        JumpName::B => "B",
    }
}

/// The mnemonic of an instruction with a long number.
fn long_name(name: LongName) -> &'static str
    ensures { result.now ≡ (long_row name).name }
{
    match name {
        LongName::Lrlk => "LRLK",
        LongName::Lalk => "LALK",
        LongName::Adlk => "ADLK",
        LongName::Sblk => "SBLK",
        LongName::Andk => "ANDK",
        LongName::Ork => "ORK",
        LongName::Xork => "XORK",
    }
}

/// The mnemonic of an instruction with an address and a data word.
fn long_mem_name(name: LongMemName) -> &'static str
    ensures { result.now ≡ (long_mem_row name).name }
{
    match name {
        LongMemName::Macd => "MACD",
        LongMemName::Mac => "MAC",
        LongMemName::Blkp => "BLKP",
        LongMemName::Blkd => "BLKD",
    }
}

/// The printed text of an indirect form.
fn change_text(change: Change) -> &'static str
    ensures { result.now ≡ change_text change }
{
    match change {
        Change::Keep => "*",
        Change::Decrement => "*-",
        Change::Increment => "*+",
        Change::ReverseSubtract => "*BR0-",
        Change::Subtract => "*0-",
        Change::Add => "*0+",
        Change::ReverseAdd => "*BR0+",
    }
}

/// Appends a comma and the next register, where there is one.
fn push_next(text: &mut String, next: Option<u16>) -> Result<(), NoMemory>
    ensures { OnOk result (string_bytes text.new ≡ string_bytes text.old ++ next_text next) }
{
    match next {
        None => Ok(()),
        Some(next) => Ok(write!(text, ",AR{next}")?),
    }
}

/// Appends a direct address or an indirect form.
#[tactic(auto, using(std::proofs::lemmas::Fmt::hex_byte))]
fn push_place(text: &mut String, addr: Addr) -> Result<(), NoMemory>
    ensures { OnOk result (string_bytes text.new ≡ string_bytes text.old ++ place_text addr) }
{
    match addr {
        Addr::Direct(low) => Ok(write!(text, "0{:02X}h", low % 256)?),
        Addr::Indirect(change, _) => push_text(text, change_text(change)),
    }
}

/// Appends the next register of a memory operand, where there is one.
fn push_tail(text: &mut String, addr: Addr) -> Result<(), NoMemory>
    ensures { OnOk result (string_bytes text.new ≡ string_bytes text.old ++ tail_text addr) }
{
    match addr {
        Addr::Direct(_) => Ok(()),
        Addr::Indirect(_, next) => push_next(text, next),
    }
}

/// Appends a mnemonic, a blank and a target.
fn push_with_target(text: &mut String, name: &str, target: &Target) -> Result<(), NoMemory>
    ensures { OnOk result (string_bytes text.new ≡ string_bytes text.old ++ name.now ++ codes " " ++ target_text target.now) }
{
    push_texts(text, &[name, " "])?;
    push_target(text, target)
}

/// Appends `LRLK`, or an instruction with a shift, with a target in place of its number.
fn push_long(text: &mut String, name: LongName, high: u16, target: &Target) -> Result<(), NoMemory>
    ensures { (number : ℕ) → OnOk result (string_bytes text.new ≡ string_bytes text.old ++ show_with (target_text target.now) (insn.Long name number high)) }
{
    match name {
        LongName::Lrlk => {
            write!(text, "LRLK AR{high},")?;
            push_target(text, target)
        }
        _ => {
            push_with_target(text, long_name(name), target)?;
            Ok(write!(text, ",{high}")?)
        }
    }
}

/// Appends an instruction with a data word, with a target in place of its address.
fn push_long_mem(
    text: &mut String,
    name: LongMemName,
    addr: Addr,
    target: &Target,
) -> Result<(), NoMemory>
    ensures { (word : ℕ) → OnOk result (string_bytes text.new ≡ string_bytes text.old ++ show_with (target_text target.now) (insn.LongMem name word addr)) }
{
    push_with_target(text, long_mem_name(name), target)?;
    push_text(text, ",")?;
    push_place(text, addr)?;
    push_tail(text, addr)
}

/// Appends a jump, with a target in place of its address.
fn push_jump(
    text: &mut String,
    name: JumpName,
    change: Change,
    next: Option<u16>,
    target: &Target,
) -> Result<(), NoMemory>
    ensures { (word : ℕ) → OnOk result (string_bytes text.new ≡ string_bytes text.old ++ show_with (target_text target.now) (insn.Jump name word change next)) }
{
    push_with_target(text, jump_name(name), target)?;
    push_texts(text, &[",", change_text(change)])?;
    push_next(text, next)
}

/// Appends the printed text of an instruction.
pub(crate) fn push_plain(alloc: Global, text: &mut String, insn: &Insn) -> Result<(), NoMemory>
    ensures { OnOk result (string_bytes text.new ≡ string_bytes text.old ++ show insn.now) }
{
    let shown = show(alloc, insn)?;
    push_text(text, &shown)
}

/// Appends the printed text of an instruction, with a target in place of its second word.
pub(crate) fn push_named(
    alloc: Global,
    text: &mut String,
    insn: &Insn,
    target: &Target,
) -> Result<(), NoMemory>
    ensures { OnOk result (string_bytes text.new ≡ string_bytes text.old ++ show_with (target_text target.now) insn.now) }
{
    match *insn {
        Insn::Long(name, _, high) => push_long(text, name, high, target),
        Insn::LongMem(name, _, addr) => push_long_mem(text, name, addr, target),
        Insn::Jump(name, _, change, next) => push_jump(text, name, change, next, target),
        _ => push_plain(alloc, text, insn),
    }
}
