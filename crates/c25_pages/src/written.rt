//! The data word that an instruction writes.

ghost use Rattle.std.specs.Prelude.{◌≡◌, ◌+◌, ◌*◌, ◌%◌, ◌^◌, ◌≤◌, ℕ, true, Some};
ghost use Rattle.c25_meaning_instructions.specs.declared.mnemonic.MemName.TheVariants.{Sst};
ghost use Rattle.c25_meaning_processor.specs.Effect.{mem_address};
ghost use Rattle.c25_meaning_processor.specs.Operand.{address_of};
ghost use Rattle.c25_meaning_processor.specs.declared.registers.Registers.{Registers};
ghost use Rattle.c25_pages.specs.Written.{mem_writes, place_written, writes};

use c25_meaning_instructions::insn::{Addr, Insn};
use c25_meaning_instructions::mnemonic::{ArMemName, LongMemName, MemName, PortName, ShiftedName};

/// Which data word an instruction writes.
#[derive(Clone, Copy)]
pub enum Written {
    /// None.
    Nothing,
    /// Its operand.
    Operand(Addr),
    /// The word after its operand.
    After(Addr),
    /// Its operand, which is on data page 0 if it is direct.
    Status(Addr),
}

/// Which data word an instruction with a data word alone writes.
fn mem_writes(name: MemName, operand: &Addr) -> Written
    ensures { result ≡ mem_writes name operand.now }
{
    match name {
        MemName::Ltd | MemName::Dmov => Written::After(*operand),
        MemName::Tblr | MemName::Popd | MemName::Spl | MemName::Sph => Written::Operand(*operand),
        MemName::Sst | MemName::Sst1 => Written::Status(*operand),
        _ => Written::Nothing,
    }
}

/// Which data word an instruction writes.
pub fn writes(insn: &Insn) -> Written
    ensures { result ≡ writes insn.now }
{
    match insn {
        Insn::Mem(name, operand) => mem_writes(*name, operand),
        Insn::Shifted(ShiftedName::Sacl | ShiftedName::Sach, operand, _)
        | Insn::ArMem(ArMemName::Sar, _, operand)
        | Insn::Port(PortName::In, operand, _)
        | Insn::LongMem(LongMemName::Blkp | LongMemName::Blkd, _, operand) => Written::Operand(
            *operand,
        ),
        Insn::LongMem(LongMemName::Macd, _, operand) => Written::After(*operand),
        _ => Written::Nothing,
    }
}

/// Whether a direct operand, or for `after` 1 the word after it, may be a data word, where DP is known or not.
fn may_be(page: Option<u16>, low: u16, after: u16, word: u16) -> bool
    requires { after ≤ 1 }
    ensures { (dp : ℕ) → ((p : ℕ) → page ≡ Some p → dp ≡ p)
        → (dp * 128 + low % 128 + after) % 2 ^ 16 ≡ word → result ≡ true }
{
    match page {
        None => (low % 128 + after) % 128 == word % 128,
        Some(page) => { (page as u32 * 128 + (low % 128 + after) as u32) % 65_536 == word as u32 }
    }
}

/// Whether an operand may be a data word, where DP is known or not.
fn operand_may_be(page: Option<u16>, operand: &Addr, word: u16) -> bool
    ensures { (r : Registers) → ((p : ℕ) → page ≡ Some p → r.dp ≡ p)
        → address_of operand.now r ≡ word → result ≡ true }
{
    match operand {
        Addr::Direct(low) => may_be(page, *low, 0, word),
        Addr::Indirect(_, _) => true,
    }
}

/// Whether the word after an operand may be a data word, where DP is known or not.
fn next_may_be(page: Option<u16>, operand: &Addr, word: u16) -> bool
    ensures { (r : Registers) → ((p : ℕ) → page ≡ Some p → r.dp ≡ p)
        → (address_of operand.now r + 1) % 2 ^ 16 ≡ word → result ≡ true }
{
    match operand {
        Addr::Direct(low) => may_be(page, *low, 1, word),
        Addr::Indirect(_, _) => true,
    }
}

/// Whether the operand of SST or SST1 may be a data word.
fn status_may_be(operand: &Addr, word: u16) -> bool
    ensures { (r : Registers) → mem_address Sst operand.now r ≡ word → result ≡ true }
{
    match operand {
        Addr::Direct(low) => low % 128 == word,
        Addr::Indirect(_, _) => true,
    }
}

/// Whether an instruction may write a data word, where DP is known or not.
pub fn may_write(written: &Written, page: Option<u16>, word: u16) -> bool
    ensures { (r : Registers) → ((p : ℕ) → page ≡ Some p → r.dp ≡ p)
        → place_written written.now r ≡ Some word → result ≡ true }
{
    match written {
        Written::Nothing => false,
        Written::Operand(operand) => operand_may_be(page, operand, word),
        Written::After(operand) => next_may_be(page, operand, word),
        Written::Status(operand) => status_may_be(operand, word),
    }
}
