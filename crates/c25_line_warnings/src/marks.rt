//! What instructions do, as far as warnings need it.

ghost use Rattle.std.specs.Prelude.{◌≡◌};
ghost use Rattle.c25_line_warnings.specs.Instructions.{has_shift, is_branch, is_last, is_repeat, is_unrepeatable, memory_of, memory_of_long};

use c25_meaning_instructions::mnemonic::{
    JumpName, LongMemName, MemName, Mnemonic, PlainName, ShortName, Spelling,
};

/// One of the two memories of the processor.
#[derive(Clone, Copy, PartialEq, Debug)]
pub enum Memory {
    Program,
    Data,
}

/// Whether the words after an instruction run only where a branch leads to them.
pub fn is_last(spelling: Spelling) -> bool
    ensures { result ≡ is_last spelling }
{
    match spelling {
        Spelling::Row(Mnemonic::Jump(JumpName::B)) => true,
        Spelling::Row(Mnemonic::Plain(PlainName::Bacc | PlainName::Ret)) => true,
        _ => false,
    }
}

/// Whether an instruction is `B`, of which tables of branches consist.
pub fn is_branch(spelling: Spelling) -> bool
    ensures { result ≡ is_branch spelling }
{
    match spelling {
        Spelling::Row(Mnemonic::Jump(JumpName::B)) => true,
        _ => false,
    }
}

/// Whether an instruction repeats the next one.
pub fn is_repeat(spelling: Spelling) -> bool
    ensures { result ≡ is_repeat spelling }
{
    match spelling {
        Spelling::Row(Mnemonic::Mem(MemName::Rpt)) => true,
        Spelling::Row(Mnemonic::Short(ShortName::Rptk)) => true,
        _ => false,
    }
}

/// Whether a plain instruction may not be repeated.
fn is_plain_unrepeatable(name: PlainName) -> bool
    ensures { result ≡ is_unrepeatable (Spelling.Row (Mnemonic.Plain name)) }
{
    match name {
        PlainName::Cala | PlainName::Bacc | PlainName::Ret | PlainName::Trap | PlainName::Idle => {
            true
        }
        _ => false,
    }
}

/// Whether an instruction may not be repeated: the branches and calls, the long immediates, `RET`, `TRAP`,
/// `IDLE`, `RPT` and `RPTK`.
pub fn is_unrepeatable(spelling: Spelling) -> bool
    ensures { result ≡ is_unrepeatable spelling }
{
    match spelling {
        Spelling::Row(Mnemonic::Jump(_) | Mnemonic::Long(_)) => true,
        Spelling::Row(Mnemonic::Plain(name)) => is_plain_unrepeatable(name),
        _ => is_repeat(spelling),
    }
}

/// Whether the second operand of an instruction is a shift.
pub fn has_shift(spelling: Spelling) -> bool
    ensures { result ≡ has_shift spelling }
{
    match spelling {
        Spelling::Row(Mnemonic::Shifted(_)) => true,
        _ => false,
    }
}

/// The memory in which the first operand of an instruction with an address and a data word lies.
fn memory_of_long(name: LongMemName) -> Memory
    ensures { result ≡ memory_of_long name }
{
    match name {
        LongMemName::Blkd => Memory::Data,
        LongMemName::Macd | LongMemName::Mac | LongMemName::Blkp => Memory::Program,
    }
}

/// The memory in which the address of the operand with this number, from 0, lies, where the operand is one.
pub fn memory_of(spelling: Spelling, operand: usize) -> Option<Memory>
    ensures { result ≡ memory_of spelling operand }
{
    let Spelling::Row(row) = spelling else {
        return None;
    };
    match (row, operand) {
        (Mnemonic::Mem(_) | Mnemonic::Shifted(_) | Mnemonic::Port(_) | Mnemonic::Bit(_), 0) => {
            Some(Memory::Data)
        }
        (Mnemonic::ArMem(_) | Mnemonic::LongMem(_), 1) => Some(Memory::Data),
        (Mnemonic::LongMem(name), 0) => Some(memory_of_long(name)),
        (Mnemonic::Short(ShortName::Ldpk), 0) => Some(Memory::Data),
        (Mnemonic::Jump(_), 0) => Some(Memory::Program),
        _ => None,
    }
}
