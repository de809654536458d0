//! Where an instruction goes on, and which of its words are addresses.

ghost use Rattle.std.specs.Prelude.{◌≡◌};
ghost use Rattle.c25_layout.specs.Flow.{course_of, long_word, program_word};

use c25_meaning_instructions::insn::Insn;
use c25_meaning_instructions::mnemonic::{JumpName, LongMemName, PlainName};

/// Where an instruction goes on.
#[derive(Clone, Copy)]
pub enum Course {
    /// At the next instruction.
    Next,
    /// At an address: `B`.
    To(u16),
    /// At an address, or at the next instruction: the other branches.
    ToOrNext(u16),
    /// At an address, and after that at the next instruction: `CALL`.
    Calls(u16),
    /// Where it was called from: `RET`.
    Nowhere,
    /// At the address in the accumulator: `BACC`.
    ToAccumulator,
    /// At the address in the accumulator, and after that at the next instruction: `CALA`.
    CallsAccumulator,
    /// At the vector of `TRAP`, and after that at the next instruction.
    Traps,
}

/// Where an instruction goes on.
pub fn course_of(insn: &Insn) -> Course
    ensures { result ≡ course_of insn.now }
{
    match *insn {
        Insn::Jump(JumpName::B, word, _, _) => Course::To(word),
        Insn::Jump(JumpName::Call, word, _, _) => Course::Calls(word),
        Insn::Jump(_, word, _, _) => Course::ToOrNext(word),
        Insn::Plain(PlainName::Ret, _) => Course::Nowhere,
        Insn::Plain(PlainName::Bacc, _) => Course::ToAccumulator,
        Insn::Plain(PlainName::Cala, _) => Course::CallsAccumulator,
        Insn::Plain(PlainName::Trap, _) => Course::Traps,
        _ => Course::Next,
    }
}

/// The second word of `MAC`, `MACD` and `BLKP`: an address of program memory.
pub fn program_word(insn: &Insn) -> Option<u16>
    ensures { result ≡ program_word insn.now }
{
    match *insn {
        Insn::LongMem(LongMemName::Blkd, _, _) => None,
        Insn::LongMem(_, word, _) => Some(word),
        _ => None,
    }
}

/// The second word of an instruction that has two.
pub fn long_word(insn: &Insn) -> Option<u16>
    ensures { result ≡ long_word insn.now }
{
    match *insn {
        Insn::Long(_, word, _) | Insn::LongMem(_, word, _) | Insn::Jump(_, word, _, _) => Some(
            word,
        ),
        _ => None,
    }
}
