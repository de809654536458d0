//! Instructions with their operands (SPRU014, "Assembly Language Instructions").

ghost use Rattle.std.specs.Prelude.{◌≡◌};

use crate::mnemonic::*;

/// What an indirect operand does to the current auxiliary register (SPRU014, "Indirect Addressing Mode").
#[derive(Clone, Copy, PartialEq, Debug)]
pub enum Change {
    /// `*`: the register stays.
    Keep,
    /// `*-`: 1 is subtracted.
    Decrement,
    /// `*+`: 1 is added.
    Increment,
    /// `*BR0-`: AR0 is subtracted, with reversed borrow.
    ReverseSubtract,
    /// `*0-`: AR0 is subtracted.
    Subtract,
    /// `*0+`: AR0 is added.
    Add,
    /// `*BR0+`: AR0 is added, with reversed carry.
    ReverseAdd,
}

/// Where an instruction finds its data word (SPRU014, "Memory Addressing Modes").
#[derive(Clone, Copy)]
pub enum Addr {
    /// The low seven bits of an address on the current data page.
    Direct(u16),
    /// The address in the current auxiliary register: the change of that register, and the number of the
    /// register that is current from then on, where one is given.
    Indirect(Change, Option<u16>),
}

/// The operand of an instruction of the family `Plain`.
#[derive(Clone, Copy)]
pub enum PlainOperand {
    Nothing,
    /// The number of `SPM`, `FORT` or `CMPR`.
    Number(u16),
    /// The indirect form of `NORM`.
    Change(Change),
}

/// An instruction, by families. The operands are in the order of the syntax; which numbers they may be is
/// `InRange` of specs/Table.antt.
#[derive(Clone, Copy)]
pub enum Insn {
    /// A data word: `MPY *-,AR2`.
    Mem(MemName, Addr),
    /// A data word and a shift: `ADD 005h,2`.
    Shifted(ShiftedName, Addr, u16),
    /// An auxiliary register and a data word: `LAR AR1,005h`.
    ArMem(ArMemName, u16, Addr),
    /// A data word and a port: `IN 005h,PA2`.
    Port(PortName, Addr, u16),
    /// A data word and a bit code: `BIT 005h,15`.
    Bit(BitName, Addr, u16),
    /// A register and a short number: `LARK AR1,7`, `LACK 7`. The register is that of `LARK`, and 0
    /// elsewhere.
    Short(ShortName, u16, i16),
    /// A long number, and the register of `LRLK` or the shift of the others: `LRLK AR1,00300h`,
    /// `LALK 00300h,4`.
    Long(LongName, u16, u16),
    /// An address and a data word: `BLKD 00300h,*+`.
    LongMem(LongMemName, u16, Addr),
    /// An address, and a change of the current auxiliary register with the next one: `B 00300h,*`.
    Jump(JumpName, u16, Change, Option<u16>),
    /// One word, without a data word or a short number: `RET`, `SPM 3`, `NORM *+`.
    Plain(PlainName, PlainOperand),
}

impl Insn {
    ghost use Rattle.c25_meaning_instructions.specs.Table.{mnemonic_of};

    /// The row of the opcode table that the instruction belongs to.
    pub fn mnemonic(&self) -> Mnemonic
        ensures { result ≡ mnemonic_of self.now }
    {
        match self {
            Insn::Mem(name, _) => Mnemonic::Mem(*name),
            Insn::Shifted(name, _, _) => Mnemonic::Shifted(*name),
            Insn::ArMem(name, _, _) => Mnemonic::ArMem(*name),
            Insn::Port(name, _, _) => Mnemonic::Port(*name),
            Insn::Bit(name, _, _) => Mnemonic::Bit(*name),
            Insn::Short(name, _, _) => Mnemonic::Short(*name),
            Insn::Long(name, _, _) => Mnemonic::Long(*name),
            Insn::LongMem(name, _, _) => Mnemonic::LongMem(*name),
            Insn::Jump(name, _, _, _) => Mnemonic::Jump(*name),
            Insn::Plain(name, _) => Mnemonic::Plain(*name),
        }
    }
}
