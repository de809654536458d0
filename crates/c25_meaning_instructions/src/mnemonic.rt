//! The names of the instructions, by families (SPRU014, "Instruction Set Summary").

/// The instructions with a data word alone.
#[derive(Clone, Copy, PartialEq, Debug)]
pub enum MemName {
    Mpy,
    Sqra,
    Mpya,
    Mpys,
    Lt,
    Lta,
    Ltp,
    Ltd,
    Zalh,
    Zals,
    Lact,
    Addc,
    Subh,
    Subs,
    Subt,
    Subc,
    Addh,
    Adds,
    Addt,
    Rpt,
    Xor,
    Or,
    And,
    Subb,
    Lst,
    Lst1,
    Ldp,
    Lph,
    Pshd,
    Mar,
    Dmov,
    Bitt,
    Tblr,
    Tblw,
    Sqrs,
    Lts,
    Sst,
    Sst1,
    Popd,
    Zalr,
    Spl,
    Sph,
    Mpyu,
}

/// The instructions with a data word and a shift.
#[derive(Clone, Copy, PartialEq, Debug)]
pub enum ShiftedName {
    Add,
    Sub,
    Lac,
    Sacl,
    Sach,
}

/// The instructions with an auxiliary register and a data word.
#[derive(Clone, Copy, PartialEq, Debug)]
pub enum ArMemName {
    Lar,
    Sar,
}

/// The instructions with a data word and a port.
#[derive(Clone, Copy, PartialEq, Debug)]
pub enum PortName {
    In,
    Out,
}

/// The instruction with a data word and a bit code.
#[derive(Clone, Copy, PartialEq, Debug)]
pub enum BitName {
    Bit,
}

/// The instructions with a number of 8, 9 or 13 bits.
#[derive(Clone, Copy, PartialEq, Debug)]
pub enum ShortName {
    Adrk,
    Sbrk,
    Lark,
    Lack,
    Rptk,
    Addk,
    Subk,
    Ldpk,
    Mpyk,
}

/// The instructions with a number of 16 bits.
#[derive(Clone, Copy, PartialEq, Debug)]
pub enum LongName {
    Lrlk,
    Lalk,
    Adlk,
    Sblk,
    Andk,
    Ork,
    Xork,
}

/// The instructions with an address and a data word.
#[derive(Clone, Copy, PartialEq, Debug)]
pub enum LongMemName {
    Macd,
    Mac,
    Blkp,
    Blkd,
}

/// The jumps: an address, and a change of the current auxiliary register.
#[derive(Clone, Copy, PartialEq, Debug)]
pub enum JumpName {
    Bc,
    Bnc,
    Bv,
    Bgz,
    Blez,
    Blz,
    Bgez,
    Bnz,
    Bz,
    Bnv,
    Bbz,
    Bbnz,
    Bioz,
    Banz,
    Call,
    B,
}

/// The instructions of one word that have neither a data word nor a number of 8 bits or more: most have no
/// operand, `SPM`, `FORT` and `CMPR` a number of one or two bits, `NORM` a change of the current auxiliary
/// register.
#[derive(Clone, Copy, PartialEq, Debug)]
pub enum PlainName {
    Eint,
    Dint,
    Rovm,
    Sovm,
    Cnfd,
    Cnfp,
    Rsxm,
    Ssxm,
    Rxf,
    Sxf,
    Pac,
    Apac,
    Spac,
    Sfl,
    Sfr,
    Abs,
    Push,
    Pop,
    Trap,
    Idle,
    Rtxm,
    Stxm,
    Neg,
    Cala,
    Bacc,
    Ret,
    Cmpl,
    Rc,
    Sc,
    Rtc,
    Stc,
    Rol,
    Ror,
    Rfsm,
    Sfsm,
    Rhm,
    Shm,
    Spm,
    Fort,
    Cmpr,
    Norm,
}

/// A row of the opcode table: the name of an instruction.
#[derive(Clone, Copy, PartialEq, Debug)]
pub enum Mnemonic {
    Mem(MemName),
    Shifted(ShiftedName),
    ArMem(ArMemName),
    Port(PortName),
    Bit(BitName),
    Short(ShortName),
    Long(LongName),
    LongMem(LongMemName),
    Jump(JumpName),
    Plain(PlainName),
}

/// What a mnemonic stands for: a row of the table, or one of three other spellings.
#[derive(Clone, Copy, PartialEq, Debug)]
pub enum Spelling {
    /// The row whose name the mnemonic is.
    Row(Mnemonic),
    /// `ZAC` is `LACK 0`.
    Zac,
    /// `NOP` is `MAR 0`.
    Nop,
    /// `LARP n` is `MAR *,ARn`.
    Larp,
}
