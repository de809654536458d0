//! The entry of each spelling of an instruction, made of docs/manual/reference.md by docs/reference.py --write.

ghost use Rattle.std.specs.Prelude.{◌≡◌};
ghost use Rattle.c25_meaning_instructions.specs.Table.{spelling_text};
ghost use Rattle.c25_meaning_instructions.specs.declared.mnemonic.Mnemonic.TheVariants as row;
ghost use Rattle.c25_meaning_instructions.specs.declared.mnemonic.Spelling.TheVariants.{Row};

use crate::entry::Entry;
use crate::instructions;
use c25_meaning_instructions::mnemonic::{
    ArMemName, BitName, JumpName, LongMemName, LongName, MemName, Mnemonic, PlainName, PortName,
    ShiftedName, ShortName, Spelling,
};

/// The entry of a `MemName`.
fn of_mem(name: MemName) -> Entry
    ensures { result.name.now ≡ spelling_text (Row (row.Mem name)) }
{
    match name {
        MemName::Mpy => instructions::MPY,
        MemName::Sqra => instructions::SQRA,
        MemName::Mpya => instructions::MPYA,
        MemName::Mpys => instructions::MPYS,
        MemName::Lt => instructions::LT,
        MemName::Lta => instructions::LTA,
        MemName::Ltp => instructions::LTP,
        MemName::Ltd => instructions::LTD,
        MemName::Zalh => instructions::ZALH,
        MemName::Zals => instructions::ZALS,
        MemName::Lact => instructions::LACT,
        MemName::Addc => instructions::ADDC,
        MemName::Subh => instructions::SUBH,
        MemName::Subs => instructions::SUBS,
        MemName::Subt => instructions::SUBT,
        MemName::Subc => instructions::SUBC,
        MemName::Addh => instructions::ADDH,
        MemName::Adds => instructions::ADDS,
        MemName::Addt => instructions::ADDT,
        MemName::Rpt => instructions::RPT,
        MemName::Xor => instructions::XOR,
        MemName::Or => instructions::OR,
        MemName::And => instructions::AND,
        MemName::Subb => instructions::SUBB,
        MemName::Lst => instructions::LST,
        MemName::Lst1 => instructions::LST1,
        MemName::Ldp => instructions::LDP,
        MemName::Lph => instructions::LPH,
        MemName::Pshd => instructions::PSHD,
        MemName::Mar => instructions::MAR,
        MemName::Dmov => instructions::DMOV,
        MemName::Bitt => instructions::BITT,
        MemName::Tblr => instructions::TBLR,
        MemName::Tblw => instructions::TBLW,
        MemName::Sqrs => instructions::SQRS,
        MemName::Lts => instructions::LTS,
        MemName::Sst => instructions::SST,
        MemName::Sst1 => instructions::SST1,
        MemName::Popd => instructions::POPD,
        MemName::Zalr => instructions::ZALR,
        MemName::Spl => instructions::SPL,
        MemName::Sph => instructions::SPH,
        MemName::Mpyu => instructions::MPYU,
    }
}

/// The entry of a `ShiftedName`.
fn of_shifted(name: ShiftedName) -> Entry
    ensures { result.name.now ≡ spelling_text (Row (row.Shifted name)) }
{
    match name {
        ShiftedName::Add => instructions::ADD,
        ShiftedName::Sub => instructions::SUB,
        ShiftedName::Lac => instructions::LAC,
        ShiftedName::Sacl => instructions::SACL,
        ShiftedName::Sach => instructions::SACH,
    }
}

/// The entry of an `ArMemName`.
fn of_ar_mem(name: ArMemName) -> Entry
    ensures { result.name.now ≡ spelling_text (Row (row.ArMem name)) }
{
    match name {
        ArMemName::Lar => instructions::LAR,
        ArMemName::Sar => instructions::SAR,
    }
}

/// The entry of a `PortName`.
fn of_port(name: PortName) -> Entry
    ensures { result.name.now ≡ spelling_text (Row (row.Port name)) }
{
    match name {
        PortName::In => instructions::IN,
        PortName::Out => instructions::OUT,
    }
}

/// The entry of a `BitName`.
fn of_bit(name: BitName) -> Entry
    ensures { result.name.now ≡ spelling_text (Row (row.Bit name)) }
{
    match name {
        BitName::Bit => instructions::BIT,
    }
}

/// The entry of a `ShortName`.
fn of_short(name: ShortName) -> Entry
    ensures { result.name.now ≡ spelling_text (Row (row.Short name)) }
{
    match name {
        ShortName::Adrk => instructions::ADRK,
        ShortName::Sbrk => instructions::SBRK,
        ShortName::Lark => instructions::LARK,
        ShortName::Lack => instructions::LACK,
        ShortName::Rptk => instructions::RPTK,
        ShortName::Addk => instructions::ADDK,
        ShortName::Subk => instructions::SUBK,
        ShortName::Ldpk => instructions::LDPK,
        ShortName::Mpyk => instructions::MPYK,
    }
}

/// The entry of a `LongName`.
fn of_long(name: LongName) -> Entry
    ensures { result.name.now ≡ spelling_text (Row (row.Long name)) }
{
    match name {
        LongName::Lrlk => instructions::LRLK,
        LongName::Lalk => instructions::LALK,
        LongName::Adlk => instructions::ADLK,
        LongName::Sblk => instructions::SBLK,
        LongName::Andk => instructions::ANDK,
        LongName::Ork => instructions::ORK,
        LongName::Xork => instructions::XORK,
    }
}

/// The entry of a `LongMemName`.
fn of_long_mem(name: LongMemName) -> Entry
    ensures { result.name.now ≡ spelling_text (Row (row.LongMem name)) }
{
    match name {
        LongMemName::Macd => instructions::MACD,
        LongMemName::Mac => instructions::MAC,
        LongMemName::Blkp => instructions::BLKP,
        LongMemName::Blkd => instructions::BLKD,
    }
}

/// The entry of a `JumpName`.
fn of_jump(name: JumpName) -> Entry
    ensures { result.name.now ≡ spelling_text (Row (row.Jump name)) }
{
    match name {
        JumpName::Bc => instructions::BC,
        JumpName::Bnc => instructions::BNC,
        JumpName::Bv => instructions::BV,
        JumpName::Bgz => instructions::BGZ,
        JumpName::Blez => instructions::BLEZ,
        JumpName::Blz => instructions::BLZ,
        JumpName::Bgez => instructions::BGEZ,
        JumpName::Bnz => instructions::BNZ,
        JumpName::Bz => instructions::BZ,
        JumpName::Bnv => instructions::BNV,
        JumpName::Bbz => instructions::BBZ,
        JumpName::Bbnz => instructions::BBNZ,
        JumpName::Bioz => instructions::BIOZ,
        JumpName::Banz => instructions::BANZ,
        JumpName::Call => instructions::CALL,
        JumpName::B => instructions::B,
    }
}

/// The entry of a `PlainName`.
fn of_plain(name: PlainName) -> Entry
    ensures { result.name.now ≡ spelling_text (Row (row.Plain name)) }
{
    match name {
        PlainName::Eint => instructions::EINT,
        PlainName::Dint => instructions::DINT,
        PlainName::Rovm => instructions::ROVM,
        PlainName::Sovm => instructions::SOVM,
        PlainName::Cnfd => instructions::CNFD,
        PlainName::Cnfp => instructions::CNFP,
        PlainName::Rsxm => instructions::RSXM,
        PlainName::Ssxm => instructions::SSXM,
        PlainName::Rxf => instructions::RXF,
        PlainName::Sxf => instructions::SXF,
        PlainName::Pac => instructions::PAC,
        PlainName::Apac => instructions::APAC,
        PlainName::Spac => instructions::SPAC,
        PlainName::Sfl => instructions::SFL,
        PlainName::Sfr => instructions::SFR,
        PlainName::Abs => instructions::ABS,
        PlainName::Push => instructions::PUSH,
        PlainName::Pop => instructions::POP,
        PlainName::Trap => instructions::TRAP,
        PlainName::Idle => instructions::IDLE,
        PlainName::Rtxm => instructions::RTXM,
        PlainName::Stxm => instructions::STXM,
        PlainName::Neg => instructions::NEG,
        PlainName::Cala => instructions::CALA,
        PlainName::Bacc => instructions::BACC,
        PlainName::Ret => instructions::RET,
        PlainName::Cmpl => instructions::CMPL,
        PlainName::Rc => instructions::RC,
        PlainName::Sc => instructions::SC,
        PlainName::Rtc => instructions::RTC,
        PlainName::Stc => instructions::STC,
        PlainName::Rol => instructions::ROL,
        PlainName::Ror => instructions::ROR,
        PlainName::Rfsm => instructions::RFSM,
        PlainName::Sfsm => instructions::SFSM,
        PlainName::Rhm => instructions::RHM,
        PlainName::Shm => instructions::SHM,
        PlainName::Spm => instructions::SPM,
        PlainName::Fort => instructions::FORT,
        PlainName::Cmpr => instructions::CMPR,
        PlainName::Norm => instructions::NORM,
    }
}

/// The entry of a row of the opcode table.
fn of_row(mnemonic: Mnemonic) -> Entry
    ensures { result.name.now ≡ spelling_text (Row mnemonic) }
{
    match mnemonic {
        Mnemonic::Mem(name) => of_mem(name),
        Mnemonic::Shifted(name) => of_shifted(name),
        Mnemonic::ArMem(name) => of_ar_mem(name),
        Mnemonic::Port(name) => of_port(name),
        Mnemonic::Bit(name) => of_bit(name),
        Mnemonic::Short(name) => of_short(name),
        Mnemonic::Long(name) => of_long(name),
        Mnemonic::LongMem(name) => of_long_mem(name),
        Mnemonic::Jump(name) => of_jump(name),
        Mnemonic::Plain(name) => of_plain(name),
    }
}

/// The entry of an instruction.
pub(crate) fn of_spelling(spelling: Spelling) -> Entry
    ensures { result.name.now ≡ spelling_text spelling }
{
    match spelling {
        Spelling::Row(mnemonic) => of_row(mnemonic),
        Spelling::Zac => instructions::ZAC,
        Spelling::Nop => instructions::NOP,
        Spelling::Larp => instructions::LARP,
    }
}
