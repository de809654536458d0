//! The spellings in alphabetical order, so that a name is found by binary search.

ghost use Rattle.std.specs.Prelude.{◌≡◌, true, length, map};
ghost use Rattle.std.specs.List.{Contains, list_all};
ghost use Rattle.c25_isa.specs.Letters.{AreInOrder, has_short_text, spelling_number};
ghost use Rattle.c25_meaning_instructions.specs.declared.mnemonic.Spelling.{Spelling};

use c25_meaning_instructions::mnemonic::Mnemonic::{
    ArMem, Bit, Jump, Long, LongMem, Mem, Plain, Port, Shifted, Short,
};
use c25_meaning_instructions::mnemonic::Spelling::{Larp, Nop, Row, Zac};
use c25_meaning_instructions::mnemonic::{
    ArMemName, BitName, JumpName, LongMemName, LongName, MemName, PlainName, PortName, ShiftedName,
    ShortName, Spelling,
};

/// The letter at an index of a text as a digit: its code plus one, or 0 after the end of the text.
macro_rules! digit {
    ($text:literal $index:literal) => {
        if $index < $text.len() { $text[$index] as u64 + 1 } else { 0 }
    };
}

/// The number of a text of at most four letters, as `names::number_of` has it: nine bits a letter.
macro_rules! number {
    ($text:literal) => {
        (digit!($text 0) << 27) + (digit!($text 1) << 18) + (digit!($text 2) << 9) + digit!($text 3)
    };
}

/// The numbers of the texts of rows.
macro_rules! numbers {
    ($($text:literal $spelling:expr,)*) => {
        [$(number!($text)),*]
    };
}

/// The spellings of rows.
macro_rules! spellings {
    ($($text:literal $spelling:expr,)*) => {
        [$($spelling),*]
    };
}

/// A row for each spelling: its text and what it stands for, in alphabetical order. The contract of
/// `table` is refused where a row is missing, in the wrong place, or has another spelling's text.
macro_rules! rows {
    ($what:ident) => {
        $what! {
            b"abs" Row(Plain(PlainName::Abs)),
            b"add" Row(Shifted(ShiftedName::Add)),
            b"addc" Row(Mem(MemName::Addc)),
            b"addh" Row(Mem(MemName::Addh)),
            b"addk" Row(Short(ShortName::Addk)),
            b"adds" Row(Mem(MemName::Adds)),
            b"addt" Row(Mem(MemName::Addt)),
            b"adlk" Row(Long(LongName::Adlk)),
            b"adrk" Row(Short(ShortName::Adrk)),
            b"and" Row(Mem(MemName::And)),
            b"andk" Row(Long(LongName::Andk)),
            b"apac" Row(Plain(PlainName::Apac)),
            b"b" Row(Jump(JumpName::B)),
            b"bacc" Row(Plain(PlainName::Bacc)),
            b"banz" Row(Jump(JumpName::Banz)),
            b"bbnz" Row(Jump(JumpName::Bbnz)),
            b"bbz" Row(Jump(JumpName::Bbz)),
            b"bc" Row(Jump(JumpName::Bc)),
            b"bgez" Row(Jump(JumpName::Bgez)),
            b"bgz" Row(Jump(JumpName::Bgz)),
            b"bioz" Row(Jump(JumpName::Bioz)),
            b"bit" Row(Bit(BitName::Bit)),
            b"bitt" Row(Mem(MemName::Bitt)),
            b"blez" Row(Jump(JumpName::Blez)),
            b"blkd" Row(LongMem(LongMemName::Blkd)),
            b"blkp" Row(LongMem(LongMemName::Blkp)),
            b"blz" Row(Jump(JumpName::Blz)),
            b"bnc" Row(Jump(JumpName::Bnc)),
            b"bnv" Row(Jump(JumpName::Bnv)),
            b"bnz" Row(Jump(JumpName::Bnz)),
            b"bv" Row(Jump(JumpName::Bv)),
            b"bz" Row(Jump(JumpName::Bz)),
            b"cala" Row(Plain(PlainName::Cala)),
            b"call" Row(Jump(JumpName::Call)),
            b"cmpl" Row(Plain(PlainName::Cmpl)),
            b"cmpr" Row(Plain(PlainName::Cmpr)),
            b"cnfd" Row(Plain(PlainName::Cnfd)),
            b"cnfp" Row(Plain(PlainName::Cnfp)),
            b"dint" Row(Plain(PlainName::Dint)),
            b"dmov" Row(Mem(MemName::Dmov)),
            b"eint" Row(Plain(PlainName::Eint)),
            b"fort" Row(Plain(PlainName::Fort)),
            b"idle" Row(Plain(PlainName::Idle)),
            b"in" Row(Port(PortName::In)),
            b"lac" Row(Shifted(ShiftedName::Lac)),
            b"lack" Row(Short(ShortName::Lack)),
            b"lact" Row(Mem(MemName::Lact)),
            b"lalk" Row(Long(LongName::Lalk)),
            b"lar" Row(ArMem(ArMemName::Lar)),
            b"lark" Row(Short(ShortName::Lark)),
            b"larp" Larp,
            b"ldp" Row(Mem(MemName::Ldp)),
            b"ldpk" Row(Short(ShortName::Ldpk)),
            b"lph" Row(Mem(MemName::Lph)),
            b"lrlk" Row(Long(LongName::Lrlk)),
            b"lst" Row(Mem(MemName::Lst)),
            b"lst1" Row(Mem(MemName::Lst1)),
            b"lt" Row(Mem(MemName::Lt)),
            b"lta" Row(Mem(MemName::Lta)),
            b"ltd" Row(Mem(MemName::Ltd)),
            b"ltp" Row(Mem(MemName::Ltp)),
            b"lts" Row(Mem(MemName::Lts)),
            b"mac" Row(LongMem(LongMemName::Mac)),
            b"macd" Row(LongMem(LongMemName::Macd)),
            b"mar" Row(Mem(MemName::Mar)),
            b"mpy" Row(Mem(MemName::Mpy)),
            b"mpya" Row(Mem(MemName::Mpya)),
            b"mpyk" Row(Short(ShortName::Mpyk)),
            b"mpys" Row(Mem(MemName::Mpys)),
            b"mpyu" Row(Mem(MemName::Mpyu)),
            b"neg" Row(Plain(PlainName::Neg)),
            b"nop" Nop,
            b"norm" Row(Plain(PlainName::Norm)),
            b"or" Row(Mem(MemName::Or)),
            b"ork" Row(Long(LongName::Ork)),
            b"out" Row(Port(PortName::Out)),
            b"pac" Row(Plain(PlainName::Pac)),
            b"pop" Row(Plain(PlainName::Pop)),
            b"popd" Row(Mem(MemName::Popd)),
            b"pshd" Row(Mem(MemName::Pshd)),
            b"push" Row(Plain(PlainName::Push)),
            b"rc" Row(Plain(PlainName::Rc)),
            b"ret" Row(Plain(PlainName::Ret)),
            b"rfsm" Row(Plain(PlainName::Rfsm)),
            b"rhm" Row(Plain(PlainName::Rhm)),
            b"rol" Row(Plain(PlainName::Rol)),
            b"ror" Row(Plain(PlainName::Ror)),
            b"rovm" Row(Plain(PlainName::Rovm)),
            b"rpt" Row(Mem(MemName::Rpt)),
            b"rptk" Row(Short(ShortName::Rptk)),
            b"rsxm" Row(Plain(PlainName::Rsxm)),
            b"rtc" Row(Plain(PlainName::Rtc)),
            b"rtxm" Row(Plain(PlainName::Rtxm)),
            b"rxf" Row(Plain(PlainName::Rxf)),
            b"sach" Row(Shifted(ShiftedName::Sach)),
            b"sacl" Row(Shifted(ShiftedName::Sacl)),
            b"sar" Row(ArMem(ArMemName::Sar)),
            b"sblk" Row(Long(LongName::Sblk)),
            b"sbrk" Row(Short(ShortName::Sbrk)),
            b"sc" Row(Plain(PlainName::Sc)),
            b"sfl" Row(Plain(PlainName::Sfl)),
            b"sfr" Row(Plain(PlainName::Sfr)),
            b"sfsm" Row(Plain(PlainName::Sfsm)),
            b"shm" Row(Plain(PlainName::Shm)),
            b"sovm" Row(Plain(PlainName::Sovm)),
            b"spac" Row(Plain(PlainName::Spac)),
            b"sph" Row(Mem(MemName::Sph)),
            b"spl" Row(Mem(MemName::Spl)),
            b"spm" Row(Plain(PlainName::Spm)),
            b"sqra" Row(Mem(MemName::Sqra)),
            b"sqrs" Row(Mem(MemName::Sqrs)),
            b"sst" Row(Mem(MemName::Sst)),
            b"sst1" Row(Mem(MemName::Sst1)),
            b"ssxm" Row(Plain(PlainName::Ssxm)),
            b"stc" Row(Plain(PlainName::Stc)),
            b"stxm" Row(Plain(PlainName::Stxm)),
            b"sub" Row(Shifted(ShiftedName::Sub)),
            b"subb" Row(Mem(MemName::Subb)),
            b"subc" Row(Mem(MemName::Subc)),
            b"subh" Row(Mem(MemName::Subh)),
            b"subk" Row(Short(ShortName::Subk)),
            b"subs" Row(Mem(MemName::Subs)),
            b"subt" Row(Mem(MemName::Subt)),
            b"sxf" Row(Plain(PlainName::Sxf)),
            b"tblr" Row(Mem(MemName::Tblr)),
            b"tblw" Row(Mem(MemName::Tblw)),
            b"trap" Row(Plain(PlainName::Trap)),
            b"xor" Row(Mem(MemName::Xor)),
            b"xork" Row(Long(LongName::Xork)),
            b"zac" Zac,
            b"zalh" Row(Mem(MemName::Zalh)),
            b"zalr" Row(Mem(MemName::Zalr)),
            b"zals" Row(Mem(MemName::Zals)),
        }
    };
}

/// The number of each row's text.
static NUMBERS: [u64; 133] = rows!(numbers);

/// The spelling of each row.
static IN_ORDER: [Spelling; 133] = rows!(spellings);

/// The spellings in the order of their numbers, with these numbers. No spelling has more than four
/// letters.
#[inline]
pub(crate) fn table() -> (&'static [u64], &'static [Spelling])
    ensures rise { AreInOrder result.0.now }
    ensures numbers { result.0.now ≡ map spelling_number result.1.now }
    ensures len { length result.0.now ≡ length result.1.now }
    ensures short { list_all has_short_text result.1.now ≡ true }
    ensures all { (spelling : Spelling) → Contains result.1.now spelling }
{
    (&NUMBERS, &IN_ORDER)
}
