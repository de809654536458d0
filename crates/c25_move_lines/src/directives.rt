//! The directives of old sources by their names.

ghost use Rattle.std.specs.Prelude.{◌≡◌};
ghost use Rattle.std.specs.Option.{option_map};
ghost use Rattle.c25_move_lines.specs.Directives.{renamed};

/// The directives of assemblers before COFF that have another name alone, and that name.
static RENAMINGS: [(&str, &str); 20] = [
    ("EQU", ".set"),
    ("SET", ".set"),
    ("DATA", ".word"),
    ("DEF", ".def"),
    ("REF", ".ref"),
    ("SREF", ".ref"),
    ("END", ".end"),
    ("TITL", ".title"),
    ("IDT", ".title"),
    ("TEXT", ".string"),
    ("BYTE", ".byte"),
    ("PAGE", ".page"),
    ("LIST", ".list"),
    ("UNL", ".nolist"),
    ("OPTION", ".option"),
    ("COPY", ".copy"),
    ("MLIB", ".mlib"),
    ("ASMIF", ".if"),
    ("ASMELS", ".else"),
    ("ASMEND", ".endif"),
];

/// The name that a directive without a dot has for the COFF assembler, whatever the case of its letters; none where
/// it has another form too, or is no directive.
pub fn renamed(word: &str) -> Option<&'static str>
    ensures { option_map (λ name. name.now) result ≡ renamed word.now }
{
    match RENAMINGS
        .iter()
        .find(|(old, _)| word.eq_ignore_ascii_case(old))
    {
        Some((_, new)) => Some(*new),
        None => None,
    }
}

/// What is done with the operands of a line.
#[derive(Clone, Copy, PartialEq, Debug)]
pub(crate) enum Work {
    /// They are expressions.
    Operands,
    /// There are none: a directive without operands.
    Nothing,
    /// There are none: an instruction without operands.
    Alone,
    /// `.title`
    Title,
    /// `.copy`, `.include`
    FileName,
    /// `.string`
    Strings,
    /// `.byte`
    Bytes,
    /// `.word`, `.int`
    Words,
    /// `.set`, `.equ`
    Equate,
    /// `.mlib`
    Library,
    /// `AORG`
    Origin,
    /// `.asect`
    NamedOrigin,
    /// `PSEG`, `RORG`
    Program,
    /// `DSEG`, `CSEG`
    Data,
    /// `PEND`, `CEND`
    SegmentEnd,
    /// `DORG`
    Dummy,
    /// `DEND`
    DummyEnd,
    /// `BSS`
    Reserve,
    /// `BES`
    ReserveEnd,
    /// `.bes`
    BlockEnd,
    /// `.usect`
    Usect,
    /// `.bss`
    Bss,
    /// `.long`
    Long,
    /// `.float`
    Float,
    /// `.newblock`
    NewBlock,
    /// A directive without effect.
    NoEffect,
    /// A directive without a form.
    NoForm,
}

/// The words that have work of their own.
static WORKS: [(&str, Work); 80] = [
    (".title", Work::Title),
    (".copy", Work::FileName),
    (".include", Work::FileName),
    (".string", Work::Strings),
    (".byte", Work::Bytes),
    (".word", Work::Words),
    (".int", Work::Words),
    (".set", Work::Equate),
    (".equ", Work::Equate),
    (".mlib", Work::Library),
    ("AORG", Work::Origin),
    (".asect", Work::NamedOrigin),
    ("PSEG", Work::Program),
    ("RORG", Work::Program),
    ("DSEG", Work::Data),
    ("CSEG", Work::Data),
    ("PEND", Work::SegmentEnd),
    ("CEND", Work::SegmentEnd),
    ("DORG", Work::Dummy),
    ("DEND", Work::DummyEnd),
    ("BSS", Work::Reserve),
    ("BES", Work::ReserveEnd),
    (".bes", Work::BlockEnd),
    (".usect", Work::Usect),
    (".bss", Work::Bss),
    (".long", Work::Long),
    (".newblock", Work::NewBlock),
    ("EVEN", Work::NoEffect),
    (".even", Work::NoEffect),
    (".port", Work::NoEffect),
    (".tab", Work::NoEffect),
    (".version", Work::NoEffect),
    (".drlist", Work::NoEffect),
    (".drnolist", Work::NoEffect),
    (".emsg", Work::NoEffect),
    (".mmsg", Work::NoEffect),
    (".wmsg", Work::NoEffect),
    (".sblock", Work::NoEffect),
    (".file", Work::NoEffect),
    (".line", Work::NoEffect),
    (".sym", Work::NoEffect),
    (".block", Work::NoEffect),
    (".endblock", Work::NoEffect),
    (".func", Work::NoEffect),
    (".endfunc", Work::NoEffect),
    (".stag", Work::NoEffect),
    (".etag", Work::NoEffect),
    (".utag", Work::NoEffect),
    (".member", Work::NoEffect),
    (".eos", Work::NoEffect),
    (".align", Work::NoForm),
    (".field", Work::NoForm),
    (".var", Work::NoForm),
    (".struct", Work::NoForm),
    (".endstruct", Work::NoForm),
    (".tag", Work::NoForm),
    (".float", Work::Float),
    (".bfloat", Work::NoForm),
    (".text", Work::Nothing),
    (".data", Work::Nothing),
    (".mmregs", Work::Nothing),
    (".end", Work::Nothing),
    (".list", Work::Nothing),
    (".nolist", Work::Nothing),
    (".page", Work::Nothing),
    (".else", Work::Nothing),
    (".endif", Work::Nothing),
    (".endm", Work::Nothing),
    (".endloop", Work::Nothing),
    (".mexit", Work::Nothing),
    (".mlist", Work::Nothing),
    (".mnolist", Work::Nothing),
    (".fclist", Work::Nothing),
    (".fcnolist", Work::Nothing),
    (".sslist", Work::Nothing),
    (".ssnolist", Work::Nothing),
    (".width", Work::Operands),
    (".length", Work::Operands),
    (".option", Work::Operands),
    (".space", Work::Operands),
];

/// What is done with the operands of a line whose word is a directive; none where it is no directive that has work
/// of its own.
pub(crate) fn find_work(word: &str) -> Option<Work> {
    match WORKS
        .iter()
        .find(|(name, _)| word.eq_ignore_ascii_case(name))
    {
        Some((_, work)) => Some(*work),
        None => None,
    }
}
