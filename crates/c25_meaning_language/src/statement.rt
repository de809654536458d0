//! Instruction statements as they are written: an instruction without its numbers, the fields that its
//! operands fill, and the faults of a source.

use c25_meaning_instructions::insn::Change;
use c25_meaning_instructions::mnemonic::{
    ArMemName, BitName, JumpName, LongMemName, LongName, MemName, PlainName, PortName, ShiftedName,
    ShortName,
};
use thiserror::Error;

/// How the memory operand of an instruction is written.
#[derive(Clone, Copy)]
pub enum AddrForm {
    /// Direct: an expression.
    Direct,
    /// Indirect, by the current auxiliary register, with this change of it; the next auxiliary register may
    /// follow.
    Indirect(Change),
}

/// An instruction without the numbers of its operands.
#[derive(Clone, Copy)]
pub enum Form {
    Mem(MemName, AddrForm),
    Shifted(ShiftedName, AddrForm),
    ArMem(ArMemName, AddrForm),
    Port(PortName, AddrForm),
    Bit(BitName, AddrForm),
    Short(ShortName),
    Long(LongName),
    LongMem(LongMemName, AddrForm),
    Jump(JumpName, Change),
    /// The change is that of `NORM`, and has no meaning for the others.
    Plain(PlainName, Change),
}

/// The field that the number of an operand fills.
#[derive(Clone, Copy)]
pub enum Field {
    /// The low seven bits of the instruction word: a direct address.
    Low7,
    /// The page of `LDPK`.
    Page9,
    /// The second word of an instruction.
    Word16,
    /// A number below a limit: a shift, a register, a port, a bit code or a short constant.
    Number(u16),
    /// The factor of `MPYK`.
    Signed13,
    /// A word of `.word`.
    Word,
    /// A word of `.byte`.
    Byte,
}

/// What is wrong with a line of a source.
#[derive(Clone, Copy, Debug, Error)]
#[error("{}", self.name())]
pub enum FaultKind {
    /// A label that is not a name, a name longer than 128 characters, or no label where a directive needs one
    /// (10).
    BadLabel,
    /// A constant with a digit that its base does not have (11).
    BadConstant,
    /// A quote that is not closed, or single quotes that do not hold exactly one character of 20h to 7Eh or a
    /// tab (12).
    OpenQuote,
    /// A character that is part of no token, or that may not stand in a mnemonic field or a string (13).
    StrayText,
    /// An operand that is not an expression (20).
    BadExpression,
    /// An expression that nests more than 64 deep (21).
    TooDeep,
    /// A name that is not defined (22).
    Undefined,
    /// An address where an absolute value is asked for (23).
    NotAbsolute,
    /// A division by zero (24).
    DivideByZero,
    /// A value outside 32 signed bits, or a shift count outside 0 to 31 (25).
    ValueRange,
    /// A name that is defined already (26).
    Defined,
    /// A file that is not there (30).
    NoFile,
    /// A block that is not closed in the file or body where it began (31).
    OpenBlock,
    /// A directive that ends, goes on with or leaves a block that is not open; or an `.elseif` or `.else`
    /// after the `.else` of its `.if` (32).
    StrayEnd,
    /// A 33rd open expansion, copied file, loop or `.if` (33).
    Depth,
    /// A 200,001st line that is read (34).
    Lines,
    /// A macro of more than 32 parameters (35).
    TooManyParameters,
    /// A macro with the name of a macro or a mnemonic (36).
    Redefined,
    /// A line of more than 1,024 bytes or replacements (38).
    LongLine,
    /// A mnemonic field that holds no mnemonic (50).
    UnknownMnemonic,
    /// Too few operands, or too many (51).
    OperandCount,
    /// An operand of another form than the instruction takes (52).
    OperandForm,
    /// A number that its field does not take (53).
    FieldRange,
    /// More than 65,536 words in a section, or more than 255 sections, 65,535 names or 65,535 files; or a
    /// file name or a line number that a record has no room for (54).
    TooLarge,
    /// An address in a field that takes only absolute values (55).
    NotRelocatable,
    /// A reservation that must lie in one data page, and has no words or more than 128 (56).
    BadBlock,
}

impl FaultKind {
    ghost use Rattle.std.specs.Prelude.{◌≡◌};
    ghost use Rattle.c25_meaning_language.specs.Faults.{fault_name, fault_number};

    /// The fault's number, as shown to the user.
    pub fn number(&self) -> u8
        ensures { result ≡ fault_number self.now }
    {
        match self {
            FaultKind::BadLabel => 10,
            FaultKind::BadConstant => 11,
            FaultKind::OpenQuote => 12,
            FaultKind::StrayText => 13,
            FaultKind::BadExpression => 20,
            FaultKind::TooDeep => 21,
            FaultKind::Undefined => 22,
            FaultKind::NotAbsolute => 23,
            FaultKind::DivideByZero => 24,
            FaultKind::ValueRange => 25,
            FaultKind::Defined => 26,
            FaultKind::NoFile => 30,
            FaultKind::OpenBlock => 31,
            FaultKind::StrayEnd => 32,
            FaultKind::Depth => 33,
            FaultKind::Lines => 34,
            FaultKind::TooManyParameters => 35,
            FaultKind::Redefined => 36,
            FaultKind::LongLine => 38,
            FaultKind::UnknownMnemonic => 50,
            FaultKind::OperandCount => 51,
            FaultKind::OperandForm => 52,
            FaultKind::FieldRange => 53,
            FaultKind::TooLarge => 54,
            FaultKind::NotRelocatable => 55,
            FaultKind::BadBlock => 56,
        }
    }

    /// The fault's name, as shown to the user.
    pub fn name(&self) -> &'static str
        ensures { result.now ≡ fault_name self.now }
    {
        match self {
            FaultKind::BadLabel => "BadLabel",
            FaultKind::BadConstant => "BadConstant",
            FaultKind::OpenQuote => "OpenQuote",
            FaultKind::StrayText => "StrayText",
            FaultKind::BadExpression => "BadExpression",
            FaultKind::TooDeep => "TooDeep",
            FaultKind::Undefined => "Undefined",
            FaultKind::NotAbsolute => "NotAbsolute",
            FaultKind::DivideByZero => "DivideByZero",
            FaultKind::ValueRange => "ValueRange",
            FaultKind::Defined => "Defined",
            FaultKind::NoFile => "NoFile",
            FaultKind::OpenBlock => "OpenBlock",
            FaultKind::StrayEnd => "StrayEnd",
            FaultKind::Depth => "Depth",
            FaultKind::Lines => "Lines",
            FaultKind::TooManyParameters => "TooManyParameters",
            FaultKind::Redefined => "Redefined",
            FaultKind::LongLine => "LongLine",
            FaultKind::UnknownMnemonic => "UnknownMnemonic",
            FaultKind::OperandCount => "OperandCount",
            FaultKind::OperandForm => "OperandForm",
            FaultKind::FieldRange => "FieldRange",
            FaultKind::TooLarge => "TooLarge",
            FaultKind::NotRelocatable => "NotRelocatable",
            FaultKind::BadBlock => "BadBlock",
        }
    }
}

/// How an operand is written, by its tokens alone.
#[derive(Clone, Copy, PartialEq, Debug)]
pub enum Written {
    /// Anything else: an expression, if it is valid.
    Expression,
    /// One of the seven indirect forms, with its change.
    Indirect(Change),
    /// One string in double quotes.
    Quoted,
}
