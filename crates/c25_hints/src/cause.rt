//! Why a line is refused, and the sentence that says so.

ghost use Rattle.std.specs.Prelude.{◌≡◌};
ghost use Rattle.c25_hints.specs.Remark.{front, back};

/// Why a line is refused, as far as the line shows it.
#[derive(Clone, Copy, PartialEq, Debug)]
pub enum Cause {
    /// The character with which old files end (10, 13).
    ControlZ,
    /// Another control character (10, 13).
    ControlCharacter,
    /// A directive in column 1 (10).
    DirectiveAsLabel,
    /// A local label, as `$1` (10, 20).
    LocalLabel,
    /// A label that begins with a digit (10).
    LabelWithDigit,
    /// No label where the directive needs one (10).
    NoLabel,
    /// No blank after the colon of a label (10).
    LabelWithColon,
    /// A name of more than 128 characters (10).
    LongName,
    /// A character that no name has (10).
    StrayInName,
    /// A constant that begins with `0x` (11).
    HexadecimalByX,
    /// Hexadecimal digits alone (11).
    HexadecimalAlone,
    /// A constant that ends in `h` (11).
    HexadecimalDigits,
    /// A constant that ends in `q` (11).
    OctalDigits,
    /// A constant that ends in `b` (11).
    BinaryDigits,
    /// Any other constant (11).
    DecimalDigits,
    /// A string without its second quote (12).
    OpenString,
    /// An apostrophe in a word (12).
    Apostrophe,
    /// More than one character, or none, between two `'` (12).
    ManyCharacters,
    /// A `'` alone (12).
    OpenCharacter,
    /// A `#` (13).
    NumberSign,
    /// A `@` (13).
    AtSign,
    /// A fraction (13).
    Fraction,
    /// A `!` (13).
    Exclamation,
    /// A character that is not ASCII (13).
    BeyondAscii,
    /// What substitution left unchanged (13).
    Unsubstituted,
    /// A mnemonic in column 1 (50).
    MnemonicAsLabel,
    /// A label that does not begin in column 1 (50).
    LabelAsMnemonic,
    /// A directive without its dot (50).
    DirectiveWithoutDot,
    /// A directive that this assembler has not (50).
    Instead,
    /// A name that is defined in other case (22).
    OtherCase,
    /// A hexadecimal constant that begins with a letter (22).
    HexadecimalName,
    /// A name of a register in data memory (22).
    RegisterName,
    /// A name like those of auxiliary registers and ports (22).
    NoSuchRegister,
    /// A hexadecimal constant after `>` (20).
    HexadecimalByGreater,
    /// A register after `*` or another indirect form (20).
    RegisterInExpression,
    /// The same in an instruction that has a shift before the next register (20).
    NextAfterShift,
    /// The same in an instruction that has a port there (20).
    NextAfterPort,
    /// The same in an instruction that has a bit there (20).
    NextAfterBit,
    /// A name after an operand, mostly of a comment (20).
    CommentInExpression,
    /// Two operands one after the other (20).
    NoOperator,
    /// No operand (20).
    NoOperand,
    /// An operator without its right operand (20).
    NothingAfter,
    /// Two operands with no comma (51).
    NoComma,
    /// Operands where there are none (51).
    TakesNothing,
    /// Operands of another form (51, 52).
    Form,
    /// No operand where some are needed (51).
    FormOfNone,
    /// One operand, where more or none are needed (51).
    FormOfOne,
    /// Two operands, where more or fewer are needed (51).
    FormOfTwo,
    /// Three operands, where more or fewer are needed (51).
    FormOfThree,
    /// More operands than three, where fewer are needed (51).
    FormOfMore,
    /// What follows `*` makes no indirect operand (20).
    IndirectForms,
    /// A `*` where no indirect operand is taken (20).
    NoIndirect,
    /// A section of `.bss` or `.usect` where one with words is wanted (52).
    ReservedSection,
    /// A section with words where one of `.bss` or `.usect` is wanted (52).
    FilledSection,
    /// A name of an auxiliary register or a port that is defined (26).
    Predefined,
    /// A shift of an instruction that stores the accumulator (53).
    ShiftBefore,
    /// A name that no line of the module defines (22).
    NowhereDefined,
    /// A number that another instruction or directive takes (53).
    Longer,
    /// An address that another instruction or directive takes (55).
    TakesAddress,
    /// A name without a value where the value is needed at once (22).
    NeededAtOnce,
    /// A macro that is not defined so far (50).
    MacroElsewhere,
    /// A word like others (22, 50).
    Similar,
}

impl Cause {
    /// The sentence up to the word that it names.
    pub(crate) fn front(self) -> &'static str
        ensures { result.now ≡ front self }
    {
        match self {
            Cause::ControlZ => "Ctrl-Z (1Ah), with which old files end: take it out",
            Cause::ControlCharacter => "a control character: take it out",
            Cause::DirectiveAsLabel => "a blank stands before a directive",
            Cause::LocalLabel => "there are no local labels, as $1: write a name",
            Cause::LabelWithDigit => "a name begins with a letter or _",
            Cause::NoLabel => "this directive needs a label in column 1",
            Cause::LabelWithColon => "a blank stands after the colon of a label",
            Cause::LongName => "a name has at most 128 characters",
            Cause::StrayInName => "a name has letters, digits, _ and $ alone",
            Cause::HexadecimalByX => "a hexadecimal constant is written 0FFh, not 0xFF",
            Cause::HexadecimalAlone => "a hexadecimal constant ends in h",
            Cause::HexadecimalDigits => {
                "a constant that ends in h has the digits 0 to 9 and A to F"
            }
            Cause::OctalDigits => "a constant that ends in q has the digits 0 to 7",
            Cause::BinaryDigits => "a constant that ends in b has the digits 0 and 1",
            Cause::DecimalDigits => "a constant has the digits 0 to 9, or ends in h, q or b",
            Cause::OpenString => "this quote of a string is not closed",
            Cause::Apostrophe => {
                "a comment begins with ;, and an apostrophe stands in comments alone"
            }
            Cause::ManyCharacters => {
                "one character stands between two ': write 'A'*256+'B' for 'AB'"
            }
            Cause::OpenCharacter => "one character stands between two '",
            Cause::NumberSign => "there is no # before an operand",
            Cause::AtSign => "there is no @ before an operand",
            Cause::Fraction => "there are no fractions: write the words, worked out beforehand",
            Cause::Exclamation => {
                "write ~ to invert all bits, and =0 after a value for a logical not"
            }
            Cause::BeyondAscii => "characters that are not ASCII stand in comments alone",
            Cause::Unsubstituted => "substitution left this: nothing has the name",
            Cause::MnemonicAsLabel => "in column 1 ",
            Cause::LabelAsMnemonic => "a label begins in column 1: ",
            Cause::DirectiveWithoutDot => "a directive begins with a dot: .",
            Cause::Instead => "in place of ",
            Cause::OtherCase => "upper and lower case differ in names: ",
            Cause::HexadecimalName => "a hexadecimal constant begins with a digit: 0",
            Cause::NoSuchRegister => "there are AR0 to AR7 and PA0 to PA15, and no ",
            Cause::HexadecimalByGreater => "a hexadecimal constant is written 0FFh, not >FF",
            Cause::CommentInExpression => "put ; before ",
            Cause::NoOperator => "an operator or a comma is missing before ",
            Cause::NoOperand => "an operand is missing",
            Cause::NothingAfter => "nothing stands after ",
            Cause::NoComma => "a comma is missing before ",
            Cause::Form => "the form is ",
            Cause::FormOfNone => "no operand stands here: the form is ",
            Cause::FormOfOne => "one operand stands here: the form is ",
            Cause::FormOfTwo => "two operands stand here: the form is ",
            Cause::FormOfThree => "three operands stand here: the form is ",
            Cause::FormOfMore => "more than three operands stand here: the form is ",
            Cause::IndirectForms => {
                "the indirect operands are *, *+, *-, *0+, *0-, *BR0+ and *BR0-; a register follows a comma"
            }
            Cause::ReservedSection => "this is a section of .bss or .usect: take another name",
            Cause::FilledSection => {
                "this is a section of .text, .data or .sect: take another name"
            }
            Cause::NowhereDefined => "nothing in this module defines ",
            Cause::MacroElsewhere => "the .macro of ",
            Cause::Similar => "similar: ",
            Cause::RegisterName
            | Cause::RegisterInExpression
            | Cause::NextAfterShift
            | Cause::NextAfterPort
            | Cause::NextAfterBit
            | Cause::NoIndirect
            | Cause::Predefined
            | Cause::TakesNothing
            | Cause::Longer
            | Cause::TakesAddress
            | Cause::ShiftBefore
            | Cause::NeededAtOnce => "",
        }
    }

    /// The sentence after the word.
    pub(crate) fn back(self) -> &'static str
        ensures { result.now ≡ back self }
    {
        match self {
            Cause::MnemonicAsLabel => " is a label: put a blank before it",
            Cause::Instead => " write ",
            Cause::OtherCase => " is defined",
            Cause::RegisterName => " is a name that .mmregs defines",
            Cause::RegisterInExpression => " follows a comma, as in *,AR1",
            Cause::NextAfterShift => " has a shift before the next register: write ,0, before ",
            Cause::NextAfterPort => " has a port before the next register: write ,PA0, before ",
            Cause::NextAfterBit => " has a bit before the next register: write ,0, before ",
            Cause::CommentInExpression => " if a comment begins there",
            Cause::TakesNothing => " has no operand; a comment begins with ;",
            Cause::Form
            | Cause::FormOfNone
            | Cause::FormOfOne
            | Cause::FormOfTwo
            | Cause::FormOfThree
            | Cause::FormOfMore => " ",
            Cause::NoIndirect => " has no indirect operand, and nothing stands before *",
            Cause::Predefined => " is predefined: take this line out, or write another name",
            Cause::ShiftBefore => " has a shift of 3 bits: shift before it, by LAC or SFL",
            Cause::Longer => " takes a longer number",
            Cause::TakesAddress => " takes an address",
            Cause::NeededAtOnce => {
                " has no value above this line, and this directive needs it at once"
            }
            Cause::MacroElsewhere => " comes before its first call, in the same module",
            _ => "",
        }
    }
}
