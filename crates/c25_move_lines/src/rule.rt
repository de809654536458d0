//! The rules by which lines are rewritten.

/// A rule by which lines are rewritten. `specs/Rules.antt` has them as a table.
#[derive(Clone, Copy, PartialEq, Debug)]
pub enum Rule {
    /// A comment without a `;`.
    Comment,
    /// Operators that act from left to right.
    LeftToRight,
    /// A directive without a dot.
    Directive,
    /// A hexadecimal constant `>1F` or `0x1F`.
    Hexadecimal,
    /// A constant of two characters, or of none.
    Characters,
    /// A string in single quotes, or a name without quotes.
    Quotes,
    /// A local label `$0` to `$9`.
    LocalLabel,
    /// `.newblock`, which begins a block of local labels.
    NewBlock,
    /// A section at a fixed address.
    Address,
    /// A program or data segment.
    Segment,
    /// A dummy section.
    Dummy,
    /// Words that are reserved in a section of words.
    Reserve,
    /// A label at the end of a block.
    BlockEnd,
    /// A name of the assembler's own that is defined again.
    Register,
    /// A page flag of `.usect`, or an alignment of `.bss`.
    Flag,
    /// A constant of 32 bits.
    Long,
    /// A library of macros.
    Library,
    /// A directive that has no effect here.
    NoEffect,
    /// A directive that has no form here.
    NoForm,
    /// A string in `.byte` or `.word`.
    ByteString,
}

impl Rule {
    ghost use Rattle.std.specs.Prelude.{◌≡◌};
    ghost use Rattle.c25_move_lines.specs.Rules.{done_text, left_text};

    /// What is reported of a line that was rewritten by the rule.
    pub fn done_text(&self) -> &'static str
        ensures { result.now ≡ done_text self.now }
    {
        match self {
            Rule::Comment => "comment",
            Rule::LeftToRight => "operators from left to right",
            Rule::Directive => "directive",
            Rule::Hexadecimal => "hexadecimal",
            Rule::Characters => "constant of two characters",
            Rule::Quotes => "quotes",
            Rule::LocalLabel | Rule::NewBlock => "local label",
            Rule::Address => "section at an address",
            Rule::Segment => "segment",
            Rule::Dummy => "dummy section",
            Rule::Reserve => "reserved words",
            Rule::BlockEnd => "end of a block",
            Rule::Register => "register's name",
            Rule::Flag => "flag",
            Rule::Long => "32 bits",
            Rule::Library => "library of macros",
            Rule::NoEffect => "directive without effect",
            Rule::NoForm => "directive without a form",
            Rule::ByteString => "string of bytes",
        }
    }

    /// What is reported of a line on which the rule leaves something to the reader.
    pub fn left_text(&self) -> &'static str
        ensures { result.now ≡ left_text self.now }
    {
        match self {
            Rule::Comment => "what follows the blank is taken as a comment",
            Rule::LeftToRight => "operators with parentheses: compare the words",
            Rule::Directive => "the name may change its value",
            Rule::Hexadecimal => "hexadecimal: compare the words",
            Rule::Characters => "constant of two characters: compare the words",
            Rule::Quotes => "a quote stands within the string",
            Rule::LocalLabel | Rule::NewBlock => "local label: compare the words",
            Rule::Address => "the address is no constant",
            Rule::Segment => "segment of data: give .data an address",
            Rule::Dummy => "a dummy section has only BSS lines",
            Rule::Reserve => "reserved words: compare the words",
            Rule::BlockEnd => "the label is the last word of the block: compare the words",
            Rule::Register => "the name is that of another number here",
            Rule::Flag => "the flag is taken out: give the section a range of one page",
            Rule::Long => "the low word is first: compare the words",
            Rule::Library => "the members of the library have to be in this file",
            Rule::NoEffect => "the directive has no effect here",
            Rule::NoForm => "the directive has no form here",
            Rule::ByteString => "a string has no form here",
        }
    }
}
