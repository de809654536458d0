//! A line of a source: explanations of faults, made of docs/FAULTS.md by docs/explanations.py --write.

ghost use Rattle.c25_explain.specs.Explanation.{IsExplanationOf};
ghost use Rattle.c25_explain.specs.declared.fault.AnyFault.TheVariants.{Source};
ghost use Rattle.c25_meaning_language.specs.declared.statement.FaultKind.TheVariants as fault;

use crate::parts::Explanation;

pub(crate) fn bad_label() -> Explanation
    ensures { IsExplanationOf (Source fault.BadLabel) result }
{
    Explanation {
        number: 10,
        name: "BadLabel",
        meaning: r#"A label or name is invalid, or a directive lacks the label that it needs. A label begins in column 1
and ends before a blank or `;`. Its first character is a letter or `_`, the others are letters,
digits, `_` and `$`; it has at most 128 characters, and a colon may end it.
"#,
        example: Some(
            r#"Given:

    9X NOP

Reported:

    a.asm:1: 10 BadLabel
"#,
        ),
        advice: r#"Do: put a blank before whatever is not a label, above all a directive, and a blank after a label's
colon. Give .set, .equ, .usect and .macro a label. Write local labels ($1) as names, in a macro as
name?. Where the line seems empty, look for a character that is not shown: the Ctrl-Z (1Ah) with
which MS-DOS ended files is taken out by tr -d '\032' < old.asm > new.asm.
"#,
    }
}

pub(crate) fn bad_constant() -> Explanation
    ensures { IsExplanationOf (Source fault.BadConstant) result }
{
    Explanation {
        number: 11,
        name: "BadConstant",
        meaning: r#"A constant has a digit that its base does not have. A run of letters and digits that begins with a
digit is a constant, and its last character alone gives the base: h is hexadecimal, q octal, b
binary, in upper or lower case; anything else is decimal.
"#,
        example: Some(
            r#"Given:

     .word 12G

Reported:

    a.asm:1: 11 BadConstant
"#,
        ),
        advice: r#"Do: write hexadecimal numbers as 0FFh, with a 0 before a leading letter. The prefixes 0x and `>` are
not accepted.
"#,
    }
}

pub(crate) fn open_quote() -> Explanation
    ensures { IsExplanationOf (Source fault.OpenQuote) result }
{
    Explanation {
        number: 12,
        name: "OpenQuote",
        meaning: r#"A quote is not closed, or a pair of `'` does not enclose exactly one character. Strings stand in
`"`, with `""` for one inside; a character stands in `'`, with `''''` for the quote itself.
"#,
        example: Some(
            r#"Given:

     .word 'A

Reported:

    a.asm:1: 12 OpenQuote
"#,
        ),
        advice: r#"Do: close the quote; write 'AB' as 'A'*256+'B' and `''` as 0; begin a comment with `;`.
"#,
    }
}

pub(crate) fn stray_text() -> Explanation
    ensures { IsExplanationOf (Source fault.StrayText) result }
{
    Explanation {
        number: 13,
        name: "StrayText",
        meaning: r#"A character cannot begin a token: `!` without `=`, `?`, `#`, `@`, `\`, `:`, a brace, a bracket, the
backquote, a `.` without a name after it, or any character outside comments that is neither 20h to
7Eh nor a tab.
"#,
        example: Some(
            r#"Given:

     .word @

Reported:

    a.asm:1: 13 StrayText
"#,
        ),
        advice: r#"Do: leave out a `#` or `@` before an operand; write `~` to invert all bits and = 0 after a value for
a logical not; .float and .bfloat are left out, so write a fraction as .word with the words that
stand for it, worked out beforehand; take out a Ctrl-Z (1Ah) by tr -d '\032' < old.asm > new.asm;
look for a :name: or name? that substitution left unchanged because nothing has that name.
"#,
    }
}

pub(crate) fn bad_expression() -> Explanation
    ensures { IsExplanationOf (Source fault.BadExpression) result }
{
    Explanation {
        number: 20,
        name: "BadExpression",
        meaning: r#"An operand is not a valid expression: an operator lacks its operand, two operands have no operator
or comma between them, parentheses do not pair, or there is nothing between two commas. Operators
and their precedence are those of C.
"#,
        example: Some(
            r#"Given:

     B 1+

Reported:

    a.asm:1: 20 BadExpression
"#,
        ),
        advice: r#"    Where there is | Write
    a comment without `;`: LACK 5 load it | `;` before the comment
    two values without a comma or an operator: .word 1 2 | .word 1,2
    `>` for hexadecimal: LALK >10, LALK >FF | LALK 10h, LALK 0FFh
    a next register without a comma: MPY *AR1 | MPY *,AR1
    the same, where the instruction has a shift, a port or a bit: LAC *AR1 | LAC *,0,AR1
    a local label: B $1 | a name of its own, in a macro name?

Do: find the cause among these; otherwise complete the expression. (0x10 is 11.)
"#,
    }
}

pub(crate) fn too_deep() -> Explanation
    ensures { IsExplanationOf (Source fault.TooDeep) result }
{
    Explanation {
        number: 21,
        name: "TooDeep",
        meaning: r#"Parentheses and unary operators nest more than 64 deep.
"#,
        example: Some(
            r#"Given:

     LALK ~~~~~~~~~~~~~~~~~~~~~~~~~~~~~~~~~~~~~~~~~~~~~~~~~~~~~~~~~~~~~~~~~1

Reported:

    a.asm:1: 21 TooDeep
"#,
        ),
        advice: r#"Do: define a part of the expression as a symbol with .set and use the symbol.
"#,
    }
}

pub(crate) fn undefined() -> Explanation
    ensures { IsExplanationOf (Source fault.Undefined) result }
{
    Explanation {
        number: 22,
        name: "Undefined",
        meaning: r#"A name is not defined. Labels may be used before their line, but not in a value that is needed at
once: in .set, .equ, .if, .elseif, .loop, .break, .eval, .space, .bss and .usect. In these
directives a name of another module gives 22 too. A name of .def that this module does not define
also gives 22.
"#,
        example: Some(
            r#"Given:

     B X

Reported:

    a.asm:1: 22 Undefined
"#,
        ),
        advice: r#"Do: check the spelling and the case, since names are case-sensitive. A hexadecimal constant begins
with a digit: write 0FFh for FFh. Declare a name of another module with .ref or .global; add .mmregs
for IMR and the other registers in data memory; move what .set and .if need before them; begin a
comment with `;`, above all one that begins with an operator. Only AR0 to AR7 and PA0 to PA15 are
predefined.
"#,
    }
}

pub(crate) fn not_absolute() -> Explanation
    ensures { IsExplanationOf (Source fault.NotAbsolute) result }
{
    Explanation {
        number: 23,
        name: "NotAbsolute",
        meaning: r#"An address stands where a number is needed, or an operation on addresses is not allowed: addition of
two, negation, multiplication, shift or comparison of one, subtraction of two of different sections
or modules, or of a run address and a load address (.label). An address plus or minus a number is an
address; two addresses of one section of this module subtract to a number, where both are run
addresses or both are load addresses (SPRU018, expressions and relocation).
"#,
        example: Some(
            r#"Given:

    X .space X

Reported:

    a.asm:1: 23 NotAbsolute
"#,
        ),
        advice: r#"Do: use the difference of two labels, or a symbol that is a number. For the length of code that is
copied put a .label at both of its ends. An address needs no %128: a direct operand keeps only the
low seven bits, and LDPK takes its data page.
"#,
    }
}

pub(crate) fn divide_by_zero() -> Explanation
    ensures { IsExplanationOf (Source fault.DivideByZero) result }
{
    Explanation {
        number: 24,
        name: "DivideByZero",
        meaning: r#"The right side of `/` or `%` is 0.
"#,
        example: Some(
            r#"Given:

     .word 1/0

Reported:

    a.asm:1: 24 DivideByZero
"#,
        ),
        advice: r#"Do: check the value of the divisor where the line is used. It is computed even where the result
would not matter, so put the line inside an .if.
"#,
    }
}

pub(crate) fn value_range() -> Explanation
    ensures { IsExplanationOf (Source fault.ValueRange) result }
{
    Explanation {
        number: 25,
        name: "ValueRange",
        meaning: r#"A value is outside 32 signed bits, be it a constant or the result of any operator; a shift count is
outside 0 to 31; or a count of .space, .bss or .usect is below 0.
"#,
        example: Some(
            r#"Given:

     .word 1<<31

Reported:

    a.asm:1: 25 ValueRange
"#,
        ),
        advice: r#"Do: write long numbers as two words of 16 bits. -2147483648 is a minus before a constant that is too
large; write -2147483647-1.
"#,
    }
}

pub(crate) fn defined() -> Explanation
    ensures { IsExplanationOf (Source fault.Defined) result }
{
    Explanation {
        number: 26,
        name: "Defined",
        meaning: r#"A name is defined already: there is a second label, .set, .equ, .usect, .bss or .label of it, even
with the same value; or .mmregs comes where a name like IMR is defined; or the name is one of AR0 to
AR7 and PA0 to PA15, which are predefined in upper and lower case.
"#,
        example: Some(
            r#"Given:

    X NOP
    X NOP

Reported:

    a.asm:2: 26 Defined
"#,
        ),
        advice: r#"    Where there is | Write
    a label in a macro that is called twice | name?, which has another number in each call
    a label in a loop | name:k:, with .asg 1,k before the loop and .eval k+1,k in it: name? is one
        name in all turns

Do: rename one, or copy the file with the definition only once; take out lines that define AR0 to
AR7 or PA0 to PA15. For a value that changes use .asg or .eval in place of .set.
"#,
    }
}

pub(crate) fn unknown_mnemonic() -> Explanation
    ensures { IsExplanationOf (Source fault.UnknownMnemonic) result }
{
    Explanation {
        number: 50,
        name: "UnknownMnemonic",
        meaning: r#"The first name after the label is not a mnemonic of the TMS320C25, not a directive of this
assembler, and not a macro that is defined before this line.
"#,
        example: Some(
            r#"Given:

     FOO 1

Reported:

    a.asm:1: 50 UnknownMnemonic
"#,
        ),
        advice: r#"    Where there is | Write
    a label in column 2 | the label in column 1
    a mnemonic in column 1, where it is read as a label | a blank before it
    a directive without its dot: EQU, DATA, DEF, REF, END | .equ, .word, .def, .ref, .end
    no blank after a mnemonic: LAC* | LAC *
    a macro that is called before it is defined | the .macro above the call
    a mnemonic of the TMS320C5x | an instruction of the TMS320C25
    .long n | .word n&0FFFFh,n>>16: TI's .long has the low half first
    .asect, .align | .sect, and an address in the command file
    .float, .bfloat | .word with the words, worked out beforehand
    .field | .word with the fields, shifted and joined by `|`
    .bes | .space and, after it, a .set of $-1
    .newblock | nothing; local labels as names
    .mlib | .copy of a file of macros
    .var | one more parameter, which callers leave out
    .emsg, .mmsg, .wmsg, .tab, .port, .version, .drlist, .drnolist | nothing: they have no effect on
        words

Do: look at the first name after the label, and find its cause among these; otherwise correct its
spelling. The manual has more of what is left out (limits, What is left out).
"#,
    }
}

pub(crate) fn operand_count() -> Explanation
    ensures { IsExplanationOf (Source fault.OperandCount) result }
{
    Explanation {
        number: 51,
        name: "OperandCount",
        meaning: r#"There are too few operands, or too many.
"#,
        example: Some(
            r#"Given:

     LAC

Reported:

    a.asm:1: 51 OperandCount
"#,
        ),
        advice: r#"    Instructions | Operands
    most that read or write a word of data memory, as MPY, LT, SST | dma, or ind[,next]
    ADD, SUB, LAC, SACL, SACH | dma[,shift], or ind[,shift[,next]]
    LAR, SAR | ar,dma, or ar,ind[,next]
    IN, OUT; BIT | dma,port, or ind,port[,next]; bit in place of port
    ADDK, SUBK, LACK, RPTK, ADRK, SBRK, LDPK, MPYK, SPM, FORT, CMPR | constant
    LARK, LRLK | ar,constant
    LALK, ADLK, SBLK, ANDK, ORK, XORK | constant[,shift]
    MAC, MACD, BLKP; BLKD | pma,dma, or pma,ind[,next]; dma for the first
    branches, CALL | pma[,ind[,next]]
    NORM; LARP | [ind]; ar
    the others | none

There dma is an address of data memory and pma one of program memory, ind an indirect operand, as
`*+`, ar and next are auxiliary registers, and what stands in brackets may be left out.

Do: find the instruction in this table, and put a comma between two operands. A next auxiliary
register goes only with an indirect operand, and never with NORM; NOP and .endif have no operands,
so begin the comment with `;`. .usect has no third operand.
"#,
    }
}

pub(crate) fn operand_form() -> Explanation
    ensures { IsExplanationOf (Source fault.OperandForm) result }
{
    Explanation {
        number: 52,
        name: "OperandForm",
        meaning: r#"An operand has the wrong form: an indirect one where a number is needed or a number where an
indirect one is, a string where none is allowed or no string where one is needed, an expression
where a name is needed; or a section's name is invalid or belongs to a section of the other kind,
initialised (.sect, .data) or uninitialised (.usect, .bss).
"#,
        example: Some(
            r#"Given:

     LACK *

Reported:

    a.asm:1: 52 OperandForm
"#,
        ),
        advice: r#"Do: find the operands of an instruction in the table of 51 OperandCount; put quotes around the name
of a file; use .string for characters and .word for numbers; use two names for two kinds of section.
"#,
    }
}

pub(crate) fn field_range() -> Explanation
    ensures { IsExplanationOf (Source fault.FieldRange) result }
{
    Explanation {
        number: 53,
        name: "FieldRange",
        meaning: r#"A number does not fit in its field.
"#,
        example: Some(
            r#"Given:

     LACK 256

Reported:

    a.asm:1: 53 FieldRange
"#,
        ),
        advice: r#"    Field | Takes
    direct operand | 0 to 65,535; the low seven bits are kept
    second word: long immediates (LALK), addresses of branches, calls, MAC, MACD, BLKD, BLKP |
        -32,768 to 65,535; the low 16 bits are kept
    ADDK, SUBK, LACK, LARK, RPTK, ADRK, SBRK | 0 to 255
    LDPK | 0 to 511
    MPYK | -4,096 to 4,095
    shift; of SACL and SACH | 0 to 15; 0 to 7
    auxiliary register, next auxiliary register | 0 to 7
    port, bit code | 0 to 15
    SPM and CMPR; FORT | 0 to 3; 0 or 1
    .byte | -128 to 255
    .word, .int | any; the low 16 bits are kept

Do: use the instruction with the wider field (LALK for LACK, LRLK for LARK), or write &0FFh after
the value where the upper bits may be dropped.
"#,
    }
}

pub(crate) fn too_large() -> Explanation
    ensures { IsExplanationOf (Source fault.TooLarge) result }
{
    Explanation {
        number: 54,
        name: "TooLarge",
        meaning: r#"A section has more than 65,536 words, or a module has more than 255 sections or 65,535 names; or
instructions stand in more than 65,535 files, or in a file whose name has more than 65,535 bytes.
"#,
        example: Some(
            r#"Given:

     .space 1048577

Reported:

    a.asm:1: 54 TooLarge
"#,
        ),
        advice: r#"Do: remember that .space counts bits, and .bss and .usect count words; look for a loop that never
ends; split the source into several modules.
"#,
    }
}

pub(crate) fn not_relocatable() -> Explanation
    ensures { IsExplanationOf (Source fault.NotRelocatable) result }
{
    Explanation {
        number: 55,
        name: "NotRelocatable",
        meaning: r#"An address that is known only after linking stands in a field that takes only numbers. Direct
operands, second words, LDPK, .word and .int take addresses.
"#,
        example: Some(
            r#"Given:

    X LACK X

Reported:

    a.asm:1: 55 NotRelocatable
"#,
        ),
        advice: r#"Do: load an address with LALK or LRLK; for a length use the difference of two labels, which is a
number.
"#,
    }
}

pub(crate) fn bad_block() -> Explanation
    ensures { IsExplanationOf (Source fault.BadBlock) result }
{
    Explanation {
        number: 56,
        name: "BadBlock",
        meaning: r#"A block of .bss that must lie in one data page of 128 words (its third operand is not 0) has no
words or more than 128.
"#,
        example: Some(
            r#"Given:

     .bss X,129,1

Reported:

    a.asm:1: 56 BadBlock
"#,
        ),
        advice: r#"Do: split the block among several names, each in a data page of its own; leave out the third operand
where the program loads the data page anew for each of them.
"#,
    }
}
