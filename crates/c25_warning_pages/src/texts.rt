//! Explanations of warnings, made of docs/WARNINGS.md by docs/explanations.py --write.

ghost use Rattle.std.specs.Prelude.{◌≡◌};
ghost use Rattle.c25_line_warnings.specs.Names.{warning_name};
ghost use Rattle.c25_warnings.specs.Names.{link_warning_name};
ghost use Rattle.c25_page_reports.specs.Warnings.{page_warning_name};
ghost use Rattle.c25_line_warnings.specs.declared.warning_kind.WarningKind.TheVariants as line;
ghost use Rattle.c25_warnings.specs.declared.warning.LinkWarningKind.TheVariants as section;
ghost use Rattle.c25_page_reports.specs.declared.warning.PageWarningKind.TheVariants as page;

use crate::page::Page;

pub(crate) fn mnemonic_label() -> Page
    ensures { result.name.now ≡ warning_name line.MnemonicLabel }
{
    Page {
        name: "MnemonicLabel",
        summary: r#"A label is a mnemonic, has no colon after it, and stands on a line without an instruction or directive."#,
        meaning: r#"A label is a mnemonic, has no colon after it, and stands on a line without an instruction or
directive. Text that begins in column 1 is a label, so the line defines a symbol, and the
instruction that was meant is missing.
"#,
        example: r#"Given:

    NOP

Reported:

    a.asm:1: warning MnemonicLabel
"#,
        advice: r#"Do: put a blank before the instruction. If the label is meant, write a colon after it.
"#,
    }
}

pub(crate) fn directive_label() -> Page
    ensures { result.name.now ≡ warning_name line.DirectiveLabel }
{
    Page {
        name: "DirectiveLabel",
        summary: r#"A label is a directive without its dot, has no colon after it, stands on a line without an instruction or directive, and no line uses it."#,
        meaning: r#"A label is a directive without its dot, has no colon after it, stands on a line without an
instruction or directive, and no line uses it. The line defines a symbol, and the directive that was
meant is missing. The directives are those that may stand without operands: text, data, mmregs, end,
else, endif, endm, mexit, loop, break, endloop, list, nolist and page.
"#,
        example: r#"Given:

     NOP
    END

Reported:

    a.asm:2: warning DirectiveLabel
"#,
        advice: r#"Do: put a blank and a dot before the directive. If the label is meant, write a colon after it.
"#,
    }
}

pub(crate) fn register_shift() -> Page
    ensures { result.name.now ≡ warning_name line.RegisterShift }
{
    Page {
        name: "RegisterShift",
        summary: r#"The second operand of ADD, SUB, LAC, SACL or SACH is the name of an auxiliary register or a port."#,
        meaning: r#"The second operand of ADD, SUB, LAC, SACL or SACH is the name of an auxiliary register or a port.
The second operand of these instructions is the shift, and the names AR0 to AR7 and PA0 to PA15 are
numbers: so ADD *+,AR3 shifts by 3, and ARP stays as it was.
"#,
        example: r#"Given:

     ADD *+,AR3

Reported:

    a.asm:1: warning RegisterShift
"#,
        advice: r#"Do: write the shift, 0 if there is to be none, and then the register. If the shift is meant, write
it as a number.
"#,
    }
}

pub(crate) fn program_address() -> Page
    ensures { result.name.now ≡ warning_name line.ProgramAddress }
{
    Page {
        name: "ProgramAddress",
        summary: r#"An operand that is an address of data memory, the operand of LDPK too, has just one name, and that symbol lies in program memory."#,
        meaning: r#"An operand that is an address of data memory, the operand of LDPK too, has just one name, and that
symbol lies in program memory. The instruction takes the word of data memory that has the same
address, or the data page of that number. A symbol lies where the command file puts its section.
Where no command file is given, a section with words lies in program memory, and one that only
reserves words in data memory.
"#,
        example: r#"Given:

    T LAC T

Reported:

    a.asm:1: warning ProgramAddress
"#,
        advice: r#"Do: copy the word to data memory, with BLKP or TBLR, and name its address there. If the words are to
be loaded into data memory, put their section on page 1 by the command file, and check with it.
"#,
    }
}

pub(crate) fn data_address() -> Page
    ensures { result.name.now ≡ warning_name line.DataAddress }
{
    Page {
        name: "DataAddress",
        summary: r#"An operand that is an address of program memory has just one name, and that symbol lies in data memory: the target of a branch or call, or the first operand of BLKP, MAC or MACD."#,
        meaning: r#"An operand that is an address of program memory has just one name, and that symbol lies in data
memory: the target of a branch or call, or the first operand of BLKP, MAC or MACD.
"#,
        example: r#"Given:

     .bss V,1
     BLKP V,*+

Reported:

    a.asm:2: warning DataAddress
"#,
        advice: r#"Do: name the address in program memory; to copy within data memory, write BLKD. A MAC whose
coefficients were copied to block B0 takes them from 0FF00h on under CNF 1: write that number.
"#,
    }
}

pub(crate) fn not_repeatable() -> Page
    ensures { result.name.now ≡ warning_name line.NotRepeatable }
{
    Page {
        name: "NotRepeatable",
        summary: r#"RPT or RPTK stands before a branch, call or return, TRAP, IDLE, RPT, RPTK, or an instruction with a long immediate."#,
        meaning: r#"RPT or RPTK stands before a branch, call or return, TRAP, IDLE, RPT, RPTK, or an instruction with a
long immediate. These may not be repeated: a run stops there, with BadRepeat.
"#,
        example: r#"Given:

     RPTK 2
     LALK 5

Reported:

    a.asm:2: warning NotRepeatable
"#,
        advice: r#"Do: take the repeat away, or write a loop with BANZ.
"#,
    }
}

pub(crate) fn unused() -> Page
    ensures { result.name.now ≡ warning_name line.Unused }
{
    Page {
        name: "Unused",
        summary: r#"A symbol is defined and no line uses it: the name of a .set or .equ, the label of an instruction, the name of reserved words (.bss, .usect), or a label of data."#,
        meaning: r#"A symbol is defined and no line uses it: the name of a .set or .equ, the label of an instruction,
the name of reserved words (.bss, .usect), or a label of data. A name is used where it stands among
the operands of a line of any file, also in a macro, in .def and in a conditional line that is left
out. No warning comes for labels of instructions in the first 32 words of a section, where
interrupts and reset begin; and for what a copied file defines, which may be there for other
sources.

Reserved words and data may be reached without their name. So no warning comes for them where an
operand of the module takes an address of their section, as LRLK AR1,M and a branch do, or has one
of their words, as LAC M+1; where .def has a name of the section; and in a source with DMOV, LTD or
MACD, which write the word after the one that they name. They may also be there to keep the place of
other words. So none comes in a section with instructions, as that of interrupt vectors; before a
block of .bss, which they may keep inside one data page; for words that fill the rest of a data
page, as .bss PAD,127 after one word, so that others begin a page; and, in a section other than
.bss, before words that an operand has: a device may fix the order of its registers. For the rest of
a page, pages of 128 words are counted from the start of the section: the words begin after the
first word of one and end with its last word, at the next symbol or the end of the section.
"#,
        example: r#"Given:

    N .set 5

Reported:

    a.asm:1: warning Unused
"#,
        advice: r#"Do: remove the symbol, or look for the line where another name stands in its place. List under .def
what other modules use, and words that the program reaches by their numbers alone.
"#,
    }
}

pub(crate) fn not_reached() -> Page
    ensures { result.name.now ≡ warning_name line.NotReached }
{
    Page {
        name: "NotReached",
        summary: r#"The words before an instruction end with B, BACC or RET, or with data after one of these; and no symbol and no operand of the module is the instruction's address."#,
        meaning: r#"The words before an instruction end with B, BACC or RET, or with data after one of these; and no
symbol and no operand of the module is the instruction's address. So the processor comes to it
neither from the line before nor by a branch. No warning comes for the first 32 words of a section,
where interrupt vectors stand, and for a B, which may be one of a table of branches.
"#,
        example: r#"Given:

     .space 32*16
    L B L
     NOP

Reported:

    a.asm:3: warning NotReached
"#,
        advice: r#"Do: give the instruction a label and branch to it, or remove it. If BACC or CALA comes to it by an
address that the program computes, give it a label all the same.
"#,
    }
}

pub(crate) fn reserved_in_program() -> Page
    ensures { result.name.now ≡ link_warning_name section.ReservedInProgram }
{
    Page {
        name: "ReservedInProgram",
        summary: r#"The command file puts a section on page 0, program memory, and the section reserves words, by .bss or .usect."#,
        meaning: r#"The command file puts a section on page 0, program memory, and the section reserves words, by .bss
or .usect. An address without PAGE 1 is on page 0.
"#,
        example: r#"Given:

     .bss V,1
     LRLK AR1,V
    --- command
    SECTIONS { .bss : > 300h }

Reported:

    link:.bss: warning ReservedInProgram
"#,
        advice: r#"Do: write PAGE 1 after the address, or take a range of page 1.
"#,
    }
}

pub(crate) fn absent_section() -> Page
    ensures { result.name.now ≡ link_warning_name section.AbsentSection }
{
    Page {
        name: "AbsentSection",
        summary: r#"SECTIONS lists a section that no module has, and that is not .text, .data or .bss."#,
        meaning: r#"SECTIONS lists a section that no module has, and that is not .text, .data or .bss. The line of the
command file has no effect: most often a name is misspelled in it or in a .sect.
"#,
        example: r#"Given:

     NOP
    --- command
    SECTIONS { vectors : > 0 }

Reported:

    link:vectors: warning AbsentSection
"#,
        advice: r#"Do: write the name as the sources have it; names of sections are case-sensitive. Otherwise remove
the line.
"#,
    }
}

pub(crate) fn wrong_page() -> Page
    ensures { result.name.now ≡ page_warning_name page.WrongPage }
{
    Page {
        name: "WrongPage",
        summary: r#"A direct operand names a word of one data page, and DP is another page, at least where the instruction is reached in one way."#,
        meaning: r#"A direct operand names a word of one data page, and DP is another page, at least where the
instruction is reached in one way. The instruction has the low seven bits of the word's address
alone, so it takes the word of DP's page that has the same bits. Of SST and SST1, whose direct
operand is on page 0 whatever DP is, it says that the word is on another page.
"#,
        example: r#"Given:

    V .usect "v",1
     LAC V
    L B L
    --- command
    SECTIONS { v : > 300h PAGE 1 }

Reported:

    a.asm:2: warning WrongPage: V is on page 6, DP is 0
"#,
        advice: r#"Do: write LDPK with the word's name before the instruction, on each way to it. In a routine of an
interrupt save DP first, by SST, and load it again by LST before RET.
"#,
    }
}

pub(crate) fn page_unsure() -> Page
    ensures { result.name.now ≡ page_warning_name page.PageUnsure }
{
    Page {
        name: "PageUnsure",
        summary: r#"A direct operand names a word, and DP is not known where the instruction is reached in one way."#,
        meaning: r#"A direct operand names a word, and DP is not known where the instruction is reached in one way. LDP
or LST loaded it from memory, or two ways that meet there have another page each. LST of a word of
page 0 in which an SST saved ST0 is known.
"#,
        example: r#"Given:

    V .usect "v",1
     LDP 60h
     LAC V
    L B L
    --- command
    SECTIONS { v : > 300h PAGE 1 }

Reported:

    a.asm:3: warning PageUnsure: V is on page 6, DP is not known
    supposed: IMR lets through no interrupt
    0 of 1 direct operands that name a word are sure; 3 statements, 0 never reached; at most 0 of 8 words of the stack; the code is never left
"#,
        advice: r#"Do: write LDPK with the word's name before the instruction.
"#,
    }
}

pub(crate) fn not_followed() -> Page
    ensures { result.name.now ≡ page_warning_name page.NotFollowed }
{
    Page {
        name: "NotFollowed",
        summary: r#"The program cannot be followed through an instruction, and nothing is said of its data pages."#,
        meaning: r#"The program cannot be followed through an instruction, and nothing is said of its data pages. The
causes: RET acts where nothing was called or where a word that was pushed is on top of the stack; a
call, an interrupt or PUSH may put a ninth word on the stack, so that one is lost; ways meet on
which another number of words was pushed; or a repeat pushes or takes words.
"#,
        example: r#"Given:

     RET

Reported:

    a.asm:1: warning NotFollowed: RET may act where nothing was called
"#,
        advice: r#"Do: take each word from the stack that was pushed, on every way and before RET. A routine that calls
itself cannot be followed.
"#,
    }
}

pub(crate) fn code_left() -> Page
    ensures { result.name.now ≡ page_warning_name page.CodeLeft }
{
    Page {
        name: "CodeLeft",
        summary: r#"The program goes on to an address where no instruction stands, or into block B0, or a repeat may run an instruction that may not be repeated."#,
        meaning: r#"The program goes on to an address where no instruction stands, or into block B0, or a repeat may run
an instruction that may not be repeated. A run stops where no instruction stands, and at such a
repeat.
"#,
        example: r#"Given:

     NOP

Reported:

    a.asm:1: warning CodeLeft: leads to 0001h, where no instruction stands
    supposed: IMR lets through no interrupt
    0 of 0 direct operands that name a word are sure; 1 statements, 0 never reached; at most 0 of 8 words of the stack; the code may be left
"#,
        advice: r#"Do: end the program with a branch, or with IDLE where no interrupt is let through.
"#,
    }
}
