//! Tests of the remark on a line that is refused: lines as people write them, each with what it must say, or
//! nothing.

use c25_expr::Symbols;
use c25_expr::symbols::Defined;
use c25_hints::{remark, remark_among};
use c25_meaning_common::failure::Failure;
use c25_meaning_language::statement::FaultKind;
use c25_meaning_language::value::{Base, Value};
use std::alloc::Global;
use std::process::Abort;
use std::test::Fail;

/// Stands for no remark.
const NOTHING: &str = "";

/// The symbols `K` 300, and `START` and `Loop`, which are addresses of `.text`.
fn symbols(alloc: Global) -> Result<Symbols, Failure<Defined>> {
    let mut symbols = Symbols::new(alloc);
    let number = Value {
        base: Base::Absolute,
        offset: 300,
    };
    symbols.define("K", number)?;
    let address = Value {
        base: Base::Section(0),
        offset: 0,
    };
    symbols.define("START", address)?;
    symbols.define("Loop", address)?;
    Ok(symbols)
}

/// Asserts that each of these lines, refused with this fault, has this remark.
fn remarks_are(
    rt: &impl Abort,
    alloc: Global,
    kind: FaultKind,
    rows: &[(&str, &str)],
) -> Result<(), Fail> {
    let symbols = symbols(alloc)?;
    for (line, wanted) in rows {
        let found = remark(alloc, line, kind, &symbols)?;
        let text = match &found {
            Some(text) => text.as_str(),
            None => NOTHING,
        };
        assert_eq!(rt; text, *wanted);
    }
    Ok(())
}

#[test]
fn labels_are_remarked_on(rt: HostRuntime) -> Result<(), Fail> {
    let rows = [
        ("9X NOP", "a name begins with a letter or _"),
        (".text", "a blank stands before a directive"),
        ("X:NOP", "a blank stands after the colon of a label"),
        ("A-B NOP", "a name has letters, digits, _ and $ alone"),
        ("$1 NOP", "there are no local labels, as $1: write a name"),
        (" .set 5", "this directive needs a label in column 1"),
        (" .macro n", "this directive needs a label in column 1"),
        (
            " .usect \"v\",1",
            "this directive needs a label in column 1",
        ),
        (
            "\x1a",
            "Ctrl-Z (1Ah), with which old files end: take it out",
        ),
        ("\x0c NOP", "a control character: take it out"),
    ];
    remarks_are(&rt, rt.alloc(), FaultKind::BadLabel, &rows)
}

#[test]
fn constants_are_remarked_on(rt: HostRuntime) -> Result<(), Fail> {
    let rows = [
        (
            " .word 12G",
            "a constant has the digits 0 to 9, or ends in h, q or b",
        ),
        (
            " LALK 0x10",
            "a hexadecimal constant is written 0FFh, not 0xFF",
        ),
        (" LALK >00FF", "a hexadecimal constant ends in h"),
        (" LALK 00FF", "a hexadecimal constant ends in h"),
        (" LACK >1F", "a hexadecimal constant ends in h"),
        (
            " .word 8Q",
            "a constant that ends in q has the digits 0 to 7",
        ),
        (" .word 2B", "a hexadecimal constant ends in h"),
        (
            " .word 1Gh",
            "a constant that ends in h has the digits 0 to 9 and A to F",
        ),
        (
            " .word 1xb",
            "a hexadecimal constant is written 0FFh, not 0xFF",
        ),
        (
            " .float 1e5",
            "in place of .float write .word with the words, worked out beforehand",
        ),
        (
            " .long 0x10",
            "a hexadecimal constant is written 0FFh, not 0xFF",
        ),
        (
            " .word 12zb",
            "a constant that ends in b has the digits 0 and 1",
        ),
    ];
    remarks_are(&rt, rt.alloc(), FaultKind::BadConstant, &rows)
}

#[test]
fn quotes_are_remarked_on(rt: HostRuntime) -> Result<(), Fail> {
    let rows = [
        (" .string \"AB", "this quote of a string is not closed"),
        (
            " .word 'AB'",
            "one character stands between two ': write 'A'*256+'B' for 'AB'",
        ),
        (" .word 'A", "one character stands between two '"),
        (
            " NOP it's a comment",
            "a comment begins with ;, and an apostrophe stands in comments alone",
        ),
    ];
    remarks_are(&rt, rt.alloc(), FaultKind::OpenQuote, &rows)
}

#[test]
fn characters_are_remarked_on(rt: HostRuntime) -> Result<(), Fail> {
    let rows = [
        (" LACK #5", "there is no # before an operand"),
        (
            " LALK !1",
            "write ~ to invert all bits, and =0 after a value for a logical not",
        ),
        (
            " .word 0.5",
            "there are no fractions: write the words, worked out beforehand",
        ),
        (
            "PI: .float 3.14",
            "in place of .float write .word with the words, worked out beforehand",
        ),
        (
            " .BFLOAT -.5",
            "in place of .BFLOAT write .word with the words, worked out beforehand",
        ),
        (
            "X .string .5 ; .float",
            "there are no fractions: write the words, worked out beforehand",
        ),
        (
            " .word é",
            "characters that are not ASCII stand in comments alone",
        ),
        (" .word @", "there is no @ before an operand"),
        (" LACK n?", "substitution left this: nothing has the name"),
        (
            " NOP \x1a",
            "Ctrl-Z (1Ah), with which old files end: take it out",
        ),
    ];
    remarks_are(&rt, rt.alloc(), FaultKind::StrayText, &rows)
}

#[test]
fn expressions_are_remarked_on(rt: HostRuntime) -> Result<(), Fail> {
    let rows = [
        (" B 1+", "nothing stands after +"),
        (" .word 1,", "an operand is missing"),
        (" LAC ,4", "an operand is missing"),
        (
            " LACK 5 load it",
            "put ; before load if a comment begins there",
        ),
        (
            " LACK 15 -1 of them",
            "put ; before - if a comment begins there",
        ),
        (
            " LACK 15 - 1 of them",
            "put ; before of if a comment begins there",
        ),
        (
            " LALK >10",
            "a hexadecimal constant is written 0FFh, not >FF",
        ),
        (
            " LALK >FF",
            "a hexadecimal constant is written 0FFh, not >FF",
        ),
        (
            " LAC *AR1",
            "LAC has a shift before the next register: write ,0, before AR1",
        ),
        (
            "X sach *AR7",
            "sach has a shift before the next register: write ,0, before AR7",
        ),
        (
            " OUT *AR2,PA1",
            "OUT has a port before the next register: write ,PA0, before AR2",
        ),
        (
            " BIT *AR3,4",
            "BIT has a bit before the next register: write ,0, before AR3",
        ),
        (" MPY *AR1", "AR1 follows a comma, as in *,AR1"),
        (" LAR AR0,*AR1", "AR1 follows a comma, as in *,AR1"),
        (" BANZ X,*AR1", "AR1 follows a comma, as in *,AR1"),
        (
            " .word *AR1",
            ".word has no indirect operand, and nothing stands before *",
        ),
        (
            " .word A,*5",
            ".word has no indirect operand, and nothing stands before *",
        ),
        (
            " LACK *5",
            "LACK has no indirect operand, and nothing stands before *",
        ),
        (" MPY *BR0- AR2", "AR2 follows a comma, as in *,AR1"),
        (
            " LAC *AR+",
            "the indirect operands are *, *+, *-, *0+, *0-, *BR0+ and *BR0-; a register follows a comma",
        ),
        (" B $1", "there are no local labels, as $1: write a name"),
        (
            " LAC 60h GET THE SAMPLE",
            "put ; before GET if a comment begins there",
        ),
        (" .word 1 2", "an operator or a comma is missing before 2"),
        (
            " ADD *+,4 SHIFT",
            "put ; before SHIFT if a comment begins there",
        ),
        (" LAC (1", NOTHING),
        (" LAC 5*(", "nothing stands after ("),
        (
            " LAC *+ AR1",
            "LAC has a shift before the next register: write ,0, before AR1",
        ),
    ];
    remarks_are(&rt, rt.alloc(), FaultKind::BadExpression, &rows)
}

#[test]
fn undefined_names_are_remarked_on(rt: HostRuntime) -> Result<(), Fail> {
    let rows = [
        (" B X", "nothing in this module defines X"),
        (" .def LOPO", "similar: Loop"),
        (
            " B LOOP",
            "upper and lower case differ in names: Loop is defined",
        ),
        (
            " LALK FFh",
            "a hexadecimal constant begins with a digit: 0FFh",
        ),
        (
            " LALK bh",
            "a hexadecimal constant begins with a digit: 0bh",
        ),
        (" B h", "nothing in this module defines h"),
        (" SACL IMR", "IMR is a name that .mmregs defines"),
        (" SACL greg", "GREG is a name that .mmregs defines"),
        (
            "N .set M*2",
            "M has no value above this line, and this directive needs it at once",
        ),
        (
            " .SPACE N*16",
            "N has no value above this line, and this directive needs it at once",
        ),
        ("N .set STRAT-1", "similar: START"),
        (
            " .bss X,k",
            "upper and lower case differ in names: K is defined",
        ),
        (" B STRAT", "similar: START"),
        (" B LOPO", "similar: Loop"),
        (" LALK K1", "similar: K"),
    ];
    remarks_are(&rt, rt.alloc(), FaultKind::Undefined, &rows)
}

#[test]
fn unknown_words_are_remarked_on(rt: HostRuntime) -> Result<(), Fail> {
    let rows = [
        (" LOOP LACK 5", "a label begins in column 1: LOOP"),
        (" LOOP .word 5", "a label begins in column 1: LOOP"),
        (" LOOP RET", "a label begins in column 1: LOOP"),
        (" LACC LAC", "similar: LACT, LAC, LACK"),
        (" LACC B", "similar: LACT, LAC, LACK"),
        (" LACC B 5,6", "similar: LACT, LAC, LACK"),
        (
            "LACK 5",
            "in column 1 LACK is a label: put a blank before it",
        ),
        ("K EQU 5", "a directive begins with a dot: .EQU"),
        (" data 5", "in place of data write .word"),
        (
            " .long 1",
            "in place of .long write .word n&0FFFFh,n>>16: TI's .long has the low half first",
        ),
        (
            " .asect \"v\",20h",
            "in place of .asect write .sect, and an address in the command file",
        ),
        (
            " .newblock",
            "in place of .newblock write nothing, and names for local labels",
        ),
        (" LACC 5", "similar: LACT, LAC, LACK"),
        (" LAC*", "similar: LACT, LAC, LACK"),
        (" $END", "in place of $END write .endm"),
        (" BNAZ 5", "similar: BNZ, BANZ, BNC"),
        (" .wrod 5", "similar: .word"),
        (" FOO 1", NOTHING),
        (" LOOP", "similar: LTP, LDP, POP"),
        (" END START", "a directive begins with a dot: .END"),
        (" ENDIF", "a directive begins with a dot: .ENDIF"),
    ];
    remarks_are(&rt, rt.alloc(), FaultKind::UnknownMnemonic, &rows)
}

#[test]
fn calls_of_macros_are_remarked_on(rt: HostRuntime) -> Result<(), Fail> {
    let symbols = symbols(rt.alloc())?;
    let macros = ["SETUP", "SAVEX"];
    let rows = [
        (" SETPU", "similar: SETUP"),
        (" SAVX 5", "similar: SAVEX, SACL, SACH"),
        (
            " Setup 1",
            "upper and lower case differ in names: SETUP is defined",
        ),
        (
            "X SETUP 1",
            "the .macro of SETUP comes before its first call, in the same module",
        ),
        (" LACC 5", "similar: LACT, LAC, LACK"),
    ];
    for (line, wanted) in &rows {
        let found = remark_among(
            rt.alloc(),
            line,
            FaultKind::UnknownMnemonic,
            &symbols,
            &macros,
        )?;
        assert_eq!(&rt; found.as_deref(), Some(*wanted));
    }
    let other = remark_among(
        rt.alloc(),
        " SETUP 1",
        FaultKind::StrayText,
        &symbols,
        &macros,
    )?;
    assert!(&rt; other.is_none());
    Ok(())
}

#[test]
fn operand_counts_are_remarked_on(rt: HostRuntime) -> Result<(), Fail> {
    let rows = [
        (
            " LAC",
            "no operand stands here: the form is LAC dma[,shift] | ind[,shift[,next]]",
        ),
        (
            " LACK 5,6",
            "two operands stand here: the form is LACK constant",
        ),
        (" LARK AR1 5", "a comma is missing before 5"),
        (" OUT 60h PA1", "a comma is missing before PA1"),
        (
            " LARK 5",
            "one operand stands here: the form is LARK ar,constant",
        ),
        (
            " NOP do nothing",
            "NOP has no operand; a comment begins with ;",
        ),
        (
            " .endif 1",
            ".endif has no operand; a comment begins with ;",
        ),
        (
            " .bss X",
            "one operand stands here: the form is .bss name,words[,flag]",
        ),
        (
            " .bss X,1,1,1",
            "more than three operands stand here: the form is .bss name,words[,flag]",
        ),
        (
            " NORM *+,AR1",
            "two operands stand here: the form is NORM [ind]",
        ),
    ];
    remarks_are(&rt, rt.alloc(), FaultKind::OperandCount, &rows)
}

#[test]
fn operand_forms_are_remarked_on(rt: HostRuntime) -> Result<(), Fail> {
    let rows = [
        (" LACK *", "the form is LACK constant"),
        (" .word \"AB\"", "the form is .word value[,value]"),
        (" .copy b.inc", "the form is .copy \"file\""),
        (" .sect a b", "the form is .sect section"),
        (
            " .sect \".bss\"",
            "this is a section of .bss or .usect: take another name",
        ),
        (
            "X .USECT .text,1",
            "this is a section of .text, .data or .sect: take another name",
        ),
        ("X .usect .text,*", "the form is .usect section,words"),
    ];
    remarks_are(&rt, rt.alloc(), FaultKind::OperandForm, &rows)
}

#[test]
fn names_defined_again_are_remarked_on(rt: HostRuntime) -> Result<(), Fail> {
    let rows = [
        (
            "AR1 .set 1",
            "AR1 is predefined: take this line out, or write another name",
        ),
        (
            " .def START,pa15",
            "pa15 is predefined: take this line out, or write another name",
        ),
        (
            " .bss AR0,1",
            "AR0 is predefined: take this line out, or write another name",
        ),
        ("START NOP", NOTHING),
        (" .bss K,AR1", NOTHING),
        (" .mmregs", NOTHING),
    ];
    remarks_are(&rt, rt.alloc(), FaultKind::Defined, &rows)
}

#[test]
fn values_are_remarked_on(rt: HostRuntime) -> Result<(), Fail> {
    let rows = [
        (" LACK 256", "LALK takes a longer number"),
        (" LARK 9,5", NOTHING),
        (" LACK K*2", "LALK takes a longer number"),
        (" IN PA0,60h", "the form is IN dma,port | ind,port[,next]"),
        (
            " SACL 60h,12",
            "SACL has a shift of 3 bits: shift before it, by LAC or SFL",
        ),
    ];
    remarks_are(&rt, rt.alloc(), FaultKind::FieldRange, &rows)
}

#[test]
fn addresses_are_remarked_on(rt: HostRuntime) -> Result<(), Fail> {
    let rows = [
        (" LARK AR1,START", "LRLK takes an address"),
        (" lack Loop+1", "LALK takes an address"),
        (" .byte START", ".word takes an address"),
        (" LARK START,5", NOTHING),
        (" SACL 60h,START", NOTHING),
    ];
    remarks_are(&rt, rt.alloc(), FaultKind::NotRelocatable, &rows)
}
