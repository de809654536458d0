//! Tests of the part of a line that is refused, by the rules of lines, operands and directives.

use c25_expr::Symbols;
use c25_expr::symbols::Defined;
use c25_meaning_common::failure::Failure;
use c25_meaning_common::no_memory::NoMemory;
use c25_meaning_language::statement::FaultKind;
use c25_meaning_language::value::{Base, Value};
use c25_places::{Misfit, Part, RefusedValue, refused_part, refused_value};
use std::alloc::Global;
use std::process::Abort;
use std::test::Fail;

/// Asserts that a line is refused with this fault from this place to that.
fn refuses(
    rt: &impl Abort,
    alloc: Global,
    text: &str,
    kind: FaultKind,
    wanted: (usize, usize),
) -> Result<(), NoMemory> {
    let (start, end) = wanted;
    assert_eq!(rt; refused_part(alloc, text, kind)?, Some(Part { start, end }));
    Ok(())
}

#[test]
fn texts_are_refused_where_their_fault_is(rt: HostRuntime) -> Result<(), Fail> {
    let alloc = rt.alloc();
    let label = FaultKind::BadLabel;
    refuses(&rt, alloc, "1L NOP", label, (0, 2))?;
    refuses(&rt, alloc, " .set 5", label, (0, 1))?;
    let constant = FaultKind::BadConstant;
    refuses(&rt, alloc, " LACK 0FFZ", constant, (6, 10))?;
    let quote = FaultKind::OpenQuote;
    refuses(&rt, alloc, " .string \"ab", quote, (9, 10))?;
    refuses(&rt, alloc, " LACK 'ab'", quote, (6, 7))?;
    let stray = FaultKind::StrayText;
    refuses(&rt, alloc, " LACK #5", stray, (6, 7))?;
    refuses(&rt, alloc, " .string \"a\x01b\"", stray, (11, 12))?;
    refuses(&rt, alloc, " LACK é", stray, (6, 8))?;
    refuses(&rt, alloc, " LAéK 5", stray, (3, 5))?;
    Ok(())
}

#[test]
fn a_long_name_is_refused_whole(rt: HostRuntime) -> Result<(), Fail> {
    let alloc = rt.alloc();
    let mut text = String::from_str(alloc, " B ")?;
    for _ in 0..129 {
        text.push_str("a")?;
    }
    refuses(&rt, alloc, text.as_str(), FaultKind::BadLabel, (3, 132))?;
    Ok(())
}

#[test]
fn words_and_counts_are_refused(rt: HostRuntime) -> Result<(), Fail> {
    let alloc = rt.alloc();
    refuses(&rt, alloc, " FOO 5", FaultKind::UnknownMnemonic, (1, 4))?;
    let count = FaultKind::OperandCount;
    refuses(&rt, alloc, " LACK", count, (1, 5))?;
    refuses(&rt, alloc, " LACK 1,2", count, (6, 9))?;
    refuses(&rt, alloc, " ADD X,5,5 ; no", count, (5, 10))?;
    Ok(())
}

#[test]
fn operands_of_another_form_are_refused(rt: HostRuntime) -> Result<(), Fail> {
    let alloc = rt.alloc();
    let form = FaultKind::OperandForm;
    refuses(&rt, alloc, " LACK *", form, (6, 7))?;
    refuses(&rt, alloc, " ADD X,*", form, (7, 8))?;
    refuses(&rt, alloc, " B LOOP,X", form, (8, 9))?;
    refuses(&rt, alloc, " MAC \"A\",*", form, (5, 8))?;
    refuses(&rt, alloc, " LAR AR0,\"S\"", form, (9, 12))?;
    refuses(&rt, alloc, " NORM 5", form, (6, 7))?;
    refuses(&rt, alloc, " .bss 5,1", form, (6, 7))?;
    refuses(&rt, alloc, " .word 1,\"A\",*", form, (9, 12))?;
    refuses(&rt, alloc, " .sect a b", form, (7, 10))?;
    Ok(())
}

#[test]
fn expressions_are_refused(rt: HostRuntime) -> Result<(), Fail> {
    let alloc = rt.alloc();
    let bad = FaultKind::BadExpression;
    refuses(&rt, alloc, " .word 1,,2", bad, (9, 10))?;
    refuses(&rt, alloc, " .word 1,", bad, (8, 9))?;
    refuses(&rt, alloc, " LACK 5 5", bad, (6, 9))?;
    refuses(&rt, alloc, "X .usect my.sect,5 5", bad, (17, 20))?;
    let mut text = String::from_str(alloc, " LALK ")?;
    for _ in 0..65 {
        text.push_str("-")?;
    }
    text.push_str("1")?;
    refuses(&rt, alloc, text.as_str(), FaultKind::TooDeep, (6, 72))?;
    Ok(())
}

#[test]
fn lines_of_expansion_are_refused(rt: HostRuntime) -> Result<(), Fail> {
    let alloc = rt.alloc();
    let bad = FaultKind::BadExpression;
    refuses(&rt, alloc, " .eval 1+,n", bad, (7, 9))?;
    refuses(&rt, alloc, " .eval ,n", bad, (7, 8))?;
    refuses(&rt, alloc, " .if 1/0", FaultKind::DivideByZero, (5, 8))?;
    Ok(())
}

#[test]
fn lines_are_refused_by_their_directive(rt: HostRuntime) -> Result<(), Fail> {
    let alloc = rt.alloc();
    refuses(&rt, alloc, "X .endif", FaultKind::StrayEnd, (2, 8))?;
    refuses(&rt, alloc, " DELAY 1", FaultKind::Depth, (1, 6))?;
    refuses(&rt, alloc, "X .LOOP 2", FaultKind::OpenBlock, (2, 7))?;
    refuses(&rt, alloc, "NOP: .macro", FaultKind::Redefined, (0, 4))?;
    refuses(&rt, alloc, " .copy \"b.inc\"", FaultKind::NoFile, (7, 14))?;
    refuses(&rt, alloc, " .if :n:", FaultKind::Undefined, (1, 4))?;
    Ok(())
}

#[test]
fn lines_without_room_are_refused_at_their_count(rt: HostRuntime) -> Result<(), Fail> {
    let alloc = rt.alloc();
    let large = FaultKind::TooLarge;
    refuses(&rt, alloc, " .space 1048577", large, (8, 15))?;
    refuses(&rt, alloc, " .bss X,65537", large, (8, 13))?;
    refuses(&rt, alloc, "X .usect \"s\",65537", large, (13, 18))?;
    refuses(&rt, alloc, " .sect \"a\"", large, (7, 10))?;
    refuses(&rt, alloc, " NOP", large, (1, 4))?;
    refuses(&rt, alloc, "LAST", large, (0, 4))?;
    refuses(&rt, alloc, " .sect s:n:", large, (1, 6))?;
    refuses(&rt, alloc, " .bss X,129,1", FaultKind::BadBlock, (8, 11))?;
    Ok(())
}

#[test]
fn the_33rd_parameter_is_refused(rt: HostRuntime) -> Result<(), Fail> {
    let alloc = rt.alloc();
    let mut text = String::from_str(alloc, "P .macro a")?;
    for _ in 1..34 {
        text.push_str(",a")?;
    }
    let many = FaultKind::TooManyParameters;
    refuses(&rt, alloc, text.as_str(), many, (73, 74))?;
    Ok(())
}

#[test]
fn long_lines_are_refused_past_their_1024th_byte(rt: HostRuntime) -> Result<(), Fail> {
    let alloc = rt.alloc();
    let long = FaultKind::LongLine;
    refuses(&rt, alloc, " \t.asg k+k,k", long, (2, 12))?;
    let mut text = String::from_str(alloc, ";")?;
    for _ in 0..1022 {
        text.push_str("a")?;
    }
    text.push_str("é")?;
    refuses(&rt, alloc, text.as_str(), long, (1023, 1025))?;
    text.push_str("b")?;
    refuses(&rt, alloc, text.as_str(), long, (1023, 1026))?;
    Ok(())
}

#[test]
fn other_faults_have_no_part(rt: HostRuntime) -> Result<(), Fail> {
    let alloc = rt.alloc();
    assert_eq!(rt;
        refused_part(alloc, "; LACK", FaultKind::UnknownMnemonic)?,
        None
    );
    assert_eq!(rt;
        refused_part(alloc, " LACK 600", FaultKind::FieldRange)?,
        None
    );
    assert_eq!(rt; refused_part(alloc, " .set 5", FaultKind::OpenBlock)?, None);
    assert_eq!(rt; refused_part(alloc, " NOP", FaultKind::Lines)?, None);
    Ok(())
}

/// The symbols `K` 600 and `L`, which is an address of `.text`.
fn symbols(alloc: Global) -> Result<Symbols, Failure<Defined>> {
    let mut symbols = Symbols::new(alloc);
    symbols.define(
        "K",
        Value {
            base: Base::Absolute,
            offset: 600,
        },
    )?;
    symbols.define(
        "L",
        Value {
            base: Base::Section(0),
            offset: 7,
        },
    )?;
    Ok(symbols)
}

/// Asserts that a value of a line is refused with this fault from this place to that.
fn values_refuse(
    rt: &impl Abort,
    alloc: Global,
    text: &str,
    kind: FaultKind,
    wanted: (usize, usize, Option<Misfit>),
) -> Result<(), Fail> {
    let symbols = symbols(alloc)?;
    let (start, end, misfit) = wanted;
    let part = Part { start, end };
    assert_eq!(rt;
        refused_value(alloc, text, kind, &symbols)?,
        Some(RefusedValue { part, misfit })
    );
    Ok(())
}

#[test]
fn values_are_refused_at_their_operand(rt: HostRuntime) -> Result<(), Fail> {
    let alloc = rt.alloc();
    let range = FaultKind::FieldRange;
    let byte = Misfit {
        value: 600,
        least: 0,
        most: 255,
    };
    values_refuse(&rt, alloc, " LACK K", range, (6, 7, Some(byte)))?;
    let shift = Misfit {
        value: 600,
        least: 0,
        most: 15,
    };
    values_refuse(&rt, alloc, " ADD 5,K", range, (7, 8, Some(shift)))?;
    let low = Misfit {
        value: -1,
        least: 0,
        most: 7,
    };
    values_refuse(&rt, alloc, " LARK 0-1,K", range, (6, 9, Some(low)))?;
    values_refuse(
        &rt,
        alloc,
        " .word K, K+Y*Z",
        FaultKind::Undefined,
        (12, 13, None),
    )?;
    values_refuse(
        &rt,
        alloc,
        " .word L*2",
        FaultKind::NotAbsolute,
        (7, 10, None),
    )?;
    values_refuse(
        &rt,
        alloc,
        " .word 1,K/0",
        FaultKind::DivideByZero,
        (9, 12, None),
    )?;
    values_refuse(
        &rt,
        alloc,
        " .space 0-1",
        FaultKind::ValueRange,
        (8, 11, None),
    )?;
    values_refuse(
        &rt,
        alloc,
        " .space L",
        FaultKind::NotAbsolute,
        (8, 9, None),
    )?;
    values_refuse(
        &rt,
        alloc,
        " .bss X,K,L",
        FaultKind::NotAbsolute,
        (10, 11, None),
    )?;
    values_refuse(
        &rt,
        alloc,
        " LACK L",
        FaultKind::NotRelocatable,
        (6, 7, None),
    )?;
    values_refuse(&rt, alloc, "X .set Y+1", FaultKind::Undefined, (7, 8, None))?;
    Ok(())
}

#[test]
fn names_are_refused_where_they_are_defined_again(rt: HostRuntime) -> Result<(), Fail> {
    let alloc = rt.alloc();
    let defined = FaultKind::Defined;
    values_refuse(&rt, alloc, "K NOP", defined, (0, 1, None))?;
    values_refuse(&rt, alloc, "AR1: .set 1", defined, (0, 4, None))?;
    values_refuse(&rt, alloc, " .bss K,1", defined, (6, 7, None))?;
    values_refuse(&rt, alloc, "K .bss X,L", defined, (0, 1, None))?;
    values_refuse(&rt, alloc, "L .bss K,1", defined, (0, 1, None))?;
    values_refuse(&rt, alloc, " .label L", defined, (8, 9, None))?;
    values_refuse(&rt, alloc, " .global K,AR1", defined, (11, 14, None))?;
    values_refuse(&rt, alloc, " .mmregs", defined, (1, 8, None))?;
    Ok(())
}
