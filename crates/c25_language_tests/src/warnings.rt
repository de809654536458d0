//! Tests of what is warned of in a line by itself (`c25_line_warnings`), and of the names that lines define
//! (`c25_uses`).

use c25_expr::operands::operands_of;
use c25_line_warnings::labels::{directive_label, mnemonic_label};
use c25_line_warnings::said::{only_name, spelling_of, tokens_in};
use c25_line_warnings::shifts::register_shift;
use c25_meaning_common::no_memory::NoMemory;
use c25_uses::uses::defined_in;
use std::alloc::Global;
use std::test::Fail;

#[test]
fn labels_that_were_meant_as_instructions(rt: HostRuntime) -> Result<(), Fail> {
    let labels = [
        mnemonic_label("NOP"),
        mnemonic_label("Nop ; comment"),
        mnemonic_label("NOP:"),
        mnemonic_label(" NOP"),
        mnemonic_label("ADD .set 3"),
        mnemonic_label("nop2"),
        mnemonic_label("*NOP"),
    ];
    assert_eq!(rt;
        labels,
        [Some("NOP"), Some("Nop"), None, None, None, None, None]
    );
    Ok(())
}

#[test]
fn labels_that_were_meant_as_directives(rt: HostRuntime) -> Result<(), Fail> {
    let labels = [
        directive_label("END"),
        directive_label("Text"),
        directive_label("END:"),
        directive_label(" .end"),
        directive_label("DATA .word 1"),
        directive_label("WORD"),
    ];
    assert_eq!(rt; labels, [Some("END"), Some("Text"), None, None, None, None]);
    Ok(())
}

/// The length of a name; 0 where there is none.
fn length_of(name: Option<&str>) -> usize {
    match name {
        Some(name) => name.len(),
        None => 0,
    }
}

/// The length of the register that stands where a line's shift does; 0 where there is none.
fn shift_length(alloc: Global, text: &str) -> Result<usize, NoMemory> {
    let tokens = tokens_in(alloc, text)?;
    let operands = operands_of(alloc, tokens.as_slice())?;
    let Some(spelling) = spelling_of(text) else {
        return Ok(0);
    };
    Ok(length_of(register_shift(spelling, operands.as_slice())))
}

#[test]
fn registers_as_shifts(rt: HostRuntime) -> Result<(), Fail> {
    let alloc = rt.alloc();
    let lengths = [
        shift_length(alloc, " ADD *+,AR3")?,
        shift_length(alloc, " SACH *,pa15,AR1")?,
        shift_length(alloc, " ADD *+,3")?,
        shift_length(alloc, " SACL *+,0,AR3")?,
        shift_length(alloc, " MPY *+,AR3")?,
    ];
    assert_eq!(rt; lengths, [3, 4, 0, 0, 0]);
    Ok(())
}

/// The length of the only name in the operands of a line; 0 where there is none.
fn name_length(alloc: Global, text: &str) -> Result<usize, NoMemory> {
    let tokens = tokens_in(alloc, text)?;
    Ok(length_of(only_name(tokens.as_slice())))
}

#[test]
fn operands_with_one_name(rt: HostRuntime) -> Result<(), Fail> {
    let alloc = rt.alloc();
    let lengths = [
        name_length(alloc, " LAC TABLE")?,
        name_length(alloc, " LAC TABLE+1")?,
        name_length(alloc, " LAC TABLE-START")?,
        name_length(alloc, " LAC 5")?,
        name_length(alloc, " LAC *+")?,
    ];
    assert_eq!(rt; lengths, [5, 5, 0, 0, 0]);
    Ok(())
}

/// The lengths of the names that a line defines: its label, the name of a `.set`, and that of reserved words; 0
/// for each that is not there, and 9 each where the line is no statement.
fn defined_lengths(alloc: Global, text: &str) -> Result<(usize, usize, usize), NoMemory> {
    let Some(defined) = defined_in(alloc, text)? else {
        return Ok((9, 9, 9));
    };
    Ok((
        length_of(defined.label),
        length_of(defined.value),
        length_of(defined.place),
    ))
}

#[test]
fn names_that_lines_define(rt: HostRuntime) -> Result<(), Fail> {
    let alloc = rt.alloc();
    let lengths = [
        defined_lengths(alloc, "LOOP LACK 1")?,
        defined_lengths(alloc, "N .set 5")?,
        defined_lengths(alloc, " .bss BUFFER,8")?,
        defined_lengths(alloc, " .macro")?,
    ];
    assert_eq!(rt; lengths, [(4, 0, 0), (0, 1, 0), (0, 0, 6), (9, 9, 9)]);
    Ok(())
}
