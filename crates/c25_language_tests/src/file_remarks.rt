//! Tests of the remarks on files that are refused: lines of samples, of schedules and of scripts, and command files,
//! each with what it must say, or nothing.

use c25_cmd::refused_at;
use c25_file_hints::cause::Cause;
use c25_file_hints::{command_cause, command_hint, entry_cause, sample_cause};
use std::alloc::Global;
use std::process::Abort;
use std::test::Fail;

/// Stands for no remark.
const NOTHING: &str = "";

/// What is said where a comment stands in a line.
const COMMENT: &str = "there are no comments in samples, schedules and scripts: take it out";

#[test]
fn samples_are_remarked_on(rt: HostRuntime) -> Result<(), Fail> {
    let rows = [
        ("; speech", COMMENT),
        ("* speech", COMMENT),
        ("#speech", COMMENT),
        ("// speech", COMMENT),
        ("0 0100 ; first", COMMENT),
        ("0 0100;", COMMENT),
        ("", NOTHING),
        ("0 0100", NOTHING),
        (
            "16 0100",
            "the first part is a port, a decimal number from 0 to 15",
        ),
        (
            "0 0*00",
            "the second part is a word of four hexadecimal digits, without h",
        ),
        ("0 0100 speech", "a line has two parts, a port and a word"),
    ];
    for (line, wanted) in &rows {
        let found = match sample_cause(rt.alloc(), line)? {
            Some(cause) => cause.text(),
            None => NOTHING,
        };
        assert_eq!(&rt; found, *wanted);
    }
    Ok(())
}

#[test]
fn schedules_and_scripts_are_remarked_on(rt: HostRuntime) -> Result<(), Fail> {
    let alloc = rt.alloc();
    assert_eq!(&rt; entry_cause(alloc, "5 INT0 ; the first")?, Cause::Comment);
    assert_eq!(&rt; entry_cause(alloc, "# 5 INT0")?, Cause::Comment);
    assert_eq!(&rt; entry_cause(alloc, "5 INT0 first")?, Cause::EntryParts);
    assert_eq!(&rt; entry_cause(alloc, "5 INT3")?, Cause::Event);
    assert_eq!(&rt; entry_cause(alloc, "5 INT0")?, Cause::Order);
    assert_eq!(&rt; command_cause(alloc, "; go")?, Cause::Comment);
    assert_eq!(&rt; command_cause(alloc, "step 5 /* go */")?, Cause::Comment);
    assert_eq!(&rt; command_cause(alloc, "step 5 go")?, Cause::Count);
    Ok(())
}

/// Asserts that a command file that is refused in this line has this remark.
fn command_says(
    rt: &impl Abort,
    alloc: Global,
    text: &str,
    line: usize,
    wanted: &str,
) -> Result<(), Fail> {
    let Some(standing) = refused_at(alloc, text)? else {
        return Err(Fail::from("a command"));
    };
    let said = match command_hint(text, line, standing) {
        Some(hint) => hint.text(alloc)?,
        None => String::new(alloc),
    };
    assert_eq!(rt; said.as_str(), wanted);
    Ok(())
}

#[test]
fn braces_are_remarked_on(rt: HostRuntime) -> Result<(), Fail> {
    let alloc = rt.alloc();
    let rows = [
        (
            "MEMORY\n{\n P : o = 0, l = 1\nSECTIONS\n{\n .text : > P\n}\n",
            4,
            "a } is missing before SECTIONS: the { of line 2 is still open",
        ),
        (
            "SECTIONS { a : { *(a) } > P memory { P : o = 0, l = 1 }",
            1,
            "a } is missing before memory: the { of line 1 is still open",
        ),
        (
            "/* { */\n/*/ } */ MEMORY { /* é } */ P : o = 0, l = 1 SECTIONS",
            2,
            "a } is missing before SECTIONS: the { of line 2 is still open",
        ),
        (
            "MEMORY {",
            1,
            "a } is missing at the end: the { of line 1 is still open",
        ),
        (
            "\nSECTIONS {\n a : { *(a) } > P\n",
            3,
            "a } is missing at the end: the { of line 2 is still open",
        ),
        ("SECTIONS { a : > MEMORY }", 1, NOTHING),
        ("MEMORY { P : o = 0 }", 1, NOTHING),
        ("MEMORY { P : o = 0, l = 1 /* }", 1, NOTHING),
        ("SECTIONS { } SECTIONS", 1, NOTHING),
    ];
    for (text, line, wanted) in &rows {
        command_says(&rt, alloc, text, *line, wanted)?;
    }
    Ok(())
}

#[test]
fn run_addresses_are_remarked_on(rt: HostRuntime) -> Result<(), Fail> {
    let alloc = rt.alloc();
    let number = "run = takes a number from 0FF00h on, where block B0 is program memory";
    let rows = [
        ("SECTIONS { a : > P, run = R }", 1, number),
        ("SECTIONS {\n a : > P, RUN\n =\n R }", 4, number),
        ("SECTIONS { a : > P, run = > R }", 1, number),
        ("SECTIONS { a : > P, run R }", 1, NOTHING),
        ("SECTIONS { a : run = 0FF00h, > P }", 1, NOTHING),
        ("SECTIONS { a : load = 010 }", 1, NOTHING),
    ];
    for (text, line, wanted) in &rows {
        command_says(&rt, alloc, text, *line, wanted)?;
    }
    Ok(())
}

#[test]
fn pages_and_objects_are_remarked_on(rt: HostRuntime) -> Result<(), Fail> {
    let alloc = rt.alloc();
    let pages = "the pages are 0, program memory, and 1, data memory";
    let objects =
        "objects are named on the command line of link, after the command file; run and build take sources";
    let rows = [
        ("MEMORY { PAGE 2 : P : o = 0, l = 16 }", 1, pages),
        ("MEMORY {\n page 7 : P : o = 0, l = 1 }", 2, pages),
        ("MEMORY { FRONTPAGE 2 }", 1, NOTHING),
        ("a.obj SECTIONS { }", 1, objects),
        ("MEMORY { P : o = 0, l = 1 }\nb.obj", 2, objects),
        ("-o a.out", 1, NOTHING),
        (".text : > P", 1, NOTHING),
        ("SECTIONS { .text : { a.obj(.text) } }", 1, NOTHING),
    ];
    for (text, line, wanted) in &rows {
        command_says(&rt, alloc, text, *line, wanted)?;
    }
    Ok(())
}
