//! Tests of substitution in lines that no source may have; the answers are those of an independent model of
//! the expander.

use crate::values::equal;
use c25_meaning_common::no_memory::NoMemory;
use c25_substitution::arguments::arguments;
use c25_substitution::parameters::Arguments;
use c25_substitution::strings::string_text;
use c25_substitution::substitution::{substitute, substitute_before_comma, unsubstituted};
use c25_substitution::texts::SubstitutionTexts;
use c25_substitution::visible::Visible;
use std::alloc::{AllocError, Global};
use std::test::Fail;

/// One row for each line: what the line becomes where `k` stands for `1`, then a bar, then the line.
const LINES: &str = r#":u1|:u:k:
:u:1|:u::k:
 é1é 1| é:k:é k
 "k| "k
a.b 1.k .k|a.b k.k .k"#;

/// One row for each line of `.asg` and `.eval`, as in `LINES`.
const ASSIGNMENTS: &str = r#" .eval 1,1,k ; ",| .eval k,k,k ; ",
 .asg 1| .asg k
L .asg 1;,k|L .asg k;,k"#;

/// Where in a line names are replaced.
#[derive(Clone, Copy)]
enum Replaced {
    Everywhere,
    BeforeComma,
}

/// Whether the line of a row becomes what the row says.
fn is_as_told(alloc: Global, names: &Visible<'_>, replaced: Replaced, row: &str) -> bool {
    let Some((wanted, line)) = row.split_once('|') else {
        return false;
    };
    let found = match replaced {
        Replaced::Everywhere => substitute(alloc, names, 0, line),
        Replaced::BeforeComma => substitute_before_comma(alloc, names, 0, line),
    };
    match found {
        Ok(found) => found.as_str() == wanted,
        Err(_) => false,
    }
}

/// The first row whose line becomes something else than the row says.
fn first_other<'a>(
    alloc: Global,
    names: &Visible<'_>,
    replaced: Replaced,
    rows: &'a str,
) -> Option<&'a str> {
    for row in rows.lines() {
        if !is_as_told(alloc, names, replaced, row) {
            return Some(row);
        }
    }
    None
}

/// Lets `k` stand for `1`.
fn put_text(alloc: Global, texts: &mut SubstitutionTexts) -> Result<(), NoMemory> {
    let text = String::from_str(alloc, "1")?;
    texts.put("k", text)
}

#[test]
fn lines_that_no_source_may_have_are_substituted(rt: HostRuntime) {
    let mut texts = SubstitutionTexts::new(rt.alloc());
    equal(&rt, put_text(rt.alloc(), &mut texts), Ok(()));
    let names = Visible {
        arguments: None,
        texts: &texts,
    };
    let others = [
        first_other(rt.alloc(), &names, Replaced::Everywhere, LINES),
        first_other(rt.alloc(), &names, Replaced::BeforeComma, ASSIGNMENTS),
    ];
    equal(&rt, others, [None, None]);
}

/// Whether a line of `.macro` stays as it is.
fn is_kept(line: &str) -> bool {
    match unsubstituted(line) {
        Ok(kept) => kept.as_str() == line,
        Err(_) => false,
    }
}

/// Whether a string token stands for this text.
fn is_text_of(alloc: Global, text: &str, string: &str) -> bool {
    match string_text(alloc, string) {
        Ok(found) => found.as_str() == text,
        Err(_) => false,
    }
}

#[test]
fn lines_of_macros_are_kept_and_strings_lose_their_quotes(rt: HostRuntime) {
    let found = [
        is_kept("k .macro k"),
        is_text_of(rt.alloc(), "é\"", "\"é\"\"\""),
    ];
    equal(&rt, found, [true; 2]);
}

/// Whether a name takes this text, as a parameter alone does.
fn takes(
    alloc: Global,
    arguments: &mut Arguments,
    name: &str,
    text: &str,
) -> Result<bool, AllocError> {
    let text = String::from_str(alloc, text)?;
    Ok(arguments.set(name, text).is_ok())
}

/// The argument of the parameter `x` of a call `P 4,p`.
fn arguments_of_call(alloc: Global) -> Result<Arguments, NoMemory> {
    let names = [String::from_str(alloc, "x")?];
    arguments(alloc, &names, " P 4,p")
}

/// Whether `x` alone has an argument, and which it is.
fn x_has(arguments: &Arguments, text: &str) -> bool {
    arguments.get("x") == Some(text) && arguments.get("y").is_none()
}

/// A text for a name that is no parameter is handed back.
#[test]
fn only_parameters_have_arguments(rt: HostRuntime) -> Result<(), Fail> {
    let mut found = arguments_of_call(rt.alloc())?;
    equal(&rt, x_has(&found, "4,p"), true);
    let taken = [
        takes(rt.alloc(), &mut found, "y", "3"),
        takes(rt.alloc(), &mut found, "x", "3"),
    ];
    equal(&rt, taken, [Ok(false), Ok(true)]);
    equal(&rt, x_has(&found, "3"), true);
    Ok(())
}
