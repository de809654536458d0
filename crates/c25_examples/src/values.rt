//! Lines of a source by themselves: how many tokens they have, and the values of their expressions.

use anyhow::Result;
use c25_expr::expression_reader::read_expr;
use c25_expr::operands::tokens_of;
use c25_expr::symbols::Symbols;
use c25_expr::value::value;
use c25_meaning_language::value::{Base, Value};
use c25_text::line::{Word, split_line};
use std::alloc::Global;
use std::io;

/// Names of each kind of value.
const NAMES: [(&str, Base, i32); 10] = [
    ("X", Base::Absolute, 5),
    ("Y", Base::Absolute, -7),
    ("Z", Base::Absolute, 2147483647),
    ("R", Base::Section(1), 7),
    ("Q", Base::Section(2), -3),
    ("S", Base::Section(1), 2147483000),
    ("E", Base::External(3), 0),
    ("F", Base::External(4), 9),
    ("LD1", Base::Loaded(1), 30),
    ("LD2", Base::Loaded(2), 4),
];

/// The value of `$`.
const HERE: Value = Value {
    base: Base::Section(1),
    offset: 20,
};

/// What a line has by itself.
enum Said {
    /// The number of its tokens.
    Tokens(usize),
    /// The value of all its operands as one expression.
    Value(Value),
}

/// Defines the names of `NAMES`, and `$`.
fn define_all(symbols: &mut Symbols) -> Result<()> {
    for (name, base, offset) in NAMES {
        symbols.define(name, Value { base, offset })?;
    }
    symbols.set_here(HERE);
    Ok(())
}

/// The value of the operands of `.word` as one expression, or the number of tokens of any other line.
fn said_by(alloc: Global, symbols: &Symbols, text: &str) -> Result<Said> {
    let line = split_line(text)?;
    let tokens = tokens_of(alloc, &line)?;
    let Some(Word { text: ".word", .. }) = line.word else {
        return Ok(Said::Tokens(tokens.len()));
    };
    let expr = read_expr(alloc, &tokens)?;
    Ok(Said::Value(value(&expr, symbols)?))
}

/// Prints the kind of a value, the number of its section or name, and its offset.
fn show_value(rt: &HostRuntime, value: Value) -> io::Result<()> {
    let offset = value.offset;
    match value.base {
        Base::Absolute => print!(rt; "absolute {offset}"),
        Base::Section(number) => print!(rt; "section {number} {offset}"),
        Base::Loaded(number) => print!(rt; "load {number} {offset}"),
        Base::External(number) => print!(rt; "external {number} {offset}"),
    }
}

/// Prints what a line has by itself, or its fault.
fn show_said(rt: &HostRuntime, said: Result<Said>) -> io::Result<()> {
    match said {
        Ok(Said::Tokens(count)) => print!(rt; "tokens {count}"),
        Ok(Said::Value(value)) => show_value(rt, value),
        Err(fault) => print!(rt; "{fault}"),
    }
}

/// Prints each line after what it has by itself.
fn show_all(rt: &HostRuntime, symbols: &Symbols, text: &str) -> io::Result<()> {
    for line in text.lines() {
        show_said(rt, said_by(rt.alloc(), symbols, line))?;
        println!(rt; "|{line}")?;
    }
    Ok(())
}

/// `values FILE`: prints each line after its fault, or after the value of the operands of `.word` as one
/// expression (with names for values of each kind), or else after its number of tokens.
pub(crate) fn show_values(rt: &HostRuntime, text: &str) -> Result<()> {
    let mut symbols = Symbols::new(rt.alloc());
    define_all(&mut symbols)?;
    show_all(rt, &symbols, text)?;
    Ok(())
}
