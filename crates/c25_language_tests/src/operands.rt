//! Tests of operands, as a caller sees them.

use crate::values::equal;
use c25_expr::operands::{operands_of, tokens_of, written_of};
use c25_meaning_common::no_memory::NoMemory;
use c25_meaning_instructions::insn::Change;
use c25_meaning_language::statement::Written;
use c25_text::line::{Line, split_line};
use c25_text::tokens::Token;
use std::alloc::Global;
use std::test::Fail;

/// What each of the operands of tokens is, if there are five.
fn five_written(alloc: Global, tokens: &[Token<'_>]) -> Result<Option<[Written; 5]>, NoMemory> {
    let operands = operands_of(alloc, tokens)?;
    match operands.as_slice() {
        [a, b, c, d, e] => Ok(Some([
            written_of(a),
            written_of(b),
            written_of(c),
            written_of(d),
            written_of(e),
        ])),
        _ => Ok(None),
    }
}

/// What each of the operands of a line is, if there are five.
fn written_in(alloc: Global, line: &Line<'_>) -> Result<Option<[Written; 5]>, NoMemory> {
    let tokens = tokens_of(alloc, line)?;
    five_written(alloc, &tokens)
}

#[test]
fn operands_stand_between_commas(rt: HostRuntime) -> Result<(), Fail> {
    let line = split_line(" X *br0+,,\"A,;B\",*0,(* ;,")?;
    let wanted = [
        Written::Indirect(Change::ReverseAdd),
        Written::Expression,
        Written::Quoted,
        Written::Expression,
        Written::Expression,
    ];
    equal(&rt, written_in(rt.alloc(), &line), Ok(Some(wanted)));
    Ok(())
}
