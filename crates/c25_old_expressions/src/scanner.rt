//! The symbols of the operands of an old line.

ghost use Rattle.std.specs.Prelude.{◌≡◌, ◌<◌, length, map, OnOk};
ghost use Rattle.std.specs.Option.{ok_or};
ghost use Rattle.c25_meaning_common.specs.Results.{Meets};
ghost use Rattle.c25_old_expressions.specs.Marks.{is_comma, sym_of};
ghost use Rattle.c25_old_expressions.specs.OldSymbols.{begins_after, ends_at_blank, no_symbols, old_lexeme, old_symbols, passed, two_characters, with_symbol, with_symbols};

use crate::lexemes::{OldLexeme, old_lexeme, past};
use crate::order::Order;
use crate::symbol::Symbol;
use c25_meaning_common::failure::Failure;
use c25_meaning_common::no_memory::NoMemory;
use c25_meaning_language::expression::ExpressionFault;
use c25_meaning_language::line::Sign;
use std::alloc::Global;

/// The operands so far: their symbols, whether an operand may begin next, and whether a comma came last.
#[derive(Drop)]
pub(crate) struct Scanner<'a> {
    symbols: Vec<Symbol<'a>>,
    begins: bool,
    comma: bool,
}

/// Whether a symbol is a comma.
pub(crate) fn is_comma(symbol: Symbol<'_>) -> bool
    ensures { result ≡ is_comma (sym_of symbol.entry) }
{
    match symbol {
        Symbol::Signed(Sign::Comma) => true,
        _ => false,
    }
}

/// Whether an operand may begin after a symbol.
fn begins_after(symbol: Symbol<'_>) -> bool
    ensures { result ≡ begins_after (sym_of symbol.entry) }
{
    match symbol {
        Symbol::Signed(Sign::CloseParenthesis) => false,
        Symbol::Signed(_) => true,
        _ => false,
    }
}

/// Whether a blank ends the operands, after a comma or not.
fn ends_at_blank(order: Order, comma: bool) -> bool
    ensures { result ≡ ends_at_blank order comma }
{
    match order {
        Order::AsWritten => !comma,
        Order::ByLevel => false,
    }
}

impl<'a> Scanner<'a> {
    ghost use Rattle.c25_old_expressions.specs.Scanning.{so_far};

    /// Before the first symbol.
    fn new(alloc: Global) -> Self
        ensures { so_far result ≡ no_symbols }
    {
        Scanner {
            symbols: Vec::new(alloc),
            begins: true,
            comma: false,
        }
    }

    /// Adds a symbol.
    fn push(&mut self, symbol: Symbol<'a>) -> Result<(), NoMemory>
        ensures { OnOk result (so_far self.new ≡ with_symbol (so_far self.old) (sym_of symbol.entry)) }
    {
        self.begins = begins_after(symbol);
        self.comma = is_comma(symbol);
        self.symbols.push(symbol).map_err(NoMemory::from)
    }

    /// Adds the symbols of a constant of two characters.
    fn push_two(&mut self, high: u8, low: u8) -> Result<(), NoMemory>
        ensures { OnOk result (so_far self.new ≡ with_symbols (so_far self.old) (two_characters high low)) }
    {
        self.push(Symbol::Signed(Sign::OpenParenthesis))?;
        self.push(Symbol::Constant(u32::from(high)))?;
        self.push(Symbol::Signed(Sign::ShiftLeft))?;
        self.push(Symbol::Constant(8))?;
        self.push(Symbol::Signed(Sign::Bar))?;
        self.push(Symbol::Constant(u32::from(low)))?;
        self.push(Symbol::Signed(Sign::CloseParenthesis))
    }

    /// Passes what stands at the front of a text that is not empty, and returns how many bytes it has after its first;
    /// none where the operands end.
    fn pass(
        &mut self,
        order: Order,
        labelled: bool,
        text: &'a [u8],
    ) -> Result<Option<usize>, Failure<ExpressionFault>>
        requires { 0 < length text.now }
        ensures { Meets (λ o. record { so = so_far self.new; covered = o }) (ok_or (passed order (so_far self.old) (old_lexeme labelled self.old.begins text.now)) ExpressionFault.BadExpression) result }
    {
        match old_lexeme(labelled, self.begins, text) {
            OldLexeme::Gap if ends_at_blank(order, self.comma) => Ok(None),
            OldLexeme::Gap => Ok(Some(0)),
            OldLexeme::End => Ok(None),
            OldLexeme::One(symbol, covered) => {
                self.push(symbol)?;
                Ok(Some(covered))
            }
            OldLexeme::Two(high, low) => {
                self.push_two(high, low)?;
                Ok(Some(3))
            }
            OldLexeme::Unread => Err(Failure::Fault(ExpressionFault::BadExpression)),
        }
    }
}

/// The symbols of old operands, from the front of a text on, where local labels get names or not; `BadExpression` where
/// something is not read.
pub(crate) fn old_symbols<'a>(
    alloc: Global,
    order: Order,
    labelled: bool,
    text: &'a [u8],
) -> Result<Vec<Symbol<'a>>, Failure<ExpressionFault>>
    ensures { Meets (λ symbols. map sym_of symbols.items) (ok_or (old_symbols order labelled text.now) ExpressionFault.BadExpression) result }
{
    let mut scanner = Scanner::new(alloc);
    let mut rest = text;
    while !rest.is_empty() {
        match scanner.pass(order, labelled, rest)? {
            Some(covered) => rest = past(past(rest, 1), covered),
            None => return Ok(scanner.symbols),
        }
    }
    Ok(scanner.symbols)
}
