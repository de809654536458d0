//! How an expression is read, token by token, with a stack of what waits.

ghost use Rattle.std.specs.Prelude.{◌≡◌, Some, None, true, false, map, reverse, OnOk};
ghost use Rattle.std.specs.Option.{ok_or};
ghost use Rattle.c25_meaning_common.specs.Results.{Meets};
ghost use Rattle.c25_meaning_language.specs.Reading.{unary_of, binary_of, is_open, is_close};
ghost use Rattle.c25_old_expressions.specs.OldReading.{level_before};
ghost use Rattle.c25_old_expressions.specs.Marks.{mark_of};
ghost use Rattle.c25_old_expressions.specs.Reader.{State, start, settled, reduced, waiting, closed, begun, followed, placed, step, finished, item_of};

use crate::item::Item;
use crate::order::Order;
use crate::signs::{LOOSEST, binary_of, level_of, unary_of};
use crate::symbol::Symbol;
use c25_meaning_common::failure::Failure;
use c25_meaning_common::no_memory::NoMemory;
use c25_meaning_language::expression::{BinaryOperator, ExpressionFault, UnaryOperator};
use c25_meaning_language::line::Sign;
use std::alloc::Global;

/// What waits for an operand.
#[derive(Clone, Copy)]
pub(crate) enum Frame {
    /// A parenthesis.
    Open,
    /// A unary operator before its operand.
    Pending(UnaryOperator),
    /// A binary operator after its left operand.
    After(BinaryOperator),
}

/// The expression so far: what waits, the innermost last, the items in postfix order, and whether an operand has to
/// come.
#[derive(Drop)]
pub(crate) struct Reader<'a> {
    frames: Vec<Frame>,
    items: Vec<Item<'a>>,
    expects: bool,
}

/// The loosest level of the operators that act before an operator that follows them.
fn level_before(order: Order, operator: BinaryOperator) -> u8
    ensures { result ≡ level_before order operator }
{
    match order {
        Order::AsWritten => LOOSEST,
        Order::ByLevel => level_of(operator),
    }
}

impl<'a> Reader<'a> {
    ghost use Rattle.c25_old_expressions.specs.Reader.{state_of, items_of};

    /// An expression before its first token.
    pub(crate) fn new(alloc: Global) -> Self
        ensures { state_of result ≡ start }
    {
        Reader {
            frames: Vec::new(alloc),
            items: Vec::new(alloc),
            expects: true,
        }
    }

    /// The last operand is complete: the unary operators right before it take it.
    fn settle(&mut self) -> Result<(), NoMemory>
        requires { self.old.expects ≡ false }
        ensures ok { OnOk result (state_of self.new ≡ settled (reverse self.old.frames.items) (items_of self.old)) }
        ensures expects { self.new.expects ≡ false }
    {
        while let Some(Frame::Pending(operator)) = self.frames.last().copied() {
            self.frames.pop();
            self.items.push(Item::Unary(operator))?;
        }
        Ok(())
    }

    /// The binary operators of this level or a tighter one, right before the last operand, take it.
    fn reduce(&mut self, level: u8) -> Result<(), NoMemory>
        requires { self.old.expects ≡ false }
        ensures ok { OnOk result (state_of self.new ≡ reduced level (reverse self.old.frames.items) (items_of self.old)) }
        ensures expects { self.new.expects ≡ false }
    {
        while let Some(Frame::After(operator)) = self.frames.last().copied() {
            if level_of(operator) > level {
                return Ok(());
            }
            self.frames.pop();
            self.items.push(Item::Binary(operator))?;
        }
        Ok(())
    }

    /// Takes a sign where an operand has to come: a unary operator or an opening parenthesis.
    fn open(&mut self, sign: Sign) -> Result<(), Failure<ExpressionFault>>
        requires { self.old.expects ≡ true }
        ensures { Meets (λ _. state_of self.new) (ok_or (begun (reverse self.old.frames.items) (items_of self.old) (unary_of sign) (is_open sign)) ExpressionFault.BadExpression) result }
    {
        if let Some(operator) = unary_of(sign) {
            self.frames
                .push(Frame::Pending(operator))
                .map_err(Failure::from)
        } else if sign == Sign::OpenParenthesis {
            self.frames.push(Frame::Open).map_err(Failure::from)
        } else {
            Err(Failure::Fault(ExpressionFault::BadExpression))
        }
    }

    /// The innermost group ends after the last operand.
    fn close(&mut self) -> Result<(), Failure<ExpressionFault>>
        requires { self.old.expects ≡ false }
        ensures { Meets (λ _. state_of self.new) (ok_or (closed (state_of self.old)) ExpressionFault.BadExpression) result }
    {
        let Some(Frame::Open) = self.frames.pop() else {
            return Err(Failure::Fault(ExpressionFault::BadExpression));
        };
        self.settle().map_err(Failure::from)
    }

    /// Takes a sign after an operand: a binary operator or a closing parenthesis.
    fn follow(&mut self, order: Order, sign: Sign) -> Result<(), Failure<ExpressionFault>>
        requires { self.old.expects ≡ false }
        ensures { Meets (λ _. state_of self.new) (ok_or (followed order (reverse self.old.frames.items) (items_of self.old) (binary_of sign) (is_close sign)) ExpressionFault.BadExpression) result }
    {
        if let Some(operator) = binary_of(sign) {
            self.reduce(level_before(order, operator))?;
            self.expects = true;
            self.frames
                .push(Frame::After(operator))
                .map_err(Failure::from)
        } else if sign == Sign::CloseParenthesis {
            self.reduce(LOOSEST)?;
            self.close()
        } else {
            Err(Failure::Fault(ExpressionFault::BadExpression))
        }
    }

    /// Takes an operand that is one token.
    fn put(&mut self, leaf: Item<'a>) -> Result<(), Failure<ExpressionFault>>
        ensures { Meets (λ _. state_of self.new) (ok_or (placed (reverse self.old.frames.items) self.old.expects (items_of self.old) (item_of leaf.entry)) ExpressionFault.BadExpression) result }
    {
        if !self.expects {
            return Err(Failure::Fault(ExpressionFault::BadExpression));
        }
        self.expects = false;
        self.items.push(leaf)?;
        self.settle().map_err(Failure::from)
    }

    /// Takes one more token.
    pub(crate) fn take(
        &mut self,
        order: Order,
        symbol: Symbol<'a>,
    ) -> Result<(), Failure<ExpressionFault>>
        ensures { Meets (λ _. state_of self.new) (ok_or (step order (state_of self.old) (mark_of symbol.entry)) ExpressionFault.BadExpression) result }
    {
        match symbol {
            Symbol::Constant(number) => self.put(Item::Constant(number)),
            Symbol::Name(name) => self.put(Item::Name(name)),
            Symbol::Here => self.put(Item::Here),
            Symbol::Signed(sign) if self.expects => self.open(sign),
            Symbol::Signed(sign) => self.follow(order, sign),
            Symbol::Text(_) => Err(Failure::Fault(ExpressionFault::BadExpression)),
        }
    }

    /// The items of the expression, if nothing waits any more.
    pub(crate) fn finish(self) -> Result<Vec<Item<'a>>, Failure<ExpressionFault>>
        ensures { Meets (λ items. reverse (map item_of items.items)) (ok_or (finished (state_of self.entry)) ExpressionFault.BadExpression) result }
    {
        let mut reader = self;
        if reader.expects {
            return Err(Failure::Fault(ExpressionFault::BadExpression));
        }
        reader.reduce(LOOSEST)?;
        if !reader.frames.is_empty() {
            return Err(Failure::Fault(ExpressionFault::BadExpression));
        }
        Ok(reader.items)
    }
}
