//! How an expression is read, token by token, with a stack of what is open.

ghost use Rattle.std.specs.Prelude.{◌≡◌, ◌≢◌, ◌+◌, ◌<◌, ◌≤◌, ◌^◌, Some, None, Err, true, false, map, reverse, length, slice_index, OnOk, OnErr, IfOk, IsErrOf, is_none, vec_len};
ghost use Rattle.std.specs.Option.{ok_or, option_map};
ghost use Rattle.c25_meaning_common.specs.Results.{Meets};
ghost use Rattle.c25_meaning_language.specs.Tree.{Mark, mark_of};
ghost use Rattle.c25_meaning_language.specs.Reading.{Found, start, settle, reduced, step, operand_begun, followed, closed, finished, unary_of, binary_of, is_open, is_close};
ghost use Rattle.c25_text.specs.View.{piece_of};
ghost use Rattle.c25_expr.specs.Completes.{nesting, opens, completes};
ghost use Rattle.c25_expr.specs.Postfix.{item_of, runs, last_tree};
ghost use Rattle.c25_expr.specs.View.{tree_of, leaf_item, marks_of};

use crate::completes::completes;
use crate::signs::{LOOSEST, binary_of, level_of, unary_of};
use crate::tree::{Expr, PostfixItem, Steps};
use c25_meaning_common::failure::Failure;
use c25_meaning_common::no_memory::NoMemory;
use c25_meaning_language::expression::{BinaryOperator, ExpressionFault, UnaryOperator};
use c25_meaning_language::line::{Sign, TokenKind};
use c25_text::constant_value;
use c25_text::tokens::Token;
use std::alloc::Global;

/// What is open before an operand.
#[derive(Clone, Copy)]
pub(crate) enum Frame {
    /// A parenthesis.
    Open,
    /// A unary operator before its operand.
    Pending(UnaryOperator),
    /// A binary operator after its left operand.
    After(BinaryOperator),
}

/// The expression so far: what is open, the innermost last, the items in postfix order, and whether an
/// operand has to come.
#[derive(Drop)]
pub(crate) struct Builder {
    alloc: Global,
    frames: Vec<Frame>,
    items: Vec<PostfixItem>,
    expects: bool,
}

impl Builder {
    ghost use Rattle.c25_expr.specs.View.{state_of, behind, trees_of, items_of};

    /// An expression before its first token, with room for `room` items.
    pub(crate) fn new(alloc: Global, room: usize) -> Result<Self, NoMemory>
        ensures { IfOk result (λ b. state_of b ≡ start) }
    {
        let items = Vec::with_capacity(alloc, room)?;
        Ok(Builder {
            alloc,
            frames: Vec::new(alloc),
            items,
            expects: true,
        })
    }

    /// The last operand is complete: the unary operators right before it take it.
    fn settle(&mut self) -> Result<(), NoMemory>
        ensures ok { OnOk result (behind self.new
            ≡ settle (behind self.old).frames (last_tree (trees_of self.old)) (items_of self.old)) }
        ensures expects { self.new.expects ≡ self.old.expects }
    {
        while let Some(Frame::Pending(operator)) = self.frames.last().copied() {
            self.frames.pop();
            self.items.push(PostfixItem::Unary(operator))?;
        }
        Ok(())
    }

    /// The binary operators of this level or a tighter one, right before the last operand, take it.
    fn reduce(&mut self, level: u8) -> Result<(), NoMemory>
        ensures ok { OnOk result (behind self.new
            ≡ reduced level (behind self.old).frames (last_tree (trees_of self.old)) (items_of self.old)) }
        ensures expects { self.new.expects ≡ self.old.expects }
    {
        while let Some(Frame::After(operator)) = self.frames.last().copied() {
            if level_of(operator) > level {
                return Ok(());
            }
            self.frames.pop();
            self.items.push(PostfixItem::Binary(operator))?;
        }
        Ok(())
    }

    /// How many parentheses and unary operators are open.
    pub(crate) fn nesting(&self) -> usize
        ensures { result ≡ nesting (state_of self.now).frames }
    {
        let mut count = 0;
        for frame in &self.frames {
            match frame {
                Frame::Open => count += 1,
                Frame::Pending(_) => count += 1,
                Frame::After(_) => {}
            }
        }
        count
    }

    /// How many parentheses are open.
    fn open_groups(&self) -> usize
        ensures value { result ≡ opens (state_of self.now).frames }
        ensures bound { result ≤ vec_len self.now.frames }
    {
        let mut count = 0;
        for frame in &self.frames {
            if let Frame::Open = frame {
                count += 1;
            }
        }
        count
    }

    /// The fault that is reported where the nesting has passed the limit before the rest of the tokens:
    /// `TooDeep` where these complete the expression, else `BadExpression`.
    #[tactic(auto, using(crate::proofs::Frames::is_none_operand))]
    pub(crate) fn refusal(&self, rest: &[Token<'_>]) -> ExpressionFault
        requires { vec_len self.now.frames + length rest.now < 2 ^ 64 }
        ensures deep { result ≡ ExpressionFault.TooDeep
            → completes (marks_of rest.now) (is_none (state_of self.now).current) (opens (state_of self.now).frames) ≡ true }
        ensures bad { result ≡ ExpressionFault.BadExpression
            → completes (marks_of rest.now) (is_none (state_of self.now).current) (opens (state_of self.now).frames) ≡ false }
    {
        if completes(rest, self.expects, self.open_groups()) {
            ExpressionFault::TooDeep
        } else {
            ExpressionFault::BadExpression
        }
    }

    /// Takes a sign where an operand has to come: a unary operator or an opening parenthesis.
    fn open(&mut self, sign: Sign) -> Result<(), Failure<ExpressionFault>>
        requires { self.old.expects ≡ true }
        ensures { Meets (λ _. state_of self.new) (ok_or (operand_begun (state_of self.old).frames (items_of self.old) (unary_of sign) (is_open sign)) ExpressionFault.BadExpression) result }
    {
        if let Some(operator) = unary_of(sign) {
            self.frames
                .push(Frame::Pending(operator))
                .map_err(Failure::from)
        } else if sign == Sign::OpenParenthesis {
            self.frames.push(Frame::Open).map_err(Failure::from)
        } else {
            Err(Failure::Fault(ExpressionFault::BadExpression))
        }
    }

    /// The innermost group ends after the last operand.
    fn close(&mut self) -> Result<(), Failure<ExpressionFault>>
        requires { self.old.expects ≡ false }
        ensures { Meets (λ _. state_of self.new) (ok_or (closed (behind self.old)) ExpressionFault.BadExpression) result }
    {
        let Some(Frame::Open) = self.frames.pop() else {
            return Err(Failure::Fault(ExpressionFault::BadExpression));
        };
        self.items.push(PostfixItem::Group)?;
        self.settle().map_err(Failure::from)
    }

    /// Takes a sign after an operand: a binary operator or a closing parenthesis.
    fn follow(&mut self, sign: Sign) -> Result<(), Failure<ExpressionFault>>
        requires { self.old.expects ≡ false }
        ensures { Meets (λ _. state_of self.new) (ok_or (followed (behind self.old).frames (last_tree (trees_of self.old)) (items_of self.old) (binary_of sign) (is_close sign)) ExpressionFault.BadExpression) result }
    {
        if let Some(operator) = binary_of(sign) {
            self.reduce(level_of(operator))?;
            self.expects = true;
            self.frames
                .push(Frame::After(operator))
                .map_err(Failure::from)
        } else if sign == Sign::CloseParenthesis {
            self.reduce(LOOSEST)?;
            self.close()
        } else {
            Err(Failure::Fault(ExpressionFault::BadExpression))
        }
    }

    /// Takes one more token.
    pub(crate) fn take(&mut self, token: &Token<'_>) -> Result<(), Failure<ExpressionFault>>
        ensures { Meets (λ _. state_of self.new) (ok_or (step (state_of self.old) (mark_of (piece_of token.now))) ExpressionFault.BadExpression) result }
    {
        match leaf_of(self.alloc, token)? {
            Some(leaf) => self.put(leaf),
            None => match token.kind {
                TokenKind::Sign(sign) if self.expects => self.open(sign),
                TokenKind::Sign(sign) => self.follow(sign),
                _ => Err(Failure::Fault(ExpressionFault::BadExpression)),
            },
        }
    }

    /// Takes an operand that is one token.
    fn put(&mut self, leaf: PostfixItem) -> Result<(), Failure<ExpressionFault>>
        ensures { (mark : Mark) → leaf_item mark ≡ Some (item_of leaf) → Meets (λ _. state_of self.new) (ok_or (step (state_of self.old) mark) ExpressionFault.BadExpression) result }
    {
        if !self.expects {
            return Err(Failure::Fault(ExpressionFault::BadExpression));
        }
        self.expects = false;
        self.items.push(leaf)?;
        self.settle().map_err(Failure::from)
    }

    /// The expression, if nothing is open any more.
    pub(crate) fn finish(self) -> Result<Expr, Failure<ExpressionFault>>
        requires { (f : Found) → finished (state_of self) ≡ Some f → runs (reverse f.items) 0
            ≡ true }
        ensures { Meets tree_of (ok_or (option_map (λ f. f.tree) (finished (state_of self))) ExpressionFault.BadExpression) result }
    {
        let mut builder = self;
        if builder.expects {
            return Err(Failure::Fault(ExpressionFault::BadExpression));
        }
        builder.reduce(LOOSEST)?;
        if !builder.frames.is_empty() {
            return Err(Failure::Fault(ExpressionFault::BadExpression));
        }
        Ok(Expr {
            steps: Steps::of(builder.items),
        })
    }
}

/// The item that a token becomes which is an operand by itself: a name, a constant, a character or `$`.
fn leaf_of(alloc: Global, token: &Token<'_>) -> Result<Option<PostfixItem>, NoMemory>
    ensures { IfOk result (λ o. option_map item_of o ≡ leaf_item (mark_of (piece_of token.now))) }
{
    Ok(match token.kind {
        TokenKind::Name => Some(PostfixItem::Name(String::from_str(alloc, token.text)?)),
        TokenKind::Constant => Some(PostfixItem::Constant(constant_value(token.text.as_bytes()))),
        TokenKind::Character => Some(PostfixItem::Constant(u32::from(second_byte(token.text)))),
        TokenKind::Sign(Sign::Dollar) => Some(PostfixItem::Here),
        TokenKind::Sign(_) | TokenKind::Quoted | TokenKind::DottedName => None,
    })
}

/// The character of a character constant: the byte after its first quote.
fn second_byte(text: &str) -> u8
    ensures { result ≡ slice_index text.now 1 }
{
    text.as_bytes().get(1).copied().unwrap_or(0)
}
