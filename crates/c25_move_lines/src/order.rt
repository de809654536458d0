//! Operators that act from left to right.

use crate::pieces::{Piece, PieceKind, text_of};
use crate::rule::Rule;
use c25_meaning_common::no_memory::NoMemory;
use std::alloc::Global;

/// How close an operator binds its operands for the COFF assembler: the higher, the closer (SPRU018, "Operators"); none
/// for another character.
fn rank(sign: char) -> Option<u8> {
    match sign {
        '*' | '/' => Some(5),
        '+' | '-' => Some(4),
        '&' => Some(3),
        '^' => Some(2),
        '|' => Some(1),
        _ => None,
    }
}

/// What one operand shows of the order of its operators.
#[derive(Drop)]
struct Order {
    /// The rank of the last operator between two operands, for each parenthesis that is open, the innermost last.
    ranks: Vec<Option<u8>>,
    /// Whether an operand precedes.
    after_operand: bool,
    /// Whether an operator binds closer than the one before it.
    is_mixed: bool,
    has_parentheses: bool,
}

impl Order {
    fn new(alloc: Global) -> Result<Order, NoMemory> {
        let mut ranks = Vec::new(alloc);
        ranks.push(None)?;
        Ok(Order {
            ranks,
            after_operand: false,
            is_mixed: false,
            has_parentheses: false,
        })
    }

    /// Passes an operator between two operands.
    fn pass_operator(&mut self, rank: u8) -> Result<(), NoMemory> {
        if let Some(Some(last)) = self.ranks.pop() {
            self.is_mixed = self.is_mixed || rank > last;
        }
        self.ranks.push(Some(rank))?;
        self.after_operand = false;
        Ok(())
    }

    /// Passes a sign.
    fn pass_sign(&mut self, sign: char) -> Result<(), NoMemory> {
        match (sign, rank(sign)) {
            ('(', _) => {
                self.has_parentheses = true;
                self.after_operand = false;
                self.ranks.push(None)?;
            }
            (')', _) => {
                self.after_operand = true;
                let _ = self.ranks.pop();
            }
            (_, Some(rank)) if self.after_operand => self.pass_operator(rank)?,
            _ => self.after_operand = false,
        }
        Ok(())
    }

    fn pass(&mut self, piece: &Piece) -> Result<(), NoMemory> {
        match piece.kind {
            PieceKind::Blank | PieceKind::Comment => {}
            PieceKind::Sign(sign) => self.pass_sign(sign)?,
            PieceKind::Pair => self.after_operand = false,
            PieceKind::Word | PieceKind::Quoted { .. } => self.after_operand = true,
        }
        Ok(())
    }
}

/// What an operand shows of the order of its operators.
fn order_of(alloc: Global, operand: &[Piece]) -> Result<Order, NoMemory> {
    let mut order = Order::new(alloc)?;
    for piece in operand {
        order.pass(piece)?;
    }
    Ok(order)
}

/// The text of an operand whose operators act from left to right and are mixed, with parentheses around what comes
/// before each operator but the first.
fn grouped(alloc: Global, operand: &[Piece]) -> Result<String, NoMemory> {
    let mut text = String::new(alloc);
    let mut after_operand = false;
    let mut operators = 0_usize;
    for piece in operand {
        match piece.kind {
            PieceKind::Blank => {}
            PieceKind::Sign(sign) if after_operand && rank(sign).is_some() => {
                if operators > 0 {
                    text = format!(in alloc; "{}{text})", "(")?;
                }
                operators = operators.saturating_add(1);
                after_operand = false;
            }
            PieceKind::Sign(_) => {}
            PieceKind::Pair => after_operand = false,
            _ => after_operand = true,
        }
        if piece.kind != PieceKind::Blank {
            text.push_str(piece.text.as_str())?;
        }
    }
    Ok(text)
}

/// The text of an operand whose operators act from left to right, for an assembler whose operators bind as in C, and
/// the rule that is done or left.
fn operand_text(
    alloc: Global,
    operand: &[Piece],
    done: &mut Vec<Rule>,
    left: &mut Vec<Rule>,
) -> Result<String, NoMemory> {
    let order = order_of(alloc, operand)?;
    if !order.is_mixed {
        return text_of(alloc, operand);
    }
    if order.has_parentheses {
        left.push(Rule::LeftToRight)?;
        return text_of(alloc, operand);
    }
    done.push(Rule::LeftToRight)?;
    grouped(alloc, operand)
}

/// The text of operands whose operators act from left to right, for an assembler whose operators bind as in C, and the
/// rules that are done or left.
pub(crate) fn left_to_right(
    alloc: Global,
    pieces: &[Piece],
    done: &mut Vec<Rule>,
    left: &mut Vec<Rule>,
) -> Result<String, NoMemory> {
    let mut text = String::new(alloc);
    let mut is_first = true;
    for operand in pieces.split(|p: &Piece| p.is_comma()) {
        if !is_first {
            text.push(',')?;
        }
        is_first = false;
        text.push_str(operand_text(alloc, operand, done, left)?.as_str())?;
    }
    Ok(text)
}
