//! Remarks on the operands of a line: their expressions (20), how many they are (51) and what they are (52).

ghost use Rattle.std.specs.Prelude.{◌≡◌, IfOk, None, false, not};
ghost use Rattle.std.specs.Option.{option_map};
ghost use Rattle.c25_meaning_language.specs.DirectiveOperands as directive;
ghost use Rattle.c25_meaning_language.specs.Forms as forms;
ghost use Rattle.c25_meaning_language.specs.Operands as lists;
ghost use Rattle.c25_text.specs.View.{part_of, piece_of};
ghost use Rattle.c25_expr.specs.Pieces.{pieces_of, operands_view};
ghost use Rattle.c25_hints.specs.Operands as says;
ghost use Rattle.c25_hints.specs.Remark.{remark_of};

use crate::cause::Cause;
use crate::forms::form_of;
use crate::hint::Hint;
use crate::indirect::{any_in_word, is_name, is_register, of_indirect};
use c25_expr::operands::{operands_of, written_of};
use c25_meaning_assembly::assembly::Directive;
use c25_meaning_common::no_memory::NoMemory;
use c25_meaning_language::line::{Sign, TokenKind};
use c25_meaning_language::statement::{FaultKind, Written};
use c25_places::first_refused;
use c25_places::wanted::Operation;
use c25_text::line::Word;
use c25_text::tokens::Token;
use std::alloc::Global;

/// Whether an operand of an operator may end with a token.
fn ends_operand(kind: TokenKind) -> bool
    ensures { result ≡ says.ends_operand kind }
{
    match kind {
        TokenKind::Sign(Sign::Dollar | Sign::CloseParenthesis) => true,
        TokenKind::Sign(_) => false,
        _ => true,
    }
}

/// Whether an operand of an operator may begin with a token.
fn begins_operand(kind: TokenKind) -> bool
    ensures { result ≡ says.begins_operand kind }
{
    match kind {
        TokenKind::Sign(Sign::Dollar | Sign::OpenParenthesis) => true,
        TokenKind::Sign(_) => false,
        _ => true,
    }
}

/// The first token that begins an operand where one ends.
#[tactic(auto, unfolding(crate::specs::Operands::second_operand))]
fn second_operand<'a>(tokens: &[Token<'a>]) -> Option<Token<'a>>
    ensures { option_map piece_of result ≡ says.second_operand false (pieces_of tokens.now) }
{
    let mut ends = false;
    for token in tokens {
        if ends && begins_operand(token.kind) {
            return Some(*token);
        }
        ends = ends_operand(token.kind);
    }
    None
}

/// Whether a token is a constant.
fn is_constant(kind: TokenKind) -> bool
    ensures { result ≡ says.is_constant kind }
{
    match kind {
        TokenKind::Constant => true,
        _ => false,
    }
}

/// The remark on a sign with which an expression begins, by the token after it.
fn of_sign<'a>(kind: TokenKind, next: &Token<'a>) -> Option<Hint<'a>>
    ensures { option_map remark_of result ≡ says.of_sign kind (piece_of next.now) }
{
    match kind {
        TokenKind::Sign(Sign::Dollar) if is_constant(next.kind) => {
            Some(Hint::plain(Cause::LocalLabel))
        }
        TokenKind::Sign(Sign::Greater) => Some(Hint::plain(Cause::HexadecimalByGreater)),
        TokenKind::Sign(Sign::Star) if is_register(next) => {
            Some(Hint::about(Cause::RegisterInExpression, next.text))
        }
        _ => None,
    }
}

/// The remark on an operand that begins with this token, if it is `*`.
fn of_star<'a>(kind: TokenKind, operand: &[Token<'a>]) -> Option<Hint<'a>>
    ensures { option_map remark_of result ≡ says.of_star kind (pieces_of operand.now) }
{
    match kind {
        TokenKind::Sign(Sign::Star) => Some(of_indirect(operand)),
        _ => None,
    }
}

/// The remark on the sign with which an operand begins.
fn of_front<'a>(operand: &[Token<'a>]) -> Option<Hint<'a>>
    ensures { option_map remark_of result ≡ says.of_front (pieces_of operand.now) }
{
    match operand {
        [first, next, ..] => match of_sign(first.kind, next) {
            Some(hint) => Some(hint),
            None => of_star(first.kind, operand),
        },
        _ => None,
    }
}

/// Whether a blank stands between a token and a later one.
fn are_apart(token: &Token<'_>, later: &Token<'_>) -> bool
    ensures { result ≡ says.are_apart (piece_of token.now) (piece_of later.now) }
{
    token.text.len() < later.start.saturating_sub(token.start)
}

/// Whether a sign is rather the first of a comment than an operator between two tokens, as in `15 -1 of them`.
fn is_comment_sign(before: &Token<'_>, sign: &Token<'_>, after: &Token<'_>) -> bool
    ensures { result ≡ says.is_comment_sign (piece_of before.now) (piece_of sign.now) (piece_of after.now) }
{
    (ends_operand(before.kind) && !begins_operand(sign.kind))
        && (are_apart(before, sign) && !are_apart(sign, after))
}

/// The same of a token and the two before it, which there may be.
fn opens_comment(before: &Option<Token<'_>>, sign: &Option<Token<'_>>, token: &Token<'_>) -> bool
    ensures { result ≡ says.opens_comment (option_map piece_of before.now) (option_map piece_of sign.now) (piece_of token.now) }
{
    match (before, sign) {
        (Some(before), Some(sign)) => is_comment_sign(before, sign, token),
        _ => false,
    }
}

/// The first such sign of an operand.
#[tactic(auto, unfolding(crate::specs::Operands::comment_sign))]
fn comment_sign<'a>(operand: &[Token<'a>]) -> Option<Token<'a>>
    ensures { option_map piece_of result ≡ says.comment_sign None None (pieces_of operand.now) }
{
    let mut before: Option<Token<'a>> = None;
    let mut last: Option<Token<'a>> = None;
    for token in operand {
        if opens_comment(&before, &last, token) {
            return last;
        }
        before = last;
        last = Some(*token);
    }
    None
}

/// Where the comment of an operand begins that goes on with this name.
fn comment_start<'a>(operand: &[Token<'a>], name: Token<'a>) -> Token<'a>
    ensures { piece_of result ≡ says.comment_start (piece_of name.entry) (says.comment_sign None None (pieces_of operand.now)) }
{
    match comment_sign(operand) {
        Some(sign) if sign.start < name.start => sign,
        _ => name,
    }
}

/// The remark on a token of an operand that begins an operand of an operator where one ends: a name is mostly one of a
/// comment.
fn of_second<'a>(operand: &[Token<'a>]) -> Option<Hint<'a>>
    ensures { option_map remark_of result ≡ option_map (says.of_second (pieces_of operand.now)) (says.second_operand false (pieces_of operand.now)) }
{
    match second_operand(operand) {
        Some(token) if is_name(token.kind) => {
            let start = comment_start(operand, token);
            Some(Hint::about(Cause::CommentInExpression, start.text))
        }
        Some(token) => Some(Hint::about(Cause::NoOperator, token.text)),
        None => None,
    }
}

/// The remark on the last token: an operator or an open parenthesis.
fn of_last<'a>(token: &Token<'a>) -> Option<Hint<'a>>
    ensures { option_map remark_of result ≡ says.of_last (piece_of token.now) }
{
    if ends_operand(token.kind) {
        None
    } else {
        Some(Hint::about(Cause::NothingAfter, token.text))
    }
}

/// The remark on an operand that is written as an expression.
fn of_expression<'a>(operand: &[Token<'a>]) -> Option<Hint<'a>>
    ensures { option_map remark_of result ≡ says.of_expression (pieces_of operand.now) }
{
    match operand.last() {
        Some(last) => of_front(operand).or(of_second(operand)).or(of_last(last)),
        None => Some(Hint::plain(Cause::NoOperand)),
    }
}

/// The remark on an operand; none of one that is no expression.
fn of_operand<'a>(operand: &[Token<'a>]) -> Option<Hint<'a>>
    ensures { option_map remark_of result ≡ says.of_operand (pieces_of operand.now) }
{
    match written_of(operand) {
        Written::Expression => of_expression(operand),
        _ => None,
    }
}

/// The remark on the first operand that has one.
#[tactic(auto, unfolding(crate::specs::Operands::of_operands))]
fn first_of<'a>(operands: &[&[Token<'a>]]) -> Option<Hint<'a>>
    ensures { option_map remark_of result ≡ says.of_operands (operands_view operands.now) }
{
    for operand in operands {
        if let Some(hint) = of_operand(operand) {
            return Some(hint);
        }
    }
    None
}

/// The remark on the first operand that has one, of the tokens of a line.
fn of_operands<'a>(alloc: Global, tokens: &[Token<'a>]) -> Result<Option<Hint<'a>>, NoMemory>
    ensures { IfOk result (λ o. option_map remark_of o ≡ says.of_operands (lists.operands_of (pieces_of tokens.now))) }
{
    let operands = operands_of(alloc, tokens)?;
    Ok(first_of(operands.as_slice()))
}

/// The remark on the first operand that has one, of the tokens of a line with this word.
pub(crate) fn refused_in<'a>(
    alloc: Global,
    word: Option<Word<'a>>,
    tokens: &[Token<'a>],
) -> Result<Option<Hint<'a>>, NoMemory>
    ensures { IfOk result (λ o. option_map remark_of o ≡ says.refused_in (option_map part_of word.entry) (lists.operands_of (pieces_of tokens.now))) }
{
    let hint = of_operands(alloc, tokens)?;
    match word {
        Some(word) => Ok(any_in_word(word.text, hint)),
        None => Ok(hint),
    }
}

/// The remark that shows a form.
pub(crate) fn of_form<'a>(word: &'a str, form: &'static str) -> Hint<'a>
    ensures { remark_of result ≡ says.of_form word.now form.now }
{
    if form.is_empty() {
        Hint::about(Cause::TakesNothing, word)
    } else {
        Hint {
            cause: Cause::Form,
            word,
            more: form,
        }
    }
}

/// The cause of a remark on so many operands, where other numbers are wanted.
#[tactic(auto, unfolding(crate::specs::Operands::count_cause))]
fn count_cause(count: usize) -> Cause
    ensures { result ≡ says.count_cause count }
{
    match count {
        0 => Cause::FormOfNone,
        1 => Cause::FormOfOne,
        2 => Cause::FormOfTwo,
        3 => Cause::FormOfThree,
        _ => Cause::FormOfMore,
    }
}

/// The remark that says how many operands stand in a line, and shows the form that is wanted.
fn of_number<'a>(
    alloc: Global,
    word: &'a str,
    tokens: &[Token<'a>],
    form: &'static str,
) -> Result<Hint<'a>, NoMemory>
    ensures { IfOk result (λ hint. remark_of hint ≡ says.of_number word.now (pieces_of tokens.now) form.now) }
{
    let operands = operands_of(alloc, tokens)?;
    Ok(Hint {
        cause: count_cause(operands.len()),
        word,
        more: form,
    })
}

/// The remark on too few operands or too many, where two stand side by side or else.
fn of_count<'a>(
    alloc: Global,
    word: &'a str,
    tokens: &[Token<'a>],
    form: &'static str,
) -> Result<Hint<'a>, NoMemory>
    ensures { IfOk result (λ hint. remark_of hint ≡ says.of_count word.now (pieces_of tokens.now) form.now) }
{
    if form.is_empty() {
        return Ok(Hint::about(Cause::TakesNothing, word));
    }
    match second_operand(tokens) {
        Some(token) => Ok(Hint::about(Cause::NoComma, token.text)),
        None => of_number(alloc, word, tokens, form),
    }
}

/// The remark on operands of another number.
pub(crate) fn counted<'a>(
    alloc: Global,
    word: Option<Word<'a>>,
    tokens: &[Token<'a>],
) -> Result<Option<Hint<'a>>, NoMemory>
    ensures { IfOk result (λ o. option_map remark_of o ≡ says.counted (option_map part_of word.entry) (pieces_of tokens.now)) }
{
    let Some(word) = word else {
        return Ok(None);
    };
    match form_of(word.text) {
        Some(form) => Ok(Some(of_count(alloc, word.text, tokens, form)?)),
        None => Ok(None),
    }
}

/// The form of a line with an operand of another form.
fn form_shown<'a>(word: Option<Word<'a>>) -> Option<Hint<'a>>
    ensures { option_map remark_of result ≡ says.form_shown (option_map part_of word.entry) }
{
    let word = word?.text;
    let form = form_of(word)?;
    Some(of_form(word, form))
}

/// The remark on the name of a section, which is of the other kind.
fn section_kind(directive: Directive) -> Option<Hint<'static>>
    ensures { option_map remark_of result ≡ says.section_kind directive }
{
    match directive {
        Directive::Sect => Some(Hint::plain(Cause::ReservedSection)),
        Directive::Usect => Some(Hint::plain(Cause::FilledSection)),
        _ => None,
    }
}

/// The remark on a line with this directive, where each operand is what it has to be.
fn of_section(
    alloc: Global,
    directive: Option<Directive>,
    tokens: &[Token<'_>],
) -> Result<Option<Hint<'static>>, NoMemory>
    ensures { IfOk result (λ o. option_map remark_of o ≡ says.of_section directive (pieces_of tokens.now)) }
{
    let Some(directive) = directive else {
        return Ok(None);
    };
    let operands = operands_of(alloc, tokens)?;
    let operation = Operation::Does(directive);
    match first_refused(
        alloc,
        FaultKind::OperandForm,
        operation,
        operands.as_slice(),
    )? {
        Some(_) => Ok(None),
        None => Ok(section_kind(directive)),
    }
}

/// The remark on an operand of another form, or on a section of the other kind.
pub(crate) fn formed<'a>(
    alloc: Global,
    directive: Option<Directive>,
    word: Option<Word<'a>>,
    tokens: &[Token<'_>],
) -> Result<Option<Hint<'a>>, NoMemory>
    ensures { IfOk result (λ o. option_map remark_of o ≡ says.formed directive (option_map part_of word.entry) (pieces_of tokens.now)) }
{
    match of_section(alloc, directive, tokens)? {
        Some(hint) => Ok(Some(hint)),
        None => Ok(form_shown(word)),
    }
}
