//! Remarks on an operand that begins with `*` and is none of the indirect forms (20).

ghost use Rattle.std.specs.Prelude.{◌≡◌, ◌-◌, length, slice_get, take};
ghost use Rattle.std.specs.Option.{option_map};
ghost use Rattle.c25_meaning_instructions.specs.Spellings.{spelling_of};
ghost use Rattle.c25_meaning_language.specs.DirectiveOperands as directive;
ghost use Rattle.c25_meaning_language.specs.Operands.{written_of};
ghost use Rattle.c25_text.specs.View.{piece_of};
ghost use Rattle.c25_expr.specs.Pieces.{pieces_of};
ghost use Rattle.c25_places.specs.Wanted as wanted;
ghost use Rattle.c25_hints.specs.Indirect as says;
ghost use Rattle.c25_hints.specs.Remark.{remark_of};

use crate::cause::Cause;
use crate::hint::Hint;
use c25_expr::operands::written_of;
use c25_expr::symbols::is_predefined;
use c25_meaning_instructions::mnemonic::{Mnemonic, PlainName, Spelling};
use c25_meaning_language::line::TokenKind;
use c25_meaning_language::statement::Written;
use c25_statements::spelled;
use c25_text::tokens::Token;

/// Whether a token is a name.
pub(crate) fn is_name(kind: TokenKind) -> bool
    ensures { result ≡ directive.is_name kind }
{
    match kind {
        TokenKind::Name => true,
        _ => false,
    }
}

/// Whether a token is a register: a predefined name.
pub(crate) fn is_register(token: &Token<'_>) -> bool
    ensures { result ≡ says.is_register (piece_of token.now) }
{
    is_name(token.kind) && is_predefined(token.text)
}

/// Whether an operand is written as one of the indirect forms.
fn is_indirect(operand: Written) -> bool
    ensures { result ≡ wanted.is_indirect operand }
{
    match operand {
        Written::Indirect(_) => true,
        _ => false,
    }
}

/// The remark on a token after an indirect form: on a register.
fn of_next<'a>(token: &Token<'a>) -> Option<Hint<'a>>
    ensures { option_map remark_of result ≡ says.of_next (piece_of token.now) }
{
    if is_register(token) {
        Some(Hint::about(Cause::RegisterInExpression, token.text))
    } else {
        None
    }
}

/// The remark on the last token of an operand, where the tokens before it are one of the indirect forms.
fn of_last<'a>(operand: &[Token<'a>]) -> Option<Hint<'a>>
    ensures { option_map remark_of result ≡ says.of_last (pieces_of operand.now) }
{
    match operand.split_last() {
        Some((last, front)) if is_indirect(written_of(front)) => of_next(last),
        _ => None,
    }
}

/// The remark on an operand that begins with `*` and is none of the indirect forms.
pub(crate) fn of_indirect<'a>(operand: &[Token<'a>]) -> Hint<'a>
    ensures { remark_of result ≡ says.of_indirect (pieces_of operand.now) }
{
    match of_last(operand) {
        Some(hint) => hint,
        None => Hint::plain(Cause::IndirectForms),
    }
}

/// The remark on a register after an indirect form, by what this instruction has before its next register.
fn next_in<'a>(mnemonic: Mnemonic, word: &'a str, register: &'a str) -> Hint<'a>
    ensures { remark_of result ≡ says.next_in mnemonic word.now register.now }
{
    match mnemonic {
        Mnemonic::Shifted(_) => Hint::naming(Cause::NextAfterShift, word, register),
        Mnemonic::Port(_) => Hint::naming(Cause::NextAfterPort, word, register),
        Mnemonic::Bit(_) => Hint::naming(Cause::NextAfterBit, word, register),
        _ => Hint::about(Cause::RegisterInExpression, register),
    }
}

/// Whether an instruction takes an indirect operand.
fn takes_indirect(mnemonic: Mnemonic) -> bool
    ensures { result ≡ says.takes_indirect mnemonic }
{
    match mnemonic {
        Mnemonic::Short(_) | Mnemonic::Long(_) => false,
        Mnemonic::Plain(PlainName::Norm) => true,
        Mnemonic::Plain(_) => false,
        _ => true,
    }
}

/// Whether a remark is one on a register after an indirect form.
fn is_next(cause: Cause) -> bool
    ensures { result ≡ says.is_next cause }
{
    match cause {
        Cause::RegisterInExpression => true,
        _ => false,
    }
}

/// Whether a remark is one on an indirect operand.
fn is_on_indirect(cause: Cause) -> bool
    ensures { result ≡ says.is_on_indirect cause }
{
    match cause {
        Cause::RegisterInExpression | Cause::IndirectForms => true,
        _ => false,
    }
}

/// A remark on an indirect operand, in a line with an instruction that takes one.
fn indirect_in<'a>(mnemonic: Mnemonic, word: &'a str, hint: Hint<'a>) -> Hint<'a>
    ensures { remark_of result ≡ says.indirect_in mnemonic word.now (remark_of hint.entry) }
{
    if is_next(hint.cause) {
        next_in(mnemonic, word, hint.word)
    } else {
        hint
    }
}

/// A remark on an indirect operand, in a line with an instruction, which may be that of no row of the opcode table.
fn indirect_spelled<'a>(spelling: Spelling, word: &'a str, hint: Hint<'a>) -> Hint<'a>
    ensures { remark_of result ≡ says.indirect_spelled spelling word.now (remark_of hint.entry) }
{
    match spelling {
        Spelling::Row(mnemonic) if takes_indirect(mnemonic) => indirect_in(mnemonic, word, hint),
        _ => Hint::about(Cause::NoIndirect, word),
    }
}

/// A remark on an indirect operand, in a line with this word, which may be no mnemonic.
fn indirect_by<'a>(word: &'a str, hint: Hint<'a>) -> Hint<'a>
    ensures { remark_of result ≡ says.indirect_by (spelling_of word.now) word.now (remark_of hint.entry) }
{
    match spelled(word) {
        Ok(spelling) => indirect_spelled(spelling, word, hint),
        Err(_) => Hint::about(Cause::NoIndirect, word),
    }
}

/// A remark on the operands of a line with this word.
fn in_word<'a>(word: &'a str, hint: Hint<'a>) -> Hint<'a>
    ensures { remark_of result ≡ says.in_word word.now (remark_of hint.entry) }
{
    if is_on_indirect(hint.cause) {
        indirect_by(word, hint)
    } else {
        hint
    }
}

/// The same of a remark, if there is one.
pub(crate) fn any_in_word<'a>(word: &'a str, hint: Option<Hint<'a>>) -> Option<Hint<'a>>
    ensures { option_map remark_of result ≡ option_map (says.in_word word.now) (option_map remark_of hint.entry) }
{
    match hint {
        Some(hint) => Some(in_word(word, hint)),
        None => None,
    }
}
