//! Registers that stand where a shift does.

ghost use Rattle.std.specs.Prelude.{◌≡◌, option_map};
ghost use Rattle.c25_expr.specs.Pieces.{operands_view, pieces_of};
ghost use Rattle.c25_meaning_language.specs.DirectiveOperands as directive;
ghost use Rattle.c25_line_warnings.specs.Memories.{register_by, register_shift, second_register};

use crate::marks::has_shift;
use c25_expr::directive_operands::name_in;
use c25_expr::symbols::is_predefined;
use c25_meaning_instructions::mnemonic::Spelling;
use c25_text::tokens::Token;

/// The register or port that an operand is, if it is one.
fn register_in<'a>(operand: &[Token<'a>]) -> Option<&'a str>
    ensures { option_map (λ t. t.now) result ≡ register_by (directive.name_in (pieces_of operand.now)) }
{
    match name_in(operand) {
        Ok(name) => {
            if is_predefined(name) {
                Some(name)
            } else {
                None
            }
        }
        Err(_) => None,
    }
}

/// The register or port that is the second operand, if it is one.
fn second_register<'a>(operands: &[&[Token<'a>]]) -> Option<&'a str>
    ensures { option_map (λ t. t.now) result ≡ second_register (operands_view operands.now) }
{
    match operands {
        [_, operand, ..] => register_in(operand),
        _ => None,
    }
}

/// The register or port that is the second operand of an instruction whose second operand is a shift:
/// `ADD *+,AR3`.
#[tactic(auto, unfolding(crate::specs::Memories::register_shift))]
pub fn register_shift<'a>(spelling: Spelling, operands: &[&[Token<'a>]]) -> Option<&'a str>
    ensures { option_map (λ t. t.now) result ≡ register_shift spelling (operands_view operands.now) }
{
    if has_shift(spelling) {
        second_register(operands)
    } else {
        None
    }
}
