//! Single tokens, read from the front of the rest.

ghost use Rattle.std.specs.Prelude.{◌≡◌, ◌≤◌, IfOk};
ghost use Rattle.c25_meaning_linking.specs.CommandGrammar.{passes, begins, wanted, past, fault_at, number_at, number_of_kind, page_number_at, setting_at};
ghost use Rattle.c25_meaning_common.specs.declared.failure.Failure.TheVariants.{Fault};
ghost use Rattle.c25_meaning_common.specs.Results.{Meets};
ghost use Rattle.c25_cmd.specs.After.{after};
ghost use Rattle.c25_cmd.specs.View.{token_of, tokens_of};

use crate::token::Token;
use c25_meaning_common::failure::Failure;
use c25_meaning_common::placed::Placed;
use c25_meaning_linking::command_fault::CommandFault;
use c25_meaning_linking::command_token::{Keyword, Kind, Sign, Want};

/// Why tokens are no command: a fault at the byte where a token begins, or out of memory.
pub(crate) type CommandFailure = Failure<Placed<usize, CommandFault>>;

/// Whether a token of this kind is a wanted one.
pub(crate) fn passes(want: Want, kind: Kind) -> bool
    ensures { result ≡ passes want kind }
{
    match (want, kind) {
        (Want::Sign(wanted), Kind::Sign(sign)) => wanted == sign,
        (Want::Keyword(wanted), Kind::Keyword(keyword)) => wanted == keyword,
        (Want::Name, Kind::Name) => true,
        (Want::AnyWord, Kind::Name | Kind::Malformed | Kind::Number(_) | Kind::Keyword(_)) => true,
        (Want::LoadSign, Kind::Sign(Sign::Equals | Sign::Greater)) => true,
        (Want::End, Kind::End) => true,
        _ => false,
    }
}

/// A fault at the place of the first token.
fn fault_at(fault: CommandFault, tokens: &[Token]) -> Placed<usize, CommandFault>
    ensures { result ≡ fault_at fault (tokens_of tokens.now) }
{
    let place = match tokens {
        [] => 0,
        [token, ..] => token.place,
    };
    Placed { place, fault }
}

/// A failure by a fault at the place of the first token.
pub(crate) fn refusal(fault: CommandFault, tokens: &[Token]) -> CommandFailure
    ensures { result ≡ Fault (fault_at fault (tokens_of tokens.now)) }
{
    Failure::Fault(fault_at(fault, tokens))
}

/// Whether the first token is a wanted one.
pub(crate) fn begins(want: Want, tokens: &[Token]) -> bool
    ensures { result ≡ begins want (tokens_of tokens.now) }
{
    match tokens {
        [] => false,
        [token, ..] => passes(want, token.kind),
    }
}

/// The first token, which must be the wanted one, and those after it; `Syntax` otherwise.
#[tactic(auto, unfolding(c25_meaning_linking::specs::CommandGrammar::wanted))]
pub(crate) fn wanted(want: Want, tokens: &[Token]) -> Result<(&Token, &[Token]), CommandFailure>
    ensures { Meets (λ x. (token_of x.0.now, tokens_of x.1.now)) (wanted want (tokens_of tokens.now)) result }
{
    match tokens {
        [token, rest @ ..] if passes(want, token.kind) => Ok((token, rest)),
        _ => Err(refusal(CommandFault::Syntax, tokens)),
    }
}

/// The tokens after a first one that must be the wanted one; `Syntax` otherwise.
#[tactic(auto, unfolding(c25_meaning_linking::specs::CommandGrammar::wanted))]
pub(crate) fn after(want: Want, tokens: &[Token]) -> Result<&[Token], CommandFailure>
    ensures { Meets (λ x. tokens_of x.now) (after want (tokens_of tokens.now)) result }
{
    match tokens {
        [token, rest @ ..] if passes(want, token.kind) => Ok(rest),
        _ => Err(refusal(CommandFault::Syntax, tokens)),
    }
}

/// The tokens after a first one of this kind, or all tokens where the first is another.
pub(crate) fn past(want: Want, tokens: &[Token]) -> &[Token]
    ensures { tokens_of result.now ≡ past want (tokens_of tokens.now) }
{
    match tokens {
        [token, rest @ ..] if passes(want, token.kind) => rest,
        _ => tokens,
    }
}

fn number_of_kind(kind: Kind) -> Option<u32>
    ensures { result ≡ number_of_kind kind }
{
    match kind {
        Kind::Number(number) => Some(number),
        _ => None,
    }
}

/// The number that the first token must be, and the tokens after it.
#[tactic(auto, unfolding(c25_meaning_linking::specs::CommandGrammar::number_at))]
pub(crate) fn number_at(tokens: &[Token]) -> Result<(u32, &[Token]), CommandFailure>
    ensures { Meets (λ x. (x.0, tokens_of x.1.now)) (number_at (tokens_of tokens.now)) result }
{
    match tokens {
        [] => Err(refusal(CommandFault::Syntax, tokens)),
        [token, rest @ ..] => match number_of_kind(token.kind) {
            None => Err(refusal(CommandFault::Syntax, tokens)),
            Some(number) => Ok((number, rest)),
        },
    }
}

/// The number of a page, 0 or 1, that the first token must be, and the tokens after it.
#[tactic(auto, unfolding(c25_meaning_linking::specs::CommandGrammar::page_number_at))]
pub(crate) fn page_number_at(tokens: &[Token]) -> Result<(u8, &[Token]), CommandFailure>
    ensures given { Meets (λ x. (x.0, tokens_of x.1.now)) (page_number_at (tokens_of tokens.now)) result }
    ensures low { IfOk result (λ x. x.0 ≤ 1) }
{
    let (number, rest) = number_at(tokens)?;
    if number > 1 {
        return Err(refusal(CommandFault::Syntax, tokens));
    }
    Ok((number as u8, rest))
}

/// The tokens after `keyword =`.
#[tactic(auto, unfolding(c25_meaning_linking::specs::CommandGrammar::setting_at))]
pub(crate) fn setting_at(keyword: Keyword, tokens: &[Token]) -> Result<&[Token], CommandFailure>
    ensures { Meets (λ x. tokens_of x.now) (setting_at keyword (tokens_of tokens.now)) result }
{
    let tokens = after(Want::Keyword(keyword), tokens)?;
    after(Want::Sign(Sign::Equals), tokens)
}
