//! The names that an expression may have.

ghost use Rattle.std.specs.Prelude.{◌≡◌, ◌∷◌, [], IfOk, OnOk, map};
ghost use Rattle.c25_expr.specs.Pieces.{pieces_of};
ghost use Rattle.c25_meaning_language.specs.Value.{Table};
ghost use Rattle.c25_named_values.specs.Known.{absolute, first_table, with_name, with_piece, with_pieces};
ghost use Rattle.c25_text.specs.View.{piece_of};

use c25_expr::Symbols;
use c25_meaning_common::failure::Failure;
use c25_meaning_common::no_memory::NoMemory;
use c25_meaning_language::line::TokenKind;
use c25_meaning_language::value::{Base, Value};
use c25_text::tokens::Token;
use std::alloc::Global;

/// Names that stand for addresses.
pub trait Names {
    ghost use Rattle.std.specs.Prelude.{◌≡◌, ℕ, List, Option};

    /// The address that a name stands for, if it stands for one.
    ghost address_of: { Self → List ℕ → Option ℕ };

    /// The address that a name stands for, if it stands for one.
    fn address(&self, name: &str) -> Option<u16>
        ensures { result ≡ address_of self.now name.now };
}

/// An address as a value.
pub(crate) fn absolute(address: u16) -> Value
    ensures { result ≡ absolute address }
{
    Value {
        base: Base::Absolute,
        offset: i32::from(address),
    }
}

/// Defines a name for an address, if it has one and the name stands for nothing yet.
fn define_name(symbols: &mut Symbols, name: &str, address: Option<u16>) -> Result<(), NoMemory>
    ensures { OnOk result (symbols.new ≡ with_name symbols.old name.now address) }
{
    let Some(address) = address else {
        return Ok(());
    };
    match symbols.define(name, absolute(address)) {
        Ok(()) => Ok(()),
        Err(Failure::NoMemory(error)) => Err(error),
        Err(Failure::Fault(_)) => Ok(()),
    }
}

/// Defines a token, if it is a name that stands for an address.
fn define_token<N: Names>(
    symbols: &mut Symbols,
    names: &N,
    token: &Token<'_>,
) -> Result<(), NoMemory>
    ensures { OnOk result (symbols.new ≡ with_piece (N.address_of names.now) symbols.old (piece_of token.now)) }
{
    match token.kind {
        TokenKind::Name => define_name(symbols, token.text, names.address(token.text)),
        _ => Ok(()),
    }
}

/// The symbols of an expression: the names among its tokens that stand for addresses, and the address that `$`
/// stands for.
pub(crate) fn symbols_of<N: Names>(
    alloc: Global,
    names: &N,
    here: u16,
    tokens: &[Token<'_>],
) -> Result<Symbols, NoMemory>
    ensures { IfOk result (λ symbols. symbols ≡ with_pieces (N.address_of names.now) (first_table here) (pieces_of tokens.now)) }
{
    let mut symbols = Symbols::new(alloc);
    symbols.set_here(absolute(here));
    for token in tokens {
        define_token(&mut symbols, names, token)?;
    }
    Ok(symbols)
}
