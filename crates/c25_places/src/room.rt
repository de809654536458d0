//! The operand for which a section or a module has no room (54).

ghost use Rattle.std.specs.Prelude.{◌≡◌, ◌-◌, ◌^◌, IfOk};
ghost use Rattle.c25_expr.specs.Pieces.{pieces_of};
ghost use Rattle.c25_places.specs.Refused as refused;

use crate::fields::operand_at;
use crate::part::Part;
use crate::wanted::Operation;
use c25_meaning_assembly::assembly::Directive;
use c25_meaning_common::no_memory::NoMemory;
use c25_text::tokens::Token;
use std::alloc::Global;

/// The index of the operand that says how much a line reserves, or which section begins.
fn room_index(operation: Operation) -> Option<usize>
    ensures { result ≡ refused.room_index operation }
{
    match operation {
        Operation::Does(Directive::Space | Directive::Sect) => Some(0),
        Operation::Does(Directive::Bss | Directive::Usect) => Some(1),
        _ => None,
    }
}

/// The part of that operand, if there is one.
pub(crate) fn room_part(
    alloc: Global,
    operation: Option<Operation>,
    tokens: &[Token<'_>],
) -> Result<Option<Part>, NoMemory>
    requires { refused.AreWithin 0 (2 ^ 64 - 1) (pieces_of tokens.now) }
    ensures { IfOk result (λ part. part ≡ refused.room_part operation (pieces_of tokens.now)) }
{
    let Some(operation) = operation else {
        return Ok(None);
    };
    match room_index(operation) {
        Some(index) => operand_at(alloc, tokens, index),
        None => Ok(None),
    }
}
