//! The words that strings make.

ghost use Rattle.std.specs.Prelude.{◌≡◌, ◌+◌, ◌*◌, ◌++◌, OnOk};
ghost use Rattle.c25_meaning_assembly.specs.AssemblyLine as says;
ghost use Rattle.c25_meaning_common.specs.Results.{Meets};
ghost use Rattle.c25_expr.specs.Pieces.{operands_view};

use c25_expr::directive_operands::string_in;
use c25_meaning_common::failure::Failure;
use c25_meaning_common::no_memory::NoMemory;
use c25_meaning_language::statement::FaultKind;
use c25_text::tokens::Token;
use std::alloc::Global;

/// The word of two characters, the first one in the high byte.
fn pair(first: u8, second: u8) -> u16
    ensures { result ≡ first * 256 + second }
{
    u16::from(first) * 256 + u16::from(second)
}

/// Appends the words of a text: two characters a word, the first one in the high byte; an odd last character
/// has a zero after it.
fn pack(words: &mut Vec<u16>, text: &[u8]) -> Result<(), NoMemory>
    ensures { OnOk result (words.new.items ≡ words.old.items ++ says.packed text.now) }
{
    let mut rest = text;
    while let [first, second, behind @ ..] = rest {
        words.push(pair(*first, *second))?;
        rest = behind;
    }
    if let [first] = rest {
        words.push(pair(*first, 0))?;
    }
    Ok(())
}

/// The words of operands, each of which is a string.
pub(crate) fn strings_in(
    alloc: Global,
    operands: &[&[Token<'_>]],
) -> Result<Vec<u16>, Failure<FaultKind>>
    ensures { Meets (λ v. v.items) (says.strings_in (operands_view operands.now)) result }
{
    let mut words = Vec::new(alloc);
    for operand in operands {
        let text = string_in(alloc, operand)?;
        pack(&mut words, text.as_bytes())?;
    }
    Ok(words)
}
