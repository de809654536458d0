//! The instruction that given words are.

ghost use Rattle.c25_dis.specs.Lines.{ReadAs};
ghost use Rattle.c25_dis.specs.Reading.{IsWhole};

use c25_isa::{decode, size_of};
use c25_meaning_instructions::insn::Insn;

/// The instruction that has these words and no more; the second is given where the line has two. `None` where
/// the words are no instruction of that size.
pub(crate) fn instruction(first: u16, second: Option<u16>) -> Option<Insn>
    ensures { ReadAs first second result }
{
    match second {
        None => whole(first, 0, 1),
        Some(second) => whole(first, second, 2),
    }
}

/// The instruction that words decode to, if it has this size in words.
fn whole(first: u16, second: u16, size: u16) -> Option<Insn>
    ensures { IsWhole first second size result }
{
    let insn = decode(first, second)?;
    if size_of(insn.mnemonic()) == size {
        Some(insn)
    } else {
        None
    }
}
