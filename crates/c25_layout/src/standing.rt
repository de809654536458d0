//! Instructions and data as they stand in an image.

ghost use Rattle.std.specs.Prelude.{◌≡◌, ◌+◌, ◌<◌, None, Some, IfSome};
ghost use Rattle.std.specs.FinMap as finite;
ghost use Rattle.c25_layout.specs.Layout.{HasInsn};
ghost use Rattle.c25_meaning_instructions.specs.Table as table;

use crate::cells::{Cells, Taken, after, run_on};
use c25_isa::{decode, size_of};
use c25_meaning_image::word_map::WordMap;
use c25_meaning_instructions::insn::Insn;

/// The instruction of one word that a word is, if it is one.
#[tactic(auto, using(crate::proofs::InImage::one_is_alone))]
fn one_word(word: u16) -> Option<Insn>
    ensures read { IfSome result (λ insn. table.Reads word 0 insn) }
    ensures alone { IfSome result (λ insn. table.second_word insn ≡ None) }
{
    let insn = decode(word, 0)?;
    if size_of(insn.mnemonic()) == 1 {
        Some(insn)
    } else {
        None
    }
}

/// The word after an address, if it may be the second one of an instruction there: it is no data by a hint, and
/// the two run one after the other.
fn second_at(words: &WordMap, cells: &Cells, address: u16) -> Option<u16>
    ensures there { IfSome result (λ word. finite.get words.now (address + 1) ≡ Some word) }
    ensures inside { IfSome result (λ word. address + 1 < 65536) }
{
    let place = after(address, 1)?;
    let second = cells.at(place);
    if run_on(cells.at(address), second) && second.taken != Taken::Data {
        words.get(place)
    } else {
        None
    }
}

/// The instruction that begins with a word, which may have a second one.
fn insn_of(words: &WordMap, cells: &Cells, address: u16, word: u16) -> Option<Insn>
    requires { finite.get words.now address ≡ Some word }
    ensures { IfSome result (HasInsn words.now address) }
{
    match second_at(words, cells, address) {
        None => one_word(word),
        Some(next) => decode(word, next),
    }
}

/// The instruction of the words at an address, if they are one: all of them are in the image, none is data by
/// a hint, and they run one after the other.
pub(crate) fn insn_at(words: &WordMap, cells: &Cells, address: u16) -> Option<Insn>
    ensures { IfSome result (HasInsn words.now address) }
{
    if cells.at(address).taken == Taken::Data {
        return None;
    }
    match words.get(address) {
        None => None,
        Some(word) => insn_of(words, cells, address, word),
    }
}
