//! The statements of a linked image.

ghost use Rattle.std.specs.Prelude.{◌≡◌, IfOk, IfSome};
ghost use Rattle.c25_meaning_processor.specs.FirstState.{memory_of_map};
ghost use Rattle.c25_page_reports.specs.Statements.{AreCopied, ArePlain, AreStatementsOf, IsInsnAt};

use c25_isa::{decode, size_of};
use c25_link::Image;
use c25_meaning_common::no_memory::NoMemory;
use c25_meaning_image::mark::{Mark, RunMark};
use c25_meaning_image::word_map::WordMap;
use c25_meaning_instructions::insn::Insn;
use c25_pages::{CopiedStatement, PlainStatement, Program};
use std::alloc::Global;

/// The word of program memory at an address, 0 where the image has none.
fn word_at(words: &WordMap, address: u16) -> u16
    ensures { result ≡ memory_of_map words.now address }
{
    words.get(address).unwrap_or(0)
}

/// The instruction of this size that the words at an address read as, if they read as one and end below address 65,536.
fn insn_at(words: &WordMap, address: u16, size: u16) -> Option<Insn>
    ensures { IfSome result (IsInsnAt (memory_of_map words.now) address size) }
{
    if 65_536 < u32::from(address) + u32::from(size) {
        return None;
    }
    let first = word_at(words, address);
    let second = word_at(words, address.wrapping_add(1));
    let insn = decode(first, second)?;
    if size_of(insn.mnemonic()) != size {
        return None;
    }
    Some(insn)
}

/// The statements of instructions that run where they stand, if the words at each mark read as one of its size.
fn plain_statements(
    alloc: Global,
    words: &WordMap,
    marks: &[Mark],
) -> Result<Option<Vec<PlainStatement>>, NoMemory>
    ensures { IfOk result (λ found. IfSome found (λ list. ArePlain (memory_of_map words.now) marks.now list.items)) }
{
    let mut statements = Vec::new(alloc);
    for mark in marks {
        let Some(insn) = insn_at(words, mark.address, mark.size) else {
            return Ok(None);
        };
        statements.push(PlainStatement {
            address: mark.address,
            insn,
        })?;
    }
    Ok(Some(statements))
}

/// The statements of instructions that run in block B0, if the words where each is loaded read as one of its size.
fn copied_statements(
    alloc: Global,
    words: &WordMap,
    marks: &[RunMark],
) -> Result<Option<Vec<CopiedStatement>>, NoMemory>
    ensures { IfOk result (λ found. IfSome found (λ list. AreCopied (memory_of_map words.now) marks.now list.items)) }
{
    let mut statements = Vec::new(alloc);
    for mark in marks {
        let Some(insn) = insn_at(words, mark.load, mark.size) else {
            return Ok(None);
        };
        statements.push(CopiedStatement {
            load: mark.load,
            run: mark.run,
            insn,
        })?;
    }
    Ok(Some(statements))
}

/// The instruction statements of a linked image: those of its marks, as its words read. None where the words at a mark
/// read as no instruction of its size, which is so of no image of assembled sources.
pub fn statements_of_image(alloc: Global, image: &Image) -> Result<Option<Program>, NoMemory>
    ensures { IfOk result (λ found. IfSome found (AreStatementsOf image.now)) }
{
    let words = image.words(0);
    let Some(plain) = plain_statements(alloc, words, image.marks())? else {
        return Ok(None);
    };
    match copied_statements(alloc, words, image.run_marks()) {
        Ok(Some(copied)) => Ok(Some(Program { plain, copied })),
        Ok(None) => Ok(None),
        Err(error) => Err(error),
    }
}
