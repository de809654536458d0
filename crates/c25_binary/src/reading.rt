//! Words read from the bytes of binary files.

ghost use Rattle.std.specs.Prelude.{◌≡◌, ◌≤◌, length, IfOk};
ghost use Rattle.c25_binary.specs.Binary.{at_zero, words_of_file, words_of_pair};
ghost use Rattle.c25_meaning_common.specs.Results.{Meets};
ghost use Rattle.c25_rom.specs.Bytes.{file_words, pair_words};

use crate::binary_fault::BinaryFault;
use c25_meaning_common::failure::Failure;
use c25_meaning_common::no_memory::NoMemory;
use c25_meaning_image::word_list::WordList;
use c25_meaning_image::word_map::WordMap;
use c25_rom::byte_order::ByteOrder;
use c25_rom::{file_words, pair_words};
use std::alloc::Global;

/// The most words that there are addresses for.
const MOST_WORDS: usize = 65_536;

/// The map of words from address 0 on.
fn map_of(alloc: Global, words: &[u16]) -> Result<WordMap, NoMemory>
    requires { length words.now ≤ 65536 }
    ensures { IfOk result (λ map. map ≡ at_zero words.now) }
{
    let mut list = WordList::new(alloc);
    for (index, word) in words.iter().enumerate() {
        list.push(index as u16, *word)?;
    }
    list.into_map(alloc)
}

/// The map of the words of a pair of files.
#[tactic(auto, using(crate::proofs::Lengths::few_in_pair))]
fn pair_map(alloc: Global, high: &[u8], low: &[u8]) -> Result<WordMap, NoMemory>
    requires { length high.now ≤ 65536 }
    ensures { IfOk result (λ map. map ≡ at_zero (pair_words high.now low.now)) }
{
    let words = pair_words(alloc, high, low)?;
    map_of(alloc, words.as_slice())
}

/// The map of the words of one file.
#[tactic(auto, using(crate::proofs::Lengths::few_in_file))]
fn file_map(alloc: Global, order: ByteOrder, bytes: &[u8]) -> Result<WordMap, NoMemory>
    requires { length bytes.now ≤ 131072 }
    ensures { IfOk result (λ map. map ≡ at_zero (file_words order bytes.now)) }
{
    let words = file_words(alloc, bytes, order)?;
    map_of(alloc, words.as_slice())
}

/// The words of a pair of files: a byte of each has the address of its word. The high bytes are in one file,
/// the low bytes in the other.
///
/// `LengthsDiffer` where the files have not the same number of bytes, `TooLong` where they have more than
/// 65,536, `NoMemory` where memory runs out.
pub fn words_of_pair(
    alloc: Global,
    high: &[u8],
    low: &[u8],
) -> Result<WordMap, Failure<BinaryFault>>
    ensures { Meets (λ words. words) (words_of_pair high.now low.now) result }
{
    if high.len() != low.len() {
        return Err(Failure::Fault(BinaryFault::LengthsDiffer));
    }
    if high.len() > MOST_WORDS {
        return Err(Failure::Fault(BinaryFault::TooLong));
    }
    Ok(pair_map(alloc, high, low)?)
}

/// The words of one file, two bytes each, the first at address 0.
///
/// `OddLength` where there is half a word at the end, `TooLong` where there are more than 65,536 words,
/// `NoMemory` where memory runs out.
pub fn words_of_file(
    alloc: Global,
    order: ByteOrder,
    bytes: &[u8],
) -> Result<WordMap, Failure<BinaryFault>>
    ensures { Meets (λ words. words) (words_of_file order bytes.now) result }
{
    if bytes.len() % 2 == 1 {
        return Err(Failure::Fault(BinaryFault::OddLength));
    }
    if bytes.len() > 2 * MOST_WORDS {
        return Err(Failure::Fault(BinaryFault::TooLong));
    }
    Ok(file_map(alloc, order, bytes)?)
}
