//! The parts of a layout: each unbroken run of words that the source has.

ghost use Rattle.std.specs.Prelude.{◌≡◌, ◌+◌, ◌<◌, ◌≤◌, ℕ, true, length, Some, IfNone, IfOk, IfSome};
ghost use Rattle.std.specs.FinMap as finite;
ghost use Rattle.std.specs.List.{slice_get};
ghost use Rattle.c25_layout.specs.Blank.{AreBlank, IsBlank};
ghost use Rattle.c25_layout.specs.Layout.{ArePartsOf, ArePartsTo, HasInsn, IsItem, IsPartTo, IsSayable, StandAt, item_words};
ghost use Rattle.c25_meaning_instructions.specs.Table as table;

use crate::cells::{Cells, Taken, after, run_on};
use crate::hint::Hint;
use crate::hinted::given_name;
use crate::layout::{Item, Part, Row};
use crate::naming::{label_of, load_label_of, target_of};
use crate::standing::insn_at;
use c25_isa::size_of;
use c25_meaning_common::no_memory::NoMemory;
use c25_meaning_image::word_map::WordMap;
use c25_meaning_instructions::insn::Insn;
use std::alloc::Global;

/// The most words of data in one row.
const WORDS_IN_A_ROW: u16 = 8;

/// An image, what was found out of each address, and what hints say.
#[derive(Clone, Copy)]
pub(crate) struct Found<'a> {
    pub words: &'a WordMap,
    pub cells: &'a Cells,
    pub hints: &'a [Hint<String>],
    /// Which words stand in runs of erased words that are long enough to be left out.
    pub long: &'a [bool],
}

/// A word of an image with its address.
#[derive(Clone, Copy)]
pub(crate) struct Standing {
    pub address: u16,
    pub word: u16,
}

/// Whether an address is in a run of erased words that is long enough to be left out.
fn is_in_long_run(found: Found<'_>, address: u16) -> bool
    ensures { result ≡ true → slice_get found.entry.long.now address ≡ Some true }
{
    match found.long.get(usize::from(address)) {
        Some(long) => *long,
        None => false,
    }
}

/// Whether a word of an image is left out as blank: it is in such a run, and nothing comes to it.
fn is_left_out(found: Found<'_>, address: u16) -> bool
    ensures { result ≡ true → slice_get found.entry.long.now address ≡ Some true }
{
    if is_in_long_run(found, address) {
        found.cells.at(address).blank
    } else {
        false
    }
}

/// The word at an address that the source has: there is one, and it is not left out as blank.
fn kept_at(found: Found<'_>, address: u16) -> Option<u16>
    ensures there { IfSome result (λ word. finite.get found.entry.words.now address ≡ Some word) }
    ensures missing { IfNone result ((blank word : ℕ) → AreBlank found.entry.words.now blank found.entry.long.now → finite.get found.entry.words.now address ≡ Some word → IsBlank found.entry.words.now blank address) }
{
    match found.words.get(address) {
        None => None,
        Some(word) => {
            if is_left_out(found, address) {
                None
            } else {
                Some(word)
            }
        }
    }
}

/// The word at an address that is in the same part as the one before it: the source has it, and the two run one
/// after the other.
fn joined_at(found: Found<'_>, address: u16) -> Option<u16>
    ensures { IfSome result (λ word. finite.get found.entry.words.now address ≡ Some word) }
{
    let before = found.cells.at(address.saturating_sub(1));
    if run_on(before, found.cells.at(address)) {
        kept_at(found, address)
    } else {
        None
    }
}

/// Whether a word is data that may stand in a row after other words.
fn is_further_data(found: Found<'_>, address: u16) -> bool {
    let cell = found.cells.at(address);
    !cell.is_code()
        && cell.refers.is_none()
        && cell.named.is_none()
        && !cell.load_named
        && given_name(found.hints, address).is_none()
}

/// The word of data so many words after another, if it stands in a row with the words before it.
fn further_at(found: Found<'_>, first: u16, passed: u16) -> Option<u16>
    ensures there { IfSome result (λ word. finite.get found.entry.words.now (first + passed) ≡ Some word) }
    ensures inside { IfSome result (λ word. first + passed < 65536) }
{
    let address = after(first, passed)?;
    if is_further_data(found, address) {
        joined_at(found, address)
    } else {
        None
    }
}

/// The words of data in the row that begins with a word.
fn data_at(alloc: Global, found: Found<'_>, address: u16, word: u16) -> Result<Vec<u16>, NoMemory>
    requires { finite.get found.words.now address ≡ Some word }
    ensures stands { IfOk result (λ row. StandAt found.entry.words.now address row.items) }
    ensures some { IfOk result (λ row. 0 < length row.items) }
    ensures few { IfOk result (λ row. length row.items ≤ 16) }
    ensures inside { IfOk result (λ row. address + length row.items ≤ 65536) }
{
    let mut row = Vec::new(alloc);
    row.push(word)?;
    for passed in 1..WORDS_IN_A_ROW {
        match further_at(found, address, passed) {
            None => return Ok(row),
            Some(next) => row.push(next)?,
        }
    }
    Ok(row)
}

/// The instruction that was found at an address.
fn found_insn(found: Found<'_>, address: u16) -> Option<Insn>
    ensures { IfSome result (HasInsn found.entry.words.now address) }
{
    if found.cells.at(address).taken == Taken::First {
        insn_at(found.words, found.cells, address)
    } else {
        None
    }
}

/// What the row of an instruction is.
fn insn_item(alloc: Global, found: Found<'_>, address: u16, insn: Insn) -> Result<Item, NoMemory>
    ensures words { IfOk result (λ item. item_words item ≡ table.words insn) }
    ensures sayable { IfOk result (λ item. table.InRange insn → IsSayable item) }
{
    match found.cells.at(address).refers {
        None => Ok(Item::Plain(insn)),
        Some(reference) => {
            let target = target_of(alloc, found.hints, found.cells, reference)?;
            Ok(Item::Named(insn, target))
        }
    }
}

/// What the row of data is that begins with a word.
fn data_item(alloc: Global, found: Found<'_>, address: u16, word: u16) -> Result<Item, NoMemory>
    requires { finite.get found.words.now address ≡ Some word }
    ensures { IfOk result (IsItem found.entry.words.now address) }
{
    match found.cells.at(address).refers {
        None => Ok(Item::Words(data_at(alloc, found, address, word)?)),
        Some(reference) => {
            let target = target_of(alloc, found.hints, found.cells, reference)?;
            Ok(Item::Address(word, target))
        }
    }
}

/// What the row is that begins with a word.
fn item_at(alloc: Global, found: Found<'_>, address: u16, word: u16) -> Result<Item, NoMemory>
    requires { finite.get found.words.now address ≡ Some word }
    ensures { IfOk result (IsItem found.entry.words.now address) }
{
    match found_insn(found, address) {
        Some(insn) => insn_item(alloc, found, address, insn),
        None => data_item(alloc, found, address, word),
    }
}

/// The row that begins with a word.
fn row_at(alloc: Global, found: Found<'_>, address: u16, word: u16) -> Result<Row, NoMemory>
    requires { finite.get found.words.now address ≡ Some word }
    ensures address { IfOk result (λ row. row.address ≡ address) }
    ensures stands { IfOk result (λ row. IsItem found.entry.words.now address row.item) }
{
    let label = label_of(alloc, found.hints, found.cells, address)?;
    let load_label = load_label_of(alloc, found.hints, found.cells, address)?;
    let item = item_at(alloc, found, address, word)?;
    Ok(Row {
        address,
        label,
        load_label,
        item,
    })
}

/// How many words a row has.
#[tactic(auto, using(crate::proofs::InImage::words_of_size))]
pub fn words_in(item: &Item) -> usize
    ensures { result ≡ length (item_words item.now) }
{
    match item {
        Item::Plain(insn) | Item::Named(insn, _) => usize::from(size_of(insn.mnemonic())),
        Item::Words(list) => list.len(),
        Item::Address(_, _) => 1,
    }
}

/// The word at an address with which a row begins in the same part as the word before it.
fn next_row(found: Found<'_>, address: usize) -> Option<Standing>
    ensures place { IfSome result (λ next. next.address ≡ address) }
    ensures there { IfSome result (λ next. finite.get found.entry.words.now address ≡ Some next.word) }
    ensures inside { IfSome result (λ next. address < 65536) }
{
    if address > 65_535 {
        return None;
    }
    let place = address as u16;
    match joined_at(found, place) {
        None => None,
        Some(word) => Some(Standing {
            address: place,
            word,
        }),
    }
}

/// The part that begins with a word, and the address after its last one.
fn part_at(
    alloc: Global,
    found: Found<'_>,
    address: u16,
    word: u16,
) -> Result<(Part, usize), NoMemory>
    requires { finite.get found.words.now address ≡ Some word }
    ensures { IfOk result (λ made. IsPartTo found.entry.words.now address made.0 made.1) }
{
    let mut rows = Vec::new(alloc);
    let mut end = usize::from(address);
    let mut next = Some(Standing { address, word });
    while let Some(start) = next {
        let row = row_at(alloc, found, start.address, start.word)?;
        end = usize::from(start.address) + words_in(&row.item);
        rows.push(row)?;
        next = next_row(found, end);
    }
    let part = Part {
        address,
        run: found.cells.at(address).runs_at,
        rows,
    };
    Ok((part, end))
}

/// Adds the part that begins at an address, if the source has a word there, and returns the address after it; or
/// the next address.
fn add_part(
    alloc: Global,
    found: Found<'_>,
    parts: &mut Vec<Part>,
    address: u16,
) -> Result<usize, NoMemory>
    ensures further { IfOk result (λ end. address < end) }
    ensures parts { (blank : ℕ) → AreBlank found.entry.words.now blank found.entry.long.now → ArePartsTo found.entry.words.now blank parts.old.items address
        → IfOk result (λ end. ArePartsTo found.entry.words.now blank parts.new.items end) }
{
    match kept_at(found, address) {
        None => Ok(usize::from(address) + 1),
        Some(word) => {
            let (part, end) = part_at(alloc, found, address, word)?;
            parts.push(part)?;
            Ok(end)
        }
    }
}

/// The parts of an image, in the order of their addresses.
pub(crate) fn parts_of(alloc: Global, found: Found<'_>) -> Result<Vec<Part>, NoMemory>
    ensures { (blank : ℕ) → AreBlank found.entry.words.now blank found.entry.long.now → IfOk result (λ parts. ArePartsOf found.entry.words.now blank parts.items) }
{
    let mut parts = Vec::new(alloc);
    let mut end = 0usize;
    while end < 65_536 {
        end = add_part(alloc, found, &mut parts, end as u16)?;
    }
    Ok(parts)
}
