//! The ranges so far, with what finds a name or a word that comes twice without a look at each of them: a set
//! of the names, and for each word of both pages whether it is in a range.

ghost use Rattle.std.specs.Prelude.{◌≡◌, ◌+◌, ◌*◌, ◌<◌, ◌≤◌, [], ◌∷◌, ◌++◌, true, not, IfOk};
ghost use Rattle.std.specs.List.{list_any};
ghost use Rattle.c25_meaning_linking.specs.Command.{RangeData};
ghost use Rattle.c25_meaning_linking.specs.CommandMemory.{is_range, overlaps};
ghost use Rattle.c25_cmd.specs.Known.{HasRangeNames, KnowsWords};
ghost use Rattle.c25_cmd.specs.View.{ranges_of};

use crate::command::MemoryRange;
use crate::taken::{any_taken, free_words, take};
use std::alloc::{AllocError, Global};
use std::collections::BTreeSet;

/// How many words a page has.
pub(crate) const PAGE_WORDS: u32 = 65_536;

/// The ranges that have been read.
#[derive(Drop)]
pub(crate) struct RangesSoFar<'a> {
    pub list: Vec<MemoryRange>,
    /// The page and the name of each range.
    pub names: BTreeSet<(u8, &'a str)>,
    /// For each word of page 0, and after them of page 1, whether a range has it.
    pub taken: Vec<bool>,
}

/// No ranges.
pub(crate) fn no_ranges<'a>(alloc: Global) -> Result<RangesSoFar<'a>, AllocError>
    ensures named { IfOk result (λ r. HasRangeNames (λ k. k.0) (λ k. k.1.now) r.names []) }
    ensures words { IfOk result (λ r. KnowsWords r.taken.items []) }
    ensures empty { IfOk result (λ r. r.list.items ≡ []) }
{
    Ok(RangesSoFar {
        list: Vec::new(alloc),
        names: BTreeSet::new(alloc),
        taken: free_words(alloc, 131_072)?,
    })
}

/// Adds a page and a name to those of the ranges, and returns whether they are new.
pub(crate) fn take_name<'a>(
    ranges: &mut RangesSoFar<'a>,
    page: u8,
    name: &'a str,
) -> Result<bool, AllocError>
    requires { HasRangeNames (λ k. k.0) (λ k. k.1.now) ranges.old.names (ranges_of ranges.old.list.items) }
    ensures fresh { IfOk result (λ fresh. fresh ≡ not (list_any (is_range page name.now) (ranges_of ranges.old.list.items))) }
    ensures named { IfOk result (λ fresh. fresh ≡ true → (r : RangeData) → r.page ≡ page → r.name ≡ name.now
        → HasRangeNames (λ k. k.0) (λ k. k.1.now) ranges.new.names (ranges_of ranges.old.list.items ++ r ∷ [])) }
    ensures list { ranges.new.list ≡ ranges.old.list }
    ensures taken { ranges.new.taken ≡ ranges.old.taken }
{
    Ok(ranges.names.insert((page, name))?)
}

/// The number of a word among the words of both pages.
fn word_number(page: u8, address: u32) -> usize
    requires page { page ≤ 1 }
    requires address { address ≤ 65536 }
    ensures { result ≡ page * 65536 + address }
{
    (u32::from(page) * PAGE_WORDS + address) as usize
}

/// Whether a range of the page has one of the words.
pub(crate) fn shares_word(ranges: &RangesSoFar<'_>, page: u8, origin: u32, length: u32) -> bool
    requires page { page ≤ 1 }
    requires words { 0 < length }
    requires within { origin + length ≤ 65536 }
    requires known { KnowsWords ranges.now.taken.items (ranges_of ranges.now.list.items) }
    ensures { result ≡ list_any (overlaps page origin length) (ranges_of ranges.now.list.items) }
{
    let start = word_number(page, origin);
    any_taken(&ranges.taken, start, start + length as usize)
}

/// Marks the words of a range as taken.
pub(crate) fn take_range(ranges: &mut RangesSoFar<'_>, page: u8, origin: u32, length: u32)
    requires page { page ≤ 1 }
    requires within { origin + length ≤ 65536 }
    requires words { 0 < length }
    requires known { KnowsWords ranges.old.taken.items (ranges_of ranges.old.list.items) }
    ensures names { ranges.new.names ≡ ranges.old.names }
    ensures list { ranges.new.list ≡ ranges.old.list }
    ensures known { (r : RangeData) → r.page ≡ page → r.origin ≡ origin → r.size ≡ length
        → KnowsWords ranges.new.taken.items (ranges_of ranges.old.list.items ++ r ∷ []) }
{
    let start = word_number(page, origin);
    take(&mut ranges.taken, start, start + length as usize);
}
