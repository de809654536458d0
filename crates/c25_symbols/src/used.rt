//! The words of both pages that sections use.

ghost use Rattle.std.specs.Prelude.{◌≡◌, ◌+◌, ◌<◌, ◌≤◌, ◌||◌, ◌&&◌, ℕ, List, ◌∷◌, ◌++◌, [], false, length, nat_le, nat_lt, slice_index_or, IfOk};
ghost use Rattle.c25_meaning_linking.specs.Place as place;
ghost use Rattle.c25_symbols.specs.Used.{used_from};
ghost use Rattle.c25_symbols.specs.View.{AreSized, KnowsPage, KnowsUsed, place_of, places_view};

use c25_cmd::taken::{free_words, take};
use c25_map::OutputSection;
use std::alloc::{AllocError, Global};

/// How many words a page has.
const PAGE_WORDS: usize = 65_536;

/// For each word of page 0 and of page 1 whether a section has it, where it is loaded or where it runs.
#[derive(Drop)]
pub(crate) struct UsedWords {
    program: Vec<bool>,
    store: Vec<bool>,
}

/// Marks `size` words of a page from an address on, as far as the page goes.
fn mark(words: &mut [bool], base: u32, size: u32)
    requires { length words.old ≡ 65536 }
    ensures sized { length words.new ≡ 65536 }
    ensures marked { (word : ℕ) → word < 65536 → slice_index_or words.new word false ≡ (slice_index_or words.old word false || (nat_le base word && nat_lt word (base + size))) }
{
    let end = (base as usize + size as usize).min(PAGE_WORDS);
    let start = (base as usize).min(end);
    take(words, start, end);
}

/// Marks the words of a page that a section uses, where it is loaded or where it runs.
fn mark_section(words: &mut [bool], page: u8, section: &OutputSection)
    requires { length words.old ≡ 65536 }
    ensures sized { length words.new ≡ 65536 }
    ensures known { (places : List place.Place) → KnowsPage words.old page places → KnowsPage words.new page (places ++ place_of section.now ∷ []) }
{
    if section.page != page {
        return;
    }
    mark(words, section.base, section.size);
    match section.run {
        Some(run) => mark(words, run, section.size),
        None => {}
    }
}

/// For each word of a page whether a section uses it.
fn page_words(alloc: Global, page: u8, sections: &[OutputSection]) -> Result<Vec<bool>, AllocError>
    ensures { IfOk result (λ v. KnowsPage v.items page (places_view sections.now)) }
{
    let mut words = free_words(alloc, PAGE_WORDS)?;
    for section in sections {
        mark_section(&mut words, page, section);
    }
    Ok(words)
}

/// How many of `size` words from an address on are marked.
fn count(words: &[bool], origin: u32, size: u32) -> u32
    requires sized { length words.now ≡ 65536 }
    requires within { origin + size ≤ 65536 }
    ensures count { (page : ℕ) (places : List place.Place) → KnowsPage words.now page places → result ≡ used_from page places origin size }
    ensures within { result ≤ size }
{
    let mut count = 0;
    for word in 0..size {
        count += u32::from(words[(origin + word) as usize]);
    }
    count
}

impl UsedWords {
    /// The words that the sections of a map use.
    pub(crate) fn new(alloc: Global, sections: &[OutputSection]) -> Result<Self, AllocError>
        ensures { IfOk result (λ used. KnowsUsed used (places_view sections.now)) }
    {
        Ok(UsedWords {
            program: page_words(alloc, 0, sections)?,
            store: page_words(alloc, 1, sections)?,
        })
    }

    /// How many of `size` words of page 0 or of page 1, from an address on, are used.
    pub(crate) fn count(&self, page: u8, origin: u32, size: u32) -> u32
        requires sized { AreSized self.now }
        requires page { page ≤ 1 }
        requires within { origin + size ≤ 65536 }
        ensures count { (places : List place.Place) → KnowsUsed self.now places → result ≡ used_from page places origin size }
        ensures within { result ≤ size }
    {
        if page == 0 {
            count(&self.program, origin, size)
        } else {
            count(&self.store, origin, size)
        }
    }
}
