//! Where sections may begin so that each block of theirs lies in one page of 128 words of data memory.

ghost use Rattle.std.specs.Prelude.{◌≡◌, ◌≤◌, ◌+◌, ◌%◌, ◌++◌, ◌∷◌, [], ◌&&◌, ℕ, List, All, length, false, nat_le, slice_index_or, unwrap_or, IfOk, OnOk};
ghost use Rattle.std.specs.List.{sum_by};
ghost use Rattle.c25_meaning_objects.specs.Module.{Contents, IsModule, body_size};
ghost use Rattle.c25_meaning_linking.specs.Place.{BlockData, blocks_behind, blocks_of, block_behind, size_for, size_of_parts};
ghost use Rattle.c25_module.specs.View.{body_data, contents, sections_data};
ghost use Rattle.c25_place.specs.Blocks.{anywhere, KnowsPaging, KnowsFound, KnowsBlocks};

use crate::outputs::body_size;
use c25_meaning_objects::object::Block;
use c25_module::{Module, Parts, Section};
use std::alloc::{AllocError, Global};
use std::collections::HashMap;

/// How many words a page of data memory has. A block lies in one page.
pub(crate) const PAGE: usize = 128;

/// The addresses where a section may begin, for the sake of its blocks.
#[derive(Clone, Copy)]
pub(crate) struct Paging {
    /// A number that differs from how many words the section's parts have so far by whole pages of 128.
    words: usize,
    /// For each place in a page, whether each block so far lies in one page where the section begins
    /// at such a place.
    pub fits: [bool; 128],
}

/// Where the sections of a program may begin, by their names.
#[derive(Drop)]
pub(crate) struct Blocks<'a> {
    found: HashMap<&'a str, Paging>,
}

/// Keeps the places in a page from which on `size` words at an offset lie in one page.
fn keep_paged(fits: &mut [bool], offset: usize, size: usize)
    requires offset { offset ≤ 65663 }
    requires size { size ≤ 255 }
    requires page { length fits.old ≡ 128 }
    ensures sized { length fits.new ≡ length fits.old }
    ensures kept { (place : ℕ) → slice_index_or fits.new place false ≡ (slice_index_or fits.old place false && nat_le ((place + offset) % 128 + size) 128) }
{
    for place in 0..PAGE {
        if (place + offset) % PAGE + size > PAGE {
            fits[place] = false;
        }
    }
}

/// The paging so far, or that of a section without parts: it may begin anywhere.
fn paging_or_none(paging: Option<Paging>) -> Paging
    ensures { result ≡ unwrap_or paging anywhere }
{
    match paging {
        Some(paging) => paging,
        None => {
            let fits = [true; 128];
            Paging { words: 0, fits }
        }
    }
}

impl Paging {
    /// The paging with a block more of the next part.
    #[tactic(auto, using(crate::proofs::Paged::with_block))]
    fn with_block(self, block: &Block) -> Self
        ensures { (words : ℕ) (blocks : List BlockData) → KnowsPaging self words blocks → KnowsPaging result words (blocks ++ block_behind words block.now ∷ []) }
    {
        let words = self.words % PAGE;
        let mut fits = self.fits;
        keep_paged(
            &mut fits,
            words + block.offset as usize,
            block.size as usize,
        );
        Paging { words, fits }
    }

    /// The paging after a part of so many words more.
    #[tactic(auto, using(crate::proofs::Paged::behind))]
    fn behind(self, words: u32) -> Self
        ensures { (before : ℕ) (blocks : List BlockData) → KnowsPaging self before blocks → KnowsPaging result (before + words) blocks }
    {
        let words = self.words % PAGE + words as usize;
        let fits = self.fits;
        Paging { words, fits }
    }
}

/// Adds the blocks of a module, whose parts come after those of the modules before it.
fn add_blocks<'a>(owner: &'a Parts, found: &mut HashMap<&'a str, Paging>) -> Result<(), AllocError>
    ensures { (words : List ℕ → ℕ) (blocks : List ℕ → List BlockData) → KnowsFound found.old words blocks
        → OnOk result (KnowsFound found.new words (λ name. blocks name ++ blocks_behind name (words name) (contents owner.now))) }
{
    for block in &owner.blocks {
        match owner.sections.get(block.section as usize) {
            Some(section) => {
                let name = section.name.as_str();
                let paging = paging_or_none(found.get(name).copied());
                found.insert(name, paging.with_block(block))?;
            }
            None => {}
        }
    }
    Ok(())
}

/// Adds the words of a module's sections.
fn add_words<'a>(
    sections: &'a [Section],
    found: &mut HashMap<&'a str, Paging>,
) -> Result<(), AllocError>
    requires { All (λ s. body_size (body_data s.body) ≤ 65536) sections.now }
    ensures { (words : List ℕ → ℕ) (blocks : List ℕ → List BlockData) → KnowsFound found.old words blocks
        → OnOk result (KnowsFound found.new (λ name. words name + sum_by (size_for name) (sections_data sections.now)) blocks) }
{
    for section in sections {
        let name = section.name.as_str();
        let paging = paging_or_none(found.get(name).copied());
        found.insert(name, paging.behind(body_size(&section.body)))?;
    }
    Ok(())
}

impl<'a> Blocks<'a> {
    /// The paging of each section of these modules.
    pub(crate) fn new(alloc: Global, modules: &'a [Module]) -> Result<Self, AllocError>
        ensures { IfOk result (λ b. KnowsBlocks b modules.now) }
    {
        let mut found = HashMap::new(alloc);
        for module in modules {
            add_blocks(module.parts(), &mut found)?;
            add_words(&module.parts().sections, &mut found)?;
        }
        Ok(Blocks { found })
    }

    /// The paging of the section of a name.
    pub(crate) fn get(&self, name: &str) -> Paging
        ensures { (modules : List Contents) → KnowsBlocks self.now modules → KnowsPaging result (size_of_parts name.now modules) (blocks_of name.now modules) }
    {
        paging_or_none(self.found.get(name).copied())
    }
}
