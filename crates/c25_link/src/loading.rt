//! The words of a program at their addresses.

ghost use Rattle.std.specs.Prelude.{◌≡◌, ◌<◌, ◌≤◌, ◌+◌, ℕ, Some, true, length, IfOk, OnOk};
ghost use Rattle.std.specs.FinMap as finite;
ghost use Rattle.std.specs.Option.{option_map};
ghost use Rattle.c25_meaning_image.specs.WordMap.{put_all};
ghost use Rattle.c25_meaning_linking.specs.Linking.{HasWords};
ghost use Rattle.c25_meaning_objects.specs.Module.{SectionData, body_size};
ghost use Rattle.c25_meaning_linking.specs.Words.{relocated, section_base, section_page};
ghost use Rattle.c25_module.specs.View.{contents, body_data, section_data};
ghost use Rattle.c25_link.specs.Layout.{IsLaidOut, IsOwner, places_in};
ghost use Rattle.c25_link.specs.Loading.{KnowsRelocations, loaded, linked_at, HavePagesBefore};

use crate::bases::PartBase;
use crate::fields::{field_number, filled};
use crate::layout::Layout;
use crate::values::relocated_value;
use c25_meaning_common::no_memory::NoMemory;
use c25_meaning_image::word_list::WordList;
use c25_meaning_image::word_map::WordMap;
use c25_meaning_objects::object::Relocation;
use c25_module::{Body, Parts};
use std::alloc::{AllocError, Global};
use std::collections::HashMap;

/// The words of both pages.
#[derive(Drop)]
pub(crate) struct Pages {
    pub program: WordMap,
    pub store: WordMap,
}

/// The words of both pages in lists, as they are loaded section by section.
#[derive(Drop)]
struct PageLists {
    program: WordList,
    store: WordList,
}

/// The relocations of a module by the sections and offsets of their words.
type ByWord = HashMap<(u16, u16), Relocation>;

/// The relocations of a module by their words; no word of a module has two.
fn by_word(alloc: Global, owner: &Parts) -> Result<ByWord, AllocError>
    ensures { IfOk result (λ m. KnowsRelocations m (contents owner.now)) }
{
    let mut found = HashMap::new(alloc);
    for relocation in &owner.relocations {
        let word = (relocation.section, relocation.offset);
        if found.get(&word).is_none() {
            found.insert(word, *relocation)?;
        }
    }
    Ok(found)
}

/// The module whose words are loaded.
#[derive(Clone, Copy)]
struct Owner<'a> {
    /// Its number among the modules that are linked, from 0 on.
    number: usize,
    parts: &'a Parts,
    relocations: &'a ByWord,
}

/// The words of a section, and where they are loaded.
#[derive(Clone, Copy)]
struct SectionWords<'a> {
    /// The number of the section in its module, from 0 on.
    index: u16,
    /// The address of the first word.
    base: u32,
    words: &'a [u16],
}

/// A word of a module with its field filled, where a relocation fills one.
fn linked_word(
    layout: &Layout<'_, '_>,
    owner: &Owner<'_>,
    relocation: Option<&Relocation>,
    word: u16,
) -> u16
    requires laid { IsLaidOut layout.now }
    requires owner { IsOwner layout.now owner.now.number (contents owner.now.parts.now) }
    ensures { result ≡ relocated layout.now.modules.now (places_in layout.now) owner.now.number (contents owner.now.parts.now) (option_map (λ r. r.now) relocation.entry) word }
{
    match relocation {
        Some(relocation) => {
            let value = relocated_value(layout, owner.number, owner.parts, relocation);
            let number = field_number(relocation.kind, value);
            filled(relocation.kind, number, word)
        }
        None => word,
    }
}

/// Loads the words of a section.
fn load_words(
    layout: &Layout<'_, '_>,
    owner: &Owner<'_>,
    section: &SectionWords<'_>,
    page: &mut WordList,
) -> Result<(), NoMemory>
    requires laid { IsLaidOut layout.now }
    requires owner { IsOwner layout.now owner.now.number (contents owner.now.parts.now) }
    requires relocations { KnowsRelocations owner.now.relocations.now (contents owner.now.parts.now) }
    requires within { section.now.base + length section.now.words.now ≤ 65536 }
    ensures { (address : ℕ) → OnOk result (finite.get (put_all page.new) address
        ≡ loaded section.now.base (length section.now.words.now) (linked_at layout.now.modules.now (places_in layout.now) owner.now.number (contents owner.now.parts.now) section.now.index section.now.words.now) (finite.get (put_all page.old) address) address) }
{
    for (offset, word) in section.words.iter().enumerate() {
        let address = (section.base as usize + offset) as u16;
        let relocation = owner.relocations.get(&(section.index, offset as u16));
        let linked = linked_word(layout, owner, relocation, *word);
        page.push(address, linked)?;
    }
    Ok(())
}

/// Loads a section of a module where its part stands.
#[tactic(auto, using(crate::proofs::Loaded::section_loaded, crate::proofs::Loaded::section_passed, crate::proofs::Loaded::none_elsewhere, crate::proofs::Loaded::none_uninitialised))]
fn load_section(
    layout: &Layout<'_, '_>,
    owner: &Owner<'_>,
    index: usize,
    pages: &mut PageLists,
) -> Result<(), NoMemory>
    requires laid { IsLaidOut layout.now }
    requires owner { IsOwner layout.now owner.now.number (contents owner.now.parts.now) }
    requires relocations { KnowsRelocations owner.now.relocations.now (contents owner.now.parts.now) }
    requires section { index < length (contents owner.now.parts.now).sections }
    requires before { HavePagesBefore layout.now.modules.now (places_in layout.now) owner.now.number index pages.old }
    ensures { OnOk result (HavePagesBefore layout.now.modules.now (places_in layout.now) owner.now.number (index + 1) pages.new) }
{
    let part = layout.bases.get(owner.number, index);
    let section = &owner.parts.sections[index];
    match &section.body {
        Body::Uninitialised(_) => Ok(()),
        Body::Initialised(words) => {
            let section = SectionWords {
                index: index as u16,
                base: part.base,
                words,
            };
            if part.page == 0 {
                load_words(layout, owner, &section, &mut pages.program)
            } else {
                load_words(layout, owner, &section, &mut pages.store)
            }
        }
    }
}

/// Loads the sections of a module.
#[tactic(auto, using(crate::proofs::Loaded::module_loaded))]
fn load_module(
    alloc: Global,
    layout: &Layout<'_, '_>,
    number: usize,
    parts: &Parts,
    pages: &mut PageLists,
) -> Result<(), NoMemory>
    requires laid { IsLaidOut layout.now }
    requires owner { IsOwner layout.now number (contents parts.now) }
    requires before { HavePagesBefore layout.now.modules.now (places_in layout.now) number 0 pages.old }
    ensures { OnOk result (HavePagesBefore layout.now.modules.now (places_in layout.now) (number + 1) 0 pages.new) }
{
    let relocations = by_word(alloc, parts)?;
    let owner = Owner {
        number,
        parts,
        relocations: &relocations,
    };
    for index in 0..parts.sections.len() {
        load_section(layout, &owner, index, pages)?;
    }
    Ok(())
}

/// The words of all modules, linked.
#[tactic(auto, using(crate::proofs::Loaded::nothing_loaded, crate::proofs::Loaded::all_loaded))]
pub(crate) fn load(alloc: Global, layout: &Layout<'_, '_>) -> Result<Pages, NoMemory>
    requires { IsLaidOut layout.now }
    ensures program { IfOk result (λ p. HasWords layout.now.modules.now (places_in layout.now) 0 p.program) }
    ensures store { IfOk result (λ p. HasWords layout.now.modules.now (places_in layout.now) 1 p.store) }
{
    let mut pages = PageLists {
        program: WordList::new(alloc),
        store: WordList::new(alloc),
    };
    for (number, module) in layout.modules.iter().enumerate() {
        load_module(alloc, layout, number, module.parts(), &mut pages)?;
    }
    let program = pages.program.into_map(alloc)?;
    let store = pages.store.into_map(alloc)?;
    Ok(Pages { program, store })
}
