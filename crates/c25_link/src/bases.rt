//! Where the parts of the modules' sections begin.

ghost use Rattle.std.specs.Prelude.{◌≡◌, ◌≤◌, ◌+◌, ◌==◌, ◌&&◌, ◌++◌, ◌∷◌, [], ℕ, List, IfOk, IfSome, OnOk, Some, is_some, not, option_map, take, unwrap_or};
ghost use Rattle.std.specs.List.{slice_get};
ghost use Rattle.c25_meaning_objects.specs.Module.{SectionData, Contents, IsModule, body_size};
ghost use Rattle.c25_meaning_linking.specs.Place as place;
ghost use Rattle.c25_meaning_linking.specs.Place.{all_sections};
ghost use Rattle.c25_meaning_linking.specs.Words.{section_base, section_page, section_run, section_runs_elsewhere};
ghost use Rattle.c25_module.specs.View.{contents, body_data, section_data};
ghost use Rattle.c25_link.specs.Bases.{parts_of, next_part, KnowsBases, KnowsNext, HasRoom, HasPlaceFor};
ghost use Rattle.c25_place.specs.View.{places_view};

use c25_module::{Module, Parts, Section};
use c25_place::{Place, body_size};
use std::alloc::{AllocError, Global};
use std::collections::HashMap;

/// The page of a part, the address where its first word is loaded, and the one where it runs, if the command
/// gives one (which may be the same).
#[derive(Clone, Copy)]
pub(crate) struct PartBase {
    pub page: u8,
    pub base: u32,
    pub run: Option<u32>,
}

/// The parts of each section of each module.
#[derive(Drop)]
pub(crate) struct Bases {
    modules: Vec<Vec<PartBase>>,
}

/// Where the next part of each section of the program begins.
#[derive(Drop)]
struct NextParts<'a> {
    found: HashMap<&'a str, PartBase>,
}

/// Where the first part of each section begins: at the place of the section.
fn first_parts<'a>(alloc: Global, places: &[Place<'a>]) -> Result<NextParts<'a>, AllocError>
    ensures { IfOk result (λ next. KnowsNext next (places_view places.now) []) }
{
    let mut found = HashMap::new(alloc);
    for place in places {
        if found.get(place.name).is_none() {
            let part = PartBase {
                page: place.page,
                base: place.base,
                run: place.run,
            };
            found.insert(place.name, part)?;
        }
    }
    Ok(NextParts { found })
}

/// The part of a section that has no place.
const NO_PART: PartBase = PartBase {
    page: 0,
    base: 0,
    run: None,
};

/// The address that lies so many words after another, if there is one.
fn moved(address: Option<u32>, words: u32) -> Option<u32>
    ensures { IfSome address (λ a. a + words ≤ 65536) → result ≡ option_map (λ a. a + words) address }
{
    match address {
        Some(address) => Some(address.saturating_add(words)),
        None => None,
    }
}

impl<'a> NextParts<'a> {
    /// Where the next part of a section begins. The one after it begins where it ends.
    fn take(&mut self, section: &'a Section) -> Result<PartBase, AllocError>
        requires { body_size (body_data section.now.body) ≤ 65536 }
        ensures next { (places : List place.Place) (sections : List SectionData) (p : place.Place) → KnowsNext self.old places sections
            → HasPlaceFor places sections (section_data section.now) p
            → OnOk result (KnowsNext self.new places (sections ++ section_data section.now ∷ [])) }
        ensures part { (places : List place.Place) (sections : List SectionData) (p : place.Place) → KnowsNext self.old places sections
            → HasPlaceFor places sections (section_data section.now) p
            → IfOk result (λ part. part ≡ next_part sections p) }
    {
        let name = section.name.as_str();
        match self.found.get(name).copied() {
            Some(part) => {
                let words = body_size(&section.body);
                let after = PartBase {
                    page: part.page,
                    base: part.base.saturating_add(words),
                    run: moved(part.run, words),
                };
                self.found.insert(name, after)?;
                Ok(part)
            }
            None => Ok(NO_PART),
        }
    }
}

/// The parts of a module, after those of the modules before it.
fn module_bases<'a>(
    alloc: Global,
    owner: &'a Parts,
    next: &mut NextParts<'a>,
) -> Result<Vec<PartBase>, AllocError>
    requires { IsModule (contents owner.now) }
    ensures next { (modules : List Contents) (places : List place.Place) (number : ℕ) → HasRoom modules places → slice_get modules number ≡ Some (contents owner.now)
        → KnowsNext next.old places (all_sections (take number modules)) → OnOk result (KnowsNext next.new places (all_sections (take (number + 1) modules))) }
    ensures parts { (modules : List Contents) (places : List place.Place) (number : ℕ) → HasRoom modules places → slice_get modules number ≡ Some (contents owner.now)
        → KnowsNext next.old places (all_sections (take number modules))
        → IfOk result (λ v. (index : ℕ) → slice_get v.items index ≡ parts_of modules places number (contents owner.now) index) }
{
    let mut list = Vec::new(alloc);
    for section in &owner.sections {
        list.push(next.take(section)?)?;
    }
    Ok(list)
}

impl PartBase {
    /// The address where the first word of the part runs.
    pub(crate) fn run_base(&self) -> u32
        ensures { result ≡ unwrap_or self.now.run self.now.base }
    {
        self.run.unwrap_or(self.base)
    }

    /// Whether the part is loaded on page 0 and its section has no run address.
    pub(crate) fn is_run_in_place(&self) -> bool
        ensures { result ≡ (self.now.page == 0 && not (is_some self.now.run)) }
    {
        self.page == 0 && self.run.is_none()
    }

    /// Whether the part is loaded on page 0 and its section has a run address.
    pub(crate) fn is_copied(&self) -> bool
        ensures { result ≡ (self.now.page == 0 && is_some self.now.run) }
    {
        self.page == 0 && self.run.is_some()
    }
}

impl Bases {
    /// The parts of all modules where the sections stand at these places.
    pub(crate) fn new<'a>(
        alloc: Global,
        modules: &'a [Module],
        places: &[Place<'a>],
    ) -> Result<Self, AllocError>
        ensures { HasRoom modules.now (places_view places.now) → IfOk result (λ b. KnowsBases b modules.now (places_view places.now)) }
    {
        let mut next = first_parts(alloc, places)?;
        let mut list = Vec::new(alloc);
        for module in modules {
            list.push(module_bases(alloc, module.parts(), &mut next)?)?;
        }
        Ok(Bases { modules: list })
    }

    /// The part of a section of a module, by the numbers of both.
    pub(crate) fn get(&self, number: usize, index: usize) -> PartBase
        ensures base { (modules : List Contents) (places : List place.Place) (m : Contents) → KnowsBases self.now modules places → slice_get modules number ≡ Some m
            → result.base ≡ section_base modules places number m index }
        ensures page { (modules : List Contents) (places : List place.Place) (m : Contents) → KnowsBases self.now modules places → slice_get modules number ≡ Some m
            → result.page ≡ section_page places m index }
        ensures run { (modules : List Contents) (places : List place.Place) (m : Contents) → KnowsBases self.now modules places → slice_get modules number ≡ Some m
            → unwrap_or result.run result.base ≡ section_run modules places number m index }
        ensures elsewhere { (modules : List Contents) (places : List place.Place) (m : Contents) → KnowsBases self.now modules places → slice_get modules number ≡ Some m
            → is_some result.run ≡ section_runs_elsewhere places m index }
    {
        match self.modules.get(number) {
            Some(parts) => match parts.get(index) {
                Some(part) => *part,
                None => NO_PART,
            },
            None => NO_PART,
        }
    }
}
