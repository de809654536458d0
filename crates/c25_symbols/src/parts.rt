//! Where the parts of modules begin, one after another.

ghost use Rattle.std.specs.Prelude.{◌≡◌, ◌++◌, ◌∷◌, [], ℕ, List, IfOk, OnOk};
ghost use Rattle.std.specs.Option.{option_or};
ghost use Rattle.c25_meaning_objects.specs.Module.{SectionData, body_size};
ghost use Rattle.c25_meaning_linking.specs.Place as place;
ghost use Rattle.c25_module.specs.View.{body_data, section_data, sections_data};
ghost use Rattle.c25_symbols.specs.Parts.{AreAlike, KnowsNext, first_of, first_part, next_of};
ghost use Rattle.c25_symbols.specs.View.{named, place_of, places_view};

use c25_map::OutputSection;
use c25_module::{Body, Section};
use std::alloc::{AllocError, Global};
use std::collections::HashMap;

/// Where a part begins: the low 32 bits of the address where it is loaded, and of the one where it runs.
#[derive(Clone, Copy)]
pub struct PartStart {
    pub base: u32,
    pub run: u32,
}

/// A part that begins at address 0.
pub(crate) const AT_ZERO: PartStart = PartStart { base: 0, run: 0 };

/// Where the next part of each section begins.
#[derive(Drop)]
pub struct NextStarts<'a> {
    found: HashMap<&'a str, PartStart>,
}

/// The low 32 bits of how many words a section has.
fn low_size(body: &Body) -> u32
    ensures { AreAlike result (body_size (body_data body.now)) }
{
    match body {
        Body::Uninitialised(size) => *size,
        Body::Initialised(words) => (words.len() % 4_294_967_296) as u32,
    }
}

/// Where the first part of a section begins.
fn first_part(section: &OutputSection) -> PartStart
    ensures { result ≡ first_part (place_of section.now) }
{
    PartStart {
        base: section.base,
        run: section.run.unwrap_or(section.base),
    }
}

/// Keeps where the first part of a section begins, unless it is known of another section of its name.
fn keep_first<'a>(
    section: &'a OutputSection,
    found: &mut HashMap<&'a str, PartStart>,
) -> Result<(), AllocError>
    ensures { (name : List ℕ) → OnOk result (named found.new name ≡ option_or (named found.old name) (first_of (place_of section.now ∷ []) name)) }
{
    let name = section.name.as_str();
    match found.get(name).copied() {
        Some(_) => Ok(()),
        None => {
            found.insert(name, first_part(section))?;
            Ok(())
        }
    }
}

impl<'a> NextStarts<'a> {
    /// The starts of the first parts, before any module.
    pub fn new(alloc: Global, sections: &'a [OutputSection]) -> Result<Self, AllocError>
        ensures { IfOk result (λ next. KnowsNext next (places_view sections.now) []) }
    {
        let mut found = HashMap::new(alloc);
        for section in sections {
            keep_first(section, &mut found)?;
        }
        Ok(NextStarts { found })
    }

    /// Where the next part of a section begins.
    pub(crate) fn get(&self, name: &str) -> PartStart
        ensures { result ≡ next_of self.now name.now }
    {
        self.found.get(name).copied().unwrap_or(AT_ZERO)
    }

    /// Moves on past the part of a section, so that the next part of its name begins after it.
    fn pass(&mut self, section: &'a Section) -> Result<(), AllocError>
        ensures { (places : List place.Place) (sections : List SectionData) → KnowsNext self.old places sections
            → OnOk result (KnowsNext self.new places (sections ++ section_data section.now ∷ [])) }
    {
        let name = section.name.as_str();
        let part = self.get(name);
        let size = low_size(&section.body);
        let after = PartStart {
            base: part.base.wrapping_add(size),
            run: part.run.wrapping_add(size),
        };
        self.found.insert(name, after)?;
        Ok(())
    }

    /// Moves on past the parts of a module's sections.
    pub fn pass_all(&mut self, own: &'a [Section]) -> Result<(), AllocError>
        ensures { (places : List place.Place) (sections : List SectionData) → KnowsNext self.old places sections
            → OnOk result (KnowsNext self.new places (sections ++ sections_data own.now)) }
    {
        for section in own {
            self.pass(section)?;
        }
        Ok(())
    }
}
