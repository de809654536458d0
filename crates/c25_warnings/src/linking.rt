//! The warnings of a command file.

ghost use Rattle.std.specs.Prelude.{◌≡◌, ◌++◌, IfOk, OnOk};
ghost use Rattle.std.specs.List.{flat_map, list_any};
ghost use Rattle.c25_cmd.specs.View.{placing_of, placings_of, command_data};
ghost use Rattle.c25_meaning_linking.specs.Place.{all_sections, is_section_named, is_there};
ghost use Rattle.c25_module.specs.View.{section_data};
ghost use Rattle.c25_place.specs.View.{place_view, places_view};
ghost use Rattle.c25_warnings.specs.Linking as meaning;
ghost use Rattle.c25_warnings.specs.View.{link_warnings_view};

use crate::warning::{LinkWarning, LinkWarningKind};
use c25_cmd::{Command, Placing};
use c25_meaning_common::no_memory::NoMemory;
use c25_module::{Body, Module, Section};
use c25_place::Place;
use std::alloc::Global;

/// The modules of a program, the command file under which they are linked, and where it places their sections.
#[derive(Clone, Copy)]
pub struct Linked<'a> {
    pub modules: &'a [Module],
    pub command: &'a Command,
    /// The answer of `good_places` for these modules and this command.
    pub places: &'a [Place<'a>],
}

/// Whether a section is an uninitialised one of this name, with words.
fn reserves(section: &Section, name: &str) -> bool
    ensures { result ≡ meaning.reserves name.now (section_data section.now) }
{
    match section.body {
        Body::Uninitialised(size) => size > 0 && section.name.as_str() == name,
        Body::Initialised(_) => false,
    }
}

/// Whether one of these sections is an uninitialised one of this name, with words.
fn any_reserves(sections: &[Section], name: &str) -> bool
    ensures { result ≡ list_any (λ s. meaning.reserves name.now (section_data s)) sections.now }
{
    sections.iter().any(|section| reserves(section, name))
}

/// Whether one of these sections has this name.
fn any_named(sections: &[Section], name: &str) -> bool
    ensures { result ≡ list_any (λ s. is_section_named name.now (section_data s)) sections.now }
{
    sections.iter().any(|section| name == section.name.as_str())
}

/// Whether a module has words of an uninitialised section of this name.
#[tactic(auto, using(c25_line_warnings::proofs::Lists::any_mapped))]
fn is_reserved_in(owner: &Module, name: &str) -> bool
    ensures { result ≡ list_any (meaning.reserves name.now) owner.now.sections }
{
    any_reserves(owner.parts().sections.as_slice(), name)
}

/// Whether a module has a section of this name.
#[tactic(auto, using(c25_line_warnings::proofs::Lists::any_mapped))]
fn is_named_in(owner: &Module, name: &str) -> bool
    ensures { result ≡ list_any (is_section_named name.now) owner.now.sections }
{
    any_named(owner.parts().sections.as_slice(), name)
}

/// Whether one of these modules has words of an uninitialised section of this name.
fn is_reserved(modules: &[Module], name: &str) -> bool
    ensures { result ≡ list_any (meaning.reserves name.now) (all_sections modules.now) }
{
    modules.iter().any(|module| is_reserved_in(module, name))
}

/// Whether one of these modules has a section of this name.
fn is_there(modules: &[Module], name: &str) -> bool
    ensures { result ≡ is_there name.now modules.now }
{
    modules.iter().any(|module| is_named_in(module, name))
}

/// Whether a section is one of the three that a command file may list for any program.
fn is_standard(name: &str) -> bool
    ensures { result ≡ meaning.is_standard name.now }
{
    name == ".text" || name == ".data" || name == ".bss"
}

/// Adds the warning of a section where it is placed, if there is one.
fn add_place<'a>(
    modules: &[Module],
    place: &Place<'a>,
    warnings: &mut Vec<LinkWarning<'a>>,
) -> Result<(), NoMemory>
    ensures { OnOk result (link_warnings_view warnings.new.items ≡ link_warnings_view warnings.old.items ++ meaning.of_place modules.now (place_view place.now)) }
{
    if place.page == 0 && is_reserved(modules, place.name) {
        warnings.push(LinkWarning {
            kind: LinkWarningKind::ReservedInProgram,
            section: place.name,
        })?;
    }
    Ok(())
}

/// Adds the sections that are placed in program memory and reserve words there.
fn add_reserved<'a>(
    modules: &[Module],
    places: &[Place<'a>],
    warnings: &mut Vec<LinkWarning<'a>>,
) -> Result<(), NoMemory>
    ensures { OnOk result (link_warnings_view warnings.new.items ≡ link_warnings_view warnings.old.items ++ flat_map (meaning.of_place modules.now) (places_view places.now)) }
{
    for place in places {
        add_place(modules, place, warnings)?;
    }
    Ok(())
}

/// Adds the warning of a section that `SECTIONS` lists, if there is one.
fn add_placing<'a>(
    modules: &[Module],
    placing: &'a Placing,
    warnings: &mut Vec<LinkWarning<'a>>,
) -> Result<(), NoMemory>
    ensures { OnOk result (link_warnings_view warnings.new.items ≡ link_warnings_view warnings.old.items ++ meaning.of_placing modules.now (placing_of placing.now)) }
{
    let section = placing.name.as_str();
    if !is_standard(section) && !is_there(modules, section) {
        warnings.push(LinkWarning {
            kind: LinkWarningKind::AbsentSection,
            section,
        })?;
    }
    Ok(())
}

/// Adds the sections of `SECTIONS` that no module has.
fn add_absent<'a>(
    modules: &[Module],
    placings: &'a [Placing],
    warnings: &mut Vec<LinkWarning<'a>>,
) -> Result<(), NoMemory>
    ensures { OnOk result (link_warnings_view warnings.new.items ≡ link_warnings_view warnings.old.items ++ flat_map (meaning.of_placing modules.now) (placings_of placings.now)) }
{
    for placing in placings {
        add_placing(modules, placing, warnings)?;
    }
    Ok(())
}

/// The warnings of a command, for the modules that are linked under it and the places of their sections: the
/// uninitialised sections that it places in program memory, in the order of placement, and then the sections
/// that it lists and no module has, in the order of its text. `.text`, `.data` and `.bss` may be listed for
/// any program.
///
/// `NoMemory` where memory runs out.
pub fn warnings_of_link<'a>(
    alloc: Global,
    modules: &[Module],
    command: &'a Command,
    places: &[Place<'a>],
) -> Result<Vec<LinkWarning<'a>>, NoMemory>
    ensures { IfOk result (λ list. link_warnings_view list.items ≡ meaning.warnings_of_link modules.now (command_data command.now) (places_view places.now)) }
{
    let mut warnings = Vec::new(alloc);
    add_reserved(modules, places, &mut warnings)?;
    if let Some(placings) = &command.sections {
        add_absent(modules, placings.as_slice(), &mut warnings)?;
    }
    Ok(warnings)
}
