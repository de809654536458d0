//! The names of the sections of modules.

ghost use Rattle.std.specs.Prelude.{◌≡◌, ◌++◌, ◌∷◌, List, ℕ, [], if◌then◌else◌, IfOk, OnOk};
ghost use Rattle.c25_cmd.specs.View.{placings_of};
ghost use Rattle.c25_meaning_linking.specs.Place.{all_sections};
ghost use Rattle.c25_meaning_objects.specs.Module.{has_words};
ghost use Rattle.c25_module.specs.View.{body_data, section_data, sections_data};
ghost use Rattle.c25_link_faults.specs.View.{HasFirst, loaded_names, section_names, placing_names};

use crate::names::FirstNames;
use c25_cmd::Placing;
use c25_module::{Body, Module, Section};
use std::alloc::{AllocError, Global};

/// Whether the body of a section has words that are loaded.
fn has_words(body: &Body) -> bool
    ensures { result ≡ has_words (body_data body.now) }
{
    match body {
        Body::Uninitialised(_) => false,
        Body::Initialised(_) => true,
    }
}

/// Adds the names of sections.
fn add_names<'a>(sections: &'a [Section], names: &mut FirstNames<'a>) -> Result<(), AllocError>
    ensures { (before added : List (List ℕ)) → HasFirst names.old before added → OnOk result (HasFirst names.new before (added ++ section_names (sections_data sections.now))) }
{
    for section in sections {
        names.add(section.name.as_str())?;
    }
    Ok(())
}

/// Adds the name of a section, if it is initialised.
fn add_if_loaded<'a>(section: &'a Section, names: &mut FirstNames<'a>) -> Result<(), AllocError>
    ensures { (before added : List (List ℕ)) → HasFirst names.old before added
        → OnOk result (HasFirst names.new before (added ++ (if has_words (section_data section.now).body then (section_data section.now).name ∷ [] else []))) }
{
    if has_words(&section.body) {
        names.add(section.name.as_str())?;
        Ok(())
    } else {
        Ok(())
    }
}

/// Adds the names of the initialised ones of sections.
fn add_loaded<'a>(sections: &'a [Section], names: &mut FirstNames<'a>) -> Result<(), AllocError>
    ensures { (before added : List (List ℕ)) → HasFirst names.old before added → OnOk result (HasFirst names.new before (added ++ loaded_names (sections_data sections.now))) }
{
    for section in sections {
        add_if_loaded(section, names)?;
    }
    Ok(())
}

/// Adds the names of the sections of modules to names that were passed.
fn add_all<'a>(modules: &'a [Module], names: &mut FirstNames<'a>) -> Result<(), AllocError>
    ensures { (before : List (List ℕ)) → HasFirst names.old before [] → OnOk result (HasFirst names.new before (section_names (all_sections modules.now))) }
{
    for module in modules {
        add_names(&module.parts().sections, names)?;
    }
    Ok(())
}

/// The names of the sections of modules.
pub(crate) fn all_names<'a>(
    alloc: Global,
    modules: &'a [Module],
) -> Result<FirstNames<'a>, AllocError>
    ensures { IfOk result (λ names. HasFirst names [] (section_names (all_sections modules.now))) }
{
    let mut names = FirstNames::new(alloc);
    add_all(modules, &mut names)?;
    Ok(names)
}

/// The names of the initialised sections of modules.
pub(crate) fn all_loaded<'a>(
    alloc: Global,
    modules: &'a [Module],
) -> Result<FirstNames<'a>, AllocError>
    ensures { IfOk result (λ names. HasFirst names [] (loaded_names (all_sections modules.now))) }
{
    let mut names = FirstNames::new(alloc);
    for module in modules {
        add_loaded(&module.parts().sections, &mut names)?;
    }
    Ok(names)
}

/// The names of the sections that a command lists, passed.
fn listed_names<'a>(alloc: Global, placings: &'a [Placing]) -> Result<FirstNames<'a>, AllocError>
    ensures { IfOk result (λ names. HasFirst names (placing_names (placings_of placings.now)) []) }
{
    let mut names = FirstNames::new(alloc);
    for placing in placings {
        names.pass(placing.name.as_str())?;
    }
    Ok(names)
}

/// The names of the sections of modules that a command does not list.
pub(crate) fn unlisted_names<'a>(
    alloc: Global,
    modules: &'a [Module],
    placings: &'a [Placing],
) -> Result<FirstNames<'a>, AllocError>
    ensures { IfOk result (λ names. HasFirst names (placing_names (placings_of placings.now)) (section_names (all_sections modules.now))) }
{
    let mut names = listed_names(alloc, placings)?;
    add_all(modules, &mut names)?;
    Ok(names)
}
