//! Modules linked under a command.

ghost use Rattle.std.specs.Prelude.{◌≡◌, IfOk, option_map};
ghost use Rattle.c25_cmd.specs.View.{command_data};
ghost use Rattle.c25_meaning_linking.specs.Command.{IsCommand};
ghost use Rattle.c25_meaning_linking.specs.Linking.{map_of, names_checked};
ghost use Rattle.c25_meaning_linking.specs.MapText.{IsPrinted};
ghost use Rattle.c25_meaning_common.specs.Results.{MeetsBy};
ghost use Rattle.c25_meaning_linking.specs.Words.{definitions};
ghost use Rattle.c25_link.specs.Layout.{IsLaidOut, places_in};
ghost use Rattle.c25_link.specs.Link.{Links, LinksAt};
ghost use Rattle.c25_link.specs.View.{HasDefinitions};
ghost use Rattle.c25_place.specs.View.{refusal_of};

use crate::bases::Bases;
use crate::definitions::Definitions;
use crate::described::described;
use crate::image::Image;
use crate::layout::{Layout, are_modules};
use crate::lines::program_lines;
use crate::loading::load;
use crate::marks::{program_marks, program_run_marks};
use crate::uses::{first_spilled, first_unresolved, is_missing};
use c25_cmd::Command;
use c25_linking_laws::linking::{instructions_run_apart, program_maps_have_their_form};
use c25_meaning_common::failure::Failure;
use c25_meaning_linking::link_fault::LinkFault;
use c25_module::Module;
use c25_place::{PlacingFailure, good_places, refusal};
use std::alloc::Global;

/// The name of the entry, where a command gives one.
pub(crate) fn entry_of(command: &Command) -> Option<&str>
    ensures { option_map (λ name. name.now) result ≡ (command_data command.now).entry }
{
    match &command.entry {
        Some(name) => Some(name),
        None => None,
    }
}

/// The definitions of all modules, or the first of `DefinedTwice`, `Unresolved` and `NoEntry`.
pub(crate) fn checked_definitions<'a>(
    alloc: Global,
    modules: &'a [Module],
    entry: Option<&str>,
) -> Result<Definitions<'a>, PlacingFailure>
    ensures checked { MeetsBy refusal_of (λ _. tt) (names_checked modules.now (option_map (λ name. name.now) entry.entry)) result }
    ensures found { IfOk result (λ d. HasDefinitions d (definitions modules.now)) }
{
    let definitions = Definitions::new(alloc, modules)?;
    match first_unresolved(&definitions, modules) {
        Some(name) => return Err(Failure::Fault(refusal(alloc, LinkFault::Unresolved, name)?)),
        None => {}
    }
    match entry {
        Some(name) => {
            if is_missing(&definitions, name) {
                return Err(Failure::Fault(refusal(alloc, LinkFault::NoEntry, name)?));
            }
        }
        None => {}
    }
    Ok(definitions)
}

/// The program of modules whose sections are placed, or `RelocRange` where a field does not take its value.
fn linked_image(
    alloc: Global,
    layout: &Layout<'_, '_>,
    entry: Option<&str>,
) -> Result<Image, PlacingFailure>
    requires laid { IsLaidOut layout.now }
    requires printed { IsPrinted (map_of layout.now.modules.now (option_map (λ name. name.now) entry) (places_in layout.now)) }
    ensures { LinksAt layout.now.modules.now (places_in layout.now) (option_map (λ name. name.now) entry.entry) result }
{
    match first_spilled(layout) {
        Some(name) => return Err(Failure::Fault(refusal(alloc, LinkFault::RelocRange, name)?)),
        None => {}
    }
    let marks = program_marks(alloc, layout)?;
    let run_marks = program_run_marks(alloc, layout, &marks)?;
    let lines = program_lines(alloc, layout)?;
    let described = described(alloc, layout, entry)?;
    let pages = load(alloc, layout)?;
    Ok(Image::new(pages, marks, run_marks, lines, described))
}

/// Links modules under a command.
///
/// Sections of one name are one section of the program, in the order of the modules. First those with an
/// address are placed, then the other listed ones, each in the order of `SECTIONS`, then the others by first
/// appearance: each at its address, or else at the least address where it fits in its range, or in the first
/// such range of its page.
///
/// The first fault is returned: `DefinedTwice`, `Unresolved` and `NoEntry`, each over all modules; `NoRange`,
/// `DoesNotFit`, `Overlap` and `BadRun`, section by section as they are placed; `RelocRange` by modules and
/// relocations. It fails with `NoMemory` too.
pub fn link<'a>(
    alloc: Global,
    modules: &'a [Module],
    command: &'a Command,
) -> Result<Image, PlacingFailure>
    requires { IsCommand (command_data command.now) }
    ensures { Links modules.now (command_data command.now) result }
{
    instructions_run_apart();
    program_maps_have_their_form();
    let entry = entry_of(command);
    let definitions = checked_definitions(alloc, modules, entry)?;
    let places = good_places(alloc, modules, command)?;
    are_modules(modules);
    let bases = Bases::new(alloc, modules, &places)?;
    let layout = Layout {
        modules,
        places: &places,
        definitions: &definitions,
        bases: &bases,
    };
    linked_image(alloc, &layout, entry)
}
