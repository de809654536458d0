//! The sections of modules, placed under a command.

ghost use Rattle.std.specs.Prelude.{◌≡◌, IfOk, All};
ghost use Rattle.c25_cmd.specs.View.{command_data, placings_of};
ghost use Rattle.c25_meaning_linking.specs.Command.{IsCommand};
ghost use Rattle.c25_meaning_linking.specs.GoodMap.{placings_for, ranges_for, requests};
ghost use Rattle.c25_place.specs.Placement.{ArePlacedOrRefused, IsPlacement, IsWithin};

use crate::blocks::Blocks;
use crate::faults::PlacingFailure;
use crate::outputs::{Outputs, all_sections};
use crate::placement::{Place, Placement, place_all};
use crate::ranges::CommandRanges;
use crate::requests::requests;
use c25_cmd::{Command, Placing};
use c25_meaning_common::failure::Failure;
use c25_meaning_common::no_memory::NoMemory;
use c25_module::Module;
use std::alloc::Global;

/// The sections that a command lists; none where it has no `SECTIONS`.
pub(crate) fn placings_of(command: &Command) -> &[Placing]
    ensures { placings_of result.now ≡ placings_for (command_data command.now) }
{
    match &command.sections {
        Some(placings) => placings,
        None => &[],
    }
}

/// Where the sections of the program stand, in the order of placement, up to the first that cannot be placed,
/// and the fault of that one with its name, as [`good_places`] returns it. `NoMemory` where memory runs out.
#[tactic(auto, using(crate::proofs::Commanded::pages_are))]
pub fn place_sections<'a>(
    alloc: Global,
    modules: &'a [Module],
    command: &'a Command,
) -> Result<Placement<'a>, NoMemory>
    requires { IsCommand (command_data command.now) }
    ensures placed { IfOk result (IsPlacement (ranges_for (command_data command.now)) (requests modules.now (placings_for (command_data command.now)))) }
    ensures within { IfOk result (λ p. All IsWithin p.places.items) }
{
    let sections = all_sections(alloc, modules)?;
    let outputs = Outputs::new(alloc, &sections)?;
    let list = requests(alloc, &outputs, &sections, placings_of(command))?;
    let blocks = Blocks::new(alloc, modules)?;
    let ranges = CommandRanges::new(alloc, command)?;
    place_all(alloc, &ranges, &blocks, &list)
}

/// Where the sections of the program stand, in the order of placement, or the fault of the first that cannot
/// be placed, with its name: `NoRange` (72) where no range of the command may have it; `DoesNotFit` (73)
/// where there is no room for it, or at its address it is not inside one range or a block of it not inside
/// one page of 128 words; `Overlap` (74) where at its address it shares a word with a section placed before;
/// `BadRun` (78) where it cannot run at its run address. `NoMemory` where memory runs out.
pub fn good_places<'a>(
    alloc: Global,
    modules: &'a [Module],
    command: &'a Command,
) -> Result<Vec<Place<'a>>, PlacingFailure>
    requires { IsCommand (command_data command.now) }
    ensures placed { ArePlacedOrRefused (ranges_for (command_data command.now)) (requests modules.now (placings_for (command_data command.now))) result }
    ensures within { IfOk result (λ v. All IsWithin v.items) }
{
    let Placement { places, refusal } = place_sections(alloc, modules, command)?;
    match refusal {
        None => Ok(places),
        Some(fault) => Err(Failure::Fault(fault)),
    }
}
