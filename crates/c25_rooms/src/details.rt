//! What to know of a section that does not fit.

ghost use Rattle.std.specs.Option.{option_map};
ghost use Rattle.std.specs.Prelude.{◌≡◌, Some, IfOk, IfSome, IsTrue, All};
ghost use Rattle.c25_cmd.specs.View.{command_data};
ghost use Rattle.c25_link_faults.specs.Unfits.{unfit_of};
ghost use Rattle.c25_meaning_linking.specs.Command.{IsCommand};
ghost use Rattle.c25_meaning_linking.specs.declared.link_fault.LinkFault.TheVariants.{DoesNotFit};
ghost use Rattle.c25_place.specs.Placement.{IsWithin};
ghost use Rattle.c25_place.specs.View.{places_view, refusal_of};
ghost use Rattle.c25_rooms.specs.Details.{AreDetails, AreDetailsAt, details_data};

use crate::crossing::{Crossing, crossing_of};
use crate::rooms::{Room, rooms_in};
use c25_cmd::Command;
use c25_link_faults::{Unfit, unfit_of};
use c25_meaning_common::no_memory::NoMemory;
use c25_meaning_common::placed::Placed;
use c25_meaning_linking::link_fault::LinkFault;
use c25_module::Module;
use c25_place::{Place, place_sections};
use std::alloc::Global;

/// A section that does not fit.
#[derive(Drop)]
pub struct Details<'a> {
    /// Its words, and the ranges that it may be placed in.
    pub unfit: Unfit<'a>,
    /// These ranges, each with its free words when the section's turn comes.
    pub rooms: Vec<Room<'a>>,
    /// The first block of the section that crosses a page of 128 words wherever the section may stand, if one does.
    pub crossing: Option<Crossing>,
}

/// Whether this is the refusal of the section of a name, since it does not fit.
fn is_unfit(refusal: &Placed<String, LinkFault>, name: &str) -> bool
    ensures { IsTrue result → refusal_of refusal.now ≡ record { place = name.now; fault = DoesNotFit } }
{
    refusal.fault == LinkFault::DoesNotFit && refusal.place.as_str() == name
}

/// Whether placing is refused at the section of a name, since it does not fit.
fn is_unfit_at(refusal: Option<&Placed<String, LinkFault>>, name: &str) -> bool
    ensures { IsTrue result → option_map (λ r. refusal_of r.now) refusal.entry ≡ Some (record { place = name.now; fault = DoesNotFit }) }
{
    match refusal {
        Some(refusal) => is_unfit(refusal, name),
        None => false,
    }
}

/// What to know of the section of a name that does not fit among sections at these places.
fn details_at<'a>(
    alloc: Global,
    modules: &[Module],
    command: &'a Command,
    places: &[Place<'_>],
    name: &str,
) -> Result<Details<'a>, NoMemory>
    requires within { All IsWithin places.now }
    ensures { IfOk result (λ details. AreDetailsAt modules.now (command_data command.now) (places_view places.now) name.now (details_data details)) }
{
    let unfit = unfit_of(alloc, modules, command, name)?;
    let rooms = rooms_in(alloc, places, &unfit.ranges)?;
    let crossing = crossing_of(alloc, modules, places, &unfit, name)?;
    Ok(Details {
        unfit,
        rooms,
        crossing,
    })
}

/// What to know of the section of a name that [`link`](c25_link::link) refuses with `DoesNotFit` (73): its words; each
/// range that it may be placed in, with how many words are free there when its turn comes, and how many words the
/// largest hole has; and the first of its blocks that crosses a page of 128 words wherever the section may stand, with
/// the fewest words before it that would help. `None` where the first section that cannot be placed is another one, or
/// has another fault. `NoMemory` (9) where memory runs out.
pub fn details_of<'a>(
    alloc: Global,
    modules: &'a [Module],
    command: &'a Command,
    name: &str,
) -> Result<Option<Details<'a>>, NoMemory>
    requires { IsCommand (command_data command.now) }
    ensures { IfOk result (λ found. IfSome found (λ details. AreDetails modules.now (command_data command.now) name.now (details_data details))) }
{
    let placement = place_sections(alloc, modules, command)?;
    if !is_unfit_at(placement.refusal.as_ref(), name) {
        return Ok(None);
    }
    match details_at(alloc, modules, command, &placement.places, name) {
        Ok(details) => Ok(Some(details)),
        Err(error) => Err(error),
    }
}
