//! Faults of linking with the names that they are about.

ghost use Rattle.std.specs.Prelude.{◌≡◌, IfOk};
ghost use Rattle.c25_place.specs.View.{refusal_of};

use c25_meaning_common::failure::Failure;
use c25_meaning_common::no_memory::NoMemory;
use c25_meaning_common::placed::Placed;
use c25_meaning_linking::link_fault::LinkFault;
use std::alloc::Global;

/// Why modules are not placed or not linked: a fault with a name, or out of memory.
pub type PlacingFailure = Failure<Placed<String, LinkFault>>;

/// A fault with a copy of the name that it is about; `NoMemory` where the copy cannot be made.
pub fn refusal(
    alloc: Global,
    fault: LinkFault,
    name: &str,
) -> Result<Placed<String, LinkFault>, NoMemory>
    ensures { IfOk result (λ r. refusal_of r ≡ record { place = name.now; fault = fault }) }
{
    let place = String::from_str(alloc, name)?;
    Ok(Placed { place, fault })
}
