//! The fault of a standard input that cannot be read.

ghost use Rattle.c25_chain.specs.Refusal.{IsRefusedAs};
ghost use Rattle.c25_prompting.specs.Unread.{unread_input};

use c25_chain::fault::{ChainFault, Fault};
use c25_disk::fault::FileFault;
use c25_meaning_common::failure::Failure;
use c25_meaning_common::no_memory::NoMemory;
use c25_meaning_common::placed::Placed;
use std::alloc::Global;

/// The fault of a standard input that cannot be read (8), unless memory runs out for its name.
pub fn unread_input(alloc: Global) -> Fault
    ensures { IsRefusedAs unread_input result }
{
    let fault = FileFault::CannotRead;
    match String::from_str(alloc, "stdin") {
        Ok(place) => Failure::Fault(ChainFault::File(Placed { place, fault })),
        Err(error) => Failure::NoMemory(NoMemory::from(error)),
    }
}
