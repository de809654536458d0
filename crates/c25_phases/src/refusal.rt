//! The fault of a line as the fault of a source.

ghost use Rattle.std.specs.Prelude.{◌≡◌};
ghost use Rattle.c25_meaning_language.specs.ExpansionFault.{Faulty};
ghost use Rattle.c25_phases.specs.Refusals.{at_origin};
ghost use Rattle.c25_phases.specs.View.{fault_of};

use crate::fault::AsmFault;
use c25_meaning_common::failure::Failure;
use c25_meaning_common::placed::{FileLine, Placed};
use c25_meaning_language::statement::FaultKind;

/// The failure of a line as the failure of its source: a fault gets the line's place.
pub fn at_origin<'a>(
    origin: FileLine<&'a str>,
    failure: Failure<FaultKind>,
) -> Failure<AsmFault<'a>>
    ensures { result ≡ at_origin origin.entry failure }
{
    match failure {
        Failure::NoMemory(error) => Failure::NoMemory(error),
        Failure::Fault(fault) => Failure::Fault(AsmFault::Line(Placed {
            place: origin,
            fault,
        })),
    }
}

/// The fault of a line as the fault of its source.
pub fn line_fault<'a>(origin: FileLine<&'a str>, fault: FaultKind) -> AsmFault<'a>
    ensures { fault_of result ≡ Faulty origin.entry.file.now origin.entry.line fault }
{
    AsmFault::Line(Placed {
        place: origin,
        fault,
    })
}
