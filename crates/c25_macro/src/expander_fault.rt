//! Refusals: why no line is given.

ghost use Rattle.std.specs.Prelude.{◌≡◌};
ghost use Rattle.c25_macro.specs.Refusals.{at_place};

use c25_meaning_common::failure::Failure;
use c25_meaning_common::placed::FileLine;
use c25_meaning_language::statement::FaultKind;

/// Why no line is given.
#[derive(Drop)]
pub(crate) enum ExpanderFault {
    /// The line at this place has a fault.
    Faulty {
        place: FileLine<usize>,
        kind: FaultKind,
    },
    /// The line at this place asks for the file with this name, which is not there.
    Missing {
        place: FileLine<usize>,
        name: String,
    },
}

/// The refusal of the line at this place, for this fault.
pub(crate) fn fault(kind: FaultKind, place: FileLine<usize>) -> Failure<ExpanderFault>
    ensures { result ≡ Failure.Fault (ExpanderFault.Faulty place kind) }
{
    Failure::Fault(ExpanderFault::Faulty { place, kind })
}

/// The refusal of the line at this place, for this failure.
pub(crate) fn at_place(
    failure: Failure<FaultKind>,
    place: FileLine<usize>,
) -> Failure<ExpanderFault>
    ensures { result ≡ at_place place failure }
{
    match failure {
        Failure::NoMemory(error) => Failure::NoMemory(error),
        Failure::Fault(kind) => fault(kind, place),
    }
}
