//! Faults of the chain without their places.

ghost use Rattle.std.specs.Prelude.{◌≡◌};
ghost use Rattle.c25_explain.specs.Refusals.{of_refusal};

use crate::fault::AnyFault;
use c25_chain::fault::ChainFault;
use c25_meaning_language::statement::FaultKind;

/// A fault of the chain without its place.
pub(crate) fn of_refusal(refusal: &ChainFault<String>) -> AnyFault
    ensures { result ≡ of_refusal refusal.now }
{
    match refusal {
        ChainFault::Source(placed) => AnyFault::Source(placed.fault),
        ChainFault::NoFile { .. } => AnyFault::Source(FaultKind::NoFile),
        ChainFault::Object(placed) => AnyFault::Object(placed.fault),
        ChainFault::Command(placed) => AnyFault::Command(placed.fault),
        ChainFault::Link(placed) => AnyFault::Link(placed.fault),
        ChainFault::Hex(placed) => AnyFault::Hex(placed.fault),
        ChainFault::Schedule { .. } => AnyFault::Schedule,
        ChainFault::Samples { .. } => AnyFault::Samples,
        ChainFault::Script { .. } => AnyFault::Script,
        ChainFault::File(placed) => AnyFault::File(placed.fault),
    }
}
