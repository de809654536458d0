//! Explanations of faults, found by number or name.

ghost use Rattle.c25_explain.specs.Explanation.{Explains, ExplainsName};
ghost use Rattle.c25_explain.specs.Below.{ExplainsAlike};

use crate::numbers::fault_of;
use crate::parts::Explanation;
use crate::texts::explanation_of;

/// The explanation of the fault of this number: what it means, its smallest example and what to do. `None`
/// where no fault has the number.
pub fn explanation(number: u8) -> Option<Explanation>
    ensures { Explains number result }
{
    Some(explanation_of(fault_of(number)?))
}

/// The explanation of the fault of this number, where its name is alike to this one.
#[tactic(auto, using(crate::proofs::Below::is_alike, crate::proofs::Below::none_alike))]
fn explanation_alike(number: u8, name: &str) -> Option<Explanation>
    ensures { ExplainsAlike number name.now result }
{
    let explanation = explanation(number)?;
    if explanation.name.eq_ignore_ascii_case(name) {
        Some(explanation)
    } else {
        None
    }
}

/// The explanation of the fault of this name, in letters of either case. `None` where no fault has the name.
#[tactic(auto, using(crate::proofs::Below::none_below_next, crate::proofs::Below::none_named))]
pub fn explanation_named(name: &str) -> Option<Explanation>
    ensures { ExplainsName name.now result }
{
    for number in 0..=u8::MAX {
        if let Some(explanation) = explanation_alike(number, name) {
            return Some(explanation);
        }
    }
    None
}
