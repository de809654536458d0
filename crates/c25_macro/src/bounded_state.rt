//! A state within its bounds.

ghost use Rattle.c25_meaning_expansion.specs.ExpansionBounds.{IsBounded};
ghost use Rattle.c25_macro.specs.Config.{config};

use crate::state::ExpanderState;

/// A state in which at most 32 blocks are open, and of the 200,000 lines each nested block and each expansion
/// has taken one. It is boxed, since it is handed on from line to line.
#[derive(Drop)]
pub(crate) struct BoundedState<'a> {
    pub(crate) state: Box<ExpanderState<'a>>,
    ghost bounded: { IsBounded (config state.value) },
}
