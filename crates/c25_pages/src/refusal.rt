//! Why a table is refused.

use crate::table::Row;

/// Why a table is not inductive, or not closed, with the first row at which it is not.
#[derive(Clone, Copy, PartialEq, Debug)]
pub enum Refusal {
    /// The rows do not ascend by contexts, and by addresses in each; or the statements do not ascend by addresses.
    Unordered,
    /// At address 0, in context 0, more is known than a reset leaves, or nothing.
    Reset,
    /// An instruction that may act there leads to where more is known, or nothing; or it moves words of the stack.
    Acts(Row),
    /// A repeat may be running there, and more is known than after a repetition.
    Repeats(Row),
    /// An interrupt may be taken there, and no context of the table fits its routine.
    Interrupts(Row),
    /// No statement stands there, or it lies in block B0, or it may not be repeated and a repeat may be running.
    Open(Row),
}
