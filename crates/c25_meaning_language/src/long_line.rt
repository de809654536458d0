//! A line that substitution makes too long.

use thiserror::Error;

/// A line that would have more than 1,024 bytes, or take more than 1,024 replacements (38).
#[derive(Clone, Copy, Debug, Error)]
#[error("{}", self.name())]
pub struct LongLine;

impl LongLine {
    ghost use Rattle.std.specs.Prelude.{◌≡◌};
    ghost use Rattle.c25_meaning_language.specs.Faults.{fault_name};
    ghost use Rattle.c25_meaning_language.specs.declared.statement.FaultKind.TheVariants as kind;

    /// The fault's name, as shown to the user.
    pub fn name(&self) -> &'static str
        ensures { result.now ≡ fault_name kind.LongLine }
    {
        "LongLine"
    }
}
