//! The type of lists that are a module's.

ghost use Rattle.std.specs.Prelude.{◌≡◌};
ghost use Rattle.c25_meaning_objects.specs.Module.{IsModule};
ghost use Rattle.c25_module.specs.View.{contents};

use crate::parts::Parts;
use std::marker::Model;

/// A module: lists that [`spells`](crate::spells) accepts. [`module`](crate::module) makes one of them, and
/// so does the reader of object records.
#[derive(Drop)]
pub struct Module {
    pub(crate) parts: Parts,
}

impl Model for Module {
    ghost use Rattle.c25_meaning_objects.specs.Module.{Contents, IsModule};
    ghost use Rattle.c25_module.specs.View.{contents};

    ghost Value = { Contents };

    ghost view = { λ m. contents m.parts };

    ghost invariant = { λ m. IsModule (contents m.parts) };
}

impl Module {
    /// The lists of the module, as they were given or read.
    pub fn parts(&self) -> &Parts
        ensures kept { contents result.now ≡ self.now }
        ensures spelled { IsModule self.now }
    {
        &self.parts
    }
}
