//! Lists taken as a module.

ghost use Rattle.std.specs.Prelude.{◌≡◌, true};
ghost use Rattle.c25_meaning_objects.specs.Module.{is_module};
ghost use Rattle.c25_module.specs.View.{contents};

use crate::made::Module;
use crate::parts::Parts;
use crate::sized::sized;

/// The module that has these lists, which [`spells`](crate::spells) must accept.
pub fn module(parts: Parts) -> Module
    requires { is_module (contents parts) ≡ true }
    ensures { result ≡ contents parts }
{
    sized(&parts);
    Module { parts }
}
