//! What the words, the marks and the map of a program are made from.

ghost use Rattle.std.specs.Prelude.{◌<◌, ◌^◌, length};
ghost use Rattle.c25_link.specs.Layout.{AreModules};

use crate::bases::Bases;
use crate::definitions::Definitions;
use c25_module::Module;
use c25_place::Place;

/// Modules, their definitions, and where the sections of the program and the parts of the modules
/// stand.
#[derive(Clone, Copy)]
pub(crate) struct Layout<'m, 'p> {
    pub modules: &'m [Module],
    pub places: &'p [Place<'m>],
    pub definitions: &'p Definitions<'m>,
    pub bases: &'p Bases,
}

/// Each item of the list is a module, and the list is shorter than 2^64. The call changes nothing: a proof
/// knows of each module what was read.
pub(crate) fn are_modules(modules: &[Module])
    ensures each { AreModules modules.now }
    ensures few { length modules.now < 2 ^ 64 }
{
    let _count = modules.len();
    for module in modules {
        let _parts = module.parts();
    }
}
