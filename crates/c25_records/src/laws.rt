//! Laws over the bytes of modules.

ghost use Rattle.std.specs.Prelude.{◌≡◌, ◌++◌, ℕ, List, [], true};
ghost use Rattle.c25_meaning_objects.specs.Module.{Contents, IsSized, is_module};
ghost use Rattle.c25_meaning_objects.specs.Records.{spelling};

use c25_module::Module;

/// No spelling of a module is a proper prefix of another: so bytes that were cut off are never read as some other module.
pub fn no_spelling_begins_another()
    ensures { (c d : Contents) (rest : List ℕ) → IsSized c → is_module c ≡ true → IsSized d → is_module d ≡ true
        → spelling d ≡ spelling c ++ rest → (rest ≡ []) × (c ≡ d) }
{}

/// Two modules with one spelling are one.
pub fn one_spelling_has_one_module(first: &Module, second: &Module)
    ensures { spelling first.now ≡ spelling second.now → first.now ≡ second.now }
{
    let (_first, _second) = (first.parts(), second.parts());
}
