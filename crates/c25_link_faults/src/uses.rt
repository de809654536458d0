//! The names that relocations count from and no module defines.

ghost use Rattle.std.specs.Prelude.{◌≡◌, ◌++◌, ◌∷◌, ℕ, List, [], if◌then◌else◌, filter, map, true, false, IfOk, OnOk, MatchOption};
ghost use Rattle.c25_meaning_linking.specs.Linking.{base_name, is_missing, is_unresolved, missing_base, module_uses, uses};
ghost use Rattle.c25_meaning_linking.specs.Words.{symbol_name};
ghost use Rattle.c25_meaning_linking.specs.Words as words;
ghost use Rattle.c25_module.specs.View.{contents};
ghost use Rattle.c25_link_faults.specs.Faults.{used_name};
ghost use Rattle.c25_link_faults.specs.View.{HasFirst, names_of};

use crate::names::FirstNames;
use c25_meaning_objects::object::RelocationBase;
use c25_module::{Module, Parts};
use std::alloc::{AllocError, Global};

/// The name of a module's symbol by its number, empty where there is none.
pub(crate) fn symbol_name(owner: &Parts, index: u16) -> &str
    ensures { result.now ≡ symbol_name (contents owner.now) index }
{
    match owner.symbols.get(usize::from(index)) {
        Some(symbol) => &symbol.name,
        None => "",
    }
}

/// Whether a name is not among those that modules define.
#[tactic(auto, using(crate::proofs::Twice::among_defined))]
pub(crate) fn is_missing(defined: &FirstNames<'_>, name: &str) -> bool
    ensures { (ds : List words.Definition) → HasFirst defined.now [] (names_of ds) → result ≡ is_missing ds name.now }
{
    !defined.has(name)
}

/// The name that a relocation counts from, if it is not among those that modules define.
fn missing_base<'a>(
    defined: &FirstNames<'_>,
    owner: &'a Parts,
    base: RelocationBase,
) -> Option<&'a str>
    ensures { (ds : List words.Definition) → HasFirst defined.now [] (names_of ds)
        → MatchOption result (missing_base ds (contents owner.now) base ≡ false)
        (λ name. (missing_base ds (contents owner.now) base ≡ true) × (name.now ≡ base_name (contents owner.now) base)) }
{
    match base {
        RelocationBase::Section(_) | RelocationBase::Loaded(_) => None,
        RelocationBase::External(index) => {
            let name = symbol_name(owner, index);
            if is_missing(defined, name) {
                Some(name)
            } else {
                None
            }
        }
    }
}

/// Adds the name that a relocation counts from, if it is not among those that modules define.
fn add_missing<'a>(
    defined: &FirstNames<'_>,
    owner: &'a Parts,
    base: RelocationBase,
    names: &mut FirstNames<'a>,
) -> Result<(), AllocError>
    ensures { (ds : List words.Definition) (added : List (List ℕ)) → HasFirst defined.now [] (names_of ds) → HasFirst names.old [] added
        → OnOk result (HasFirst names.new [] (added ++ (if missing_base ds (contents owner.now) base then base_name (contents owner.now) base ∷ [] else []))) }
{
    match missing_base(defined, owner, base) {
        Some(name) => {
            names.add(name)?;
            Ok(())
        }
        None => Ok(()),
    }
}

/// Adds the names that relocations of a module count from and that are not among those that modules define.
fn add_unresolved<'a>(
    defined: &FirstNames<'_>,
    owner: &'a Parts,
    names: &mut FirstNames<'a>,
) -> Result<(), AllocError>
    ensures { (number : ℕ) (ds : List words.Definition) (added : List (List ℕ)) → HasFirst defined.now [] (names_of ds) → HasFirst names.old [] added
        → OnOk result (HasFirst names.new [] (added ++ map used_name (filter (is_unresolved ds) (module_uses number (contents owner.now))))) }
{
    for relocation in &owner.relocations {
        add_missing(defined, owner, relocation.base, names)?;
    }
    Ok(())
}

/// The names that relocations count from and that are not among those that modules define.
pub(crate) fn unresolved<'a>(
    alloc: Global,
    defined: &FirstNames<'_>,
    modules: &'a [Module],
) -> Result<FirstNames<'a>, AllocError>
    ensures { (ds : List words.Definition) → HasFirst defined.now [] (names_of ds)
        → IfOk result (λ names. HasFirst names [] (map used_name (filter (is_unresolved ds) (uses modules.now)))) }
{
    let mut names = FirstNames::new(alloc);
    for module in modules {
        add_unresolved(defined, module.parts(), &mut names)?;
    }
    Ok(names)
}
