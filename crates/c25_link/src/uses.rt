//! The relocations of all modules: whether the name that one counts from is defined, and whether its value
//! fits its field.

ghost use Rattle.std.specs.Prelude.{◌≡◌, ℕ, List, find, true, false, MatchOption};
ghost use Rattle.std.specs.Option.{option_map};
ghost use Rattle.c25_meaning_linking.specs.Linking.{is_missing, missing_base, base_name, is_unresolved, module_uses, first_unresolved, spills, first_spilled};
ghost use Rattle.c25_meaning_linking.specs.Words.{section_name, symbol_name};
ghost use Rattle.c25_meaning_linking.specs.Words as words;
ghost use Rattle.c25_module.specs.View.{contents};
ghost use Rattle.c25_link.specs.Layout.{IsLaidOut, IsOwner, places_in};
ghost use Rattle.c25_link.specs.View.{HasDefinitions};

use crate::definitions::Definitions;
use crate::fields::takes;
use crate::layout::Layout;
use crate::values::relocated_value;
use c25_meaning_objects::object::RelocationBase;
use c25_module::{Module, Parts};

/// The name of a module's section by its number, empty where there is none.
pub(crate) fn section_name(owner: &Parts, index: u16) -> &str
    ensures { result.now ≡ section_name (contents owner.now) index }
{
    match owner.sections.get(usize::from(index)) {
        Some(section) => &section.name,
        None => "",
    }
}

/// The name of a module's symbol by its number, empty where there is none.
pub(crate) fn symbol_name(owner: &Parts, index: u16) -> &str
    ensures { result.now ≡ symbol_name (contents owner.now) index }
{
    match owner.symbols.get(usize::from(index)) {
        Some(symbol) => &symbol.name,
        None => "",
    }
}

/// Whether no module defines a global symbol of a name.
pub(crate) fn is_missing(definitions: &Definitions<'_>, name: &str) -> bool
    ensures { (ds : List words.Definition) → HasDefinitions definitions.now ds → result ≡ is_missing ds name.now }
{
    definitions.get(name).is_none()
}

/// The name that a relocation counts from, if no module defines it.
fn missing_base<'a>(
    definitions: &Definitions<'_>,
    owner: &'a Parts,
    base: RelocationBase,
) -> Option<&'a str>
    ensures { (ds : List words.Definition) → HasDefinitions definitions.now ds
        → MatchOption result (missing_base ds (contents owner.now) base ≡ false)
        (λ name. (missing_base ds (contents owner.now) base ≡ true) × (name.now ≡ base_name (contents owner.now) base)) }
{
    match base {
        RelocationBase::Section(_) | RelocationBase::Loaded(_) => None,
        RelocationBase::External(index) => {
            let name = symbol_name(owner, index);
            if is_missing(definitions, name) {
                Some(name)
            } else {
                None
            }
        }
    }
}

/// The first name that a relocation of a module counts from and no module defines.
#[tactic(auto, using(crate::proofs::Search::found_here, crate::proofs::Search::none_here, crate::proofs::Search::none_whole))]
fn unresolved_in<'a>(definitions: &Definitions<'_>, owner: &'a Parts) -> Option<&'a str>
    ensures { (number : ℕ) (ds : List words.Definition) → HasDefinitions definitions.now ds
        → option_map (λ name. name.now) result
        ≡ option_map (λ u. base_name u.owner u.relocation.base) (find (is_unresolved ds) (module_uses number (contents owner.now))) }
{
    for relocation in &owner.relocations {
        match missing_base(definitions, owner, relocation.base) {
            Some(name) => return Some(name),
            None => {}
        }
    }
    None
}

/// The first name that a relocation counts from and no module defines.
#[tactic(auto, using(crate::proofs::Search::found_at, crate::proofs::Search::none_more, crate::proofs::Search::none_at_all))]
pub(crate) fn first_unresolved<'a>(
    definitions: &Definitions<'_>,
    modules: &'a [Module],
) -> Option<&'a str>
    requires { HasDefinitions definitions.now (words.definitions modules.now) }
    ensures { option_map (λ name. name.now) result ≡ first_unresolved modules.now }
{
    for module in modules {
        match unresolved_in(definitions, module.parts()) {
            Some(name) => return Some(name),
            None => {}
        }
    }
    None
}

/// The section of the first relocation of a module whose field does not take its value.
#[tactic(auto, using(crate::proofs::Search::found_here, crate::proofs::Search::none_here, crate::proofs::Search::none_whole))]
fn spilled_in<'a>(layout: &Layout<'_, '_>, number: usize, owner: &'a Parts) -> Option<&'a str>
    requires laid { IsLaidOut layout.now }
    requires owner { IsOwner layout.now number (contents owner.now) }
    ensures { option_map (λ name. name.now) result
        ≡ option_map (λ u. section_name u.owner u.relocation.section) (find (spills layout.now.modules.now (places_in layout.now)) (module_uses number (contents owner.now))) }
{
    for relocation in &owner.relocations {
        let value = relocated_value(layout, number, owner, relocation);
        if !takes(relocation.kind, value) {
            return Some(section_name(owner, relocation.section));
        }
    }
    None
}

/// The section of the first relocation whose field does not take its value.
#[tactic(auto, using(crate::proofs::Search::found_at, crate::proofs::Search::none_more, crate::proofs::Search::none_at_all))]
pub(crate) fn first_spilled<'a>(layout: &Layout<'a, '_>) -> Option<&'a str>
    requires { IsLaidOut layout.now }
    ensures { option_map (λ name. name.now) result ≡ first_spilled layout.now.modules.now (places_in layout.now) }
{
    for (number, module) in layout.modules.iter().enumerate() {
        match spilled_in(layout, number, module.parts()) {
            Some(name) => return Some(name),
            None => {}
        }
    }
    None
}
