//! The symbols that modules define for all modules.

ghost use Rattle.std.specs.Prelude.{◌≡◌, ◌++◌, ◌∷◌, ℕ, List, [], if◌then◌else◌, IfOk, OnOk};
ghost use Rattle.c25_meaning_linking.specs.GoodMap.{is_among};
ghost use Rattle.c25_meaning_linking.specs.Words.{definitions, is_definition, module_definitions};
ghost use Rattle.c25_module.specs.View.{contents, symbol_data};
ghost use Rattle.c25_link_faults.specs.Faults.{names_again};
ghost use Rattle.c25_link_faults.specs.View.{HasFirst, definitions_view, names_of};

use crate::names::FirstNames;
use c25_meaning_objects::object::{Scope, SymbolKind};
use c25_module::{Module, Parts, Symbol};
use std::alloc::{AllocError, Global};

/// A global symbol that a module defines, with the module and its number.
#[derive(Clone, Copy)]
pub(crate) struct Definition<'a> {
    pub number: usize,
    pub owner: &'a Parts,
    pub symbol: &'a Symbol,
}

/// Whether a symbol is global and defined in its module.
fn is_definition(symbol: &Symbol) -> bool
    ensures { result ≡ is_definition (symbol_data symbol.now) }
{
    symbol.scope == Scope::Global && symbol.kind != SymbolKind::External
}

/// Appends the definitions of a module.
fn push_definitions<'a>(
    number: usize,
    owner: &'a Parts,
    list: &mut Vec<Definition<'a>>,
) -> Result<(), AllocError>
    ensures { OnOk result (definitions_view list.new.items ≡ definitions_view list.old.items ++ module_definitions number (contents owner.now)) }
{
    for symbol in &owner.symbols {
        if is_definition(symbol) {
            list.push(Definition {
                number,
                owner,
                symbol,
            })?;
        }
    }
    Ok(())
}

/// The definitions of all modules.
#[tactic(auto, using(c25_meaning_linking::proofs::ByModules::by_modules_more, c25_meaning_linking::proofs::ByModules::by_modules_all))]
pub(crate) fn all_definitions<'a>(
    alloc: Global,
    modules: &'a [Module],
) -> Result<Vec<Definition<'a>>, AllocError>
    ensures { IfOk result (λ v. definitions_view v.items ≡ definitions modules.now) }
{
    let mut list = Vec::new(alloc);
    for (number, module) in modules.iter().enumerate() {
        push_definitions(number, module.parts(), &mut list)?;
    }
    Ok(list)
}

/// The names of definitions.
pub(crate) fn names_of<'a>(
    alloc: Global,
    list: &[Definition<'a>],
) -> Result<FirstNames<'a>, AllocError>
    ensures { IfOk result (λ names. HasFirst names [] (names_of (definitions_view list.now))) }
{
    let mut names = FirstNames::new(alloc);
    for definition in list {
        names.add(definition.symbol.name.as_str())?;
    }
    Ok(names)
}

/// Adds a name to those that were seen, and to those that stand more than once if it was seen before.
fn add_again<'a>(
    seen: &mut FirstNames<'a>,
    twice: &mut FirstNames<'a>,
    name: &'a str,
) -> Result<(), AllocError>
    ensures seen { (added : List (List ℕ)) → HasFirst seen.old [] added → OnOk result (HasFirst seen.new [] (added ++ name.now ∷ [])) }
    ensures twice { (added again : List (List ℕ)) → HasFirst seen.old [] added → HasFirst twice.old [] again
        → OnOk result (HasFirst twice.new [] (again ++ (if is_among name.now added then name.now ∷ [] else []))) }
{
    if seen.add(name)? {
        Ok(())
    } else {
        twice.add(name)?;
        Ok(())
    }
}

/// The names that stand more than once among those of definitions.
pub(crate) fn defined_twice<'a>(
    alloc: Global,
    list: &[Definition<'a>],
) -> Result<FirstNames<'a>, AllocError>
    ensures { IfOk result (λ twice. HasFirst twice [] (names_again [] (names_of (definitions_view list.now)))) }
{
    let mut seen = FirstNames::new(alloc);
    let mut twice = FirstNames::new(alloc);
    for definition in list {
        add_again(&mut seen, &mut twice, definition.symbol.name.as_str())?;
    }
    Ok(twice)
}
