//! The symbols that modules define for all modules.

ghost use Rattle.std.specs.Prelude.{◌≡◌, ◌++◌, ℕ, List, [], IfOk, OnOk};
ghost use Rattle.std.specs.Option.{option_map};
ghost use Rattle.c25_meaning_linking.specs.Linking.{first_again, refused_with, defined_names};
ghost use Rattle.c25_meaning_common.specs.Results.{MeetsBy};
ghost use Rattle.c25_meaning_linking.specs.Words.{is_definition, module_definitions, definitions, definition_of};
ghost use Rattle.c25_meaning_linking.specs.Words as words;
ghost use Rattle.c25_meaning_linking.specs.declared.link_fault.LinkFault.TheVariants as fault;
ghost use Rattle.c25_module.specs.View.{contents, symbol_data};
ghost use Rattle.c25_link.specs.View.{definition_view, definitions_view, names_of, HasDefinitions};
ghost use Rattle.c25_place.specs.View.{named, refusal_of};

use c25_meaning_common::failure::Failure;
use c25_meaning_linking::link_fault::LinkFault;
use c25_meaning_objects::object::{Scope, SymbolKind};
use c25_module::{Module, Parts, Symbol};
use c25_place::{PlacingFailure, refusal};
use std::alloc::{AllocError, Global};
use std::collections::HashMap;

/// A global symbol that a module defines, with the module and its number.
#[derive(Clone, Copy)]
pub(crate) struct Definition<'a> {
    pub number: usize,
    pub owner: &'a Parts,
    pub symbol: &'a Symbol,
}

/// The definitions of all modules: in their order, and by name.
#[derive(Drop)]
pub(crate) struct Definitions<'a> {
    pub list: Vec<Definition<'a>>,
    pub found: HashMap<&'a str, Definition<'a>>,
}

/// Whether a symbol is global and defined in its module.
fn is_definition(symbol: &Symbol) -> bool
    ensures { result ≡ is_definition (symbol_data symbol.now) }
{
    symbol.scope == Scope::Global && symbol.kind != SymbolKind::External
}

/// Appends the definitions of a module.
fn push_definitions<'a>(
    number: usize,
    owner: &'a Parts,
    list: &mut Vec<Definition<'a>>,
) -> Result<(), AllocError>
    ensures { OnOk result (definitions_view list.new.items ≡ definitions_view list.old.items ++ module_definitions number (contents owner.now)) }
{
    for symbol in &owner.symbols {
        if is_definition(symbol) {
            list.push(Definition {
                number,
                owner,
                symbol,
            })?;
        }
    }
    Ok(())
}

/// The definitions of all modules.
#[tactic(auto, using(c25_meaning_linking::proofs::ByModules::by_modules_more, c25_meaning_linking::proofs::ByModules::by_modules_all))]
fn all_definitions<'a>(
    alloc: Global,
    modules: &'a [Module],
) -> Result<Vec<Definition<'a>>, AllocError>
    ensures { IfOk result (λ v. definitions_view v.items ≡ definitions modules.now) }
{
    let mut list = Vec::new(alloc);
    for (number, module) in modules.iter().enumerate() {
        push_definitions(number, module.parts(), &mut list)?;
    }
    Ok(list)
}

/// The definitions by name, or `DefinedTwice` where a name stands twice.
fn by_name<'a>(
    alloc: Global,
    list: &[Definition<'a>],
) -> Result<HashMap<&'a str, Definition<'a>>, PlacingFailure>
    ensures checked { MeetsBy refusal_of (λ _. tt) (refused_with fault.DefinedTwice (first_again [] (names_of (definitions_view list.now)))) result }
    ensures found { IfOk result (λ m. (name : List ℕ) → option_map definition_view (named m name) ≡ definition_of name (definitions_view list.now)) }
{
    let mut found = HashMap::new(alloc);
    for definition in list {
        let name = definition.symbol.name.as_str();
        if found.insert(name, *definition)?.is_some() {
            return Err(Failure::Fault(refusal(alloc, LinkFault::DefinedTwice, name)?));
        }
    }
    Ok(found)
}

impl<'a> Definitions<'a> {
    /// The definitions of all modules, or `DefinedTwice` where two have one name.
    pub(crate) fn new(alloc: Global, modules: &'a [Module]) -> Result<Self, PlacingFailure>
        ensures checked { MeetsBy refusal_of (λ _. tt) (refused_with fault.DefinedTwice (first_again [] (defined_names modules.now))) result }
        ensures found { IfOk result (λ d. HasDefinitions d (definitions modules.now)) }
    {
        let list = all_definitions(alloc, modules)?;
        let found = by_name(alloc, &list)?;
        Ok(Definitions { list, found })
    }

    /// The definition of a name, if there is one.
    pub(crate) fn get(&self, name: &str) -> Option<Definition<'a>>
        ensures { (ds : List words.Definition) → HasDefinitions self.now ds → option_map definition_view result ≡ definition_of name.now ds }
    {
        self.found.get(name).copied()
    }
}
