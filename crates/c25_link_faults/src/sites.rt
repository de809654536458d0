//! Where modules use a name, and where they define it.

ghost use Rattle.std.specs.Option.{option_map};
ghost use Rattle.std.specs.Prelude.{◌≡◌, ◌++◌, filter, map, IfOk, OnOk};
ghost use Rattle.c25_link.specs.Misfits.{line_of};
ghost use Rattle.c25_meaning_linking.specs.Linking.{module_uses};
ghost use Rattle.c25_meaning_linking.specs.Place.{by_modules};
ghost use Rattle.c25_module.specs.View.{contents, symbol_data};
ghost use Rattle.c25_link_faults.specs.Sites.{definition_sites, is_base, is_definition_of, is_local, is_use, local_sites, module_locals, site_data, sites_data, symbol_line, symbol_site, use_site, use_sites};
ghost use Rattle.c25_link_faults.specs.View.{definition_view, definitions_view};

use crate::definitions::{Definition, all_definitions};
use crate::lines::{Wanted, wanted_line};
use crate::uses::symbol_name;
use c25_meaning_common::placed::FileLine;
use c25_meaning_objects::object::{Relocation, RelocationBase, Scope, SymbolKind};
use c25_module::{Module, Parts, Symbol};
use std::alloc::{AllocError, Global};

/// A place in a module.
#[derive(Clone, Copy)]
pub struct Site<'a> {
    /// The number of the module, counted from 0.
    pub number: usize,
    /// The line of the instruction there. None where there is data or a constant, and where the module has no
    /// lines (version 1).
    pub line: Option<FileLine<&'a str>>,
}

/// Whether a base is the external symbol of a name.
fn is_base(owner: &Parts, base: RelocationBase, name: &str) -> bool
    ensures { result ≡ is_base name.now (contents owner.now) base }
{
    match base {
        RelocationBase::Section(_) | RelocationBase::Loaded(_) => false,
        RelocationBase::External(index) => name == symbol_name(owner, index),
    }
}

/// Appends the places of a module where it uses a name.
fn push_uses<'a>(
    number: usize,
    owner: &'a Parts,
    name: &str,
    sites: &mut Vec<Site<'a>>,
) -> Result<(), AllocError>
    ensures { OnOk result (sites_data sites.new.items ≡ sites_data sites.old.items ++ map use_site (filter (is_use name.now) (module_uses number (contents owner.now)))) }
{
    for relocation in &owner.relocations {
        if is_base(owner, relocation.base, name) {
            let line = wanted_line(owner, &Wanted::WordOf(*relocation));
            sites.push(Site { number, line })?;
        }
    }
    Ok(())
}

/// Where modules use a name that they do not define, by modules and relocations; `AllocError` where memory
/// runs out.
pub fn use_sites<'a>(
    alloc: Global,
    modules: &'a [Module],
    name: &str,
) -> Result<Vec<Site<'a>>, AllocError>
    ensures { IfOk result (λ sites. sites_data sites.items ≡ use_sites modules.now name.now) }
{
    let mut sites = Vec::new(alloc);
    for (number, module) in modules.iter().enumerate() {
        push_uses(number, module.parts(), name, &mut sites)?;
    }
    Ok(sites)
}

/// The line of the instruction at a symbol, where it is the place of one.
fn symbol_line<'a>(owner: &'a Parts, symbol: &Symbol) -> Option<FileLine<&'a str>>
    ensures { option_map line_of result ≡ symbol_line (contents owner.now) (symbol_data symbol.now).kind (symbol_data symbol.now).value }
{
    let offset = symbol.value;
    match symbol.kind {
        SymbolKind::InSection(section) | SymbolKind::Loaded(section) => {
            wanted_line(owner, &Wanted::At { section, offset })
        }
        SymbolKind::Absolute | SymbolKind::External => None,
    }
}

/// The place of a symbol.
fn symbol_site<'a>(definition: Definition<'a>) -> Site<'a>
    ensures { site_data result ≡ symbol_site (definition_view definition.entry) }
{
    Site {
        number: definition.number,
        line: symbol_line(definition.owner, definition.symbol),
    }
}

/// The places of those definitions that are of a name.
fn sites_of<'a>(
    alloc: Global,
    list: &[Definition<'a>],
    name: &str,
) -> Result<Vec<Site<'a>>, AllocError>
    ensures { IfOk result (λ sites. sites_data sites.items ≡ map symbol_site (filter (is_definition_of name.now) (definitions_view list.now))) }
{
    let mut sites = Vec::new(alloc);
    for definition in list {
        if name == definition.symbol.name.as_str() {
            sites.push(symbol_site(*definition))?;
        }
    }
    Ok(sites)
}

/// Where modules define a name for all modules; `AllocError` where memory runs out.
pub fn definition_sites<'a>(
    alloc: Global,
    modules: &'a [Module],
    name: &str,
) -> Result<Vec<Site<'a>>, AllocError>
    ensures { IfOk result (λ sites. sites_data sites.items ≡ definition_sites modules.now name.now) }
{
    let list = all_definitions(alloc, modules)?;
    sites_of(alloc, &list, name)
}

/// Whether a symbol is defined in its module, and for that module alone.
fn is_local(symbol: &Symbol) -> bool
    ensures { result ≡ is_local (symbol_data symbol.now) }
{
    symbol.scope == Scope::Local && symbol.kind != SymbolKind::External
}

/// Appends the symbols that a module defines for itself alone.
fn push_locals<'a>(
    number: usize,
    owner: &'a Parts,
    list: &mut Vec<Definition<'a>>,
) -> Result<(), AllocError>
    ensures { OnOk result (definitions_view list.new.items ≡ definitions_view list.old.items ++ module_locals number (contents owner.now)) }
{
    for symbol in &owner.symbols {
        if is_local(symbol) {
            list.push(Definition {
                number,
                owner,
                symbol,
            })?;
        }
    }
    Ok(())
}

/// The symbols that modules define each for itself alone.
#[tactic(auto, using(c25_meaning_linking::proofs::ByModules::by_modules_more, c25_meaning_linking::proofs::ByModules::by_modules_all))]
fn all_locals<'a>(alloc: Global, modules: &'a [Module]) -> Result<Vec<Definition<'a>>, AllocError>
    ensures { IfOk result (λ v. definitions_view v.items ≡ by_modules module_locals 0 modules.now) }
{
    let mut list = Vec::new(alloc);
    for (number, module) in modules.iter().enumerate() {
        push_locals(number, module.parts(), &mut list)?;
    }
    Ok(list)
}

/// Where modules define a name each for itself, without exporting it; `AllocError` where memory runs out.
pub fn local_sites<'a>(
    alloc: Global,
    modules: &'a [Module],
    name: &str,
) -> Result<Vec<Site<'a>>, AllocError>
    ensures { IfOk result (λ sites. sites_data sites.items ≡ local_sites modules.now name.now) }
{
    let list = all_locals(alloc, modules)?;
    sites_of(alloc, &list, name)
}
