//! Fields that do not take their values.

ghost use Rattle.std.specs.Prelude.{◌≡◌, ◌+◌, ◌<◌, ◌^◌, find};
ghost use Rattle.std.specs.List.{slice_get};
ghost use Rattle.std.specs.Option.{option_map};
ghost use Rattle.c25_cmd.specs.View.{command_data};
ghost use Rattle.c25_meaning_linking.specs.Command.{IsCommand};
ghost use Rattle.c25_meaning_linking.specs.Linking.{base_name, module_uses, spills, use_of};
ghost use Rattle.c25_meaning_linking.specs.Words.{section_base};
ghost use Rattle.c25_module.specs.View.{contents};
ghost use Rattle.c25_link.specs.Layout.{IsLaidOut, IsOwner, places_in};
ghost use Rattle.c25_link.specs.Misfits.{FindsMisfit, first_misfit, has_word, instruction_line, line_in, line_of, misfit_data, misfit_of};

use crate::bases::Bases;
use crate::fields::takes;
use crate::layout::{Layout, are_modules};
use crate::linking::{checked_definitions, entry_of};
use crate::uses::{section_name, symbol_name};
use crate::values::relocated_value;
use c25_cmd::Command;
use c25_linking_laws::linking::instructions_run_apart;
use c25_meaning_common::placed::FileLine;
use c25_meaning_objects::object::{LineMark, ModuleMark, Relocation, RelocationBase};
use c25_module::{Module, Parts};
use c25_place::{PlacingFailure, good_places};
use std::alloc::Global;

/// A field that does not take its value.
#[derive(Clone, Copy)]
pub struct Misfit<'a> {
    /// The number of the field's module, counted from 0.
    pub number: usize,
    /// The section that the field's word belongs to.
    pub section: &'a str,
    /// The address where the field's word is loaded.
    pub address: u16,
    /// The section or the symbol that the value counts from.
    pub base: RelocationBase,
    /// The name of the section or the symbol that the value counts from.
    pub base_name: &'a str,
    /// The number that is added to the section's address or the symbol's value.
    pub addend: i32,
    /// The value that does not fit.
    pub value: i64,
    /// The line of the instruction that has the field's word. None where the word is data, and where the
    /// module has no lines (version 1).
    pub line: Option<FileLine<&'a str>>,
}

/// Whether the word of a relocation belongs to the instruction of a mark.
fn has_word(relocation: &Relocation, mark: &ModuleMark) -> bool
    ensures { result ≡ has_word relocation.now mark.now }
{
    let first = u32::from(mark.offset);
    let word = u32::from(relocation.offset);
    mark.section == relocation.section && first <= word && word < first + u32::from(mark.size)
}

/// A line of a file, by the line's record in its module.
fn source_line<'a>(owner: &'a Parts, told: &LineMark) -> FileLine<&'a str>
    ensures { line_of result ≡ line_in (contents owner.now) told.now }
{
    let file = match owner.files.get(usize::from(told.file)) {
        Some(name) => name.as_str(),
        None => "",
    };
    FileLine {
        file,
        line: told.line as usize,
    }
}

/// The line of a number among a module's lines, if there is one.
fn line_at(owner: &Parts, index: usize) -> Option<FileLine<&str>>
    ensures { option_map line_of result ≡ option_map (line_in (contents owner.now)) (slice_get (contents owner.now).lines index) }
{
    match owner.lines.get(index) {
        Some(told) => Some(source_line(owner, told)),
        None => None,
    }
}

/// The line of the instruction that has the word of a relocation, if there is one.
fn instruction_line<'a>(owner: &'a Parts, relocation: &Relocation) -> Option<FileLine<&'a str>>
    ensures { option_map line_of result ≡ instruction_line (contents owner.now) relocation.now }
{
    for (index, mark) in owner.marks.iter().enumerate() {
        if has_word(relocation, mark) {
            return line_at(owner, index);
        }
    }
    None
}

/// The name of the section or symbol that a relocation counts from.
fn base_name(owner: &Parts, base: RelocationBase) -> &str
    ensures { result.now ≡ base_name (contents owner.now) base }
{
    match base {
        RelocationBase::Section(index) | RelocationBase::Loaded(index) => {
            section_name(owner, index)
        }
        RelocationBase::External(index) => symbol_name(owner, index),
    }
}

/// The misfit of a relocation whose field does not take its value.
fn misfit_of<'a>(
    layout: &Layout<'a, '_>,
    number: usize,
    owner: &'a Parts,
    relocation: &Relocation,
) -> Misfit<'a>
    requires laid { IsLaidOut layout.now }
    requires owner { IsOwner layout.now number (contents owner.now) }
    requires below { section_base layout.now.modules.now (places_in layout.now) number (contents owner.now) relocation.now.section + relocation.now.offset < 2 ^ 16 }
    ensures { misfit_data result ≡ misfit_of layout.now.modules.now (places_in layout.now) (use_of number (contents owner.now) relocation.now) }
{
    let part = layout.bases.get(number, usize::from(relocation.section));
    Misfit {
        number,
        section: section_name(owner, relocation.section),
        address: (part.base + u32::from(relocation.offset)) as u16,
        base: relocation.base,
        base_name: base_name(owner, relocation.base),
        addend: relocation.addend,
        value: relocated_value(layout, number, owner, relocation),
        line: instruction_line(owner, relocation),
    }
}

/// The first field of a module that does not take its value.
#[tactic(auto, using(crate::proofs::Search::found_here, crate::proofs::Search::none_here, crate::proofs::Search::none_whole))]
fn misfit_in<'a>(layout: &Layout<'a, '_>, number: usize, owner: &'a Parts) -> Option<Misfit<'a>>
    requires laid { IsLaidOut layout.now }
    requires owner { IsOwner layout.now number (contents owner.now) }
    ensures { option_map misfit_data result
        ≡ option_map (misfit_of layout.now.modules.now (places_in layout.now)) (find (spills layout.now.modules.now (places_in layout.now)) (module_uses number (contents owner.now))) }
{
    for relocation in &owner.relocations {
        let value = relocated_value(layout, number, owner, relocation);
        if !takes(relocation.kind, value) {
            return Some(misfit_of(layout, number, owner, relocation));
        }
    }
    None
}

/// The first field that does not take its value.
#[tactic(auto, using(crate::proofs::Search::found_at, crate::proofs::Search::none_more, crate::proofs::Search::none_at_all))]
fn misfit_among<'a>(layout: &Layout<'a, '_>) -> Option<Misfit<'a>>
    requires { IsLaidOut layout.now }
    ensures { option_map misfit_data result ≡ first_misfit layout.now.modules.now (places_in layout.now) }
{
    for (number, module) in layout.modules.iter().enumerate() {
        match misfit_in(layout, number, module.parts()) {
            Some(misfit) => return Some(misfit),
            None => {}
        }
    }
    None
}

/// The first field that does not take its value, by modules and relocations, where sections stand as
/// [`link`](crate::link) places them. It is the field that `link` refuses with `RelocRange`, described in
/// full; a fault that `link` finds before it looks at fields is returned here too.
pub fn first_misfit<'a>(
    alloc: Global,
    modules: &'a [Module],
    command: &'a Command,
) -> Result<Option<Misfit<'a>>, PlacingFailure>
    requires { IsCommand (command_data command.now) }
    ensures { FindsMisfit modules.now (command_data command.now) result }
{
    instructions_run_apart();
    let definitions = checked_definitions(alloc, modules, entry_of(command))?;
    let places = good_places(alloc, modules, command)?;
    are_modules(modules);
    let bases = Bases::new(alloc, modules, &places)?;
    let layout = Layout {
        modules,
        places: &places,
        definitions: &definitions,
        bases: &bases,
    };
    Ok(misfit_among(&layout))
}
