//! The modules that use or define a name (70, 71, 76).

ghost use Rattle.std.specs.Prelude.{◌≡◌, ◌++◌, IfOk, OnOk, map, string_bytes, take};
ghost use Rattle.c25_link_faults.specs.Sites.{site_data, sites_data};
ghost use Rattle.c25_explain.specs.Again.{entry_notes, local_notes, name_notes, note_view, notes_view, nowhere_note, site_note, twice_notes, unresolved_notes};
ghost use Rattle.c25_explain.specs.Details.{deed_text, site_text};
ghost use Rattle.c25_explain.specs.SiteView.{deed_of};

use crate::note_lines::{LinkNote, name_at, owned_line};
use c25_link_faults::{Site, definition_sites, local_sites, use_sites};
use c25_meaning_common::no_memory::NoMemory;
use c25_meaning_linking::link_fault::LinkFault;
use c25_module::Module;
use std::alloc::Global;

/// What a module does with a name.
#[derive(Clone, Copy)]
enum Deed {
    Uses,
    /// It defines the name for all modules.
    Defines,
    /// It defines the name for itself alone.
    Keeps,
}

/// Appends what a module does with a name.
#[tactic(auto, unfolding(crate::specs::Details::deed_text))]
fn push_deed(text: &mut String, deed: Deed, name: &str) -> Result<(), NoMemory>
    ensures { OnOk result (string_bytes text.new ≡ string_bytes text.old ++ deed_text (deed_of deed) name.now) }
{
    match deed {
        Deed::Uses => write!(text, " uses {name}").map_err(NoMemory::from),
        Deed::Defines => write!(text, " defines {name}").map_err(NoMemory::from),
        Deed::Keeps => write!(text, " defines {name} without .def {name}").map_err(NoMemory::from),
    }
}

/// One line of text: the name of the module's file, the module's number, and what it does with a name.
fn site_text(
    alloc: Global,
    file: &str,
    number: usize,
    deed: Deed,
    name: &str,
) -> Result<String, NoMemory>
    ensures { IfOk result (λ text. string_bytes text ≡ site_text file.now number (deed_of deed) name.now) }
{
    let mut text = format!(in alloc; "{file}: module {number}")?;
    push_deed(&mut text, deed, name)?;
    text.push_str("\n")?;
    Ok(text)
}

/// A name, and the names of the files of the modules in which it is looked for.
#[derive(Clone, Copy)]
pub(crate) struct About<'a> {
    pub names: &'a [String],
    pub name: &'a str,
}

/// The note about a place in a module.
fn site_note(
    alloc: Global,
    about: About<'_>,
    deed: Deed,
    site: &Site<'_>,
) -> Result<LinkNote, NoMemory>
    ensures { IfOk result (λ note. note_view note ≡ site_note (map string_bytes about.entry.names.now) (deed_of deed) about.entry.name.now (site_data site.now)) }
{
    let file = name_at(about.names, site.number);
    let text = site_text(alloc, file, site.number, deed, about.name)?;
    let line = owned_line(alloc, site.line)?;
    Ok(LinkNote { text, line })
}

/// Appends the notes about places in modules.
fn push_sites(
    alloc: Global,
    about: About<'_>,
    deed: Deed,
    sites: &[Site<'_>],
    notes: &mut Vec<LinkNote>,
) -> Result<(), NoMemory>
    ensures { OnOk result (notes_view notes.new.items ≡ notes_view notes.old.items ++ map (site_note (map string_bytes about.entry.names.now) (deed_of deed) about.entry.name.now) (sites_data sites.now)) }
{
    for site in sites {
        notes.push(site_note(alloc, about, deed, site)?)?;
    }
    Ok(())
}

/// The note that no module defines a name.
fn nowhere_note(alloc: Global, name: &str) -> Result<LinkNote, NoMemory>
    ensures { IfOk result (λ note. note_view note ≡ nowhere_note name.now) }
{
    let mut text = String::from_str(alloc, "no module defines ")?;
    text.push_str(name)?;
    text.push_str("\n")?;
    Ok(LinkNote { text, line: None })
}

/// Appends the notes about the modules that define a name without exporting it, or that none defines it.
fn push_locals(
    alloc: Global,
    about: About<'_>,
    sites: &[Site<'_>],
    notes: &mut Vec<LinkNote>,
) -> Result<(), NoMemory>
    ensures { OnOk result (notes_view notes.new.items ≡ notes_view notes.old.items ++ local_notes (map string_bytes about.entry.names.now) about.entry.name.now (sites_data sites.now)) }
{
    match sites {
        [] => {
            notes.push(nowhere_note(alloc, about.name)?)?;
            Ok(())
        }
        [_, ..] => push_sites(alloc, about, Deed::Keeps, sites, notes),
    }
}

/// The first of places alone; empty where there is none.
fn first_alone<'a, 'b>(sites: &'b [Site<'a>]) -> &'b [Site<'a>]
    ensures { result.now ≡ take 1 sites.now }
{
    match sites {
        [] => &[],
        [_, ..] => &sites[..1],
    }
}

/// Appends the notes about the first use of a name, and about the modules that define it without exporting it.
fn push_unresolved(
    alloc: Global,
    modules: &[Module],
    about: About<'_>,
    notes: &mut Vec<LinkNote>,
) -> Result<(), NoMemory>
    ensures { OnOk result (notes_view notes.new.items ≡ notes_view notes.old.items ++ unresolved_notes (map string_bytes about.entry.names.now) modules.now about.entry.name.now) }
{
    let uses = use_sites(alloc, modules, about.name)?;
    let locals = local_sites(alloc, modules, about.name)?;
    push_sites(alloc, about, Deed::Uses, first_alone(&uses), notes)?;
    push_locals(alloc, about, &locals, notes)
}

/// Appends the notes about the modules that define a name for all modules.
fn push_twice(
    alloc: Global,
    modules: &[Module],
    about: About<'_>,
    notes: &mut Vec<LinkNote>,
) -> Result<(), NoMemory>
    ensures { OnOk result (notes_view notes.new.items ≡ notes_view notes.old.items ++ twice_notes (map string_bytes about.entry.names.now) modules.now about.entry.name.now) }
{
    let sites = definition_sites(alloc, modules, about.name)?;
    push_sites(alloc, about, Deed::Defines, &sites, notes)
}

/// Appends the notes about the modules that define the entry without exporting it, or that none defines it.
fn push_entry(
    alloc: Global,
    modules: &[Module],
    about: About<'_>,
    notes: &mut Vec<LinkNote>,
) -> Result<(), NoMemory>
    ensures { OnOk result (notes_view notes.new.items ≡ notes_view notes.old.items ++ entry_notes (map string_bytes about.entry.names.now) modules.now about.entry.name.now) }
{
    let sites = local_sites(alloc, modules, about.name)?;
    push_locals(alloc, about, &sites, notes)
}

/// Appends the notes about the name of a fault of linking: which modules use or define it. There is none about
/// the name of a section.
pub(crate) fn push_name_notes(
    alloc: Global,
    modules: &[Module],
    fault: LinkFault,
    about: About<'_>,
    notes: &mut Vec<LinkNote>,
) -> Result<(), NoMemory>
    ensures { OnOk result (notes_view notes.new.items ≡ notes_view notes.old.items ++ name_notes (map string_bytes about.entry.names.now) modules.now fault about.entry.name.now) }
{
    match fault {
        LinkFault::Unresolved => push_unresolved(alloc, modules, about, notes),
        LinkFault::DefinedTwice => push_twice(alloc, modules, about, notes),
        LinkFault::NoEntry => push_entry(alloc, modules, about, notes),
        LinkFault::NoRange
        | LinkFault::DoesNotFit
        | LinkFault::Overlap
        | LinkFault::RelocRange
        | LinkFault::BadRun => Ok(()),
    }
}

/// The notes about the name of a fault of linking.
pub(crate) fn name_notes(
    alloc: Global,
    modules: &[Module],
    fault: LinkFault,
    about: About<'_>,
) -> Result<Vec<LinkNote>, NoMemory>
    ensures { IfOk result (λ notes. notes_view notes.items ≡ name_notes (map string_bytes about.entry.names.now) modules.now fault about.entry.name.now) }
{
    let mut notes = Vec::new(alloc);
    push_name_notes(alloc, modules, fault, about, &mut notes)?;
    Ok(notes)
}
