//! All faults of linking, for `--all`.

ghost use Rattle.std.specs.Prelude.{◌≡◌, ◌⊎◌, ◌++◌, ◌∷◌, [], if◌then◌else◌, IfOk, IfSome, OnOk, map, string_bytes};
ghost use Rattle.c25_chain.specs.Refusal.{refusal_of};
ghost use Rattle.c25_cmd.specs.View.{command_data};
ghost use Rattle.c25_meaning_linking.specs.Command.{IsCommand};
ghost use Rattle.c25_explain.specs.Again.{AreAllNotes, AreAllUnder, ShowsOtherLinks, all_notes, explained_notes, fault_note, more_note, name_notes, note_view, notes_view, other_notes, shown_notes};
ghost use Rattle.c25_options.specs.Task.{text_of, texts_of};
ghost use Rattle.c25_place.specs.View as place;

use crate::again::{Asked, asked_text};
use crate::all_faults::after_line;
use crate::named::NamedFiles;
use crate::named_sites::{About, push_name_notes};
use crate::note_lines::LinkNote;
use c25_chain::fault::ChainFault;
use c25_cmd::{Command, read_command};
use c25_disk::disk::Disk;
use c25_link_faults::all_link_faults;
use c25_meaning_common::no_memory::NoMemory;
use c25_meaning_common::placed::Placed;
use c25_meaning_linking::link_fault::LinkFault;
use c25_module::Module;
use std::alloc::Global;

/// The most faults of linking that are shown after the first one.
const MOST_OTHERS: usize = 99;

/// Modules, the names of their files, and whether their faults are to be explained.
#[derive(Clone, Copy)]
pub(crate) struct Among<'a> {
    pub names: &'a [String],
    pub modules: &'a [Module],
    pub explain: bool,
}

/// The note with the line of a fault.
fn fault_note(alloc: Global, fault: &Placed<String, LinkFault>) -> Result<LinkNote, NoMemory>
    ensures { IfOk result (λ note. note_view note ≡ fault_note (place.refusal_of fault.now)) }
{
    let name = fault.place.as_str();
    let number = fault.fault.number();
    let title = fault.fault.name();
    let text = format!(in alloc; "link:{name}: {number} {title}\n")?;
    Ok(LinkNote { text, line: None })
}

/// Appends what modules say of the name of a fault, where faults are to be explained.
fn push_explained(
    alloc: Global,
    among: Among<'_>,
    fault: &Placed<String, LinkFault>,
    notes: &mut Vec<LinkNote>,
) -> Result<(), NoMemory>
    ensures { OnOk result (notes_view notes.new.items ≡ notes_view notes.old.items ++ (if among.entry.explain then name_notes (map string_bytes among.entry.names.now) among.entry.modules.now fault.now.fault (string_bytes fault.now.place) else [])) }
{
    if !among.explain {
        return Ok(());
    }
    let about = About {
        names: among.names,
        name: fault.place.as_str(),
    };
    push_name_notes(alloc, among.modules, fault.fault, about, notes)
}

/// Appends a fault.
fn push_fault(
    alloc: Global,
    among: Among<'_>,
    fault: &Placed<String, LinkFault>,
    notes: &mut Vec<LinkNote>,
) -> Result<(), NoMemory>
    ensures { OnOk result (notes_view notes.new.items ≡ notes_view notes.old.items ++ explained_notes among.entry.explain (map string_bytes among.entry.names.now) among.entry.modules.now (place.refusal_of fault.now)) }
{
    notes.push(fault_note(alloc, fault)?)?;
    push_explained(alloc, among, fault, notes)
}

/// Appends faults.
fn push_faults(
    alloc: Global,
    among: Among<'_>,
    faults: &[Placed<String, LinkFault>],
    notes: &mut Vec<LinkNote>,
) -> Result<(), NoMemory>
    ensures { OnOk result (notes_view notes.new.items ≡ notes_view notes.old.items ++ other_notes among.entry.explain (map string_bytes among.entry.names.now) among.entry.modules.now (map place.refusal_of faults.now)) }
{
    for fault in faults {
        push_fault(alloc, among, fault, notes)?;
    }
    Ok(())
}

/// The note that stands for the faults that are not shown.
#[tactic(auto, unfolding(crate::specs::Again::more_text))]
fn more_note(alloc: Global) -> Result<LinkNote, NoMemory>
    ensures { IfOk result (λ note. note_view note ≡ more_note) }
{
    let text = String::from_str(alloc, "link: more faults are not shown\n")?;
    Ok(LinkNote { text, line: None })
}

/// Appends the note that stands for the faults that are not shown.
fn push_more(alloc: Global, notes: &mut Vec<LinkNote>) -> Result<(), NoMemory>
    ensures { OnOk result (notes_view notes.new.items ≡ notes_view notes.old.items ++ more_note ∷ []) }
{
    notes.push(more_note(alloc)?)?;
    Ok(())
}

/// Appends faults, at most 99, and the note that stands for those that are not shown.
fn push_shown(
    alloc: Global,
    among: Among<'_>,
    faults: &[Placed<String, LinkFault>],
    notes: &mut Vec<LinkNote>,
) -> Result<(), NoMemory>
    ensures { OnOk result (notes_view notes.new.items ≡ notes_view notes.old.items ++ shown_notes among.entry.explain (map string_bytes among.entry.names.now) among.entry.modules.now (map place.refusal_of faults.now)) }
{
    if faults.len() > MOST_OTHERS {
        let (shown, _) = faults.split_at(MOST_OTHERS);
        push_faults(alloc, among, shown, notes)?;
        push_more(alloc, notes)
    } else {
        push_faults(alloc, among, faults, notes)
    }
}

/// The notes with faults, of which the first one is in its line alone.
fn notes_of(
    alloc: Global,
    among: Among<'_>,
    faults: &[Placed<String, LinkFault>],
) -> Result<Vec<LinkNote>, NoMemory>
    ensures { IfOk result (λ notes. notes_view notes.items ≡ all_notes among.entry.explain (map string_bytes among.entry.names.now) among.entry.modules.now (map place.refusal_of faults.now)) }
{
    let mut notes = Vec::new(alloc);
    let [first, others @ ..] = faults else {
        return Ok(notes);
    };
    notes.push(fault_note(alloc, first)?)?;
    push_shown(alloc, among, others, &mut notes)?;
    Ok(notes)
}

/// The notes with all faults of modules under a command.
fn notes_under(
    alloc: Global,
    among: Among<'_>,
    command: &Command,
) -> Result<Vec<LinkNote>, NoMemory>
    requires { IsCommand (command_data command.now) }
    ensures { IfOk result (λ notes. AreAllUnder among.entry.explain (map string_bytes among.entry.names.now) among.entry.modules.now (command_data command.now) (notes_view notes.items)) }
{
    let faults = all_link_faults(alloc, among.modules, command)?;
    notes_of(alloc, among, &faults)
}

/// The notes with all faults of modules under the text of a command file; none where the command file is
/// refused.
pub(crate) fn all_notes(
    alloc: Global,
    among: Among<'_>,
    command: &str,
) -> Result<Option<Vec<LinkNote>>, NoMemory>
    ensures { IfOk result (λ notes. IfSome notes (λ v. AreAllNotes among.entry.explain (map string_bytes among.entry.names.now) among.entry.modules.now command.now (notes_view v.items))) }
{
    let Ok(command) = read_command(alloc, command) else {
        return Ok(None);
    };
    notes_under(alloc, among, &command).map(Some)
}

/// All faults of linking but for the line of the first one, which is this fault; where they are to be explained,
/// each with the modules that use or define its name. The sources or objects are linked again. The text is empty
/// where they cannot be read, where this fault is not the first of theirs, or memory runs out.
pub(crate) fn other_links_text<D: Disk>(
    alloc: Global,
    disk: &D,
    named: NamedFiles<'_>,
    explain: bool,
    refusal: &ChainFault<String>,
) -> String
    ensures { ShowsOtherLinks explain (D.bytes_of disk.now) (text_of named.entry.files.command) (texts_of named.entry.sources.now) (texts_of named.entry.objects.now) (refusal_of refusal.now) (string_bytes result) }
{
    let all = asked_text(alloc, disk, named, Asked::AllFaults { explain });
    after_line(alloc, all.as_str(), refusal)
}
