//! Two sections that share a word (74).

ghost use Rattle.std.specs.Prelude.{◌≡◌, ◌++◌, IfOk, IfSome, OnOk, string_bytes};
ghost use Rattle.c25_link_faults.specs.Overlaps.{overlap_data, span_data};
ghost use Rattle.c25_explain.specs.Again.{AreOverlapNotes, note_view, notes_view, overlap_notes, span_note};
ghost use Rattle.c25_explain.specs.Details.{span_text, words_text};

use crate::fields::push_address;
use crate::note_lines::LinkNote;
use c25_cmd::read_command;
use c25_link_faults::{Overlap, Span, overlap_of};
use c25_meaning_common::no_memory::NoMemory;
use c25_module::Module;
use std::alloc::Global;

/// Appends the first and the last word of a section.
#[tactic(auto, unfolding(crate::specs::Details::words_text))]
pub(crate) fn push_words(text: &mut String, span: &Span<'_>) -> Result<(), NoMemory>
    ensures { OnOk result (string_bytes text.new ≡ string_bytes text.old ++ words_text (span_data span.now)) }
{
    text.push_str(": words ")?;
    push_address(text, span.first)?;
    text.push_str(" to ")?;
    push_address(text, span.last)
}

/// One line of text: the name of a section, its first and its last word, and its page.
fn span_text(alloc: Global, span: &Span<'_>) -> Result<String, NoMemory>
    ensures { IfOk result (λ text. string_bytes text ≡ span_text (span_data span.now)) }
{
    let mut text = String::from_str(alloc, span.name)?;
    push_words(&mut text, span)?;
    let page = span.page;
    write!(text, " of page {page}\n")?;
    Ok(text)
}

/// The note about the words of a section.
fn span_note(alloc: Global, span: &Span<'_>) -> Result<LinkNote, NoMemory>
    ensures { IfOk result (λ note. note_view note ≡ span_note (span_data span.now)) }
{
    let text = span_text(alloc, span)?;
    Ok(LinkNote { text, line: None })
}

/// The notes about two sections.
fn notes_of(alloc: Global, overlap: &Overlap<'_>) -> Result<Vec<LinkNote>, NoMemory>
    ensures { IfOk result (λ notes. notes_view notes.items ≡ overlap_notes (overlap_data overlap.now)) }
{
    let mut notes = Vec::new(alloc);
    notes.push(span_note(alloc, &overlap.section)?)?;
    notes.push(span_note(alloc, &overlap.other)?)?;
    Ok(notes)
}

/// The notes about the section of a name and the one that shares a word with it, among modules under the text
/// of a command file; none where there is no such one, or the command file is refused.
pub(crate) fn overlap_notes(
    alloc: Global,
    modules: &[Module],
    command: &str,
    name: &str,
) -> Result<Option<Vec<LinkNote>>, NoMemory>
    ensures { IfOk result (λ notes. IfSome notes (λ v. AreOverlapNotes name.now modules.now command.now (notes_view v.items))) }
{
    let Ok(command) = read_command(alloc, command) else {
        return Ok(None);
    };
    match overlap_of(alloc, modules, &command, name)? {
        Some(overlap) => notes_of(alloc, &overlap).map(Some),
        None => Ok(None),
    }
}
