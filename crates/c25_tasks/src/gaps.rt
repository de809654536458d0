//! What is said of a hex text that is printed, and is no source as it is printed.

ghost use Rattle.std.specs.FinMap as map;
ghost use Rattle.std.specs.Prelude.{◌≡◌, false, IfOk, IfSome, string_bytes};
ghost use Rattle.c25_hex.specs.Hex.{SpellsWords};
ghost use Rattle.c25_tasks.specs.Disassembly.{HasGap, IsRemarked, gap_remark, stand_from};
ghost use Rattle.c25_tasks.specs.Running.{is_explained};

use crate::report::is_done;
use crate::running::is_explained;
use c25_hex::read_hex;
use c25_inputs::objects::Object;
use c25_meaning_common::no_memory::NoMemory;
use c25_meaning_image::word_map::WordMap;
use c25_report::ending::Report;
use c25_source_notes::notes::SourceNotes;
use std::alloc::Global;

/// Whether words stand one after another from address 0 on.
#[tactic(auto, unfolding(crate::specs::Disassembly::stand_from))]
fn stand_together(words: &WordMap) -> bool
    ensures { result ≡ stand_from 0 (map.entries words.now) }
{
    let mut next = 0;
    for (address, _word) in words.iter() {
        if u32::from(*address) != next {
            return false;
        }
        next = u32::from(*address) + 1;
    }
    true
}

/// The words that a hex text spells. `None` where it spells none, or memory runs out.
fn words_in(alloc: Global, text: &str) -> Option<WordMap>
    ensures { IfSome result (λ words. SpellsWords text.now words) }
{
    match read_hex(alloc, text) {
        Ok(words) => Some(words),
        Err(_) => None,
    }
}

/// The words that a file spells as a hex text. `None` where it spells none, or memory runs out.
fn words_of(alloc: Global, bytes: &[u8]) -> Option<WordMap>
    ensures { IfSome result (λ words. SpellsWords bytes.now words) }
{
    match str::from_utf8(bytes) {
        Ok(text) => words_in(alloc, text),
        Err(_not_utf8) => None,
    }
}

/// What is said of a hex text of this name that has a gap.
fn gap_remark(alloc: Global, name: &str) -> Result<String, NoMemory>
    ensures { IfOk result (λ text. string_bytes text ≡ gap_remark name.now) }
{
    let mut text = format!(in alloc;
        "{name}: no source as it is printed, since its words do not stand one after another from 0000 on\n"
    )?;
    let source = format!(in alloc; "{name}: c25 dis --source {name} --out BASE writes one\n")?;
    text.push_str(source.as_str())?;
    Ok(text)
}

/// What is said of a hex text of this name and these words, where they have a gap. `None` where they have none, or memory
/// runs out.
fn remark_on(alloc: Global, words: &WordMap, name: &str) -> Option<String>
    ensures { IfSome result (λ text. (stand_from 0 (map.entries words.now) ≡ false) × (string_bytes text ≡ gap_remark name.now)) }
{
    if stand_together(words) {
        return None;
    }
    match gap_remark(alloc, name) {
        Ok(text) => Some(text),
        Err(_) => None,
    }
}

/// What is said of a hex file that has a gap. `None` where it has none, or memory runs out.
fn remark_of(alloc: Global, file: &Object<'_>) -> Option<String>
    ensures { IfSome result (λ text. HasGap file.now.bytes.items × (string_bytes text ≡ gap_remark file.now.name.now)) }
{
    match words_of(alloc, file.bytes.as_slice()) {
        Some(words) => remark_on(alloc, &words, file.name),
        None => None,
    }
}

/// The report of a hex text that was printed, with what is said of a gap where an explanation is asked for.
pub(crate) fn with_remark(
    alloc: Global,
    file: &Object<'_>,
    notes: SourceNotes<'_>,
    report: Report,
) -> Report
    ensures ending { result.ending ≡ report.ending }
    ensures note { IsRemarked (is_explained notes.entry) (file.now.name.now, file.now.bytes.items) report.ending (string_bytes report.note) (string_bytes result.note) }
{
    if !is_explained(notes) {
        return report;
    }
    if !is_done(&report.ending) {
        return report;
    }
    let Report { ending, note } = report;
    match remark_of(alloc, file) {
        Some(note) => Report { ending, note },
        None => Report { ending, note },
    }
}
