//! The text about a range that a command file lacks (72).

ghost use Rattle.std.specs.Prelude.{◌≡◌, ◌++◌, IfOk, OnOk, string_bytes};
ghost use Rattle.c25_explain.specs.Details.{anywhere_text, in_text, lack_text, missing_text, on_text, page_text};
ghost use Rattle.c25_place.specs.Missing.{missing_data};

use c25_meaning_common::no_memory::NoMemory;
use c25_place::MissingRange;
use std::alloc::Global;

/// Appends the page, where the command names one.
fn push_page(text: &mut String, page: Option<u8>) -> Result<(), NoMemory>
    ensures { OnOk result (string_bytes text.new ≡ string_bytes text.old ++ page_text page) }
{
    match page {
        Some(page) => write!(text, " on page {page}").map_err(NoMemory::from),
        None => Ok(()),
    }
}

/// Appends that a section is to stand in a range of this name.
#[tactic(auto, unfolding(crate::specs::Details::in_text))]
fn push_in(text: &mut String, name: &str) -> Result<(), NoMemory>
    ensures { OnOk result (string_bytes text.new ≡ string_bytes text.old ++ in_text name.now) }
{
    write!(text, " is to stand in {name}, and no range has this name").map_err(NoMemory::from)
}

/// Appends that a section is to stand on this page.
#[tactic(auto, unfolding(crate::specs::Details::on_text))]
fn push_on(text: &mut String, page: u8) -> Result<(), NoMemory>
    ensures { OnOk result (string_bytes text.new ≡ string_bytes text.old ++ on_text page) }
{
    write!(text, " is to stand on page {page}, which has no range").map_err(NoMemory::from)
}

/// Appends that a section is to stand anywhere.
#[tactic(auto, unfolding(crate::specs::Details::anywhere_text))]
fn push_anywhere(text: &mut String) -> Result<(), NoMemory>
    ensures { OnOk result (string_bytes text.new ≡ string_bytes text.old ++ anywhere_text) }
{
    text.push_str(" is to stand anywhere, and there is no range")
        .map_err(NoMemory::from)
}

/// Appends where a section is to stand, and what is missing there.
fn push_lack(text: &mut String, range: MissingRange<'_>) -> Result<(), NoMemory>
    ensures { OnOk result (string_bytes text.new ≡ string_bytes text.old ++ lack_text (missing_data range.entry)) }
{
    match range {
        MissingRange::Named { name, page } => {
            push_in(text, name)?;
            push_page(text, page)
        }
        MissingRange::OnPage(page) => push_on(text, page),
        MissingRange::Any => push_anywhere(text),
    }
}

/// One line of text: the name of the command file, the section, where it is to stand, and the range that is
/// missing for it.
pub fn missing_text(
    alloc: Global,
    file: &str,
    section: &str,
    range: MissingRange<'_>,
) -> Result<String, NoMemory>
    ensures { IfOk result (λ text. string_bytes text ≡ missing_text file.now section.now (missing_data range.entry)) }
{
    let mut text = format!(in alloc; "{file}: {section}")?;
    push_lack(&mut text, range)?;
    text.push_str("\n")?;
    Ok(text)
}
