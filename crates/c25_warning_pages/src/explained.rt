//! Warnings, each with what it means and what to do.

ghost use Rattle.std.specs.Prelude.{◌≡◌, IfOk, string_bytes};
ghost use Rattle.c25_warning_pages.specs.Explained.{AreJoined, IsExplained, IsLinkExplained, IsPageExplained, IsProgramExplained, details, lesson};
ghost use Rattle.c25_warnings.specs.View.{link_warning_of, link_warnings_view, program_warnings_of, warning_of, warnings_view};

use crate::page::Page;
use crate::pages::{AnyWarning, page_of};
use c25_meaning_common::no_memory::NoMemory;
use c25_page_reports::{PageWarning, write_page_warning};
use c25_warnings::{LinkWarning, ProgramWarnings, Warning, write_link_warning, write_warning};
use std::alloc::Global;

/// What a warning means, what to do, and how to see its example.
fn lesson(alloc: Global, page: &Page) -> Result<String, NoMemory>
    ensures { IfOk result (λ text. string_bytes text ≡ lesson page.now) }
{
    let name = page.name;
    let meaning = page.meaning;
    let advice = page.advice;
    Ok(format!(in alloc; "\n{meaning}\n{advice}\nExample: c25 explain {name}\n")?)
}

/// The line of a source as it was read, and what the warning names.
fn details(alloc: Global, warning: &Warning<'_>) -> Result<String, NoMemory>
    ensures { IfOk result (λ text. string_bytes text ≡ details (warning_of warning.now)) }
{
    let line = warning.line;
    let text = warning.text.as_str();
    let name = warning.name.as_str();
    Ok(format!(in alloc; "  {line} | {text}\n  about {name}\n")?)
}

/// A warning of a source with its explanation.
fn explained(alloc: Global, warning: &Warning<'_>) -> Result<String, NoMemory>
    ensures { IfOk result (λ text. IsExplained (warning_of warning.now) (string_bytes text)) }
{
    let page = page_of(AnyWarning::Line(warning.kind));
    let mut text = write_warning(alloc, warning)?;
    text.push('\n')?;
    text.push_str(details(alloc, warning)?.as_str())?;
    text.push_str(lesson(alloc, &page)?.as_str())?;
    Ok(text)
}

/// A warning of a command file with its explanation.
fn link_explained(alloc: Global, warning: &LinkWarning<'_>) -> Result<String, NoMemory>
    ensures { IfOk result (λ text. IsLinkExplained (link_warning_of warning.now) (string_bytes text)) }
{
    let page = page_of(AnyWarning::Section(warning.kind));
    let mut text = write_link_warning(alloc, warning)?;
    text.push('\n')?;
    text.push_str(lesson(alloc, &page)?.as_str())?;
    Ok(text)
}

/// A warning of data pages with its explanation.
fn page_explained(alloc: Global, warning: &PageWarning) -> Result<String, NoMemory>
    ensures { IfOk result (λ text. IsPageExplained warning.now (string_bytes text)) }
{
    let page = page_of(AnyWarning::DataPage(warning.kind));
    let mut text = write_page_warning(alloc, warning)?;
    text.push('\n')?;
    text.push_str(lesson(alloc, &page)?.as_str())?;
    Ok(text)
}

/// Warnings of sources with their explanations.
fn all_explained(alloc: Global, warnings: &[Warning<'_>]) -> Result<String, NoMemory>
    ensures { IfOk result (λ text. AreJoined IsExplained (warnings_view warnings.now) (string_bytes text)) }
{
    let mut text = String::new(alloc);
    for warning in warnings {
        let shown = explained(alloc, warning)?;
        text.push_str(shown.as_str())?;
    }
    Ok(text)
}

/// Warnings of a command file with their explanations.
fn all_links_explained(alloc: Global, warnings: &[LinkWarning<'_>]) -> Result<String, NoMemory>
    ensures { IfOk result (λ text. AreJoined IsLinkExplained (link_warnings_view warnings.now) (string_bytes text)) }
{
    let mut text = String::new(alloc);
    for warning in warnings {
        let shown = link_explained(alloc, warning)?;
        text.push_str(shown.as_str())?;
    }
    Ok(text)
}

/// The warnings of a program, each with its explanation after its line: for a warning of a source the line as it was
/// read and what the warning names, then what the warning means, what to do, and how to see its example.
///
/// `NoMemory` where memory runs out.
pub fn explain_warnings(alloc: Global, warnings: &ProgramWarnings<'_>) -> Result<String, NoMemory>
    ensures { IfOk result (λ text. IsProgramExplained (program_warnings_of warnings.now) (string_bytes text)) }
{
    let mut text = all_explained(alloc, warnings.of_lines.as_slice())?;
    let sections = all_links_explained(alloc, warnings.of_sections.as_slice())?;
    text.push_str(sections.as_str())?;
    Ok(text)
}

/// Warnings of data pages, each with its explanation after its line: what the warning means, what to do, and how to see
/// its example.
///
/// `NoMemory` where memory runs out.
pub fn explain_page_warnings(alloc: Global, warnings: &[PageWarning]) -> Result<String, NoMemory>
    ensures { IfOk result (λ text. AreJoined IsPageExplained warnings.now (string_bytes text)) }
{
    let mut text = String::new(alloc);
    for warning in warnings {
        let shown = page_explained(alloc, warning)?;
        text.push_str(shown.as_str())?;
    }
    Ok(text)
}
