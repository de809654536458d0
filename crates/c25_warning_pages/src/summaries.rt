//! The list of all warnings.

ghost use Rattle.std.specs.Prelude.{◌≡◌, ◌++◌, IfOk, OnOk, string_bytes};
ghost use Rattle.std.specs.List.{flat_map};
ghost use Rattle.c25_warning_pages.specs.Pages.{ArePagesOf, IsListOfAll, all_warnings, summary_line};

use crate::page::Page;
use crate::texts;
use c25_meaning_common::no_memory::NoMemory;
use std::alloc::Global;

/// The pages of all warnings.
fn all_pages(alloc: Global) -> Result<Vec<Page>, NoMemory>
    ensures { IfOk result (λ pages. ArePagesOf all_warnings pages.items) }
{
    Ok(vec![in alloc;
        texts::mnemonic_label(),
        texts::directive_label(),
        texts::register_shift(),
        texts::program_address(),
        texts::data_address(),
        texts::not_repeatable(),
        texts::unused(),
        texts::not_reached(),
        texts::reserved_in_program(),
        texts::absent_section(),
        texts::wrong_page(),
        texts::page_unsure(),
        texts::not_followed(),
        texts::code_left(),
    ]?)
}

/// The line of a warning in the list of all.
fn summary_line(alloc: Global, page: &Page) -> Result<String, NoMemory>
    ensures { IfOk result (λ line. string_bytes line ≡ summary_line page.now) }
{
    let name = page.name;
    let summary = page.summary;
    Ok(format!(in alloc; "{name}: {summary}\n")?)
}

/// Appends the lines of warnings.
fn push_summaries(alloc: Global, text: &mut String, pages: &[Page]) -> Result<(), NoMemory>
    ensures { OnOk result (string_bytes text.new ≡ string_bytes text.old ++ flat_map summary_line pages.now) }
{
    for page in pages {
        let line = summary_line(alloc, page)?;
        text.push_str(line.as_str())?;
    }
    Ok(())
}

/// The list of all warnings: a line for each, with its name and the first sentence of what it means.
pub fn list_of_warnings(alloc: Global) -> Result<String, NoMemory>
    ensures { IfOk result (λ text. IsListOfAll (string_bytes text)) }
{
    let pages = all_pages(alloc)?;
    let mut text = String::new(alloc);
    push_summaries(alloc, &mut text, pages.as_slice())?;
    Ok(text)
}
