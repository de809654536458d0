//! The code page of old files.

ghost use Rattle.std.specs.Prelude.{◌≡◌, IfErr, IfOk, Some};
ghost use Rattle.std.specs.Option.{option_map};
ghost use Rattle.c25_move_files.specs.Refusals as meaning;
ghost use Rattle.c25_move_files.specs.Task.{code_page_asked, code_page_named};

use crate::refusals::Refusal;
use c25_meaning_common::no_memory::NoMemory;
use c25_move::CodePage;
use std::alloc::Global;

/// The code page of this name.
fn code_page_named(name: &str) -> Option<CodePage>
    ensures { result ≡ code_page_named name.now }
{
    match name {
        "cp437" => Some(CodePage::Cp437),
        "latin1" => Some(CodePage::Latin1),
        _ => None,
    }
}

/// The refusal of an argument that names no code page.
fn no_code_page(alloc: Global, word: &str) -> Refusal
    ensures { meaning.IsMisused (λ line. line ≡ meaning.no_code_page_line word.now) result }
{
    match format!(in alloc; "c25: --from takes cp437 or latin1, not {word}") {
        Ok(line) => Refusal::Misused(line),
        Err(error) => Refusal::NoMemory(NoMemory::from(error)),
    }
}

/// The code page that the argument of `--from` names; code page 437 where it is not given. Refused where it names none.
pub fn code_page_asked(alloc: Global, word: Option<&str>) -> Result<CodePage, Refusal>
    ensures asked { IfOk result (λ p. code_page_asked (option_map (λ w. w.now) word.entry) ≡ Some p) }
    ensures refused { IfErr result (meaning.IsMisused (meaning.IsNoCodePage (option_map (λ w. w.now) word.entry))) }
{
    match word {
        None => Ok(CodePage::Cp437),
        Some(word) => match code_page_named(word) {
            Some(code_page) => Ok(code_page),
            None => Err(no_code_page(alloc, word)),
        },
    }
}
