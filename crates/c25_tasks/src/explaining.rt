//! The task `explain`.

ghost use Rattle.std.specs.Prelude.{◌≡◌, IfOk, string_bytes};
ghost use Rattle.c25_explain.specs.Explanation.{whole_text};
ghost use Rattle.c25_explain.specs.RunEnds.{end_text};
ghost use Rattle.c25_options.specs.Task.{text_of};
ghost use Rattle.c25_reference.specs.Entries as entries;
ghost use Rattle.c25_tasks.specs.Explaining.{Explained, ExplainedEnd, ExplainedEntry, ExplainedName, ExplainedTold, ExplainedWarning, ExplainedWord, IsWholeList, Listed, PrintsParts, unknown_line, unknown_name_line};
ghost use Rattle.c25_tasks.specs.Tells.{IsLineOf};
ghost use Rattle.c25_warning_pages.specs.Pages as pages;

use c25_explain::explanation::{explanation, explanation_named};
use c25_explain::parts::Explanation;
use c25_explain::run_ends::{RunEnd, run_end_named};
use c25_explain::summaries::list_of_faults;
use c25_meaning_common::no_memory::NoMemory;
use c25_reference::{Entry, entry_named};
use c25_report::ending::Ending;
use c25_report::printing::print_answers;
use c25_warning_pages::{Page, list_of_warnings, page_named};
use std::alloc::Global;
use std::io::Write;

/// The text for a number that no fault has.
fn unknown_line(alloc: Global, number: u8) -> Result<String, NoMemory>
    ensures { IfOk result (λ line. string_bytes line ≡ unknown_line number) }
{
    Ok(format!(in alloc; "explain: no fault has the number {number}")?)
}

/// The ending for a number that no fault has.
fn unknown(alloc: Global, number: u8) -> Ending
    ensures { IsLineOf (unknown_line number) result }
{
    match unknown_line(alloc, number) {
        Ok(line) => Ending::Faulty(line),
        Err(error) => Ending::NoMemory(error),
    }
}

/// The ending for a word that no fault has as its number or its name, and no end of a run, warning, instruction or directive as
/// its name.
fn unknown_name(alloc: Global, word: &str) -> Ending
    ensures { IsLineOf (unknown_name_line word.now) result }
{
    match format!(in alloc;
        "explain: no fault, end of a run, warning, instruction or directive has the number or the name {word}: c25 explain lists faults and warnings"
    ) {
        Ok(line) => Ending::Faulty(line),
        Err(error) => Ending::NoMemory(NoMemory::from(error)),
    }
}

/// Prints an explanation.
fn print_explanation<O: Write>(explanation: &Explanation, out: &mut O) -> Ending
    ensures { PrintsParts (whole_text explanation.now) result (O.contents out.old, O.contents out.new) }
{
    match write!(out, "{explanation}") {
        Ok(()) => Ending::Done,
        Err(_) => Ending::Unprinted,
    }
}

/// Prints the explanation of the fault of this number; a number that no fault has is reported.
fn explain_number<O: Write>(alloc: Global, number: u8, out: &mut O) -> Ending
    ensures { Explained number result (O.contents out.old, O.contents out.new) }
{
    match explanation(number) {
        Some(explanation) => print_explanation(&explanation, out),
        None => unknown(alloc, number),
    }
}

/// Prints the explanation of the end of a run.
fn print_end<O: Write>(end: &RunEnd, out: &mut O) -> Ending
    ensures { PrintsParts (end_text end.now) result (O.contents out.old, O.contents out.new) }
{
    match write!(out, "{end}") {
        Ok(()) => Ending::Done,
        Err(_) => Ending::Unprinted,
    }
}

/// Prints the explanation of a warning.
fn print_page<O: Write>(page: &Page, out: &mut O) -> Ending
    ensures { PrintsParts (pages.whole_text page.now) result (O.contents out.old, O.contents out.new) }
{
    match write!(out, "{page}") {
        Ok(()) => Ending::Done,
        Err(_) => Ending::Unprinted,
    }
}

/// Prints an entry of the reference.
fn print_entry<O: Write>(entry: &Entry, out: &mut O) -> Ending
    ensures { PrintsParts (entries.whole_text entry.now) result (O.contents out.old, O.contents out.new) }
{
    match write!(out, "{entry}") {
        Ok(()) => Ending::Done,
        Err(_) => Ending::Unprinted,
    }
}

/// Prints the entry of the instruction or the directive of this name; a name that none has is reported.
fn explain_entry<O: Write>(alloc: Global, name: &str, out: &mut O) -> Ending
    ensures { ExplainedEntry name.now result (O.contents out.old, O.contents out.new) }
{
    match entry_named(name) {
        Some(entry) => print_entry(&entry, out),
        None => unknown_name(alloc, name),
    }
}

/// Prints the explanation of the warning, the instruction or the directive of this name; a name that none has is reported.
fn explain_warning<O: Write>(alloc: Global, name: &str, out: &mut O) -> Ending
    ensures { ExplainedWarning name.now result (O.contents out.old, O.contents out.new) }
{
    match page_named(name) {
        Some(page) => print_page(&page, out),
        None => explain_entry(alloc, name, out),
    }
}

/// Prints the explanation of the end of a run, the warning, the instruction or the directive of this name; a name that none has is
/// reported.
fn explain_end<O: Write>(alloc: Global, name: &str, out: &mut O) -> Ending
    ensures { ExplainedEnd name.now result (O.contents out.old, O.contents out.new) }
{
    match run_end_named(name) {
        Some(end) => print_end(&end, out),
        None => explain_warning(alloc, name, out),
    }
}

/// Prints the explanation of the fault, the end of a run, the warning, the instruction or the directive of this name; a name that
/// none has is reported.
fn explain_name<O: Write>(alloc: Global, name: &str, out: &mut O) -> Ending
    ensures { ExplainedName name.now result (O.contents out.old, O.contents out.new) }
{
    match explanation_named(name) {
        Some(explanation) => print_explanation(&explanation, out),
        None => explain_end(alloc, name, out),
    }
}

/// Prints the explanation of what a word gives: a fault by its number, or a fault, an end of a run, a warning, an instruction or a
/// directive by its name.
fn explain_word<O: Write>(alloc: Global, word: &str, out: &mut O) -> Ending
    ensures { ExplainedWord word.now result (O.contents out.old, O.contents out.new) }
{
    match word.parse::<u8>() {
        Ok(number) => explain_number(alloc, number, out),
        Err(_) => explain_name(alloc, word, out),
    }
}

/// The list of all faults and of all warnings.
fn whole_list(alloc: Global) -> Result<String, NoMemory>
    ensures { IfOk result (λ text. IsWholeList (string_bytes text)) }
{
    let mut text = list_of_faults(alloc)?;
    let warnings = list_of_warnings(alloc)?;
    text.push_str(warnings.as_str())?;
    Ok(text)
}

/// Prints the list of all faults and of all warnings.
fn print_list<O: Write>(alloc: Global, out: &mut O) -> Ending
    ensures { Listed result (O.contents out.old, O.contents out.new) }
{
    match whole_list(alloc) {
        Ok(text) => print_answers(text.as_str(), out),
        Err(error) => Ending::NoMemory(error),
    }
}

/// Prints the explanation of what the word gives, or without a word the list of all faults and of all warnings.
pub(crate) fn explain<O: Write>(alloc: Global, word: Option<&str>, out: &mut O) -> Ending
    ensures { ExplainedTold (text_of word.entry) result (O.contents out.old, O.contents out.new) }
{
    match word {
        Some(word) => explain_word(alloc, word, out),
        None => print_list(alloc, out),
    }
}
