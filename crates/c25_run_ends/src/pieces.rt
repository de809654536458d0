//! The pieces of the note of a run's end.

ghost use Rattle.std.specs.Prelude.{◌≡◌, IfOk, string_bytes};
ghost use Rattle.std.specs.Option.{option_map};
ghost use Rattle.c25_run_ends.specs.Texts as meant;

use c25_meaning_common::no_memory::NoMemory;
use c25_meaning_processor::stop::Stop;
use c25_texts::digits::four;
use std::alloc::Global;

/// Which words TBLW may write.
const WRITING: &str =
    "It takes the address from ACC; it may write to data in program memory alone.\n";

/// The lines of the instruction at which a run stands one step before its end.
#[tactic(auto, unfolding(crate::specs::Texts::before_text))]
pub(crate) fn before_text(alloc: Global, place: &str) -> Result<String, NoMemory>
    ensures { IfOk result (λ text. string_bytes text ≡ meant.before_text place.now) }
{
    Ok(format!(in alloc; "One step before its end the run stood at\n  {place}")?)
}

/// The lines of the instruction at which a run stands at its end.
#[tactic(auto, unfolding(crate::specs::Texts::end_text))]
pub(crate) fn end_text(alloc: Global, place: &str) -> Result<String, NoMemory>
    ensures { IfOk result (λ text. string_bytes text ≡ meant.end_text place.now) }
{
    Ok(format!(in alloc; "At its end it stands at\n  {place}")?)
}

/// The line that says how to see the example of an end.
#[tactic(auto, unfolding(crate::specs::Texts::example_text))]
pub(crate) fn example_text(alloc: Global, stop: Stop) -> Result<String, NoMemory>
    ensures { IfOk result (λ text. string_bytes text ≡ meant.example_text stop) }
{
    let name = stop.name();
    Ok(format!(in alloc; "Example: c25 explain {name}\n")?)
}

/// The lines of an address where an instruction begins.
#[tactic(auto, unfolding(crate::specs::Texts::instruction_text))]
pub(crate) fn instruction_text(alloc: Global, address: u16) -> Result<String, NoMemory>
    ensures { IfOk result (λ text. string_bytes text ≡ meant.instruction_text address) }
{
    let mut text = String::from_str(alloc, "An instruction begins at ")?;
    text.push_str(four(address).as_str())?;
    text.push_str(
        ". An interrupt was taken in the step that stopped, and no instruction\nbegins at its vector (0002, 0004 or 0006); or CNF is 1, and block B0 has other words there.\n",
    )?;
    Ok(text)
}

/// The line of an address that has the second word of an instruction, which ends with the place of the instruction.
#[tactic(auto, unfolding(crate::specs::Texts::second_text))]
pub(crate) fn second_text(alloc: Global, address: u16, end: &str) -> Result<String, NoMemory>
    ensures { IfOk result (λ text. string_bytes text ≡ meant.second_text address end.now) }
{
    let mut text = String::from_str(alloc, four(address).as_str())?;
    text.push_str(" is the second word of the instruction")?;
    text.push_str(end)?;
    text.push_str(
        "Control has to come to the first: in a table of branches each entry has two words.\n",
    )?;
    Ok(text)
}

/// The lines of an address of which a section has the word.
#[tactic(auto, unfolding(crate::specs::Texts::word_text))]
pub(crate) fn word_text(alloc: Global, address: u16, name: &str) -> Result<String, NoMemory>
    ensures { IfOk result (λ text. string_bytes text ≡ meant.word_text address name.now) }
{
    let mut text = String::from_str(alloc, "No instruction begins at ")?;
    text.push_str(four(address).as_str())?;
    text.push_str(", a word of section ")?;
    text.push_str(name)?;
    text.push_str(":\nit is data, or code that runs elsewhere (run =).\n")?;
    Ok(text)
}

/// Where the last instruction before a word stands in its section, and what to do.
#[tactic(auto, unfolding(crate::specs::Texts::around_text))]
fn around_text(alloc: Global, end: &str) -> Result<String, NoMemory>
    ensures { IfOk result (λ text. string_bytes text ≡ meant.around_text end.now) }
{
    let mut text = String::from_str(alloc, "The instruction before it in the section is")?;
    text.push_str(end)?;
    text.push_str("If the run came from there, put a branch, RET or IDLE between them.\n")?;
    Ok(text)
}

/// The same, where there may be no such instruction.
pub(crate) fn around_by(alloc: Global, place: Option<(&str, u32)>) -> Result<String, NoMemory>
    ensures { IfOk result (λ text. string_bytes text ≡ meant.around_by (option_map (λ r. (r.0.now, r.1)) place.entry)) }
{
    match place {
        Some((file, line)) => {
            let end = place_at(alloc, file, line)?;
            around_text(alloc, end.as_str())
        }
        None => Ok(String::new(alloc)),
    }
}

/// The line of an address of which no section has the word, after a section that ends just before it.
#[tactic(auto, unfolding(crate::specs::Texts::after_text))]
pub(crate) fn after_text(alloc: Global, address: u16, name: &str) -> Result<String, NoMemory>
    ensures { IfOk result (λ text. string_bytes text ≡ meant.after_text address name.now) }
{
    let mut text = String::from_str(alloc, "No section has a word at ")?;
    text.push_str(four(address).as_str())?;
    text.push_str("; section ")?;
    text.push_str(name)?;
    text.push_str(" ends before it.\nEnd a program with IDLE, or with a branch to itself.\n")?;
    Ok(text)
}

/// The line of an address of which no section has the word.
#[tactic(auto, unfolding(crate::specs::Texts::nothing_text))]
pub(crate) fn nothing_text(alloc: Global, address: u16) -> Result<String, NoMemory>
    ensures { IfOk result (λ text. string_bytes text ≡ meant.nothing_text address) }
{
    let mut text = String::from_str(alloc, "No section has a word at ")?;
    text.push_str(four(address).as_str())?;
    text.push_str(
        ".\nA run begins at 0000; BACC and CALA take an address from ACC, RET from the stack.\n",
    )?;
    Ok(text)
}

/// The line of a word that TBLW was to write, which ends with the place of its instruction.
#[tactic(auto, unfolding(crate::specs::Texts::written_text))]
pub(crate) fn written_text(alloc: Global, address: u16, end: &str) -> Result<String, NoMemory>
    ensures { IfOk result (λ text. string_bytes text ≡ meant.written_text address end.now) }
{
    let mut text = String::from_str(alloc, "TBLW was to write to ")?;
    text.push_str(four(address).as_str())?;
    text.push_str(", a word of the instruction")?;
    text.push_str(end)?;
    text.push_str(WRITING)?;
    Ok(text)
}

/// The line of the words that a repeated TBLW was to write.
#[tactic(auto, unfolding(crate::specs::Texts::repeated_text))]
pub(crate) fn repeated_text(alloc: Global, address: u16) -> Result<String, NoMemory>
    ensures { IfOk result (λ text. string_bytes text ≡ meant.repeated_text address) }
{
    let mut text = String::from_str(alloc, "TBLW is repeated, and was to write to ")?;
    text.push_str(four(address).as_str())?;
    text.push_str(" or a word after it, one of an instruction.\n")?;
    text.push_str(WRITING)?;
    Ok(text)
}

/// Why an instruction cannot be repeated, and what to do.
pub(crate) fn unrepeatable_text(alloc: Global) -> Result<String, NoMemory>
    ensures { IfOk result (λ text. string_bytes text ≡ meant.unrepeatable_text) }
{
    Ok(String::from_str(
        alloc,
        "This instruction may not be repeated: take the RPT or RPTK before it away, or write a loop with BANZ.\n",
    )?)
}

/// The line of a port whose samples are all read.
#[tactic(auto, unfolding(crate::specs::Texts::dry_text))]
pub(crate) fn dry_text(alloc: Global, port: u16, count: u64) -> Result<String, NoMemory>
    ensures { IfOk result (λ text. string_bytes text ≡ meant.dry_text port count) }
{
    let mut text = format!(in alloc; "PA{port}")?;
    let end = format!(in alloc; " has no samples left, after {count}.\n")?;
    text.push_str(end.as_str())?;
    Ok(text)
}

/// The end of a line about a word of an instruction, with the place of the instruction.
#[tactic(auto, unfolding(crate::specs::Texts::place_at))]
fn place_at(alloc: Global, file: &str, line: u32) -> Result<String, NoMemory>
    ensures { IfOk result (λ text. string_bytes text ≡ meant.place_at file.now line) }
{
    let mut text = String::from_str(alloc, " at ")?;
    text.push_str(file)?;
    let end = format!(in alloc; ":{line}.\n")?;
    text.push_str(end.as_str())?;
    Ok(text)
}

/// The same, where the place of the instruction may not be known.
pub(crate) fn place_end(alloc: Global, place: Option<(&str, u32)>) -> Result<String, NoMemory>
    ensures { IfOk result (λ text. string_bytes text ≡ meant.place_end (option_map (λ r. (r.0.now, r.1)) place.entry)) }
{
    match place {
        Some((file, line)) => place_at(alloc, file, line),
        None => Ok(String::from_str(alloc, ".\n")?),
    }
}
