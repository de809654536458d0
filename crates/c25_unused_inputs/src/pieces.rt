//! The pieces of the lines of what a run did not use.

ghost use Rattle.std.specs.Prelude.{◌≡◌, ◌++◌, IfOk, false, string_bytes};
ghost use Rattle.c25_unused_inputs.specs.Texts as meant;

use c25_meaning_common::no_memory::NoMemory;
use std::alloc::Global;

/// The verb of so many things.
#[tactic(auto, unfolding(crate::specs::Texts::verb))]
fn verb(count: u64) -> &'static str
    ensures { result.now ≡ meant.verb count }
{
    if count == 1 { "was" } else { "were" }
}

/// So many samples of a port.
#[tactic(auto, unfolding(crate::specs::Texts::left_text))]
fn left_text(alloc: Global, port: u16, left: u64) -> Result<String, NoMemory>
    ensures { IfOk result (λ text. string_bytes text ≡ meant.left_text port left) }
{
    let mut text = format!(in alloc; "PA{port}")?;
    let count = format!(in alloc; ": {left} of ")?;
    text.push_str(count.as_str())?;
    Ok(text)
}

/// That of so many samples some were not read.
#[tactic(auto, unfolding(crate::specs::Texts::not_read_text))]
fn not_read_text(alloc: Global, had: u64, left: u64) -> Result<String, NoMemory>
    ensures { IfOk result (λ text. string_bytes text ≡ meant.not_read_text had left) }
{
    let mut text = format!(in alloc; "{had} samples ")?;
    text.push_str(verb(left))?;
    text.push_str(" not read.\n")?;
    Ok(text)
}

/// The line of a port that has samples left.
pub(crate) fn unread_text(alloc: Global, port: u16, had: u64, left: u64) -> Result<String, NoMemory>
    ensures { IfOk result (λ text. string_bytes text ≡ meant.unread_text port had left) }
{
    let text = left_text(alloc, port, left)?;
    joined(text, not_read_text(alloc, had, left)?)
}

/// The line of a port that had samples.
#[tactic(auto, unfolding(crate::specs::Texts::had_text))]
pub(crate) fn had_text(alloc: Global, port: u16, had: u64) -> Result<String, NoMemory>
    ensures { IfOk result (λ text. string_bytes text ≡ meant.had_text port had) }
{
    let mut text = format!(in alloc; "  {had}")?;
    let end = format!(in alloc; " for PA{port}\n")?;
    text.push_str(end.as_str())?;
    Ok(text)
}

/// That a port has no samples, with the lines of those that have some.
#[tactic(auto, unfolding(crate::specs::Texts::none_text))]
fn none_text(alloc: Global, port: u16, lines: &str) -> Result<String, NoMemory>
    ensures { IfOk result (λ text. string_bytes text ≡ meant.none_text port lines.now) }
{
    let mut text = format!(in alloc; "PA{port}")?;
    text.push_str(" has no samples. The list has\n")?;
    text.push_str(lines)?;
    Ok(text)
}

/// That a port is to be written.
#[tactic(auto, unfolding(crate::specs::Texts::writing_text))]
fn writing_text(alloc: Global, port: u16) -> Result<String, NoMemory>
    ensures { IfOk result (λ text. string_bytes text ≡ meant.writing_text port) }
{
    Ok(format!(in alloc; "Write {port} as the port of those that are for ")?)
}

/// Or that another is to be named.
#[tactic(auto, unfolding(crate::specs::Texts::naming_text))]
fn naming_text(alloc: Global, port: u16) -> Result<String, NoMemory>
    ensures { IfOk result (λ text. string_bytes text ≡ meant.naming_text port) }
{
    Ok(format!(in alloc; "PA{port}, or name their port in this IN.\n")?)
}

/// What to do where a port has no samples, and others have some.
fn moving_text(alloc: Global, port: u16) -> Result<String, NoMemory>
    ensures { IfOk result (λ text. string_bytes text ≡ meant.moving_text port) }
{
    let text = writing_text(alloc, port)?;
    joined(text, naming_text(alloc, port)?)
}

/// The lines of a port without samples, around those of the ports that have some.
pub(crate) fn elsewhere_text(alloc: Global, port: u16, lines: &str) -> Result<String, NoMemory>
    ensures { IfOk result (λ text. string_bytes text ≡ meant.elsewhere_text port lines.now) }
{
    let text = none_text(alloc, port, lines)?;
    joined(text, moving_text(alloc, port)?)
}

/// The interrupt of a line at a step.
#[tactic(auto, unfolding(crate::specs::Texts::request_name))]
pub(crate) fn request_name(alloc: Global, number: u8, step: u32) -> Result<String, NoMemory>
    ensures { IfOk result (λ text. string_bytes text ≡ meant.request_name number step) }
{
    let mut text = format!(in alloc; "INT{number}")?;
    let end = format!(in alloc; " of step {step}")?;
    text.push_str(end.as_str())?;
    Ok(text)
}

/// That the bit of a line in IMR is clear.
#[tactic(auto, unfolding(crate::specs::Texts::masked_text))]
fn masked_text(alloc: Global, number: u8) -> Result<String, NoMemory>
    ensures { IfOk result (λ text. string_bytes text ≡ meant.masked_text number) }
{
    let bit = format!(in alloc; "{number} clear")?;
    let mut text = String::from_str(
        alloc,
        " was not taken: at the end IMR (data word 4) has bit ",
    )?;
    text.push_str(bit.as_str())?;
    Ok(text)
}

/// What sets the bit of a line in IMR.
#[tactic(auto, unfolding(crate::specs::Texts::setting_text))]
fn setting_text(alloc: Global, bit: u16) -> Result<String, NoMemory>
    ensures { IfOk result (λ text. string_bytes text ≡ meant.setting_text bit) }
{
    let end = format!(in alloc; "{bit} and SACL 4 set it.\n")?;
    let mut text = String::from_str(alloc, ".\nBefore EINT, LDPK 0, LACK ")?;
    text.push_str(end.as_str())?;
    Ok(text)
}

/// What sets the bit of a line in IMR, where INTM is 1 too.
#[tactic(auto, unfolding(crate::specs::Texts::enabling_text))]
fn enabling_text(alloc: Global, bit: u16) -> Result<String, NoMemory>
    ensures { IfOk result (λ text. string_bytes text ≡ meant.enabling_text bit) }
{
    let end = format!(in alloc; "{bit} and SACL 4 set the bit, and EINT then clears INTM.\n")?;
    let mut text = String::from_str(alloc, ", and INTM is 1.\nLDPK 0, LACK ")?;
    text.push_str(end.as_str())?;
    Ok(text)
}

/// A text, and another one after it.
fn joined(mut text: String, end: String) -> Result<String, NoMemory>
    ensures { IfOk result (λ all. string_bytes all ≡ string_bytes text ++ string_bytes end) }
{
    text.push_str(end.as_str())?;
    Ok(text)
}

/// Why an interrupt was not taken whose bit in IMR is clear, by whether INTM is 1.
fn masked_reason(alloc: Global, number: u8, bit: u16, intm: bool) -> Result<String, NoMemory>
    ensures { IfOk result (λ text. string_bytes text ≡ meant.reason_text number bit false intm) }
{
    let text = masked_text(alloc, number)?;
    if intm {
        return joined(text, enabling_text(alloc, bit)?);
    }
    joined(text, setting_text(alloc, bit)?)
}

/// Why an interrupt was not taken, by whether at the end its bit in IMR is set and INTM is 1.
pub(crate) fn reason_text(
    alloc: Global,
    number: u8,
    bit: u16,
    unmasked: bool,
    intm: bool,
) -> Result<String, NoMemory>
    ensures { IfOk result (λ text. string_bytes text ≡ meant.reason_text number bit unmasked intm) }
{
    if !unmasked {
        return masked_reason(alloc, number, bit, intm);
    }
    if !intm {
        return Ok(String::from_str(alloc, " was not taken before the run ended.\n")?);
    }
    Ok(String::from_str(
        alloc,
        " was not taken: at the end INTM is 1, as after a reset, DINT and an interrupt.\nEINT clears it.\n",
    )?)
}

/// That a step comes after the end of a run of so many steps.
#[tactic(auto, unfolding(crate::specs::Texts::unreached_text))]
pub(crate) fn unreached_text(alloc: Global, steps: u32) -> Result<String, NoMemory>
    ensures { IfOk result (λ text. string_bytes text ≡ meant.unreached_text steps) }
{
    let end = format!(in alloc; "{steps}.\n")?;
    let mut text = String::from_str(alloc, " was not reached; steps done: ")?;
    text.push_str(end.as_str())?;
    Ok(text)
}
