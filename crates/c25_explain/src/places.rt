//! The part of a source's line that is refused, shown by carets below the line.

ghost use Rattle.std.specs.Option.{option_map};
ghost use Rattle.std.specs.Prelude.{◌≡◌, ◌++◌, IfOk, OnOk, Some, drop, map, string_bytes, take};
ghost use Rattle.c25_asm.specs.Seen.{seen_of};
ghost use Rattle.c25_explain.specs.Places.{blank_below, blanks_below, caret_below, caret_line, carets_below, goes_on, hint_after, lines_with, margin, misfit_remark, number_line, part_below, part_text, range_text, refused_of, remark_on, value_text};

use c25_asm::SeenLine;
use c25_hints::remark_among;
use c25_meaning_common::no_memory::NoMemory;
use c25_meaning_language::statement::FaultKind;
use c25_places::{Misfit, Part, RefusedValue, refused_part, refused_value};
use std::alloc::Global;

/// Whether a byte goes on with a character that began before it.
fn goes_on(byte: u8) -> bool
    ensures { result ≡ goes_on byte }
{
    byte >= 128 && byte < 192
}

/// Appends what stands below a byte: a tab below a tab, a blank below the first byte of any other character.
fn push_blank(line: &mut String, above: u8) -> Result<(), NoMemory>
    ensures { OnOk result (string_bytes line.new ≡ string_bytes line.old ++ blank_below above) }
{
    if goes_on(above) {
        Ok(())
    } else if above == b'\t' {
        line.push_str("\t").map_err(NoMemory::from)
    } else {
        line.push_str(" ").map_err(NoMemory::from)
    }
}

/// Appends tabs below the tabs of a text, and blanks below its other characters.
#[tactic(auto, using(crate::proofs::Columns::blanks_more, crate::proofs::Columns::blanks_none))]
fn push_blanks(line: &mut String, above: &[u8]) -> Result<(), NoMemory>
    ensures { OnOk result (string_bytes line.new ≡ string_bytes line.old ++ blanks_below above.now) }
{
    for byte in above {
        push_blank(line, *byte)?;
    }
    Ok(())
}

/// Appends a caret below the first byte of a character.
fn push_caret(line: &mut String, above: u8) -> Result<(), NoMemory>
    ensures { OnOk result (string_bytes line.new ≡ string_bytes line.old ++ caret_below above) }
{
    if goes_on(above) {
        Ok(())
    } else {
        line.push_str("^").map_err(NoMemory::from)
    }
}

/// Appends one caret for each character of a text.
#[tactic(auto, using(crate::proofs::Columns::carets_more, crate::proofs::Columns::carets_none))]
fn push_carets(line: &mut String, above: &[u8]) -> Result<(), NoMemory>
    ensures { OnOk result (string_bytes line.new ≡ string_bytes line.old ++ carets_below above.now) }
{
    for byte in above {
        push_caret(line, *byte)?;
    }
    Ok(())
}

/// So many bytes at the front of a text, or all of it.
fn front(text: &[u8], count: usize) -> &[u8]
    ensures { result.now ≡ take count text.now }
{
    if count < text.len() {
        &text[..count]
    } else {
        text
    }
}

/// What follows so many bytes of a text.
fn rest(text: &[u8], count: usize) -> &[u8]
    ensures { result.now ≡ drop count text.now }
{
    if count < text.len() {
        &text[count..]
    } else {
        &[]
    }
}

/// A line of a source with its number.
fn number_line(alloc: Global, number: usize, text: &str) -> Result<String, NoMemory>
    ensures { IfOk result (λ line. string_bytes line ≡ number_line number text.now) }
{
    Ok(format!(in alloc; "  {number} | {text}\n")?)
}

/// What stands at the front of the line below one with this number.
fn margin(alloc: Global, number: usize) -> Result<String, NoMemory>
    ensures { IfOk result (λ line. string_bytes line ≡ margin number) }
{
    let digits = format!(in alloc; "{number}")?;
    let mut line = String::from_str(alloc, "  ")?;
    push_blanks(&mut line, digits.as_bytes())?;
    line.push_str(" | ")?;
    Ok(line)
}

/// Appends carets below a part of a text.
fn push_part(line: &mut String, text: &[u8], part: Part) -> Result<(), NoMemory>
    ensures { OnOk result (string_bytes line.new ≡ string_bytes line.old ++ part_below text.now part) }
{
    push_blanks(line, front(text, part.start))?;
    push_carets(line, rest(front(text, part.end), part.start))
}

/// The line below one with this number and this text: carets below a part of it, and a remark on that part,
/// which may be empty.
fn caret_line(
    alloc: Global,
    number: usize,
    text: &str,
    part: Part,
    remark: &str,
) -> Result<String, NoMemory>
    ensures { IfOk result (λ line. string_bytes line ≡ caret_line number text.now part remark.now) }
{
    let mut line = margin(alloc, number)?;
    push_part(&mut line, text.as_bytes(), part)?;
    line.push_str(remark)?;
    line.push_str("\n")?;
    Ok(line)
}

/// Appends a value that does not go into its range.
#[tactic(auto, unfolding(crate::specs::Places::value_text))]
fn push_value(text: &mut String, value: i32) -> Result<(), NoMemory>
    ensures { OnOk result (string_bytes text.new ≡ string_bytes text.old ++ value_text value) }
{
    write!(text, " {value} does not go into ").map_err(NoMemory::from)
}

/// Appends a range.
#[tactic(auto, unfolding(crate::specs::Places::range_text))]
fn push_range(text: &mut String, least: i32, most: i32) -> Result<(), NoMemory>
    ensures { OnOk result (string_bytes text.new ≡ string_bytes text.old ++ range_text least most) }
{
    write!(text, "{least} to {most}").map_err(NoMemory::from)
}

/// The remark on a value that does not go into its range.
fn misfit_remark(alloc: Global, misfit: Misfit) -> Result<String, NoMemory>
    ensures { IfOk result (λ text. string_bytes text ≡ misfit_remark misfit) }
{
    let mut text = String::new(alloc);
    push_value(&mut text, misfit.value)?;
    push_range(&mut text, misfit.least, misfit.most)?;
    Ok(text)
}

/// Appends a hint after what separates it from the text before it, if there is a hint.
fn push_hint(text: &mut String, separator: &str, hint: Option<&str>) -> Result<(), NoMemory>
    ensures { OnOk result (string_bytes text.new ≡ string_bytes text.old ++ hint_after separator.now (option_map (λ h. h.now) hint.entry)) }
{
    let Some(hint) = hint else {
        return Ok(());
    };
    text.push_str(separator)?;
    text.push_str(hint)?;
    Ok(())
}

/// The remark on a part that is refused: the value that does not go into its range, and the hint, where they
/// are known.
fn remark_on(alloc: Global, misfit: Option<Misfit>, hint: Option<&str>) -> Result<String, NoMemory>
    ensures { IfOk result (λ text. string_bytes text ≡ remark_on misfit (option_map (λ h. h.now) hint.entry)) }
{
    match misfit {
        Some(misfit) => {
            let mut text = misfit_remark(alloc, misfit)?;
            push_hint(&mut text, "; ", hint)?;
            Ok(text)
        }
        None => {
            let mut text = String::new(alloc);
            push_hint(&mut text, " ", hint)?;
            Ok(text)
        }
    }
}

/// The part that is refused of a line, as it was read: the operand whose value has this fault, or else the part
/// that has it by itself.
fn refused_of(
    alloc: Global,
    seen: &SeenLine<'_>,
    kind: FaultKind,
) -> Result<Option<RefusedValue>, NoMemory>
    ensures { IfOk result (λ o. o ≡ refused_of (seen_of seen.now) kind) }
{
    let text = seen.text.as_str();
    if let Some(refused) = refused_value(alloc, text, kind, &seen.symbols)? {
        return Ok(Some(refused));
    }
    match refused_part(alloc, text, kind)? {
        Some(part) => Ok(Some(RefusedValue { part, misfit: None })),
        None => Ok(None),
    }
}

/// The line of this number and this text, and carets below the part of it that is refused, with this hint.
fn lines_with(
    alloc: Global,
    number: usize,
    text: &str,
    hint: Option<&str>,
    refused: RefusedValue,
) -> Result<String, NoMemory>
    ensures { IfOk result (λ lines. string_bytes lines ≡ lines_with number text.now (option_map (λ h. h.now) hint.entry) (Some refused)) }
{
    let remark = remark_on(alloc, refused.misfit, hint)?;
    let below = caret_line(alloc, number, text, refused.part, remark.as_str())?;
    let mut lines = number_line(alloc, number, text)?;
    lines.push_str(below.as_str())?;
    Ok(lines)
}

/// The same of a line that was read, with the hint on its fault, where there are these macros; empty where no part
/// is known.
fn seen_lines(
    alloc: Global,
    number: usize,
    kind: FaultKind,
    macros: &[&str],
    seen: &SeenLine<'_>,
) -> Result<String, NoMemory>
    ensures { IfOk result (λ text. string_bytes text ≡ part_text number kind (map (λ n. n.now) macros.now) (Some (seen_of seen.now))) }
{
    let Some(refused) = refused_of(alloc, seen, kind)? else {
        return Ok(String::new(alloc));
    };
    let text = seen.text.as_str();
    match remark_among(alloc, text, kind, &seen.symbols, macros)? {
        Some(hint) => lines_with(alloc, number, text, Some(hint.as_str()), refused),
        None => lines_with(alloc, number, text, None, refused),
    }
}

/// Two lines that show which part of a line of this number is refused with this fault: the line as it was read,
/// and carets below the part, with a remark, which knows these macros. The text is empty where the line was not
/// read, or the part is not known.
pub(crate) fn part_text(
    alloc: Global,
    number: usize,
    kind: FaultKind,
    macros: &[&str],
    seen: &Option<SeenLine<'_>>,
) -> Result<String, NoMemory>
    ensures { IfOk result (λ text. string_bytes text ≡ part_text number kind (map (λ n. n.now) macros.now) (option_map seen_of seen.now)) }
{
    match seen {
        Some(seen) => seen_lines(alloc, number, kind, macros, seen),
        None => Ok(String::new(alloc)),
    }
}
