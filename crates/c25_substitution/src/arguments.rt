//! The arguments of a macro call, and the text of `.asg`.

ghost use Rattle.std.specs.Prelude.{◌≡◌, ◌+◌, ◌∷◌, ◌++◌, [], map, take, drop, IfOk, OnOk};
ghost use Rattle.std.specs.String.{string_bytes};
ghost use Rattle.c25_meaning_language.specs.Arguments.{argument_len, arguments, assigned_text, operand_text, unquoted};

use crate::parameters::Arguments;
use crate::quoting::{last_comma_len, outer_len};
use crate::strings::unquoted;
use c25_meaning_common::no_memory::NoMemory;
use c25_text::{past_blanks, past_field};
use std::alloc::Global;

/// The operands of a line: the text after its mnemonic, directive or macro name, up to the comment.
fn operand_text(line: &str) -> &str
    ensures { result.now ≡ operand_text line.now }
{
    let bytes = line.as_bytes();
    let label_end = past_field(bytes, 0);
    let word_start = past_blanks(bytes, label_end);
    let word_end = past_field(bytes, word_start);
    let behind = &line[word_end..];
    let end = outer_len(b';', behind.as_bytes());
    &behind[..end]
}

/// The next argument as it is written, and the text after its comma. The last argument goes on to the end.
fn split_argument(text: &str, is_last: bool) -> (&str, &str)
    ensures argument { result.0.now ≡ take (argument_len is_last text.now) text.now }
    ensures rest { result.1.now ≡ drop (argument_len is_last text.now + 1) text.now }
{
    if is_last {
        return (text, "");
    }
    let end = outer_len(b',', text.as_bytes());
    if end < text.len() {
        (&text[..end], &text[end + 1..])
    } else {
        (text, "")
    }
}

/// Adds a parameter with its argument as it is written.
fn bind(
    alloc: Global,
    found: &mut Arguments,
    parameter: &str,
    argument: &str,
) -> Result<(), NoMemory>
    ensures { OnOk result (found.new ≡ found.old ++ (parameter.now, unquoted argument.now) ∷ []) }
{
    let name = String::from_str(alloc, parameter)?;
    let text = unquoted(alloc, argument)?;
    found.push(name, text)
}

/// The arguments of a line that calls a macro with these parameters; the names in the line are replaced
/// already. A missing argument is empty, and the last parameter gets all that is left of the operands.
/// `NoMemory` (9) where memory runs out.
pub fn arguments(alloc: Global, parameters: &[String], line: &str) -> Result<Arguments, NoMemory>
    ensures { IfOk result (λ found. found ≡ arguments (map (λ p. string_bytes p) parameters.now) line.now) }
{
    let mut found = Arguments::new(alloc);
    let mut rest = operand_text(line);
    let mut left = parameters;
    while let Some((parameter, others)) = left.split_first() {
        let (argument, behind) = split_argument(rest, others.is_empty());
        bind(alloc, &mut found, parameter.as_str(), argument)?;
        rest = behind;
        left = others;
    }
    Ok(found)
}

/// The text that a line `.asg text,name` assigns: its operands up to the last comma; all of them where there
/// is no comma. `NoMemory` (9) where memory runs out.
pub fn assigned_text(alloc: Global, line: &str) -> Result<String, NoMemory>
    ensures { IfOk result (λ out. string_bytes out ≡ assigned_text line.now) }
{
    let operands = operand_text(line);
    let end = last_comma_len(operands.as_bytes());
    unquoted(alloc, &operands[..end])
}
