//! What stands at a fault of the command file (60 to 63).

ghost use Rattle.std.specs.Prelude.{◌≡◌, ◌++◌, IfOk, OnOk, string_bytes};
ghost use Rattle.c25_cmd.specs.Refused.{standing_data};
ghost use Rattle.c25_explain.specs.Details.{byte_text, refused_text, standing_text};

use c25_cmd::RefusedAt;
use c25_meaning_common::no_memory::NoMemory;
use c25_texts::digits::two;
use std::alloc::Global;

/// Appends a visible character of ASCII as it is, or any other byte by its digits.
#[tactic(auto, using(std::proofs::lemmas::Str::encode_ascii))]
fn push_byte(text: &mut String, byte: u8) -> Result<(), NoMemory>
    ensures { OnOk result (string_bytes text.new ≡ string_bytes text.old ++ byte_text byte) }
{
    if byte > b' ' && byte < 0x7f {
        text.push(char::from(byte)).map_err(NoMemory::from)
    } else {
        let digits = two(byte);
        let digits = digits.as_str();
        write!(text, "byte {digits}h").map_err(NoMemory::from)
    }
}

/// Appends what stands at the fault, and its column.
fn push_standing(text: &mut String, standing: RefusedAt<'_>) -> Result<(), NoMemory>
    ensures { OnOk result (string_bytes text.new ≡ string_bytes text.old ++ standing_text (standing_data standing.entry)) }
{
    match standing {
        RefusedAt::Word { column, text: word } => {
            write!(text, "column {column}: {word}").map_err(NoMemory::from)
        }
        RefusedAt::Character { column, byte } => {
            write!(text, "column {column}: ")?;
            push_byte(text, byte)
        }
        RefusedAt::End => text.push_str("the text ends here").map_err(NoMemory::from),
    }
}

/// One line of text: the file, the number of the line, and what stands at the fault.
pub fn refused_text(
    alloc: Global,
    file: &str,
    line: usize,
    standing: RefusedAt<'_>,
) -> Result<String, NoMemory>
    ensures { IfOk result (λ text. string_bytes text ≡ refused_text file.now line (standing_data standing.entry)) }
{
    let mut text = format!(in alloc; "{file}:{line}: ")?;
    push_standing(&mut text, standing)?;
    text.push_str("\n")?;
    Ok(text)
}
