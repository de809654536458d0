//! The line that reports why an image has no source.

ghost use Rattle.std.specs.Prelude.{◌≡◌, IfOk, codes, string_bytes};
ghost use Rattle.c25_image_source.specs.Faults.{binary_line, binary_number, image_fault, image_line, long_name_line, many_line, no_hex_line, not_made_line};
ghost use Rattle.c25_meaning_common.specs.Faults.{numbered, placed_text};

use crate::fault::ImageFault;
use c25_binary::binary_fault::BinaryFault;
use c25_chain::write_refusal;
use c25_meaning_common::no_memory::NoMemory;
use c25_meaning_common::placed::Placed;
use c25_source::NotMade;
use c25_texts::appending::{push_four, push_text};
use std::alloc::Global;

/// The line of a file that is no hex text.
fn no_hex_line(alloc: Global, name: &str) -> Result<String, NoMemory>
    ensures { IfOk result (λ line. string_bytes line ≡ no_hex_line name.now) }
{
    let mut line = String::new(alloc);
    push_text(&mut line, "dis: ")?;
    push_text(&mut line, name)?;
    push_text(
        &mut line,
        " is no hex text: --binary reads the bytes of words, and srec_cat makes one of S-records",
    )?;
    Ok(line)
}

/// The number of a fault of binary files.
fn binary_number(fault: BinaryFault) -> u8
    ensures { result ≡ binary_number fault }
{
    match fault {
        BinaryFault::OddLength => 93,
        BinaryFault::LengthsDiffer => 94,
        BinaryFault::TooLong => 96,
    }
}

/// The line of a fault of binary files.
fn binary_line(alloc: Global, name: &str, fault: BinaryFault) -> Result<String, NoMemory>
    ensures { IfOk result (λ line. string_bytes line ≡ binary_line name.now fault) }
{
    let number = binary_number(fault);
    let fault = fault.name();
    Ok(format!(in alloc; "{name}: {number} {fault}")?)
}

/// The line of a fault in a line of the text of this name.
fn placed_line(
    alloc: Global,
    name: &str,
    line: usize,
    number: u8,
    fault: &str,
) -> Result<String, NoMemory>
    ensures { IfOk result (λ text. string_bytes text ≡ placed_text name.now line (numbered number fault.now)) }
{
    Ok(format!(in alloc; "{name}:{line}: {number} {fault}")?)
}

/// The line of a line of hints that is no hint.
fn hint_line(alloc: Global, line: usize) -> Result<String, NoMemory>
    ensures { IfOk result (λ text. string_bytes text ≡ placed_text (codes "hints") line (numbered 92 (codes "BadHint"))) }
{
    placed_line(alloc, "hints", line, 92, "BadHint")
}

/// The line of an image that comes to too many parts, of which the first one too many begins at an address.
fn many_line(alloc: Global, address: u16) -> Result<String, NoMemory>
    ensures { IfOk result (λ line. string_bytes line ≡ many_line address) }
{
    let mut line = String::new(alloc);
    push_text(&mut line, "image:")?;
    push_four(&mut line, address)?;
    push_text(&mut line, ": 97 TooManySections")?;
    Ok(line)
}

/// The line of a name that is too long for the file of a source.
fn long_name_line(alloc: Global) -> Result<String, NoMemory>
    ensures { IfOk result (λ line. string_bytes line ≡ long_name_line) }
{
    Ok(String::from_str(alloc, "--source: 54 TooLarge")?)
}

/// The line that reports a fault of the files of an image or of its hints: `FILE: 8 CannotRead`, `hex:LINE: 83 BadSum`,
/// `FILE: 94 LengthsDiffer` and the like, `hints:LINE: 92 BadHint`, or that a file is no hex text.
pub fn image_line(alloc: Global, fault: &ImageFault<String>) -> Result<String, NoMemory>
    ensures { IfOk result (λ line. string_bytes line ≡ image_line (image_fault fault.now)) }
{
    match fault {
        ImageFault::Chain(fault) => write_refusal(alloc, fault),
        ImageFault::NoHex(name) => no_hex_line(alloc, name.as_str()),
        ImageFault::Binary(Placed { place, fault }) => binary_line(alloc, place.as_str(), *fault),
        ImageFault::Hint { line } => hint_line(alloc, *line),
    }
}

/// The line that reports why the words of an image have no source: `image:ADDRESS: 97 TooManySections`, or
/// `--source: 54 TooLarge` where the name of its file is too long.
pub fn not_made_line(alloc: Global, why: NotMade) -> Result<String, NoMemory>
    ensures { IfOk result (λ line. string_bytes line ≡ not_made_line why) }
{
    match why {
        NotMade::TooManySections(address) => many_line(alloc, address),
        NotMade::LongName => long_name_line(alloc),
    }
}
