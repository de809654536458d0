//! A whole hex text, read.

ghost use Rattle.std.specs.Prelude.{◌≡◌, IfOk, IfErr, vec_len};
ghost use Rattle.std.specs.FinMap as map;
ghost use Rattle.c25_hex.specs.Hex as spec;
ghost use Rattle.c25_hex.specs.Cells.{cells_map};
ghost use Rattle.c25_meaning_common.specs.Results.{Meets, Fails};
ghost use Rattle.c25_hex.specs.View.{at_line, hex_state};

use crate::hex_fault::HexFault;
use crate::state::Reader;
use crate::words::words_of;
use c25_meaning_common::failure::Failure;
use c25_meaning_common::no_memory::NoMemory;
use c25_meaning_common::placed::Placed;
use c25_meaning_image::word_map::WordMap;
use std::alloc::Global;

fn none_given(alloc: Global) -> Result<Vec<Option<u8>>, NoMemory>
    ensures empty { IfOk result (λ v. cells_map v.items ≡ map.empty) }
    ensures sized { IfOk result (λ v. vec_len v ≡ 131072) }
{
    let mut bytes = Vec::new(alloc);
    for _ in 0..131_072usize {
        bytes.push(None)?;
    }
    Ok(bytes)
}

fn start(alloc: Global) -> Result<Reader, NoMemory>
    ensures { IfOk result (λ r. hex_state r ≡ spec.start) }
{
    let bytes = none_given(alloc)?;
    Ok(Reader {
        base: 0,
        bytes,
        ended: false,
    })
}

/// The failure of a line, with the number of the line.
fn at_line(failure: Failure<HexFault>, line: usize) -> Failure<Placed<usize, HexFault>>
    ensures { result ≡ at_line failure line }
{
    match failure {
        Failure::NoMemory(error) => Failure::NoMemory(error),
        Failure::Fault(fault) => Failure::Fault(Placed { place: line, fault }),
    }
}

/// The bytes that the lines of a text give, by their addresses.
fn bytes_given(alloc: Global, text: &str) -> Result<Reader, Failure<Placed<usize, HexFault>>>
    ensures { Meets (λ r. cells_map r.bytes.items) (spec.bytes_given text.now) result }
{
    let mut reader = start(alloc)?;
    let mut number = 0usize;
    for line in text.lines() {
        number += 1;
        match reader.take_line(alloc, line.as_bytes()) {
            Ok(()) => {}
            Err(failure) => return Err(at_line(failure, number)),
        }
    }
    if !reader.ended {
        return Err(Failure::Fault(Placed {
            place: number,
            fault: HexFault::NoEnd,
        }));
    }
    Ok(reader)
}

/// The words that an Intel hex text spells (Intel Hexadecimal Object File Format Specification, revision A);
/// a byte's address is twice its word's, and the high byte of a word comes first.
///
/// A line is `:` and pairs of digits in either case. Lines end in LF or CRLF, the last one may lack its end,
/// and lines of blanks and tabs are skipped.
///
/// The fault is the first one and its line. For one line that is, in this order: `AfterEnd` (88), `BadStart`
/// (80), `BadDigit` (81), `BadCount` (82) where the digits are odd in number or the bytes are not as many as
/// the line's count says, `BadSum` (83), `BadKind` (84), `BadCount` (82) where the record type calls for
/// another count, `AddressRange` (89), `Twice` (86); at the end line `OddWord` (85); and `NoEnd` (87) at the
/// last line, or at line 0 of a text without lines. `NoMemory` (9) where memory runs out.
pub fn read_hex(alloc: Global, text: &str) -> Result<WordMap, Failure<Placed<usize, HexFault>>>
    ensures found { IfOk result (λ words. spec.SpellsWords text.now words) }
    ensures refused { IfErr result (λ e. Fails (spec.bytes_given text.now) e) }
{
    let reader = bytes_given(alloc, text)?;
    Ok(words_of(alloc, &reader.bytes)?)
}
