//! The text of a map, read.

ghost use Rattle.std.specs.Prelude.{◌≡◌, IfOk, IfErr, All, map};
ghost use Rattle.c25_meaning_linking.specs.MapText.{IsMapOf, HasDigits};
ghost use Rattle.c25_meaning_common.specs.Results.{Meets};
ghost use Rattle.c25_map.specs.Answer.{IsRefused};
ghost use Rattle.c25_map.specs.Reading as reading;
ghost use Rattle.c25_map.specs.View.{map_data};

use crate::lines::add_line;
use crate::map::Map;
use crate::map_fault::MapFault;
use c25_meaning_common::failure::Failure;
use std::alloc::{AllocError, Global};

/// A map without sections, symbols and entry.
fn nothing(alloc: Global) -> Map
    ensures { map_data result ≡ reading.nothing }
{
    Map {
        sections: Vec::new(alloc),
        symbols: Vec::new(alloc),
        entry: None,
    }
}

/// The map so far, if the text ends after its last line.
fn finished(so_far: Map, rest: &[&str]) -> Result<Map, Failure<MapFault>>
    ensures { Meets map_data (reading.finished (map_data so_far) (map (λ l. l.now) rest.now)) result }
{
    match rest {
        [""] => Ok(so_far),
        _ => Err(Failure::Fault(MapFault::BadMap)),
    }
}

/// The map that the lines after the first one spell.
#[tactic(auto, unfolding(crate::specs::Reading::with_lines))]
fn map_of_lines(alloc: Global, lines: &[&str]) -> Result<Map, Failure<MapFault>>
    ensures { Meets map_data (reading.with_lines reading.nothing (map (λ l. l.now) lines.now)) result }
{
    let mut so_far = nothing(alloc);
    let mut rest = lines;
    while let [line, after @ ..] = rest {
        if *line == "END" {
            return finished(so_far, after);
        }
        add_line(alloc, &mut so_far, line)?;
        rest = after;
    }
    Err(Failure::Fault(MapFault::BadMap))
}

/// The lines of a text, without the LF that ends each. What follows the last LF is a line too, an empty one
/// where the text ends there.
fn lines_of(alloc: Global, text: &str) -> Result<Vec<&str>, AllocError>
    ensures { IfOk result (λ v. map (λ l. l.now) v.items ≡ reading.cut 10 text.now) }
{
    text.split('\n').collect(alloc)
}

#[tactic(auto, unfolding(crate::specs::Reading::with_head))]
fn map_of(alloc: Global, text: &str) -> Result<Map, Failure<MapFault>>
    ensures { Meets map_data (reading.map_of text.now) result }
{
    let lines = lines_of(alloc, text)?;
    match lines.as_slice() {
        [] => Err(Failure::Fault(MapFault::BadMap)),
        [head, rest @ ..] => {
            if *head != "C25 MAP 1" {
                return Err(Failure::Fault(MapFault::BadMap));
            }
            map_of_lines(alloc, rest)
        }
    }
}

/// The map whose text this is, as [`write_map`](crate::write_map) gives it; no two maps have one text.
///
/// The fault is `BadMap` (77) for each text that is not a map's: with a line out of place or of another form,
/// with short numbers or lower-case digits, with CR LF for LF, without its last line or its last LF. No sums
/// are checked: sections and parts may overlap, and names may come twice. `NoMemory` (9) where memory runs
/// out.
pub fn read_map(alloc: Global, text: &str) -> Result<Map, Failure<MapFault>>
    ensures found { IfOk result (λ m. IsMapOf text.now (map_data m)) }
    ensures refused { IfErr result (λ e. IsRefused text.now e) }
    ensures prints { IfOk result (λ m. All HasDigits (map_data m).sections) }
{
    map_of(alloc, text)
}
