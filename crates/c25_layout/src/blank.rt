//! Which words of an image are blank, as an erased EPROM has them.

ghost use Rattle.std.specs.Prelude.{◌<◌, ◌≤◌};

use crate::cells::{Cell, Cells};
use c25_meaning_image::word_map::WordMap;

/// The word of an erased EPROM.
pub(crate) const ERASED: u16 = 0xFFFF;

/// Whether an erased word stands at an address, and is in no instruction.
fn is_erased(words: &WordMap, cells: &Cells, address: u16) -> bool {
    match words.get(address) {
        None => false,
        Some(word) => word == ERASED && !cells.at(address).is_code(),
    }
}

/// Whether an address has a name.
fn is_named(cells: &Cells, address: u16) -> bool {
    cells.at(address).named.is_some()
}

/// The address after the erased words from an address on, before the first one that has a name.
fn end_of_erased(words: &WordMap, cells: &Cells, from: u32) -> u32
    requires { from < 65536 }
    ensures after { from < result }
    ensures within { result ≤ 65536 }
{
    for address in from + 1..65_536 {
        let place = address as u16;
        if !is_erased(words, cells, place) || is_named(cells, place) {
            return address;
        }
    }
    65_536
}

/// Leaves out the words from one address up to another.
fn leave_out(cells: &mut Cells, from: u32, end: u32)
    requires { end ≤ 65536 }
{
    for address in from..end {
        let cell = cells.at(address as u16);
        cells.put(
            address as u16,
            Cell {
                blank: true,
                ..cell
            },
        );
    }
}

/// Leaves out as blank each run of at least `least` erased words that no instruction has and no name stands
/// for; none for 0. A run after an erased word with a name is one with that word, and stays.
pub(crate) fn leave_out_blanks(words: &WordMap, cells: &mut Cells, least: u32) {
    if least == 0 {
        return;
    }
    let mut end = 0;
    for address in 0..65_536u32 {
        let place = address as u16;
        if address >= end && is_erased(words, cells, place) {
            end = end_of_erased(words, cells, address);
            if end - address >= least && !is_named(cells, place) {
                leave_out(cells, address, end);
            }
        }
    }
}
