//! Texts of one item a line, as samples, schedules and scripts are.

ghost use Rattle.std.specs.Prelude.{◌≡◌, List, [], Some, None, map, IfOk, if◌then◌else◌};
ghost use Rattle.c25_meaning_common.specs.Items.{ItemOf, items, items_of, with_line, line_words};
ghost use Rattle.c25_meaning_common.specs.Results.{MeetsBy};

use crate::words::{line_words, lines_of};
use c25_meaning_common::failure::Failure;
use c25_meaning_common::no_memory::NoMemory;
use c25_meaning_common::placed::Placed;
use std::alloc::Global;

/// What one kind of text has on its lines: how an item is read, and the fault of a line that is no item.
pub trait LineFormat {
    type Item: Copy;
    /// The fault that is reported for a line that is no item.
    type Fault;

    /// The item of a line after the items before it, if its parts are one.
    ghost item_of: { ItemOf Self.Item };

    /// The item of a line after the items before it, or None where its parts are no item.
    fn item(before: &[Self::Item], words: &[&[u8]]) -> Option<Self::Item>
        ensures { result ≡ item_of before.now (map (λ w. w.now) words.now) };

    /// The fault that is reported for a line that is no item.
    fn fault() -> Self::Fault;
}

/// Adds the item of a line; a blank line adds none. False where the line is not blank and is no item.
fn add_line<F: LineFormat>(
    alloc: Global,
    items: &mut Vec<F::Item>,
    line: &[u8],
) -> Result<bool, NoMemory>
    ensures { IfOk result (λ fine. with_line F.item_of items.old.items (line_words line.now) ≡ (if fine then Some items.new.items else None)) }
{
    let words = line_words(alloc, line)?;
    if words.len() == 0 {
        return Ok(true);
    }
    match F::item(items.as_slice(), words.as_slice()) {
        None => Ok(false),
        Some(item) => {
            items.push(item)?;
            Ok(true)
        }
    }
}

/// The items of lines, or the first line that is no item, counted from 1.
fn items_in<F: LineFormat>(
    alloc: Global,
    lines: &[&str],
) -> Result<Vec<F::Item>, Failure<Placed<usize, F::Fault>>>
    ensures { MeetsBy (λ f. f.place) (λ v. v.items) (items F.item_of [] 1 (map (λ l. l.now) lines.now)) result }
{
    let mut items = Vec::new(alloc);
    for (index, line) in lines.iter().enumerate() {
        let fine = add_line::<F>(alloc, &mut items, line.as_bytes())?;
        if !fine {
            return Err(Failure::Fault(Placed {
                place: index + 1,
                fault: F::fault(),
            }));
        }
    }
    Ok(items)
}

/// The items of a text, one on each line that is not blank. The first line that is no item is reported by its
/// number, counted from 1, with the format's fault; `NoMemory` where memory runs out.
pub fn read_items<F: LineFormat>(
    alloc: Global,
    text: &str,
) -> Result<Vec<F::Item>, Failure<Placed<usize, F::Fault>>>
    ensures { MeetsBy (λ f. f.place) (λ v. v.items) (items_of F.item_of text.now) result }
{
    let lines = lines_of(alloc, text)?;
    items_in::<F>(alloc, lines.as_slice())
}
