//! Whether names in rows stand for their numbers.

ghost use Rattle.std.specs.Prelude.{◌≡◌, ℕ, List, true};
ghost use Rattle.std.specs.List.{All};
ghost use Rattle.c25_buildable.specs.Places.{HasTarget, HaveTargets, IsTable, Stands};

use c25_layout::course::long_word;
use c25_layout::layout::{Item, Part, Row, Target};
use std::collections::HashMap;

/// The addresses that names stand for.
type Table<'a> = HashMap<&'a str, u32>;

/// Whether the name of a target stands for a number, or for so many words before it.
fn stands_for(table: &Table<'_>, number: u16, target: &Target) -> bool
    ensures { (ns : List (List ℕ × ℕ)) → IsTable table.now ns → result ≡ true → Stands ns number target.now }
{
    match table.get(target.name.as_str()) {
        None => false,
        Some(at) => u64::from(*at) + u64::from(target.after) == u64::from(number),
    }
}

/// Whether the name in a row, if there is one, stands for its number.
fn has_target(table: &Table<'_>, item: &Item) -> bool
    ensures { (ns : List (List ℕ × ℕ)) → IsTable table.now ns → result ≡ true → HasTarget ns item.now }
{
    match item {
        Item::Plain(_) | Item::Words(_) => true,
        Item::Named(insn, target) => match long_word(insn) {
            None => false,
            Some(number) => stands_for(table, number, target),
        },
        Item::Address(number, target) => stands_for(table, *number, target),
    }
}

/// Whether the names in rows, where there are any, stand for their numbers.
fn have_row_targets(table: &Table<'_>, rows: &[Row]) -> bool
    ensures { (ns : List (List ℕ × ℕ)) → IsTable table.now ns → result ≡ true → All (λ r. HasTarget ns r.item) rows.now }
{
    for row in rows {
        if !has_target(table, &row.item) {
            return false;
        }
    }
    true
}

/// Whether the names in the rows of parts, where there are any, stand for their numbers.
pub(crate) fn have_targets(table: &Table<'_>, parts: &[Part]) -> bool
    ensures { (ns : List (List ℕ × ℕ)) → IsTable table.now ns → result ≡ true → HaveTargets ns parts.now }
{
    for part in parts {
        if !have_row_targets(table, &part.rows) {
            return false;
        }
    }
    true
}
