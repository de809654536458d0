//! Parts without their names.

ghost use Rattle.std.specs.Prelude.{◌≡◌, ◌≤◌, [], ◌∷◌, IfOk, length, ℕ};
ghost use Rattle.c25_buildable.specs.Bare.{AreBareParts, AreBareRows, IsBareItem, IsBarePart, IsBareRow};
ghost use Rattle.c25_layout.specs.Buildable.{IsBuildable};
ghost use Rattle.c25_layout.specs.Layout.{ArePartsOf};

use c25_layout::layout::{Item, Part, Row};
use c25_meaning_common::no_memory::NoMemory;
use c25_meaning_image::word_map::WordMap;
use std::alloc::Global;

/// One word of data.
fn one_word(alloc: Global, word: u16) -> Result<Vec<u16>, NoMemory>
    ensures { IfOk result (λ made. made.items ≡ word ∷ []) }
{
    let mut words = Vec::new(alloc);
    words.push(word)?;
    Ok(words)
}

/// What a row is, with a number in place of its name.
fn bare_item(alloc: Global, item: &Item) -> Result<Item, NoMemory>
    ensures { IfOk result (IsBareItem item.now) }
{
    match item {
        Item::Plain(insn) | Item::Named(insn, _) => Ok(Item::Plain(*insn)),
        Item::Words(list) => Ok(Item::Words(Vec::from_slice(alloc, list)?)),
        Item::Address(number, _) => Ok(Item::Words(one_word(alloc, *number)?)),
    }
}

/// A row without its names.
fn bare_row(alloc: Global, row: &Row) -> Result<Row, NoMemory>
    ensures { IfOk result (IsBareRow row.now) }
{
    let item = bare_item(alloc, &row.item)?;
    Ok(Row {
        address: row.address,
        label: None,
        load_label: None,
        item,
    })
}

/// Rows without their names.
fn bare_rows(alloc: Global, rows: &[Row]) -> Result<Vec<Row>, NoMemory>
    ensures { IfOk result (λ made. AreBareRows rows.now made.items) }
{
    let mut made = Vec::new(alloc);
    for row in rows {
        let bare = bare_row(alloc, row)?;
        made.push(bare)?;
    }
    Ok(made)
}

/// A part without its names, run where it is loaded.
fn bare_part(alloc: Global, part: &Part) -> Result<Part, NoMemory>
    ensures { IfOk result (IsBarePart part.now) }
{
    let rows = bare_rows(alloc, &part.rows)?;
    Ok(Part {
        address: part.address,
        run: None,
        rows,
    })
}

/// Parts without their names, each run where it is loaded.
fn each_bare(alloc: Global, parts: &[Part]) -> Result<Vec<Part>, NoMemory>
    ensures { IfOk result (λ made. AreBareParts parts.now made.items) }
{
    let mut made = Vec::new(alloc);
    for part in parts {
        let bare = bare_part(alloc, part)?;
        made.push(bare)?;
    }
    Ok(made)
}

/// The parts of an image without their names, each run where it is loaded: these are built to its words.
pub(crate) fn bare_parts(
    alloc: Global,
    words: &WordMap,
    parts: &[Part],
) -> Result<Vec<Part>, NoMemory>
    requires are { (blank : ℕ) × ArePartsOf words.now blank parts.now }
    requires few { length parts.now ≤ 254 }
    ensures same { (blank : ℕ) → ArePartsOf words.now blank parts.now → IfOk result (λ made. ArePartsOf words.now blank made.items) }
    ensures built { IfOk result (λ made. IsBuildable made.items) }
{
    let _all = words.iter();
    each_bare(alloc, parts)
}
