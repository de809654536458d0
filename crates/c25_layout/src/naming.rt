//! The names of addresses.

use crate::cells::{Cell, Cells, Reason, Reference};
use crate::hint::Hint;
use crate::hinted::given_name;
use crate::layout::Target;
use c25_meaning_common::no_memory::NoMemory;
use c25_texts::appending::{push_four, push_text};
use std::alloc::Global;

/// The letter that names begin with: `S` of subroutines, `V` of vectors, `L` of other code, `D` of data.
fn letter(reason: Reason) -> &'static str {
    match reason {
        Reason::Data => "D",
        Reason::Code => "L",
        Reason::Vector => "V",
        Reason::Call => "S",
    }
}

/// Whether a hint gives this name to an address.
fn is_given(hints: &[Hint<String>], text: &str) -> bool {
    for hint in hints {
        match hint {
            Hint::Label { name, .. } if name.as_str() == text => return true,
            _ => {}
        }
    }
    false
}

/// The name of a letter and an address, and as many `_` after them as it takes to be none that a hint gives.
fn made_name(
    alloc: Global,
    hints: &[Hint<String>],
    letter: &str,
    address: u16,
) -> Result<String, NoMemory> {
    let mut name = String::new(alloc);
    push_text(&mut name, letter)?;
    push_four(&mut name, address)?;
    for _ in hints {
        if !is_given(hints, name.as_str()) {
            return Ok(name);
        }
        push_text(&mut name, "_")?;
    }
    Ok(name)
}

/// The name of an address that has one: the one that a hint gives it, or a letter and the address.
fn name_of(
    alloc: Global,
    hints: &[Hint<String>],
    cell: Cell,
    address: u16,
) -> Result<Option<String>, NoMemory> {
    match given_name(hints, address) {
        Some(name) => Ok(Some(String::from_str(alloc, name)?)),
        None => match cell.named {
            None => Ok(None),
            Some(reason) => Ok(Some(made_name(alloc, hints, letter(reason), address)?)),
        },
    }
}

/// The label of a row at an address, if it has one.
pub(crate) fn label_of(
    alloc: Global,
    hints: &[Hint<String>],
    cells: &Cells,
    address: u16,
) -> Result<Option<String>, NoMemory> {
    name_of(alloc, hints, cells.at(address), address)
}

/// The name of where a row is loaded, if that has one of its own.
pub(crate) fn load_label_of(
    alloc: Global,
    hints: &[Hint<String>],
    cells: &Cells,
    address: u16,
) -> Result<Option<String>, NoMemory> {
    if cells.at(address).load_named {
        Ok(Some(made_name(alloc, hints, "P", address)?))
    } else {
        Ok(None)
    }
}

/// Whether a reference is to where its word is loaded, though the word runs elsewhere.
fn is_to_load(cells: &Cells, reference: Reference) -> bool {
    reference.number == reference.target && cells.at(reference.target).runs_at.is_some()
}

/// The name, and how many words after it, that a reference is to.
pub(crate) fn target_of(
    alloc: Global,
    hints: &[Hint<String>],
    cells: &Cells,
    reference: Reference,
) -> Result<Target, NoMemory> {
    let start = cells.start_of(reference.target);
    let after = reference.target.saturating_sub(start);
    let name = if is_to_load(cells, reference) {
        made_name(alloc, hints, "P", start)?
    } else {
        match name_of(alloc, hints, cells.at(start), start)? {
            Some(name) => name,
            None => made_name(alloc, hints, letter(Reason::Code), start)?,
        }
    };
    Ok(Target { name, after })
}

/// Gives a name to what a reference is to: to the first word of its instruction, where it runs or where it is
/// loaded.
fn name_target(cells: &mut Cells, reference: Reference) {
    let start = cells.start_of(reference.target);
    if is_to_load(cells, reference) {
        let cell = cells.at(start);
        cells.put(
            start,
            Cell {
                load_named: true,
                ..cell
            },
        );
    } else if start != reference.target {
        cells.name(start, Reason::Code);
    }
}

/// Gives a name to all that instructions and tables refer to.
pub(crate) fn name_targets(cells: &mut Cells) {
    for address in 0..65_536u32 {
        if let Some(reference) = cells.at(address as u16).refers {
            name_target(cells, reference);
        }
    }
}
