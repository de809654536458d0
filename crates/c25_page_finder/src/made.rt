//! The rows and the contexts of the table of what was found.

use crate::activations::{Activation, Activations};
use c25_meaning_common::no_memory::NoMemory;
use c25_meaning_pages::known::Known;
use c25_pages::{Context, Row};
use std::alloc::Global;
use std::collections::BTreeMap;

/// A depth at which a stack of eight words has lost one.
const TOO_DEEP: u16 = 9;

/// The depth of an activation: one more than that of each activation that calls it with the words that it has pushed, as far
/// as these are known.
fn depth_of(activation: &Activation, depths: &[u16]) -> u16 {
    let mut depth = 0;
    for caller in &activation.callers {
        let below = match depths.get(caller.back.context) {
            Some(below) => below.saturating_add(caller.pushed),
            None => TOO_DEEP,
        };
        if depth <= below {
            depth = if below < TOO_DEEP {
                below + 1
            } else {
                TOO_DEEP
            };
        }
    }
    depth
}

/// The depths of all activations, from those that are too small.
fn deeper(alloc: Global, activations: &Activations, depths: &[u16]) -> Result<Vec<u16>, NoMemory> {
    let mut deeper = Vec::new(alloc);
    for activation in &activations.list {
        deeper.push(depth_of(activation, depths))?;
    }
    Ok(deeper)
}

/// The depths of all activations: how many calls lead to each at most.
fn depths_of(alloc: Global, activations: &Activations) -> Result<Vec<u16>, NoMemory> {
    let mut depths = vec![in alloc; 0; activations.list.len()]?;
    for _ in 0..TOO_DEEP {
        depths = deeper(alloc, activations, &depths)?;
    }
    Ok(depths)
}

/// The contexts of a table.
pub(crate) fn contexts_of(
    alloc: Global,
    activations: &Activations,
) -> Result<Vec<Context>, NoMemory> {
    let depths = depths_of(alloc, activations)?;
    let mut contexts = Vec::new(alloc);
    for (activation, depth) in activations.list.iter().zip(depths.iter()) {
        contexts.push(Context {
            depth: *depth,
            known_on_return: activation.on_return,
            known_on_drop: activation.on_drop,
        })?;
    }
    Ok(contexts)
}

/// The rows of a table, by contexts and addresses.
pub(crate) fn rows_of(
    alloc: Global,
    facts: &BTreeMap<(usize, u16), Known>,
) -> Result<Vec<Row>, NoMemory> {
    let mut rows = Vec::new(alloc);
    for (place, known) in facts {
        rows.push(Row {
            context: place.0,
            address: place.1,
            known: *known,
        })?;
    }
    Ok(rows)
}
