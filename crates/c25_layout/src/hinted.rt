//! What hints say of the words of an image before its flow is followed.

use crate::cells::{Cell, Cells, Reference, Taken, after};
use crate::hint::Hint;
use c25_meaning_image::word_map::WordMap;

/// Puts down that so many words that are loaded at one address run at another.
fn take_run(cells: &mut Cells, address: u16, count: u16, run: u16) {
    for passed in 0..count {
        match (after(address, passed), after(run, passed)) {
            (Some(load), Some(run)) => {
                cells.put(
                    load,
                    Cell {
                        runs_at: Some(run),
                        ..cells.at(load)
                    },
                );
                cells.put(
                    run,
                    Cell {
                        loaded_at: Some(load),
                        ..cells.at(run)
                    },
                );
            }
            _ => {}
        }
    }
}

/// Takes so many words, `step` apart, for data.
fn take_data(cells: &mut Cells, address: u16, count: u16, step: u16) {
    let mut place = Some(address);
    for _ in 0..count {
        if let Some(here) = place {
            cells.take(here, Taken::Data);
            place = after(here, step);
        }
    }
}

/// Puts down that so many words, `step` apart, are addresses, where the image has a word there.
fn take_addresses(words: &WordMap, cells: &mut Cells, address: u16, count: u16, step: u16) {
    let mut place = Some(address);
    for _ in 0..count {
        if let Some(here) = place {
            refer_to_word(words, cells, here);
            place = after(here, step);
        }
    }
}

/// Puts down that the word at an address is an address, where the image has a word there.
fn refer_to_word(words: &WordMap, cells: &mut Cells, address: u16) {
    if let Some(number) = words.get(address) {
        let target = cells.loaded_at(number);
        if words.get(target).is_some() {
            cells.refer(address, Reference { number, target });
        }
    }
}

/// Puts down what hints say of where words run and of which are data.
pub(crate) fn take_words(cells: &mut Cells, hints: &[Hint<String>]) {
    for hint in hints {
        match hint {
            Hint::Run {
                address,
                count,
                run,
            } => take_run(cells, *address, *count, *run),
            Hint::Data { address, count } => take_data(cells, *address, *count, 1),
            Hint::Table {
                address,
                count,
                step,
            } => take_data(cells, *address, *count, *step),
            _ => {}
        }
    }
}

/// Puts down what hints say of which words are addresses.
pub(crate) fn take_tables(words: &WordMap, cells: &mut Cells, hints: &[Hint<String>]) {
    for hint in hints {
        match hint {
            Hint::Table {
                address,
                count,
                step,
            } => take_addresses(words, cells, *address, *count, *step),
            _ => {}
        }
    }
}

/// Whether a hint says that a call of an address does not come back.
pub(crate) fn is_no_return(hints: &[Hint<String>], address: u16) -> bool {
    for hint in hints {
        match hint {
            Hint::NoReturn { address: at } if *at == address => return true,
            _ => {}
        }
    }
    false
}

/// Whether a hint says that the number of the instruction at an address is no address.
pub(crate) fn is_number(hints: &[Hint<String>], address: u16) -> bool {
    for hint in hints {
        match hint {
            Hint::Number { address: at } if *at == address => return true,
            _ => {}
        }
    }
    false
}

/// The name that a hint gives an address; of several the last one.
pub(crate) fn given_name(hints: &[Hint<String>], address: u16) -> Option<&str> {
    let mut found = None;
    for hint in hints {
        match hint {
            Hint::Label { address: at, name } if *at == address => found = Some(name.as_str()),
            _ => {}
        }
    }
    found
}
