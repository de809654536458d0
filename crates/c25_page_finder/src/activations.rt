//! Activations: the routines that were called, each from one known state.

use crate::joined::joined;
use c25_meaning_common::no_memory::NoMemory;
use c25_meaning_pages::known::{Dropped, Known};
use std::alloc::Global;

/// How many activations are followed at most.
const ACTIVATION_LIMIT: usize = 4096;

/// A place in an activation.
#[derive(Clone, Copy, PartialEq)]
pub(crate) struct Place {
    /// The number of the activation.
    pub context: usize,
    /// A program address.
    pub address: u16,
}

/// A call, or an interrupt that is taken.
#[derive(Clone, Copy, PartialEq)]
pub(crate) struct Caller {
    /// Where it returns to.
    pub back: Place,
    /// How many words the caller has pushed.
    pub pushed: u16,
}

/// A routine that was called, or begun by an interrupt, while one and the same was known.
#[derive(Drop)]
pub(crate) struct Activation {
    /// The address at which it begins.
    pub entry: u16,
    /// What is known there.
    pub on_entry: Known,
    /// What is known where it returns, if it was seen to return.
    pub on_return: Option<Known>,
    /// Where it takes its own return from the stack, if it was seen to do so.
    pub on_drop: Option<Dropped>,
    /// Who calls it.
    pub callers: Vec<Caller>,
}

/// The activations by their numbers; the program itself is the first.
#[derive(Drop)]
pub(crate) struct Activations {
    pub list: Vec<Activation>,
}

impl Activations {
    /// No activation.
    pub(crate) fn new(alloc: Global) -> Activations {
        Activations {
            list: Vec::new(alloc),
        }
    }

    /// The number of the activation that begins at an address with what is known there, if there is one.
    pub(crate) fn position(&self, entry: u16, on_entry: &Known) -> Option<usize> {
        self.list.iter().position(|activation| activation.entry == entry
            && activation.on_entry == *on_entry)
    }

    /// The number of that activation, which is added if there is none; None where there are too many.
    pub(crate) fn number_of(
        &mut self,
        alloc: Global,
        entry: u16,
        on_entry: &Known,
    ) -> Result<Option<usize>, NoMemory> {
        if let Some(number) = self.position(entry, on_entry) {
            return Ok(Some(number));
        }
        let number = self.list.len();
        if ACTIVATION_LIMIT <= number {
            return Ok(None);
        }
        self.list.push(Activation {
            entry,
            on_entry: *on_entry,
            on_return: None,
            on_drop: None,
            callers: Vec::new(alloc),
        })?;
        Ok(Some(number))
    }

    /// Adds a caller of an activation.
    pub(crate) fn add_caller(&mut self, number: usize, caller: Caller) -> Result<(), NoMemory> {
        if let Some(activation) = self.list.get_mut(number) {
            if !activation.callers.contains(&caller) {
                activation.callers.push(caller)?;
            }
        }
        Ok(())
    }

    /// What is known where an activation returns, if it was seen to return.
    pub(crate) fn on_return(&self, number: usize) -> Option<Known> {
        self.list.get(number)?.on_return
    }

    /// Where an activation takes its own return from the stack, if it was seen to do so.
    pub(crate) fn on_drop(&self, number: usize) -> Option<Dropped> {
        self.list.get(number)?.on_drop
    }

    /// An activation takes its own return from the stack. Whether that is news. Of two places where it does, the first
    /// counts.
    pub(crate) fn drops(&mut self, number: usize, next: u16, known: &Known) -> bool {
        let Some(activation) = self.list.get_mut(number) else {
            return false;
        };
        let now = match &activation.on_drop {
            Some(before) => Dropped {
                next: before.next,
                known: joined(&before.known, known),
            },
            None => Dropped {
                next,
                known: *known,
            },
        };
        if activation.on_drop == Some(now) {
            return false;
        }
        activation.on_drop = Some(now);
        true
    }

    /// An activation returns with what is known then. Whether that is news.
    pub(crate) fn returns(&mut self, number: usize, known: &Known) -> bool {
        let Some(activation) = self.list.get_mut(number) else {
            return false;
        };
        let now = match &activation.on_return {
            Some(before) => joined(before, known),
            None => *known,
        };
        if activation.on_return == Some(now) {
            return false;
        }
        activation.on_return = Some(now);
        true
    }
}
