//! The search: what is known at each place, until nothing changes any more.

ghost use Rattle.std.specs.Prelude.{◌≡◌, IfOk};

use crate::activations::{Activations, Place};
use crate::joined::joined;
use crate::made::{contexts_of, rows_of};
use c25_meaning_common::no_memory::NoMemory;
use c25_meaning_pages::known::Known;
use c25_pages::{Program, Spared, Table, known_on_reset};
use std::alloc::Global;
use std::collections::BTreeMap;

/// How many times a place is followed at most.
const STEP_LIMIT: u32 = 10_000_000;

/// What a search is given.
#[derive(Clone, Copy)]
pub(crate) struct Given<'a> {
    /// The program.
    pub program: &'a Program,
    /// Where BACC and CALA are supposed to go.
    pub landings: &'a [u16],
    /// The bits of the interrupt lines that IMR is supposed to let through.
    pub lines: u16,
    /// Where memory is taken.
    pub alloc: Global,
}

/// The state of a search.
#[derive(Drop)]
pub(crate) struct Search {
    /// What is known at each place that was reached, by activation and address.
    pub facts: BTreeMap<(usize, u16), Known>,
    /// The activations.
    pub activations: Activations,
    /// The places that are still to be followed.
    pub work: Vec<Place>,
    /// The words that indirect stores are supposed not to write.
    pub spared: Vec<Spared>,
}

impl Search {
    /// The state at the start.
    fn new(alloc: Global) -> Search {
        Search {
            facts: BTreeMap::new(alloc),
            activations: Activations::new(alloc),
            work: Vec::new(alloc),
            spared: Vec::new(alloc),
        }
    }

    /// A place is reached with what is known on the way. Where that is news, the place is to be followed.
    pub(crate) fn reach(&mut self, place: Place, known: &Known) -> Result<(), NoMemory> {
        let key = (place.context, place.address);
        let now = match self.facts.get(&key) {
            Some(before) => joined(before, known),
            None => *known,
        };
        if self.facts.get(&key) == Some(&now) {
            return Ok(());
        }
        self.facts.insert(key, now)?;
        self.work.push(place)?;
        Ok(())
    }

    /// Follows places until none is left, or the limit is reached.
    fn follow_all(&mut self, given: &Given<'_>) -> Result<(), NoMemory> {
        for _ in 0..STEP_LIMIT {
            let Some(place) = self.work.pop() else {
                return Ok(());
            };
            self.follow(given, place)?;
        }
        Ok(())
    }
}

/// The search from a reset, to its end.
fn searched(given: &Given<'_>) -> Result<Search, NoMemory> {
    let mut search = Search::new(given.alloc);
    let known = known_on_reset();
    search.activations.number_of(given.alloc, 0, &known)?;
    search.reach(
        Place {
            context: 0,
            address: 0,
        },
        &known,
    )?;
    search.follow_all(given)?;
    Ok(search)
}

/// Finds a table of what is known before each statement of a program, from what is supposed: the addresses to which BACC
/// and CALA go, and the bits of the interrupt lines that IMR lets through. It also supposes that indirect stores spare a
/// saved ST0 where one is known. Nothing is claimed of its rows and contexts: `verify` of c25_pages decides whether they
/// are true. A program that is too large for the limits of the search, or whose stack it cannot follow, gets a table that
/// does not verify.
///
/// Errors: out of memory.
pub fn find_table(
    alloc: Global,
    program: &Program,
    landings: Vec<u16>,
    lines: u16,
) -> Result<Table, NoMemory>
    ensures { IfOk result (λ table. (table.landings.items ≡ landings.items) × (table.lines ≡ lines)) }
{
    let search = searched(&Given {
        program,
        landings: &landings,
        lines,
        alloc,
    })?;
    let rows = rows_of(alloc, &search.facts)?;
    let contexts = contexts_of(alloc, &search.activations)?;
    Ok(Table {
        rows,
        contexts,
        spared: search.spared,
        landings,
        lines,
    })
}
