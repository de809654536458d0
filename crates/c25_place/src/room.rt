//! The words of both pages that are taken by sections.

ghost use Rattle.std.specs.Prelude.{◌≡◌, ◌<◌, ◌≤◌, ◌+◌, ◌-◌, ◌&&◌, ◌||◌, ℕ, List, [], ◌∷◌, ◌++◌, true, false, length, slice_index_or, nat_le, nat_lt, replicate, IfOk, MatchOption};
ghost use Rattle.c25_meaning_linking.specs.Place as place;
ghost use Rattle.c25_place.specs.Room.{KnowsTaken, KnowsRoom, IsOpen, IsFirstFree};

use crate::blocks::PAGE;
use c25_cmd::taken::{free_words, take};
use std::alloc::{AllocError, Global};

/// How many words a page has.
pub(crate) const PAGE_WORDS: u32 = 65_536;

/// For each word of page 0 and of page 1 whether a section has it.
#[derive(Drop)]
pub(crate) struct Room {
    program: Vec<bool>,
    store: Vec<bool>,
}

/// The least address from `start` up to `end` from which on `size` words are free, and whose place in a page
/// of 128 words is one that `fits` allows.
#[tactic(auto, using(crate::proofs::Fits::run_none, crate::proofs::Fits::run_taken, crate::proofs::Fits::run_short, crate::proofs::Fits::run_unpaged, crate::proofs::Fits::run_found, crate::proofs::Fits::run_ended))]
pub(crate) fn first_free(
    taken: &[bool],
    fits: &[bool],
    start: usize,
    end: usize,
    size: usize,
) -> Option<usize>
    requires paged { length fits.now ≡ 128 }
    requires within { end ≤ length taken.now }
    requires ordered { start ≤ end }
    requires some { 0 < size }
    ensures { MatchOption result ((base : ℕ) → start ≤ base → base + size ≤ end → ¬ IsOpen taken.now fits.now base size) (IsFirstFree taken.now fits.now start end size) }
{
    let mut free = 0;
    for k in start..end {
        if taken[k] {
            free = 0;
        } else {
            free += 1;
            if free >= size {
                let base = k + 1 - size;
                if fits[base % PAGE] {
                    return Some(base);
                }
            }
        }
    }
    None
}

impl Room {
    /// Both pages without sections.
    #[tactic(auto, using(crate::proofs::Fits::taken_none))]
    pub(crate) fn new(alloc: Global) -> Result<Self, AllocError>
        ensures { IfOk result (λ r. KnowsRoom r []) }
    {
        Ok(Room {
            program: free_words(alloc, 65_536)?,
            store: free_words(alloc, 65_536)?,
        })
    }

    /// For each word of page 0, or of page 1, whether it is taken.
    pub(crate) fn on_page(&self, page: u8) -> &[bool]
        requires { page ≤ 1 }
        ensures { (places : List place.Place) → KnowsRoom self.now places → KnowsTaken result.now page places }
    {
        if page == 0 {
            &self.program
        } else {
            &self.store
        }
    }

    /// Takes `size` words of page 0 or of page 1 from an address on.
    #[tactic(auto, using(crate::proofs::Fits::taken_more, crate::proofs::Fits::taken_same))]
    pub(crate) fn take(&mut self, page: u8, base: u32, size: u32)
        requires page { page ≤ 1 }
        requires within { base + size ≤ 65536 }
        requires sized { (length self.old.program.items ≡ 65536) × (length self.old.store.items ≡ 65536) }
        ensures { (places : List place.Place) (p : place.Place) → KnowsRoom self.old places → p.page ≡ page → p.base ≡ base → p.size ≡ size
            → KnowsRoom self.new (places ++ p ∷ []) }
    {
        let start = base as usize;
        let end = start + size as usize;
        if page == 0 {
            take(&mut self.program, start, end);
        } else {
            take(&mut self.store, start, end);
        }
    }
}
