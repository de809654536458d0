//! The words at which sections with a run address run.

ghost use Rattle.std.specs.Prelude.{◌≡◌, ◌≤◌, ◌+◌, ◌++◌, ◌∷◌, [], List, true, false, length, IfOk, IfSome};
ghost use Rattle.c25_meaning_linking.specs.GoodMap.{IsRunFree};
ghost use Rattle.c25_meaning_linking.specs.Place as place;
ghost use Rattle.c25_place.specs.Room.{KnowsRuns};

use crate::room::PAGE_WORDS;
use c25_cmd::taken::{any_taken, free_words, take};
use std::alloc::{AllocError, Global};

/// The address of the first word of block B0, where it is seen in program memory; B0 ends with the page.
const B0_START: u32 = 0xFF00;

/// For each word of page 0 whether a section with a run address runs at it.
#[derive(Drop)]
pub(crate) struct RunWords {
    taken: Vec<bool>,
}

/// Whether `size` words from an address on lie in block B0. For no words the address alone has to be one of
/// the block's.
fn are_in_b0(run: u32, size: u32) -> bool
    requires { size ≤ 65536 }
    ensures yes { result ≡ true → (0xFF00 ≤ run) × (run ≤ 0xFFFF) × (run + size ≤ 0x10000) }
    ensures no { result ≡ false → ¬ ((0xFF00 ≤ run) × (run ≤ 0xFFFF) × (run + size ≤ 0x10000)) }
{
    B0_START <= run && run < PAGE_WORDS && size <= PAGE_WORDS - run
}

impl RunWords {
    /// A page at which no section runs.
    pub(crate) fn new(alloc: Global) -> Result<Self, AllocError>
        ensures { IfOk result (λ r. KnowsRuns r []) }
    {
        Ok(RunWords {
            taken: free_words(alloc, 65_536)?,
        })
    }

    /// Whether `size` words from an address on lie in block B0 and no section with a run address runs at them
    /// yet.
    pub(crate) fn are_open(&self, run: u32, size: u32) -> bool
        requires sized { length self.now.taken.items ≡ 65536 }
        requires size { size ≤ 65536 }
        ensures yes { result ≡ true → (places : List place.Place) → KnowsRuns self.now places
            → (0xFF00 ≤ run) × (run ≤ 0xFFFF) × (run + size ≤ 0x10000) × IsRunFree run size places }
        ensures no { result ≡ false → (places : List place.Place) → KnowsRuns self.now places
            → ¬ ((0xFF00 ≤ run) × (run ≤ 0xFFFF) × (run + size ≤ 0x10000) × IsRunFree run size places) }
    {
        are_in_b0(run, size) && !any_taken(&self.taken, run as usize, run as usize + size as usize)
    }

    /// Takes the words that a section runs at, if it has a run address.
    #[tactic(auto, using(crate::proofs::Elsewhere::runs_more, crate::proofs::Elsewhere::runs_same))]
    pub(crate) fn take(&mut self, run: Option<u32>, size: u32)
        requires sized { length self.old.taken.items ≡ 65536 }
        requires within { IfSome run (λ run. run + size ≤ 65536) }
        ensures { (places : List place.Place) (p : place.Place) → KnowsRuns self.old places → p.run ≡ run → p.size ≡ size
            → KnowsRuns self.new (places ++ p ∷ []) }
    {
        match run {
            Some(run) => take(&mut self.taken, run as usize, run as usize + size as usize),
            None => {}
        }
    }
}
