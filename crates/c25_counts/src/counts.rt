//! Two counts for each program address: of the steps in which its instruction acts, and of those in which a branch
//! passes.

ghost use Rattle.std.specs.Prelude.{◌≡◌, ℕ, None, Some, IfOk, false, length, replicate};
ghost use Rattle.c25_counts.specs.Counting.{AreEnds, CountsOne, count_in, is_hidden, owed, passed};

use c25_core::{Bus, Observer};
use c25_meaning_common::no_memory::NoMemory;
use c25_meaning_processor::registers::Registers;
use std::alloc::Global;

/// How many addresses program memory has.
const ADDRESSES: usize = 65_536;

/// The last address that is the vector of an interrupt.
const LAST_VECTOR: u16 = 6;

/// How often the instruction at each program address acted, and how often the branch at each address passed, below
/// 2^32 each: a branch that acts and is not taken passes, and its step goes on after its two words. Passes are
/// counted of the branches that are given before the first step, and one step later: where the next instruction
/// acts says whether the branch passed. Where it may not, since an interrupt may come between, the run ends, and
/// PC says it (`settle`).
#[derive(Drop)]
pub struct Counts {
    acts: Vec<u32>,
    passes: Vec<u32>,
    /// Whether a branch ends before an address.
    ends: Vec<bool>,
    /// Where an instruction acted in the last step, if what passed in that step is not counted yet.
    last: Option<u16>,
    ghost all_acts: { length acts.items ≡ 65536 },
    ghost all_passes: { length passes.items ≡ 65536 },
    ghost all_ends: { length ends.items ≡ 65536 },
}

/// A list of so many zeros.
fn zeros(alloc: Global, count: usize) -> Result<Vec<u32>, NoMemory>
    ensures { IfOk result (λ zeros. zeros.items ≡ replicate count 0) }
{
    let zeros = vec![in alloc; 0; count]?;
    Ok(zeros)
}

/// Two lists of a zero for each address.
fn two_zeros(alloc: Global) -> Result<(Vec<u32>, Vec<u32>), NoMemory>
    ensures { IfOk result (λ lists. (lists.0.items ≡ replicate 65536 0) × (lists.1.items ≡ replicate 65536 0)) }
{
    let first = zeros(alloc, ADDRESSES)?;
    let second = zeros(alloc, ADDRESSES)?;
    Ok((first, second))
}

/// A list of so many that are false.
fn unmarked(alloc: Global, count: usize) -> Result<Vec<bool>, NoMemory>
    ensures { IfOk result (λ marks. marks.items ≡ replicate count false) }
{
    let marks = vec![in alloc; false; count]?;
    Ok(marks)
}

/// Whether one of these branches ends before an address, for each address.
fn ends_of(alloc: Global, branches: &[u16]) -> Result<Vec<bool>, NoMemory>
    ensures ends { IfOk result (λ ends. AreEnds branches.now ends.items) }
    ensures all { IfOk result (λ ends. length ends.items ≡ 65536) }
{
    let mut ends = unmarked(alloc, ADDRESSES)?;
    for branch in branches {
        ends[usize::from(branch.wrapping_add(2))] = true;
    }
    Ok(ends)
}

impl Counts {
    /// Counts of no step, to be made of all instructions and of these branches.
    pub fn new(alloc: Global, branches: &[u16]) -> Result<Counts, NoMemory>
        ensures acts { IfOk result (λ counts. (address : ℕ) → count_in counts.acts.items address ≡ 0) }
        ensures passes { IfOk result (λ counts. (address : ℕ) → count_in counts.passes.items address ≡ 0) }
        ensures ends { IfOk result (λ counts. AreEnds branches.now counts.ends.items) }
        ensures settled { IfOk result (λ counts. counts.last ≡ None) }
    {
        let ends = ends_of(alloc, branches)?;
        let lists = two_zeros(alloc)?;
        Ok(Counts {
            acts: lists.0,
            passes: lists.1,
            ends,
            last: None,
        })
    }

    /// How often the instruction at an address acted.
    pub fn acts_at(&self, address: u16) -> u32
        ensures { result ≡ count_in self.now.acts.items address }
    {
        self.acts[usize::from(address)]
    }

    /// How often the branch at an address passed.
    pub fn passes_at(&self, address: u16) -> u32
        ensures { result ≡ count_in self.now.passes.items address }
    {
        self.passes[usize::from(address)]
    }

    /// Counts the instruction at an address once more.
    #[inline(always)]
    fn add(&mut self, address: u16)
        ensures acts { CountsOne self.old.acts.items (Some address) self.new.acts.items }
        ensures passes { self.new.passes.items ≡ self.old.passes.items }
        ensures ends { self.new.ends.items ≡ self.old.ends.items }
    {
        let place = usize::from(address);
        self.acts[place] = self.acts[place].wrapping_add(1);
    }

    /// Counts a pass of the branch at an address.
    #[inline(always)]
    fn pass(&mut self, address: u16)
        ensures passes { CountsOne self.old.passes.items (Some address) self.new.passes.items }
        ensures acts { self.new.acts.items ≡ self.old.acts.items }
        ensures ends { self.new.ends.items ≡ self.old.ends.items }
    {
        let place = usize::from(address);
        self.passes[place] = self.passes[place].wrapping_add(1);
    }

    /// The branch that passed in the last step, where that is not counted yet and PC is this after the step.
    #[inline(always)]
    fn owed(&self, pc: u16) -> Option<u16>
        ensures { result ≡ owed self.now.ends.items self.now.last pc }
    {
        let Some(address) = self.last else {
            return None;
        };
        if address.wrapping_add(2) != pc {
            return None;
        }
        if self.ends[usize::from(pc)] {
            Some(address)
        } else {
            None
        }
    }

    /// The branch of which it is seen that it passed in the last step, from where an instruction acts in this one.
    #[inline(always)]
    fn passed(&self, acting: u16) -> Option<u16>
        ensures { result ≡ passed self.now.ends.items self.now.last (Some acting) }
    {
        if LAST_VECTOR < acting {
            self.owed(acting)
        } else {
            None
        }
    }

    /// Counts what is seen to have passed in the last step, from where an instruction acts in this one.
    #[inline(always)]
    fn pass_before(&mut self, acting: u16)
        ensures passes { CountsOne self.old.passes.items (passed self.old.ends.items self.old.last (Some acting)) self.new.passes.items }
        ensures acts { self.new.acts.items ≡ self.old.acts.items }
        ensures ends { self.new.ends.items ≡ self.old.ends.items }
    {
        match self.passed(acting) {
            Some(branch) => self.pass(branch),
            None => {}
        }
    }

    /// Counts the instruction at an address, and what is seen to have passed in the step before.
    #[inline(always)]
    fn act(&mut self, address: u16)
        ensures acts { CountsOne self.old.acts.items (Some address) self.new.acts.items }
        ensures passes { CountsOne self.old.passes.items (passed self.old.ends.items self.old.last (Some address)) self.new.passes.items }
        ensures ends { self.new.ends.items ≡ self.old.ends.items }
    {
        self.pass_before(address);
        self.add(address);
    }

    /// Counts what passed in the last step, after which PC is this.
    fn pass_to(&mut self, pc: u16)
        ensures passes { CountsOne self.old.passes.items (owed self.old.ends.items self.old.last pc) self.new.passes.items }
        ensures acts { self.new.acts.items ≡ self.old.acts.items }
        ensures ends { self.new.ends.items ≡ self.old.ends.items }
    {
        match self.owed(pc) {
            Some(branch) => self.pass(branch),
            None => {}
        }
    }

    /// Counts what passed in the last step, after which PC is this, where that is not counted yet.
    pub fn settle(&mut self, pc: u16)
        ensures passes { CountsOne self.old.passes.items (owed self.old.ends.items self.old.last pc) self.new.passes.items }
        ensures acts { self.new.acts.items ≡ self.old.acts.items }
        ensures ends { self.new.ends.items ≡ self.old.ends.items }
        ensures settled { self.new.last ≡ None }
    {
        self.pass_to(pc);
        self.last = None;
    }
}

/// Whether the next step may not say where PC was: an interrupt may be taken in it, the processor sleeps, or PC
/// may be taken for the vector of an interrupt.
fn is_hidden(registers: &Registers) -> bool
    ensures { result ≡ is_hidden registers.now }
{
    registers.asleep || !registers.intm || registers.pc <= LAST_VECTOR
}

impl Observer for Counts {
    ghost use Rattle.c25_counts.specs.Seen.{SeesStep, ends};

    ghost tells = { SeesStep };

    ghost ends = { ends };

    #[inline(always)]
    fn see<B: Bus>(&mut self, acting: Option<u16>, registers: &Registers, _bus: &B) -> bool {
        match acting {
            Some(address) => self.act(address),
            None => {}
        }
        self.last = acting;
        self.ends[usize::from(registers.pc)] && is_hidden(registers)
    }

    #[inline(always)]
    fn rests<B: Bus>(&self, registers: &Registers, _bus: &B) -> bool {
        self.last.is_none() && !self.ends[usize::from(registers.pc)]
    }
}
