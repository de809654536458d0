//! Where runs at the prompt stop.

ghost use Rattle.std.specs.Prelude.{◌≡◌, ◌==◌, [], ℕ, List, OnOk};
ghost use Rattle.c25_meaning_processor.specs.Goes.{is_breakpoint};
ghost use Rattle.c25_meaning_processor.specs.Set.{can_set, with_breakpoint};
ghost use Rattle.c25_prompt.specs.Ignored.{left_at};
ghost use Rattle.c25_prompt.specs.Prompt.{counts_after, ends_run, is_address, left_after, met_once};

use crate::ended::Ended;
use crate::ignored::Ignores;
use c25_board::breakpoints::{Breakpoints, MOST};
use c25_meaning_common::no_memory::NoMemory;
use std::alloc::Global;

/// The breakpoints that are set, those of them that are cleared when they are met, the data addresses that are
/// watched, and the meetings of breakpoints that are passed.
#[derive(Drop)]
pub struct Stops {
    pub breakpoints: Breakpoints,
    pub once: Breakpoints,
    pub watches: Breakpoints,
    pub ignored: Ignores,
}

/// Whether this is the address.
fn is_address(goal: Option<u16>, pc: u16) -> bool
    ensures { result ≡ is_address goal pc }
{
    match goal {
        None => false,
        Some(address) => address == pc,
    }
}

impl Stops {
    /// No breakpoints and no watches. No memory is taken.
    pub(crate) fn new(alloc: Global) -> Stops
        ensures breakpoints { result.breakpoints ≡ [] }
        ensures once { result.once ≡ [] }
        ensures watches { result.watches ≡ [] }
        ensures ignored { result.ignored ≡ [] }
    {
        Stops {
            breakpoints: Breakpoints::new(),
            once: Breakpoints::new(),
            watches: Breakpoints::new(),
            ignored: Ignores::new(alloc),
        }
    }

    /// Whether a breakpoint can be set: it is set already, or fewer than `MOST` are.
    pub(crate) fn can_set(&self, address: u16) -> bool
        ensures { result ≡ can_set self.now.breakpoints address }
    {
        self.breakpoints.contains(address) || self.breakpoints.as_slice().len() < MOST
    }

    /// Whether no meeting of the breakpoint at an address is left to pass.
    pub(crate) fn is_due(&self, address: u16) -> bool
        ensures { result ≡ (left_at self.now.ignored address == 0) }
    {
        self.ignored.left_at(address) == 0
    }

    /// Whether a run that is to end at an address, or at none, ends with a part that ended so.
    pub(crate) fn ends_run(&self, ended: &Ended, goal: Option<u16>, pc: u16) -> bool
        ensures { result ≡ ends_run ended.now goal pc self.now.ignored }
    {
        match ended {
            Ended::Met => self.is_due(pc) || is_address(goal, pc),
            Ended::Ran => true,
            Ended::Left(_) => true,
            Ended::Changed { .. } => true,
            Ended::Full => true,
        }
    }

    /// Whether a part of a run ended at a breakpoint that is cleared when it is met, and none of its meetings is
    /// left to pass.
    fn met_once(&self, ended: &Ended, pc: u16) -> bool
        ensures { result ≡ met_once ended.now pc self.now.ignored self.now.once }
    {
        match ended {
            Ended::Met => self.once.contains(pc) && self.is_due(pc),
            Ended::Ran => false,
            Ended::Left(_) => false,
            Ended::Changed { .. } => false,
            Ended::Full => false,
        }
    }

    /// Clears a breakpoint for once that is met: one at `pc` where a part of a run ended at a breakpoint.
    fn clear_met(&mut self, ended: &Ended, pc: u16)
        ensures breakpoints { self.new.breakpoints ≡ left_after ended.now pc self.old.ignored self.old.once self.old.breakpoints }
        ensures once { self.new.once ≡ left_after ended.now pc self.old.ignored self.old.once self.old.once }
        ensures watches { self.new.watches ≡ self.old.watches }
        ensures ignored { self.new.ignored ≡ self.old.ignored }
    {
        if !self.met_once(ended, pc) {
            return;
        }
        self.breakpoints.clear(pc);
        self.once.clear(pc);
    }

    /// Takes a meeting from the count of the breakpoint at `pc` where a part of a run ended at a breakpoint.
    fn take_met(&mut self, ended: &Ended, pc: u16) -> Result<(), NoMemory>
        ensures ignored { OnOk result (self.new.ignored ≡ counts_after ended.now pc self.old.ignored) }
        ensures breakpoints { self.new.breakpoints ≡ self.old.breakpoints }
        ensures once { self.new.once ≡ self.old.once }
        ensures watches { self.new.watches ≡ self.old.watches }
    {
        match ended {
            Ended::Met => self.ignored.take_one(pc),
            Ended::Ran => Ok(()),
            Ended::Left(_) => Ok(()),
            Ended::Changed { .. } => Ok(()),
            Ended::Full => Ok(()),
        }
    }

    /// Keeps what a part of a run leaves that ended so, with this address in PC: a meeting is taken from its
    /// breakpoint's count, and a breakpoint for once that had none left is cleared. `NoMemory` where memory runs out
    /// for the count.
    pub(crate) fn settle(&mut self, ended: &Ended, pc: u16) -> Result<(), NoMemory>
        ensures breakpoints { OnOk result (self.new.breakpoints ≡ left_after ended.now pc self.old.ignored self.old.once self.old.breakpoints) }
        ensures once { OnOk result (self.new.once ≡ left_after ended.now pc self.old.ignored self.old.once self.old.once) }
        ensures ignored { OnOk result (self.new.ignored ≡ counts_after ended.now pc self.old.ignored) }
        ensures watches { self.new.watches ≡ self.old.watches }
    {
        self.clear_met(ended, pc);
        self.take_met(ended, pc)
    }

    /// Takes a breakpoint away that was set for one run, unless it was set before.
    pub(crate) fn restore(&mut self, address: u16, was_set: bool)
        ensures breakpoints { (breaks : List ℕ) → was_set ≡ is_breakpoint breaks address
            → self.old.breakpoints ≡ with_breakpoint breaks address → self.new.breakpoints ≡ breaks }
        ensures once { self.new.once ≡ self.old.once }
        ensures watches { self.new.watches ≡ self.old.watches }
        ensures ignored { self.new.ignored ≡ self.old.ignored }
    {
        if was_set {
            return;
        }
        self.breakpoints.clear(address);
    }
}
