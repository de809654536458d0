//! One place followed: its interrupts, and the instructions that may act there.

use crate::activations::{Caller, Place};
use crate::search::{Given, Search};
use c25_isa::size_of;
use c25_meaning_common::no_memory::NoMemory;
use c25_meaning_instructions::insn::{Addr, Insn};
use c25_meaning_pages::known::{Dropped, Known, Saved};
use c25_pages::{
    Flow, Spared, Written, flow_of, known_after, known_on_entry, may_write, saved_by, writes,
};
use std::alloc::Global;

/// The interrupt lines, with their vectors.
const LINES: [(u16, u16); 3] = [(1, 2), (2, 4), (4, 6)];

/// How many words the stack has.
const STACK_SIZE: u16 = 8;

/// Whether an instruction writes to an indirect operand.
fn writes_indirectly(written: &Written) -> bool {
    matches!(
        written,
        Written::Operand(Addr::Indirect(_, _))
            | Written::After(Addr::Indirect(_, _))
            | Written::Status(Addr::Indirect(_, _))
    )
}

impl Search {
    /// Whether the statement at an address is supposed to spare a word, or may be.
    fn may_spare(&mut self, address: u16, word: u16) -> Result<bool, NoMemory> {
        if let Some(spared) = self.spared.iter().find(|spared| spared.address == address) {
            return Ok(spared.word == word);
        }
        self.spared.push(Spared { address, word })?;
        Ok(true)
    }

    /// The ST0 that is known to be saved after an instruction.
    fn saved_after(
        &mut self,
        address: u16,
        insn: &Insn,
        known: &Known,
    ) -> Result<Option<Saved>, NoMemory> {
        if let Some(saved) = saved_by(insn, known) {
            return Ok(Some(saved));
        }
        let Some(saved) = known.saved else {
            return Ok(None);
        };
        let written = writes(insn);
        if !may_write(&written, known.page, saved.address) {
            return Ok(Some(saved));
        }
        if writes_indirectly(&written) && self.may_spare(address, saved.address)? {
            return Ok(Some(saved));
        }
        Ok(None)
    }

    /// A routine is called, which returns to a place.
    fn call(
        &mut self,
        alloc: Global,
        target: u16,
        back: Place,
        known: &Known,
    ) -> Result<(), NoMemory> {
        let on_entry = Known {
            pushed: 0,
            ..*known
        };
        let Some(context) = self.activations.number_of(alloc, target, &on_entry)? else {
            return Ok(());
        };
        let caller = Caller {
            back,
            pushed: known.pushed,
        };
        self.activations.add_caller(context, caller)?;
        let address = target;
        self.reach(Place { context, address }, &on_entry)?;
        if let Some(end) = self.activations.on_return(context) {
            self.go_back(caller, &end)?;
        }
        match self.activations.on_drop(context) {
            Some(end) => self.go_on(caller, end),
            None => Ok(()),
        }
    }

    /// A routine returns to a caller.
    fn go_back(&mut self, caller: Caller, end: &Known) -> Result<(), NoMemory> {
        let pushed = caller.pushed;
        self.reach(caller.back, &Known { pushed, ..*end })
    }

    /// A routine that has taken its own return from the stack goes on as a part of a caller.
    fn go_on(&mut self, caller: Caller, end: Dropped) -> Result<(), NoMemory> {
        let pushed = caller.pushed;
        let place = Place {
            context: caller.back.context,
            address: end.next,
        };
        self.reach(
            place,
            &Known {
                pushed,
                ..end.known
            },
        )
    }

    /// A routine returns to all its callers.
    fn leave(&mut self, context: usize, known: &Known) -> Result<(), NoMemory> {
        if context == 0 || known.pushed != 0 || !self.activations.returns(context, known) {
            return Ok(());
        }
        let Some(end) = self.activations.on_return(context) else {
            return Ok(());
        };
        for index in 0..self.caller_count(context) {
            if let Some(caller) = self.caller(context, index) {
                self.go_back(caller, &end)?;
            }
        }
        Ok(())
    }

    /// A routine takes its own return from the stack, and goes on as a part of each of its callers.
    fn drop_return(&mut self, place: Place, known: &Known) -> Result<(), NoMemory> {
        let Place { context, address } = place;
        if context == 0 || !self.activations.drops(context, address, known) {
            return Ok(());
        }
        let Some(end) = self.activations.on_drop(context) else {
            return Ok(());
        };
        for index in 0..self.caller_count(context) {
            if let Some(caller) = self.caller(context, index) {
                self.go_on(caller, end)?;
            }
        }
        Ok(())
    }

    /// A word is taken from the stack: one that was pushed, or else the routine's own return.
    fn take(&mut self, next: Place, known: &Known) -> Result<(), NoMemory> {
        if known.pushed == 0 {
            return self.drop_return(next, known);
        }
        let pushed = known.pushed - 1;
        self.reach(next, &Known { pushed, ..*known })
    }

    /// A word is pushed, if the stack has room for it.
    fn push(&mut self, next: Place, known: &Known) -> Result<(), NoMemory> {
        if STACK_SIZE <= known.pushed {
            return Ok(());
        }
        let pushed = known.pushed + 1;
        self.reach(next, &Known { pushed, ..*known })
    }

    /// How many callers an activation has.
    fn caller_count(&self, context: usize) -> usize {
        match self.activations.list.get(context) {
            Some(activation) => activation.callers.len(),
            None => 0,
        }
    }

    /// A caller of an activation, by its index.
    fn caller(&self, context: usize, index: usize) -> Option<Caller> {
        self.activations
            .list
            .get(context)?
            .callers
            .get(index)
            .copied()
    }

    /// An instruction leads on with what is known after it.
    fn lead_on(
        &mut self,
        given: &Given<'_>,
        insn: &Insn,
        place: Place,
        known: &Known,
    ) -> Result<(), NoMemory> {
        let context = place.context;
        let next = Place {
            context,
            address: place.address.wrapping_add(size_of(insn.mnemonic())),
        };
        match flow_of(insn) {
            Flow::On => self.reach(next, known),
            Flow::Goes(address) => self.reach(Place { context, address }, known),
            Flow::Branches(address) => {
                self.reach(Place { context, address }, known)?;
                self.reach(next, known)
            }
            Flow::Calls(target) => self.call(given.alloc, target, next, known),
            Flow::Returns => self.leave(context, known),
            Flow::GoesByAccumulator => self.go_to_landings(given, context, known),
            Flow::CallsByAccumulator => self.call_landings(given, next, known),
            Flow::Pushes => self.push(next, known),
            Flow::Takes => self.take(next, known),
        }
    }

    /// BACC goes to each address to which it is supposed to go.
    fn go_to_landings(
        &mut self,
        given: &Given<'_>,
        context: usize,
        known: &Known,
    ) -> Result<(), NoMemory> {
        for landing in given.landings {
            let address = *landing;
            self.reach(Place { context, address }, known)?;
        }
        Ok(())
    }

    /// CALA calls each address to which it is supposed to go.
    fn call_landings(
        &mut self,
        given: &Given<'_>,
        back: Place,
        known: &Known,
    ) -> Result<(), NoMemory> {
        for landing in given.landings {
            self.call(given.alloc, *landing, back, known)?;
        }
        Ok(())
    }

    /// An instruction acts at a place.
    fn act(
        &mut self,
        given: &Given<'_>,
        insn: &Insn,
        place: Place,
        known: &Known,
    ) -> Result<(), NoMemory> {
        let saved = self.saved_after(place.address, insn, known)?;
        let after = Known {
            saved,
            ..known_after(insn, known)
        };
        if !known.once {
            self.reach(
                place,
                &Known {
                    once: false,
                    ..after
                },
            )?;
        }
        self.lead_on(given, insn, place, &after)
    }

    /// Each interrupt that may be taken at a place begins its routine.
    fn interrupt(
        &mut self,
        given: &Given<'_>,
        place: Place,
        known: &Known,
    ) -> Result<(), NoMemory> {
        if known.masked || known.shadowed {
            return Ok(());
        }
        for (line, vector) in LINES {
            if given.lines & line == line {
                self.call(given.alloc, vector, place, &known_on_entry(known))?;
            }
        }
        Ok(())
    }

    /// A place is followed.
    pub(crate) fn follow(&mut self, given: &Given<'_>, place: Place) -> Result<(), NoMemory> {
        let Some(known) = self.facts.get(&(place.context, place.address)).copied() else {
            return Ok(());
        };
        self.interrupt(given, place, &known)?;
        if known.asleep {
            return Ok(());
        }
        if let Some(insn) = given.program.find_statement(place.address) {
            self.act(given, &insn, place, &known)?;
        }
        if let Some(insn) = given.program.copied_at(place.address) {
            self.act(given, &insn, place, &known)?;
        }
        Ok(())
    }
}
