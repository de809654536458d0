//! Watched words of data memory.

ghost use Rattle.std.specs.Prelude.{◌≡◌, ◌==◌, find, IfOk, length, not};
ghost use Rattle.c25_meaning_processor.specs.Memory.{memory_of};
ghost use Rattle.c25_prompt.specs.Seen.{seen};

use c25_board::breakpoints::Breakpoints;
use c25_core::{Bus, Observer};
use c25_meaning_processor::registers::Registers;
use std::alloc::{AllocError, Global};

/// A watched data address, with the word that was there before a run.
#[derive(Clone, Copy)]
pub(crate) struct Watched {
    pub address: u16,
    pub old: u16,
}

/// The watched addresses with the words that are there.
pub(crate) fn seen(
    alloc: Global,
    memory: &[u16],
    watches: &[u16],
) -> Result<Vec<Watched>, AllocError>
    requires { length memory.now ≡ 65536 }
    ensures { IfOk result (λ v. v.items ≡ seen watches.now (memory_of memory.now)) }
{
    let mut watched = Vec::new(alloc);
    for address in watches {
        watched.push(Watched {
            address: *address,
            old: memory[usize::from(*address)],
        })?;
    }
    Ok(watched)
}

/// The first watched word that is another now.
pub(crate) fn first_changed(memory: &[u16], watched: &[Watched]) -> Option<Watched>
    requires { length memory.now ≡ 65536 }
    ensures { result ≡ find (λ w. not (memory_of memory.now w.address == w.old)) watched.now }
{
    watched
        .iter()
        .find(|word| memory[usize::from(word.address)] != word.old)
        .copied()
}

/// The first watched word that is another on a bus.
#[inline(always)]
fn first_on<B: Bus>(bus: &B, watched: &[Watched]) -> Option<Watched>
    ensures { result ≡ find (λ w. not ((B.world bus.now).words w.address == w.old)) watched.now }
{
    watched
        .iter()
        .find(|word| bus.data(word.address) != word.old)
        .copied()
}

/// Ends a run where a breakpoint is met or a watched word is another.
#[derive(Drop)]
pub(crate) struct Watching<'a> {
    pub breakpoints: &'a Breakpoints,
    pub watched: &'a [Watched],
}

impl Observer for Watching<'_> {
    ghost use Rattle.std.specs.Prelude.{◌||◌};
    ghost use Rattle.c25_meaning_processor.specs.Goes.{is_met};
    ghost use Rattle.c25_prompt.specs.Seen.{are_changed};

    ghost tells = { λ o _ p. p ≡ o };

    ghost ends = { λ o s. are_changed s.world.words o.watched.now || is_met o.breakpoints.now s };

    #[inline(always)]
    fn see<B: Bus>(&mut self, _acting: Option<u16>, registers: &Registers, bus: &B) -> bool {
        match first_on(bus, self.watched) {
            Some(_) => true,
            None => {
                self.breakpoints.contains(registers.pc) && !registers.repeating && !registers.asleep
            }
        }
    }

    #[inline(always)]
    fn rests<B: Bus>(&self, registers: &Registers, bus: &B) -> bool {
        match first_on(bus, self.watched) {
            Some(_) => false,
            None => registers.asleep,
        }
    }
}
