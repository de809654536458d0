//! The processor.

ghost use Rattle.std.specs.Prelude.{◌≡◌, ◌↔◌, ◌&&◌, ℕ, nat_le, Bool, Some, not, true, OnErr, IfOk};
ghost use Rattle.c25_meaning_processor.specs.State.{StepResult, data_at, program_at, state_of};
ghost use Rattle.c25_meaning_processor.specs.Reset.{reset};
ghost use Rattle.c25_meaning_processor.specs.Status.{regs_of};
ghost use Rattle.c25_meaning_processor.specs.Step.{begun};
ghost use Rattle.c25_meaning_processor.specs.WordStep.{IsFetchedBy, WordStep, mark_found};
ghost use Rattle.c25_core.specs.Met.{IsMet};

use crate::bus::{Bus, Halt, Tick};
use crate::fetch::{fetch, fetch_copied, mark_found};
use crate::interrupt::begin;
use crate::memory::{read_data, read_program};
use crate::status::regs_of;
use crate::step::turn;
use bitflags::Flags;
use c25_meaning_image::mark::RunMark;
use c25_meaning_instructions::insn::Insn;
use c25_meaning_processor::accumulator::{Acc, ProductShift};
use c25_meaning_processor::lines::Lines;
use c25_meaning_processor::registers::{ArNumber, DataPage, Registers, Regs};
use std::marker::Model;

/// The processor: all that it holds between two steps. Memories and ports belong to the bus.
#[derive(Clone, Copy)]
pub struct Core {
    pub(crate) registers: Registers,
}

impl Model for Core {
    ghost use Rattle.c25_meaning_processor.specs.declared.registers.Registers.{Registers};

    ghost Value = { Registers };

    ghost view = { λ core. core.registers };

    ghost inverse = { λ r. record { registers = r } };
}

impl Core {
    /// A processor after reset: INTM, SXM, C, XF, HM and FSM are 1, all else is 0.
    #[tactic(auto, unfolding(c25_meaning_processor::specs::Reset::reset))]
    pub fn new() -> Core
        ensures { result ≡ reset }
    {
        Core {
            registers: Registers {
                acc: Acc {
                    value: 0,
                    ov: false,
                    c: true,
                },
                p: 0,
                t: 0,
                ar: [0; 8],
                pc: 0,
                rptc: 0,
                stack: [0; 8],
                arp: ArNumber::new(0),
                arb: ArNumber::new(0),
                dp: DataPage::new(0),
                pm: ProductShift::None,
                ovm: false,
                intm: true,
                cnf: false,
                sxm: true,
                tc: false,
                hm: true,
                fsm: true,
                xf: true,
                fo: false,
                txm: false,
                latched: Lines::empty(),
                asleep: false,
                shadowed: false,
                repeating: false,
                repeated: 0,
            },
        }
    }

    /// The registers as a debugger shows them.
    pub fn regs(&self) -> Regs
        ensures { result ≡ regs_of self.now }
    {
        regs_of(&self.registers)
    }

    /// The program counter: where the next instruction stands, unless an interrupt is taken first.
    #[inline(always)]
    pub fn pc(&self) -> u16
        ensures { result ≡ self.now.pc }
    {
        self.registers.pc
    }

    /// Whether PC lies within block B0, where B0 is seen as program memory.
    #[inline(always)]
    pub fn is_in_b0(&self) -> bool
        ensures { result ≡ (self.now.cnf && nat_le 0xFF00 self.now.pc) }
    {
        self.registers.cnf && 0xFF00 <= self.registers.pc
    }

    /// Whether the processor sleeps in IDLE.
    #[inline(always)]
    pub fn is_asleep(&self) -> bool
        ensures { result ≡ self.now.asleep }
    {
        self.registers.asleep
    }

    /// Whether the next step begins an instruction, unless it takes an interrupt: no repeat is running, and
    /// the processor is awake.
    pub fn settled(&self) -> bool
        ensures { result ≡ (not self.now.repeating && not self.now.asleep) }
    {
        !self.registers.repeating && !self.registers.asleep
    }

    /// A data word as the processor reads it: under CNF 1 a word of block B0 reads 0.
    pub fn data_at<B: Bus>(&self, address: u16, bus: &B) -> u16
        ensures { result ≡ data_at self.now.cnf (B.world bus.now) address }
    {
        read_data(bus, self.registers.cnf, address)
    }

    /// A program word as the processor reads it: under CNF 1 the highest 256 addresses are those of block B0.
    pub fn program_at<B: Bus>(&self, address: u16, bus: &B) -> u16
        ensures { result ≡ program_at self.now.cnf (B.world bus.now) address }
    {
        read_program(bus, self.registers.cnf, address)
    }

    /// The place of the instruction that runs at PC in block B0; None where none does, and under CNF 0.
    pub fn run_mark<B: Bus>(&self, bus: &B) -> Option<RunMark>
        ensures { result ≡ mark_found self.now.cnf (B.world bus.now) self.now.pc }
    {
        mark_found(&self.registers, bus)
    }

    /// The instruction that runs at a place in block B0, where B0 holds its words and they decode to an
    /// instruction of its size.
    pub fn copied<B: Bus>(&self, mark: &RunMark, bus: &B) -> Option<Insn>
        ensures { (cnf : Bool) (pc : ℕ) → IsFetchedBy cnf (B.world bus.now) pc (Some mark.now) result }
    {
        fetch_copied(mark, bus)
    }

    /// One step: latches the interrupt lines of the step, takes an interrupt where one may be taken, and,
    /// unless asleep, runs the instruction at PC. `bio` is the level of the BIO pin, true for 1. `Halt::Stop`
    /// says why the processor stopped, `Halt::Sink` that the bus did not take an output. After either error
    /// core and bus are as before the step, but for the sink's count of failures.
    pub fn step<B: Bus>(&mut self, lines: Lines, bio: bool, bus: &mut B) -> Result<Tick, Halt>
        ensures step { (outcome : StepResult)
            × WordStep lines bio (state_of self.old (B.world bus.old)) outcome
            × IsMet outcome result self.new (B.world bus.old) (B.world bus.new)
            (B.failures bus.old) (B.failures bus.new) }
        ensures tick { IfOk result (λ tick. (tick ≡ Tick.Slept)
            ↔ ((begun lines (state_of self.old (B.world bus.old))).asleep ≡ true)) }
        ensures halt { OnErr result (self.new ≡ self.old) }
    {
        let before = self.registers;
        let registers = &mut self.registers;
        begin(registers, bus, lines);
        let insn = fetch(registers, bus);
        match turn(registers, bus, &insn, bio) {
            Ok(tick) => Ok(tick),
            Err(halt) => {
                self.registers = before;
                Err(halt)
            }
        }
    }
}
