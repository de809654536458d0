//! States of the processor, made by running instructions.

ghost use Rattle.std.specs.Prelude.{◌<◌};
ghost use Rattle.c25_meaning_instructions.specs.Table.{InRange};

use crate::generator::Generator;
use bitflags::Flags;
use c25_core::Core;
use c25_meaning_common::no_memory::NoMemory;
use c25_meaning_instructions::insn::{Addr, Change, Insn, PlainOperand};
use c25_meaning_instructions::mnemonic::{ArMemName, JumpName, MemName, PlainName};
use c25_meaning_processor::lines::Lines;
use c25_processor_tests::bench::Bench;

/// An instruction with a direct operand.
pub fn mem(name: MemName, low: u16) -> Insn
    requires { low < 128 }
    ensures { InRange result }
{
    Insn::Mem(name, Addr::Direct(low))
}

/// The instructions that load P and T, ACC and ST1 from the words from 70h on.
const LOADS: [MemName; 7] = [
    MemName::Lt,
    MemName::Mpyu,
    MemName::Lph,
    MemName::Lt,
    MemName::Zalh,
    MemName::Or,
    MemName::Lst1,
];

/// What the registers of a state hold, but for PC and RPTC.
#[derive(Clone, Copy)]
pub struct CaseState {
    pub acc_high: u16,
    pub acc_low: u16,
    pub p_high: u16,
    pub p_low: u16,
    pub t: u16,
    pub ar: [u16; 8],
    /// The hardware stack, its top first.
    pub stack: [u16; 8],
    pub st0: u16,
    pub st1: u16,
}

impl CaseState {
    /// The next state of a generator.
    pub fn draw(generator: &mut Generator) -> CaseState {
        CaseState {
            acc_high: generator.word(),
            acc_low: generator.word(),
            p_high: generator.word(),
            p_low: generator.word(),
            t: generator.word(),
            ar: generator.eight(),
            stack: generator.eight(),
            st0: generator.word(),
            st1: generator.word(),
        }
    }

    /// Makes this state by a program at address 0, of 26 steps, which goes on at `start`. The words that it
    /// loads are at data addresses 60h to 77h.
    pub fn make(&self, bench: &mut Bench, start: u16) -> Result<Core, NoMemory> {
        self.write_words(bench);
        let mut at = 0;
        for word in 0..8 {
            at = bench.place_insn(at, &mem(MemName::Pshd, 0x67 - word))?;
        }
        for number in 0..8 {
            let operand = Addr::Direct(0x68 + number);
            at = bench.place_insn(at, &Insn::ArMem(ArMemName::Lar, number, operand))?;
        }
        for place in 0..7 {
            let load = LOADS[usize::from(place)];
            at = bench.place_insn(at, &mem(load, 0x70 + place))?;
        }
        let switch = if self.st0 / 0x200 % 2 == 1 {
            PlainName::Dint
        } else {
            PlainName::Eint
        };
        at = bench.place_insn(at, &Insn::Plain(switch, PlainOperand::Nothing))?;
        at = bench.place_insn(at, &mem(MemName::Lst, 0x77))?;
        bench.place_insn(at, &Insn::Jump(JumpName::B, start, Change::Keep, None))?;
        let mut core = Core::new();
        for _ in 0..26 {
            let _ = core.step(Lines::empty(), true, bench);
        }
        Ok(core)
    }

    /// Writes the words from which the state is made.
    fn write_words(&self, bench: &mut Bench) {
        bench.write_eight(0x60, &self.stack);
        bench.write_eight(0x68, &self.ar);
        let rest = [
            self.p_low,
            1,
            self.p_high,
            self.t,
            self.acc_high,
            self.acc_low,
            self.st1,
            self.st0,
        ];
        bench.write_eight(0x70, &rest);
    }
}
