//! One state of the processor, the instruction that runs in it, and how that ends.

use crate::generator::Generator;
use crate::state::CaseState;
use crate::sum::Sum;
use bitflags::Flags;
use c25_core::{Bus, Halt, Tick};
use c25_isa::{decode, size_of};
use c25_meaning_common::no_memory::NoMemory;
use c25_meaning_processor::lines::Lines;
use c25_meaning_processor::registers::Regs;
use c25_meaning_processor::stop::Stop;
use c25_processor_tests::bench::Bench;
use std::fmt;

/// An instruction in a state.
#[derive(Clone, Copy)]
pub struct Case {
    pub first: u16,
    /// The second word, 0 where the instruction has none.
    pub second: u16,
    size: u16,
    state: CaseState,
    pc: u16,
    /// `RPTK` or `EINT`, which runs just before the instruction.
    prefix: Option<u16>,
    steps: u16,
    lines: Lines,
    bio: bool,
}

/// How a case ends.
#[derive(Clone, Copy)]
pub struct End {
    pub answer: Result<Tick, Halt>,
    /// The steps that are done.
    done: u16,
    regs: Regs,
    settled: bool,
}

/// The two words of an instruction of a row of the opcode table, with drawn operands; where 64 draws decode
/// to no instruction, the row's first word with operands 0.
fn draw_words(generator: &mut Generator, base: u16, operands: u16) -> (u16, u16) {
    for _ in 0..64 {
        let first = base | (generator.bits() & operands);
        let second = generator.word();
        if decode(first, second).is_some() {
            return (first, second);
        }
    }
    (base, 0)
}

/// The instruction's address: in one of 16 cases near the edge of block B0.
fn draw_place(generator: &mut Generator) -> u16 {
    let pc = 0x100 + generator.below(0xFE80);
    if generator.below(16) == 0 {
        0xFEFC + generator.below(8)
    } else {
        pc
    }
}

/// What runs just before the instruction, and the number of steps of both, repetitions included.
fn draw_prefix(generator: &mut Generator) -> (Option<u16>, u16) {
    match generator.below(4) {
        2 => {
            let count = generator.below(4);
            (Some(0xCB00 + count), 2 + generator.below(count + 1))
        }
        3 => (Some(0xCE00), 2),
        _ => (None, 1),
    }
}

/// The interrupt lines of the first step, none in most cases.
fn draw_lines(generator: &mut Generator) -> Lines {
    if generator.below(8) == 0 {
        Lines::from_bits_retain(generator.below(8) as u8)
    } else {
        Lines::empty()
    }
}

impl Case {
    /// The next case of a row.
    pub fn draw(generator: &mut Generator, base: u16, operands: u16) -> Case {
        let (first, second) = draw_words(generator, base, operands);
        let size = decode(first, second).map_or(1, |insn| size_of(insn.mnemonic()));
        let mut state = CaseState::draw(generator);
        let pc = draw_place(generator);
        if generator.below(4) == 0 {
            state.acc_low = pc.wrapping_add(generator.below(2));
        }
        let (prefix, steps) = draw_prefix(generator);
        let lines = draw_lines(generator);
        let bio = generator.below(2) == 1;
        Case {
            first,
            second: if size == 2 { second } else { 0 },
            size,
            state,
            pc,
            prefix,
            steps,
            lines,
            bio,
        }
    }

    /// Draws the operand's word for a direct and an indirect operand, the samples, and whether the
    /// sink takes words.
    fn draw_around(&self, bench: &mut Bench, generator: &mut Generator) {
        let direct = self.state.st0 % 512 * 128 + self.first % 128;
        bench.set_data(direct, generator.word());
        let current = self.state.ar[usize::from(self.state.st0 / 0x2000)];
        bench.set_data(current, generator.word());
        let sample = if generator.below(4) == 0 {
            None
        } else {
            Some(generator.word())
        };
        bench.samples = [sample; 16];
        bench.closed = generator.below(8) == 0;
    }

    /// Makes the state, and runs the steps up to the one that halts.
    pub fn run(&self, bench: &mut Bench, generator: &mut Generator) -> Result<End, NoMemory> {
        bench.clear();
        self.draw_around(bench, generator);
        let start = match self.prefix {
            Some(word) => {
                let start = self.pc.wrapping_sub(1);
                bench.place(start, word, None)?;
                start
            }
            None => self.pc,
        };
        let second = if self.size == 2 {
            Some(self.second)
        } else {
            None
        };
        bench.place(self.pc, self.first, second)?;
        let mut core = self.state.make(bench, start)?;
        let mut answer = Ok(Tick::Ran);
        let mut done = 0;
        let mut lines = self.lines;
        for step in 0..self.steps {
            answer = core.step(lines, self.bio, bench);
            if answer.is_err() {
                break;
            }
            done = step + 1;
            lines = Lines::empty();
        }
        Ok(End {
            answer,
            done,
            regs: core.regs(),
            settled: core.settled(),
        })
    }
}

impl End {
    /// A number for the outcome of the last step.
    fn answer_number(&self) -> u16 {
        match self.answer {
            Ok(Tick::Ran) => 0,
            Ok(Tick::Slept) => 1,
            Err(Halt::Stop(Stop::OutOfCode)) => 2,
            Err(Halt::Stop(Stop::CodeWrite)) => 3,
            Err(Halt::Stop(Stop::BadRepeat)) => 4,
            Err(Halt::Stop(Stop::PortDry)) => 5,
            Err(Halt::Sink) => 6,
        }
    }

    /// Adds the whole end to a sum.
    pub fn add_to(&self, sum: &mut Sum) {
        let regs = &self.regs;
        sum.add_all(&[self.answer_number(), self.done]);
        sum.add_all(&[(regs.acc / 0x1_0000) as u16, (regs.acc % 0x1_0000) as u16]);
        sum.add_all(&[(regs.p / 0x1_0000) as u16, (regs.p % 0x1_0000) as u16]);
        sum.add(regs.t);
        sum.add_all(&regs.ar);
        sum.add_all(&[regs.pc, regs.st0, regs.st1, u16::from(regs.rptc)]);
        sum.add_all(&regs.stack);
        sum.add(u16::from(self.settled));
    }
}

/// Words in hexadecimal, a blank before each.
#[derive(Clone, Copy)]
struct CaseWords<'a>(&'a [u16]);

impl fmt::Display for CaseWords<'_> {
    fn fmt<W: fmt::Write>(&self, f: &mut fmt::Formatter<W>) -> fmt::Result {
        for word in self.0 {
            write!(f, " {word:04X}")?;
        }
        Ok(())
    }
}

/// Writes the outcome of the last step.
fn write_answer<W: fmt::Write>(
    f: &mut fmt::Formatter<W>,
    answer: Result<Tick, Halt>,
) -> fmt::Result {
    match answer {
        Ok(tick) => write!(f, "{tick:?}"),
        Err(Halt::Stop(stop)) => write!(f, "{stop:?}"),
        Err(Halt::Sink) => write!(f, "Sink"),
    }
}

impl fmt::Display for End {
    fn fmt<W: fmt::Write>(&self, f: &mut fmt::Formatter<W>) -> fmt::Result {
        let regs = &self.regs;
        write_answer(f, self.answer)?;
        write!(f, " {} PC {:04X} ACC {:08X}", self.done, regs.pc, regs.acc)?;
        write!(f, " P {:08X} T {:04X}", regs.p, regs.t)?;
        let (ar, stack) = (CaseWords(&regs.ar), CaseWords(&regs.stack));
        write!(
            f,
            " ST0 {:04X} ST1 {:04X} RPTC {:02X} AR{ar} STACK{stack}",
            regs.st0, regs.st1, regs.rptc
        )
    }
}
