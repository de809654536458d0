//! A bus for tests: two memories, the places of instructions, one sample at most for each port, and
//! a sink that can be closed.

ghost use Rattle.std.specs.Prelude.{◌≡◌, IfOk, OnOk, OnErr, vec_len};
ghost use Rattle.c25_meaning_instructions.specs.Table.{InRange};

use c25_core::{Bus, SinkFailed};
use c25_isa::encode;
use c25_meaning_common::no_memory::NoMemory;
use c25_meaning_image::mark::{Mark, RunMark};
use c25_meaning_image::marks::{is_loaded_code, run_at, size_at};
use c25_meaning_instructions::insn::Insn;
use std::alloc::Global;

/// What is around the processor in a test.
#[derive(Drop)]
pub struct Bench {
    words: Vec<u16>,
    program: Vec<u16>,
    /// Where instructions stand.
    pub marks: Vec<Mark>,
    /// Where instructions run in block B0, and where they are loaded.
    pub run_marks: Vec<RunMark>,
    /// The sample of each port.
    pub samples: [Option<u16>; 16],
    /// All outputs, a port and a word each, oldest first.
    pub outputs: Vec<(u16, u16)>,
    /// Whether the sink refuses each word.
    pub closed: bool,
    failures: u64,
    ghost words_full: { vec_len words ≡ 65536 },
    ghost program_full: { vec_len program ≡ 65536 },
}

/// A memory of zeros.
fn zeros(alloc: Global) -> Result<Vec<u16>, NoMemory>
    ensures { IfOk result (λ words. vec_len words ≡ 65536) }
{
    Ok(Vec::from_elem(alloc, 0, 65536)?)
}

impl Bench {
    /// A bench whose memories are all 0, without instructions and samples.
    pub fn new(alloc: Global) -> Result<Bench, NoMemory> {
        Ok(Bench {
            words: zeros(alloc)?,
            program: zeros(alloc)?,
            marks: Vec::new(alloc),
            run_marks: Vec::new(alloc),
            samples: [None; 16],
            outputs: Vec::new(alloc),
            closed: false,
            failures: 0,
        })
    }

    /// Puts an instruction of these words at an address.
    pub fn place(&mut self, address: u16, first: u16, second: Option<u16>) -> Result<(), NoMemory> {
        self.program[usize::from(address)] = first;
        if let Some(second) = second {
            self.program[usize::from(address.wrapping_add(1))] = second;
        }
        let size = if second.is_some() { 2 } else { 1 };
        self.marks.push(Mark { address, size })?;
        Ok(())
    }

    /// Puts an instruction at an address, and gives the address after it.
    pub fn place_insn(&mut self, address: u16, insn: &Insn) -> Result<u16, NoMemory>
        requires { InRange insn.now }
    {
        let code = encode(insn);
        let words = code.as_slice();
        let first = words.first().copied().unwrap_or(0);
        let second = words.get(1).copied();
        self.place(address, first, second)?;
        Ok(address.wrapping_add(if second.is_some() { 2 } else { 1 }))
    }

    /// Lets an instruction of this size run at an address of block B0, loaded at another.
    pub fn place_in_b0(&mut self, run: u16, load: u16, size: u16) -> Result<(), NoMemory> {
        self.run_marks.push(RunMark { load, run, size })?;
        Ok(())
    }

    /// Removes the places of instructions and the outputs. The words of both memories stay.
    pub fn clear(&mut self) {
        self.marks.clear();
        self.run_marks.clear();
        self.outputs.clear();
    }

    /// Writes eight data words.
    pub fn write_eight(&mut self, address: u16, eight: &[u16; 8]) {
        let mut at = address;
        for word in eight {
            self.words[usize::from(at)] = *word;
            at = at.wrapping_add(1);
        }
    }
}

impl Bus for Bench {
    ghost use Rattle.c25_meaning_processor.specs.Memory.{memory_of};
    ghost use Rattle.c25_processor_tests.specs.Worlds.{samples_of};

    ghost world = { λ b. record { words = memory_of b.words.items; program = memory_of b.program.items; marks = b.marks.items; run_marks = b.run_marks.items; samples = samples_of b.samples; outputs = b.outputs.items } };

    ghost failures = { λ b. b.failures };

    fn data(&self, address: u16) -> u16 {
        self.words[usize::from(address)]
    }

    #[tactic(auto, using(c25_meaning_processor::proofs::Memories::memory_of_set))]
    fn set_data(&mut self, address: u16, word: u16) {
        self.words[usize::from(address)] = word;
    }

    fn program(&self, address: u16) -> u16 {
        self.program[usize::from(address)]
    }

    #[tactic(auto, using(c25_meaning_processor::proofs::Memories::memory_of_set))]
    fn set_program(&mut self, address: u16, word: u16) {
        self.program[usize::from(address)] = word;
    }

    fn size_at(&self, address: u16) -> Option<u16> {
        size_at(&self.marks, address)
    }

    fn run_at(&self, address: u16) -> Option<RunMark> {
        run_at(&self.run_marks, address)
    }

    fn is_code(&self, address: u16) -> bool {
        is_loaded_code(&self.run_marks, &self.marks, address)
    }

    #[tactic(auto, using(crate::proofs::Writes::samples_of_set))]
    fn input(&mut self, port: u16) -> Option<u16> {
        let index = usize::from(port);
        if index >= 16 {
            return None;
        }
        let sample = self.samples[index]?;
        self.samples[index] = None;
        Some(sample)
    }

    fn output(&mut self, port: u16, word: u16) -> Result<(), SinkFailed> {
        if !self.closed && self.outputs.push((port, word)).is_ok() {
            return Ok(());
        }
        self.failures = self.failures.saturating_add(1);
        Err(SinkFailed)
    }
}
