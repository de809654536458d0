//! The processor in states from a generator with a fixed seed. Standard input has the rows of the opcode
//! table: for each a name, the first word with operands 0, and the bits of it that hold operands. The file
//! `stdout` has the answers of an independent model of the processor.
#![tactic(auto)]

mod case;
mod generator;
mod state;
mod sum;

use anyhow::{Result, bail};
use c25_core::{Bus, Tick};
use c25_processor_tests::bench::Bench;
use case::Case;
use generator::Generator;
use sum::Sum;

/// How many states each row goes through.
const STATES: u32 = 300;

/// A line of the table.
fn read_row(line: &str) -> Option<(&str, u16, u16)> {
    let (name, words) = line.split_once(' ')?;
    let (base, operands) = words.split_once(' ')?;
    let base = u16::from_str_radix(base, 16).ok()?;
    let operands = u16::from_str_radix(operands, 16).ok()?;
    Some((name, base, operands))
}

/// Fills both memories.
fn fill(bench: &mut Bench, generator: &mut Generator) {
    for address in 0..=u16::MAX {
        bench.set_data(address, generator.word());
    }
    for address in 0..=u16::MAX {
        bench.set_program(address, generator.word());
    }
}

/// Prints how the first state of a row ends; in how many of its states the last step runs an instruction; and
/// the sums of how all of them end and of both memories after them.
fn run_row(
    rt: &impl Print,
    bench: &mut Bench,
    generator: &mut Generator,
    (name, base, operands): (&str, u16, u16),
) -> Result<()> {
    let mut sum = Sum::new();
    let mut ran: u32 = 0;
    for number in 0..STATES {
        let case = Case::draw(generator, base, operands);
        let end = case.run(bench, generator)?;
        end.add_to(&mut sum);
        sum.add_outputs(bench);
        if end.answer == Ok(Tick::Ran) {
            ran += 1;
        }
        if number == 0 {
            println!(rt; "{name} {:04X} {:04X}: {end}", case.first, case.second)?;
        }
    }
    println!(rt; "{name} {ran} {sum} {}", Sum::of_memories(bench))?;
    Ok(())
}

fn main(rt: HostRuntime) -> Result<()> {
    let mut generator = Generator::new();
    let mut bench = Bench::new(rt.alloc())?;
    fill(&mut bench, &mut generator);
    for line in rt.lines(rt.alloc()) {
        let line = line?;
        let Some(row) = read_row(line.as_str()) else {
            bail!("no row: {line}");
        };
        run_row(&rt, &mut bench, &mut generator, row)?;
    }
    Ok(())
}
