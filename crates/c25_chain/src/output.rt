//! The printed text of a run.

ghost use Rattle.std.specs.Prelude.{◌≡◌, ◌++◌, OnOk, IfOk, string_bytes};
ghost use Rattle.c25_meaning_processor.specs.RunText.{output_line, outputs_text};
ghost use Rattle.c25_chain.specs.OutcomeText.{outcome_text, run_text};

use crate::chain::Chain;
use c25_board::board::Outcome;
use c25_meaning_common::no_memory::NoMemory;
use c25_texts::digits::four;
use itoa::Buffer;
use std::alloc::Global;

/// Appends the line of an output.
fn push_output(out: &mut String, port: u16, word: u16) -> Result<(), NoMemory>
    ensures { OnOk result (string_bytes out.new ≡ string_bytes out.old ++ output_line (port, word)) }
{
    let mut number = Buffer::new();
    out.push_str(number.format(port))?;
    out.push_str(" ")?;
    out.push_str(four(word).as_str())?;
    out.push_str("\n").map_err(NoMemory::from)
}

#[tactic(auto, using(crate::proofs::OutputLines::outputs_more, crate::proofs::OutputLines::outputs_none))]
fn push_outputs(out: &mut String, outputs: &[(u16, u16)]) -> Result<(), NoMemory>
    ensures { OnOk result (string_bytes out.new ≡ string_bytes out.old ++ outputs_text outputs.now) }
{
    for (port, word) in outputs {
        push_output(out, *port, *word)?;
    }
    Ok(())
}

fn push_outcome(out: &mut String, outcome: Outcome, steps: u32) -> Result<(), NoMemory>
    ensures { OnOk result (string_bytes out.new ≡ string_bytes out.old ++ outcome_text outcome steps) }
{
    match outcome {
        Outcome::Ran => write!(out, "ran {steps}\n").map_err(NoMemory::from),
        Outcome::Left(_, stop) => {
            let name = stop.name();
            write!(out, "left {steps} {name}\n").map_err(NoMemory::from)
        }
        Outcome::SinkFault(_) => write!(out, "sink {steps}\n").map_err(NoMemory::from),
    }
}

/// The text of a run: for each output a line with its port in decimal and its word in four hexadecimal
/// digits, and then `ran N`, `left N NAME` or, where a sink refused a word, `sink N`, N being the number of
/// steps that were done.
pub fn write_run(alloc: Global, chain: &Chain) -> Result<String, NoMemory>
    ensures { IfOk result (λ text. string_bytes text ≡ run_text chain.now) }
{
    let mut text = String::new(alloc);
    push_outputs(&mut text, &chain.outputs)?;
    push_outcome(&mut text, chain.outcome, chain.steps)?;
    Ok(text)
}
