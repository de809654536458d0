//! The list of all faults.

ghost use Rattle.std.specs.Prelude.{◌≡◌, ◌+◌, ◌++◌, IfOk, OnOk, string_bytes};
ghost use Rattle.c25_explain.specs.Below.{AreBelow};
ghost use Rattle.c25_explain.specs.Explanation.{AreAll, IsSummaryOfAll, summaries, summary_line};

use crate::explanation::explanation;
use crate::parts::Explanation;
use crate::sentence::first_sentence;
use c25_meaning_common::no_memory::NoMemory;
use std::alloc::Global;

/// Appends the explanation of the fault of this number, where a fault has it.
fn push_next(all: &mut Vec<Explanation>, number: u8) -> Result<(), NoMemory>
    ensures { AreBelow number all.old.items → OnOk result (AreBelow (number + 1) all.new.items) }
{
    match explanation(number) {
        Some(explanation) => Ok(all.push(explanation)?),
        None => Ok(()),
    }
}

/// The explanations of all faults, by rising numbers.
#[tactic(auto, using(crate::proofs::Below::none_at_first))]
fn explanations(alloc: Global) -> Result<Vec<Explanation>, NoMemory>
    ensures { IfOk result (λ all. AreAll all.items) }
{
    let mut all = Vec::new(alloc);
    for number in 0..=u8::MAX {
        push_next(&mut all, number)?;
    }
    Ok(all)
}

/// The line of a fault in the list of all.
fn summary_line(alloc: Global, explanation: &Explanation) -> Result<String, NoMemory>
    ensures { IfOk result (λ line. string_bytes line ≡ summary_line explanation.now) }
{
    let Explanation {
        number,
        name,
        meaning,
        ..
    } = explanation;
    let sentence = first_sentence(alloc, meaning)?;
    Ok(format!(in alloc; "{number} {name}: {sentence}\n")?)
}

/// Appends the lines of faults.
fn push_summaries(
    alloc: Global,
    text: &mut String,
    explanations: &[Explanation],
) -> Result<(), NoMemory>
    ensures { OnOk result (string_bytes text.new ≡ string_bytes text.old ++ summaries explanations.now) }
{
    for explanation in explanations {
        let line = summary_line(alloc, explanation)?;
        text.push_str(line.as_str())?;
    }
    Ok(())
}

/// The list of all faults: a line for each, with its number, its name and the first sentence of what it means.
pub fn list_of_faults(alloc: Global) -> Result<String, NoMemory>
    ensures { IfOk result (λ text. IsSummaryOfAll (string_bytes text)) }
{
    let all = explanations(alloc)?;
    let mut text = String::new(alloc);
    push_summaries(alloc, &mut text, &all)?;
    Ok(text)
}
