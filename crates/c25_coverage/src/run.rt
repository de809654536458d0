//! The counts of the run of a program.

ghost use Rattle.std.specs.Prelude.{◌≡◌, IfOk, string_bytes};
ghost use Rattle.c25_board.specs.Board.{signals, state, steps};
ghost use Rattle.c25_chain.specs.Chain.{Given};
ghost use Rattle.c25_chain.specs.Ready.{IsReady};
ghost use Rattle.c25_counts.specs.Counting.{CountsSteps};
ghost use Rattle.c25_coverage.specs.Run.{IsCoverage};

use crate::branches::branches_of;
use crate::lcov::lcov_text;
use crate::list::list_text;
use c25_chain::board_of;
use c25_chain::laws::answers_run_as_their_sources;
use c25_chain::ready::Ready;
use c25_count_laws::laws::words_and_statements_count_alike;
use c25_counts::counting::{RunBoard, count_steps};
use c25_counts::counts::Counts;
use c25_files::files::Files;
use c25_meaning_common::no_memory::NoMemory;
use std::alloc::Global;

/// The counts of n steps of a board with no step done, or of those up to the one that stops, with those of the
/// branches at these addresses that pass.
fn counts_of(
    alloc: Global,
    board: &mut RunBoard,
    n: u32,
    branches: &[u16],
) -> Result<Counts, NoMemory>
    requires { steps board.old ≡ 0 }
    ensures { IfOk result (λ counts. CountsSteps (signals board.old) n (state board.old) branches.now counts.acts.items counts.passes.items) }
{
    let mut counts = Counts::new(alloc, branches)?;
    count_steps(board, n, &mut counts);
    if let Some(refused) = board.sink().refused() {
        return Err(refused);
    }
    Ok(counts)
}

/// How often each line of a program's sources acted in a run.
#[derive(Drop)]
pub struct LineCounts {
    /// As a text that lcov reads (`genhtml`).
    pub lcov: String,
    /// Next to the lines of the sources.
    pub list: String,
}

/// Runs n steps of a program from a reset on, or those up to the one that stops, and answers how often each line
/// of its sources, whose texts are in `files`, acted: the counts are those of the run of the words, and of the
/// run of the statements of the sources. An instruction counts in each step in which it
/// acts: each repetition of it is a step, the instruction of an interrupt's vector acts in the step that takes
/// the interrupt, none acts in a step in which `IDLE` waits, and a step that stops is not counted. A conditional
/// branch passes in each step in which it acts and PC after it is the address after its two words, and is taken in
/// the other steps in which it acts. The outputs are kept while the program runs, so memory may run out for them.
pub fn coverage(alloc: Global, files: &Files, ready: Ready, n: u32) -> Result<LineCounts, NoMemory>
    ensures { (given : Given) → IsReady given ready → given.files ≡ files.now
        → IfOk result (λ c. IsCoverage given ready n (string_bytes c.lcov) (string_bytes c.list)) }
{
    answers_run_as_their_sources();
    words_and_statements_count_alike();
    let Ready {
        built,
        samples,
        schedule,
    } = ready;
    let mut board = board_of(alloc, &built.linked, samples, schedule)?;
    let image = &built.linked.image;
    let branches = branches_of(alloc, image)?;
    let counts = counts_of(alloc, &mut board, n, branches.as_slice())?;
    let lcov = lcov_text(alloc, image, &counts)?;
    let list = list_text(alloc, files, image, &counts)?;
    Ok(LineCounts { lcov, list })
}
