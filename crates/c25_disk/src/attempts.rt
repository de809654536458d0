//! One attempt of a task over files.

ghost use Rattle.c25_disk.specs.Copies.{AfterFault, IsTurn};

use crate::sources::is_among;
use crate::work::{CopyFault, Work};
use c25_files::files::Files;
use c25_meaning_common::failure::Failure;
use std::alloc::Global;

/// The result of one attempt: an answer, or the name of a file that has not been read.
#[derive(Drop)]
pub(crate) enum Turn<A> {
    Answered(A),
    Lacks(String),
}

/// The result of an attempt that ended with a fault: the missing file's name, where the fault asks for a file
/// that has not been read, and otherwise the fault.
#[tactic(auto, using(crate::proofs::Asked::there, crate::proofs::Asked::there_none, crate::proofs::Asked::lacking))]
fn after_fault<W: Work>(
    alloc: Global,
    files: &Files,
    fault: W::Fault,
) -> Result<Turn<W::Answer>, Failure<CopyFault<W::Fault>>>
    ensures { AfterFault W.missing_of files.now fault result }
{
    let Some(name) = W::missing(&fault) else {
        return Err(Failure::Fault(CopyFault::Work(fault)));
    };
    if is_among(files, name) {
        return Err(Failure::Fault(CopyFault::Work(fault)));
    }
    Ok(Turn::Lacks(String::from_str(alloc, name)?))
}

/// Runs the task once over these files.
pub(crate) fn attempt<W: Work>(
    alloc: Global,
    files: &Files,
    work: &W,
) -> Result<Turn<W::Answer>, Failure<CopyFault<W::Fault>>>
    ensures { IsTurn (W.comes_to work.now files.now) W.missing_of files.now result }
{
    match work.answer(alloc, files) {
        Ok(answer) => Ok(Turn::Answered(answer)),
        Err(Failure::NoMemory(error)) => Err(Failure::NoMemory(error)),
        Err(Failure::Fault(fault)) => after_fault::<W>(alloc, files, fault),
    }
}
