//! The script of a text, with the chain's faults.

ghost use Rattle.c25_chain.specs.Refusal.{refusal_of};
ghost use Rattle.c25_chain.specs.declared.fault.ChainFault.TheVariants as refusal;
ghost use Rattle.c25_meaning_common.specs.Results.{MeetsBy, told};
ghost use Rattle.c25_meaning_processor.specs.Script.{script_of};

use crate::fault::{ChainFault, Fault};
use c25_debug::script::{Script, read_script};
use c25_meaning_common::failure::Failure;
use c25_meaning_common::placed::Placed;
use std::alloc::Global;

/// Reads the text of a debugger's script. A wrong line is fault 95.
pub(crate) fn script_in(alloc: Global, text: &str) -> Result<Script, Fault>
    ensures { MeetsBy refusal_of (λ script. script) (told refusal.Script (script_of text.now)) result }
{
    match read_script(alloc, text) {
        Ok(script) => Ok(script),
        Err(Failure::NoMemory(error)) => Err(error.into()),
        Err(Failure::Fault(Placed { place: line, .. })) => {
            Err(Failure::Fault(ChainFault::Script { line }))
        }
    }
}
