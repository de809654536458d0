//! Why a command line is no task.

ghost use Rattle.std.specs.Prelude.{Decides};
ghost use Rattle.c25_options.specs.Task.{IsWantOfMemory};

use c25_meaning_common::failure::Failure;
use clap::Error;
use clap::error::ErrorKind;

/// Out of memory (9), or an error of `clap`. The `Display` of that error is a text for the user: the mistake
/// with the usage of the subcommand, or the help or the version that was asked for. An error of `clap` may be
/// out of memory too, so call `is_want_of_memory`.
pub type WordsFault = Failure<Error>;

/// Whether a fault is out of memory (9); if not, the command line is invalid or asks for help or the version.
pub fn is_want_of_memory(fault: &WordsFault) -> bool
    ensures { Decides result (IsWantOfMemory fault.now) }
{
    match fault {
        Failure::NoMemory(_) => true,
        Failure::Fault(error) => matches!(error.kind(), ErrorKind::OutOfMemory),
    }
}
