//! The bus: what the processor needs around it.

ghost use Rattle.std.specs.Prelude.{◌≡◌, ◌∷◌, [], ◌++◌, ℕ, OnOk, OnErr, slice_get, OnSome, IfNone};
ghost use Rattle.c25_meaning_processor.specs.State.{World, loaded_marks, taken};
ghost use Rattle.c25_meaning_image.specs.Marks.{is_code, run_at, size_at};
ghost use Rattle.c25_meaning_processor.specs.Memory.{put};
ghost use Rattle.c25_core.specs.Sink.{HasFailed};

use c25_meaning_image::mark::RunMark;
use c25_meaning_processor::stop::Stop;
use thiserror::Error;

/// Why a step was not done. Core and bus are then as before the step, but for the sink's count of failures.
#[derive(Clone, Copy, PartialEq, Debug, Error)]
pub enum Halt {
    /// The processor stopped.
    #[error("the code was left: {0}")]
    Stop(Stop),
    /// The sink failed to take a word in this step.
    #[error("the sink failed")]
    Sink,
}

/// What a step did.
#[derive(Clone, Copy, PartialEq, Debug)]
pub enum Tick {
    /// The step ran one instruction, or one repetition of one.
    Ran,
    /// The step ran no instruction, since the processor sleeps.
    Slept,
}

/// The sink did not take a word.
#[derive(Clone, Copy, Debug, Error)]
#[error("the sink failed")]
pub struct SinkFailed;

/// Data and program memory, the places of the instructions, and ports. On the bus, block B0 is always at data
/// addresses 200h to 2FFh: the processor itself maps it to where CNF puts it.
pub trait Bus {
    /// The memories, places, samples and outputs that the bus stands for.
    ghost world: { Self → World };

    /// How often the sink has failed, up to 2^64 - 1.
    ghost failures: { Self → ℕ };

    /// A word of data memory.
    fn data(&self, address: u16) -> u16
        ensures { result ≡ (world self.now).words address };

    /// Writes a word of data memory.
    fn set_data(&mut self, address: u16, word: u16)
        ensures after { world self.new
            ≡ record (world self.old) { words = put (world self.old).words address word } }
        ensures failures { failures self.new ≡ failures self.old };

    /// A word of program memory.
    fn program(&self, address: u16) -> u16
        ensures { result ≡ (world self.now).program address };

    /// Writes a word of program memory.
    fn set_program(&mut self, address: u16, word: u16)
        ensures after { world self.new
            ≡ record (world self.old) { program = put (world self.old).program address word } }
        ensures failures { failures self.new ≡ failures self.old };

    /// The number of words of the instruction that begins at a program address, where one does.
    fn size_at(&self, address: u16) -> Option<u16>
        ensures { result ≡ size_at (world self.now).marks address };

    /// The place of the instruction that runs at a program address of block B0 once its words are moved
    /// there, if there is one.
    fn run_at(&self, address: u16) -> Option<RunMark>
        ensures { result ≡ run_at (world self.now).run_marks address };

    /// Whether a program word belongs to an instruction, at the address where the instruction is loaded.
    fn is_code(&self, address: u16) -> bool
        ensures { result ≡ is_code (loaded_marks (world self.now)) address };

    /// Takes the next sample of a port, or None where the port has no sample left.
    fn input(&mut self, port: u16) -> Option<u16>
        ensures sample { result ≡ slice_get ((world self.old).samples port) 0 }
        ensures some { OnSome result (world self.new
            ≡ record (world self.old) { samples = taken (world self.old).samples port }) }
        ensures none { IfNone result (world self.new ≡ world self.old) }
        ensures failures { failures self.new ≡ failures self.old };

    /// Puts a word out at a port. An error changes nothing but the count of failures.
    fn output(&mut self, port: u16, word: u16) -> Result<(), SinkFailed>
        ensures ok { OnOk result (world self.new
            ≡ record (world self.old) { outputs = (world self.old).outputs ++ (port, word) ∷ [] }) }
        ensures steady { OnOk result (failures self.new ≡ failures self.old) }
        ensures err { OnErr result (world self.new ≡ world self.old) }
        ensures failed { OnErr result (HasFailed (failures self.old) (failures self.new)) };
}
