//! Where samples come from, and where outputs go.

ghost use Rattle.std.specs.Prelude.{◌≡◌, ℕ, ◌∷◌, [], ◌++◌, List, OnSome, IfNone, OnOk, OnErr, slice_get};
ghost use Rattle.std.specs.Option.{ForNone};
ghost use Rattle.c25_meaning_processor.specs.State.{taken};
ghost use Rattle.c25_core.specs.Sink.{HasFailed};

use c25_core::SinkFailed;
use c25_meaning_common::no_memory::NoMemory;
use std::alloc::Global;

/// Samples for each input port.
pub trait Feed {
    /// The samples that each port has left.
    ghost left: { Self → ℕ → List ℕ };

    /// Takes the next sample of a port, 0 to 15. None says that the port has none left; then nothing changes.
    fn take(&mut self, port: u16) -> Option<u16>
        ensures sample { result ≡ slice_get (left self.old port) 0 }
        ensures some { OnSome result (left self.new ≡ taken (left self.old) port) }
        ensures none { IfNone result (left self.new ≡ left self.old) };
}

/// Where outputs go.
pub trait Sink {
    /// All outputs, oldest first: each a port and a word.
    ghost written: { Self → List (ℕ × ℕ) };

    /// How often the sink has failed, up to 2^64 - 1.
    ghost failures: { Self → ℕ };

    /// Puts a word out at a port, 0 to 15. Where that fails nothing is written, and the failure is counted.
    fn put(&mut self, port: u16, word: u16) -> Result<(), SinkFailed>
        ensures ok { OnOk result (written self.new ≡ written self.old ++ (port, word) ∷ []) }
        ensures steady { OnOk result (failures self.new ≡ failures self.old) }
        ensures err { OnErr result (written self.new ≡ written self.old) }
        ensures failed { OnErr result (HasFailed (failures self.old) (failures self.new)) };
}

/// A feed without samples.
#[derive(Clone, Copy)]
pub struct NoSamples;

impl Feed for NoSamples {
    ghost left = { λ _ _. [] };

    fn take(&mut self, _port: u16) -> Option<u16> {
        None
    }
}

/// A list that grows with each output. It fails where its growth is out of memory, and keeps that error.
#[derive(Drop)]
pub struct ListSink {
    words: Vec<(u16, u16)>,
    failures: u64,
    refused: Option<NoMemory>,
    ghost kept: { ForNone refused (failures ≡ 0) },
}

impl ListSink {
    ghost use Rattle.c25_board.specs.Outputs.{outputs_of};

    /// An empty list, which takes no memory yet.
    pub fn new(alloc: Global) -> ListSink
        ensures words { outputs_of result ≡ [] }
        ensures failures { result.failures ≡ 0 }
    {
        ListSink {
            words: Vec::new(alloc),
            failures: 0,
            refused: None,
        }
    }

    /// All outputs: each a port and a word, oldest first.
    pub fn words(&self) -> &[(u16, u16)]
        ensures { result.now ≡ outputs_of self.now }
    {
        self.words.as_slice()
    }

    /// The error of the last output that was refused; None where none was.
    pub fn refused(&self) -> Option<NoMemory>
        ensures { IfNone result (self.now.failures ≡ 0) }
    {
        self.refused
    }
}

impl Sink for ListSink {
    ghost written = { λ sink. sink.words.items };

    ghost failures = { λ sink. sink.failures };

    fn put(&mut self, port: u16, word: u16) -> Result<(), SinkFailed> {
        match self.words.push((port, word)) {
            Ok(()) => Ok(()),
            Err(error) => {
                self.failures = self.failures.saturating_add(1);
                self.refused = Some(NoMemory::from(error));
                Err(SinkFailed)
            }
        }
    }
}
