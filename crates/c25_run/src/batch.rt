//! A sink for the outputs of a limited number of steps.

ghost use Rattle.std.specs.Prelude.{◌≡◌, ◌<◌, ◌+◌, ◌-◌, ◌^◌, [], ◌∷◌, ◌++◌, OnErr, OnOk, length, min};
ghost use Rattle.std.proofs.Props.{props};
ghost use Rattle.c25_core.specs.Sink.{HasFailed};

use arrayvec::ArrayVec;
use c25_board::ports::Sink;
use c25_core::SinkFailed;

/// How many steps are run between two prints.
pub const STEPS: u32 = 4096;

/// A list of the outputs of `STEPS` steps, of which each has at most one. It needs no memory after it is
/// made, and refuses a word when it is full.
#[derive(Drop)]
pub struct Batch {
    outputs: ArrayVec<(u16, u16), 4096>,
    failures: u64,
    ghost full: { 0 < failures → length outputs.items ≡ 4096 } by { Prim.hlevel props },
}

impl Batch {
    /// An empty list.
    pub(crate) fn new() -> Batch
        ensures outputs { result.outputs.items ≡ [] }
        ensures failures { result.failures ≡ 0 }
    {
        Batch {
            outputs: ArrayVec::new(),
            failures: 0,
        }
    }

    /// The outputs so far, each a port and a word, oldest first.
    pub(crate) fn outputs(&self) -> &[(u16, u16)]
        ensures { result.now ≡ self.now.outputs.items }
    {
        self.outputs.as_slice()
    }

    /// Empties the list, and forgets that a word was refused.
    pub(crate) fn clear(&mut self)
        ensures outputs { self.new.outputs.items ≡ [] }
        ensures failures { self.new.failures ≡ 0 }
    {
        self.outputs.clear();
        self.failures = 0;
    }
}

impl Sink for Batch {
    ghost written = { λ batch. batch.outputs.items };

    ghost failures = { λ batch. batch.failures };

    fn put(&mut self, port: u16, word: u16) -> Result<(), SinkFailed> {
        match self.outputs.try_push((port, word)) {
            Ok(()) => Ok(()),
            Err(_) => {
                self.failures = self.failures.saturating_add(1);
                Err(SinkFailed)
            }
        }
    }
}
