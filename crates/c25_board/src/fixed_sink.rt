//! A sink of a fixed size.

ghost use Rattle.std.specs.Prelude.{◌≡◌, ◌↔◌, ◌<◌, [], ◌∷◌, ◌++◌, IsOk, OnErr, OnOk};
ghost use Rattle.arrayvec.specs.ArrayVec.{array_vec_len};
ghost use Rattle.c25_core.specs.Sink.{HasFailed};

use crate::ports::Sink;
use arrayvec::ArrayVec;
use c25_core::SinkFailed;

/// A list of at most CAP outputs, which takes no memory. It refuses a word once it holds CAP.
#[derive(Drop)]
pub struct FixedSink<const CAP: usize> {
    words: ArrayVec<(u16, u16), CAP>,
    failures: u64,
}

impl<const CAP: usize> FixedSink<CAP> {
    /// A list without outputs.
    pub fn new() -> FixedSink<CAP>
        ensures words { result.words.items ≡ [] }
        ensures failures { result.failures ≡ 0 }
    {
        FixedSink {
            words: ArrayVec::new(),
            failures: 0,
        }
    }

    /// The outputs since the sink was made or last cleared: each a port and a word, oldest first.
    pub fn words(&self) -> &[(u16, u16)]
        ensures { result.now ≡ self.now.words.items }
    {
        self.words.as_slice()
    }

    /// Removes all outputs. The count of failures stays.
    pub fn clear(&mut self)
        ensures words { self.new.words.items ≡ [] }
        ensures failures { self.new.failures ≡ self.old.failures }
    {
        self.words.clear();
    }
}

impl<const CAP: usize> Sink for FixedSink<CAP> {
    ghost written = { λ sink. sink.words.items };

    ghost failures = { λ sink. sink.failures };

    fn put(&mut self, port: u16, word: u16) -> Result<(), SinkFailed>
        ensures ok { OnOk result (self.new.words.items ≡ self.old.words.items ++ (port, word) ∷ []) }
        ensures steady { OnOk result (self.new.failures ≡ self.old.failures) }
        ensures err { OnErr result (self.new.words.items ≡ self.old.words.items) }
        ensures failed { OnErr result (HasFailed self.old.failures self.new.failures) }
        ensures room { IsOk result ↔ (array_vec_len self.old.words < CAP) }
    {
        match self.words.try_push((port, word)) {
            Ok(()) => Ok(()),
            Err(_) => {
                self.failures = self.failures.saturating_add(1);
                Err(SinkFailed)
            }
        }
    }
}
