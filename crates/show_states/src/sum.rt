//! Checksums of words, to compare many at once.

use c25_core::Bus;
use c25_processor_tests::bench::Bench;
use std::fmt;

/// A checksum in which the order of the words counts (FNV-1a, a word at a time).
#[derive(Clone, Copy)]
pub struct Sum(u32);

impl Sum {
    /// The sum of no words.
    pub fn new() -> Sum {
        Sum(0x811C_9DC5)
    }

    /// The sum of both memories of a bench.
    pub fn of_memories(bench: &Bench) -> Sum {
        let mut sum = Sum::new();
        for address in 0..=u16::MAX {
            sum.add(bench.data(address));
        }
        for address in 0..=u16::MAX {
            sum.add(bench.program(address));
        }
        sum
    }

    /// Adds a word.
    pub fn add(&mut self, word: u16) {
        self.0 = (self.0 ^ u32::from(word)).wrapping_mul(0x0100_0193);
    }

    /// Adds words.
    pub fn add_all(&mut self, words: &[u16]) {
        for word in words {
            self.add(*word);
        }
    }

    /// Adds all outputs.
    pub fn add_outputs(&mut self, bench: &Bench) {
        for (port, word) in bench.outputs.as_slice() {
            self.add_all(&[*port, *word]);
        }
    }
}

impl fmt::Display for Sum {
    fn fmt<W: fmt::Write>(&self, f: &mut fmt::Formatter<W>) -> fmt::Result {
        write!(f, "{:08X}", self.0)
    }
}
