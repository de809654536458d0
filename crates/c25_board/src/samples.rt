//! Texts of samples: each line is a port in decimal and a word in hexadecimal.

ghost use Rattle.std.specs.Prelude.{◌≡◌, ◌+◌, ◌<◌, [], ◌∷◌, length, drop, IfSome, IfNone};
ghost use Rattle.c25_meaning_processor.specs.Samples.{samples_at, samples_of};
ghost use Rattle.c25_meaning_common.specs.Results.{MeetsBy};

use crate::ports::Feed;
use c25_meaning_common::failure::Failure;
use c25_meaning_common::placed::Placed;
use c25_meaning_processor::sample::{BadSamples, Sample};
use c25_texts::{LineFormat, decimal_of, hexadecimal_of, read_items};
use std::alloc::Global;
use std::marker::Model;

/// How many input ports there are.
const PORTS: usize = 16;

/// Samples, which each port takes in the order of the text. Contracts see them as the list of those that are
/// left.
#[derive(Drop)]
pub struct Samples {
    samples: Vec<Sample>,
    /// For each port the index after the last sample that it took.
    next: [usize; PORTS],
}

impl Model for Samples {
    ghost use Rattle.std.specs.Prelude.{List};
    ghost use Rattle.c25_meaning_processor.specs.declared.sample.Sample.{Sample};
    ghost use Rattle.c25_board.specs.SamplesLeft.{left_from, HavePorts};

    ghost Value = { List Sample };

    ghost view = { λ s. left_from s.next 0 s.samples.items };

    ghost invariant = { λ s. HavePorts s.samples.items };
}

impl Samples {
    ghost use Rattle.std.specs.Prelude.{◌≡◌};
    ghost use Rattle.c25_board.specs.SamplesLeft.{HavePorts};

    /// A feed with all of these samples.
    fn new(samples: Vec<Sample>) -> Samples
        requires { HavePorts samples.items }
        ensures { result ≡ samples.items }
    {
        let next = [0; PORTS];
        Samples { samples, next }
    }
}

/// The index of a port's first sample at an index or after it, with its word.
fn find(samples: &[Sample], from: usize, port: u16) -> Option<(usize, u16)>
    ensures place { IfSome result (λ found. found.0 < length samples.now) }
    ensures found { IfSome result (λ found. samples_at (drop from samples.now) port ≡ found.1 ∷ samples_at (drop (found.0 + 1) samples.now) port) }
    ensures none { IfNone result (samples_at (drop from samples.now) port ≡ []) }
{
    for place in from..samples.len() {
        let sample = samples[place];
        if sample.port == port {
            return Some((place, sample.word));
        }
    }
    None
}

impl Feed for Samples {
    ghost use Rattle.c25_meaning_processor.specs.Samples.{samples_at};

    ghost left = { samples_at };

    fn take(&mut self, port: u16) -> Option<u16> {
        let samples = self.samples.as_slice();
        let index = usize::from(port);
        if index >= self.next.len() {
            return None;
        }
        let (place, word) = find(samples, self.next[index], port)?;
        self.next[index] = place + 1;
        Some(word)
    }
}

/// The format of a text of samples: one sample a line.
struct SampleLines;

impl LineFormat for SampleLines {
    ghost use Rattle.c25_meaning_processor.specs.Samples.{sample_of};

    type Item = Sample;

    type Fault = BadSamples;

    ghost item_of = { sample_of };

    fn item(_before: &[Sample], words: &[&[u8]]) -> Option<Sample> {
        match words {
            [port, word] => {
                let port = decimal_of(15, port)? as u16;
                let word = hexadecimal_of(4, word)?;
                Some(Sample { port, word })
            }
            _ => None,
        }
    }

    fn fault() -> BadSamples {
        BadSamples
    }
}

/// The samples of a text. `BadSamples` comes with the first line that is neither blank nor a sample, counted
/// from 1, and `NoMemory` where memory runs out.
pub fn read_samples(
    alloc: Global,
    text: &str,
) -> Result<Samples, Failure<Placed<usize, BadSamples>>>
    ensures { MeetsBy (λ f. f.place) (λ x. x) (samples_of text.now) result }
{
    let samples = read_items::<SampleLines>(alloc, text)?;
    Ok(Samples::new(samples))
}
