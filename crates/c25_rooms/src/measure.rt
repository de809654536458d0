//! The free words of a part of a page, and the largest hole there.

ghost use Rattle.std.specs.Prelude.{◌≡◌, ◌<◌, ◌≤◌, ◌+◌, ℕ, List, length, max, if◌then◌else◌};
ghost use Rattle.c25_meaning_linking.specs.Place as place;
ghost use Rattle.c25_place.specs.Room.{KnowsTaken};
ghost use Rattle.c25_rooms.specs.Measured.{IsMeasured};

/// Of the words of a part of a page so far: how many are free, how many of them are free from the last taken one on,
/// and how many words the largest hole has.
#[derive(Clone, Copy)]
pub(crate) struct Measure {
    pub free: u32,
    pub run: u32,
    pub largest: u32,
}

impl Measure {
    /// The measure of no words.
    pub(crate) fn none() -> Measure
        ensures { result ≡ record { free = 0; run = 0; largest = 0 } }
    {
        Measure {
            free: 0,
            run: 0,
            largest: 0,
        }
    }

    /// The measure with one word more, which is taken or free.
    pub(crate) fn after_word(self, taken: bool) -> Measure
        requires free { self.free < 65536 }
        requires run { self.run < 65536 }
        ensures { result ≡ (if taken then record { free = self.free; run = 0; largest = self.largest } else record { free = self.free + 1; run = self.run + 1; largest = max self.largest (self.run + 1) }) }
    {
        if taken {
            Measure {
                free: self.free,
                run: 0,
                largest: self.largest,
            }
        } else {
            let run = self.run + 1;
            Measure {
                free: self.free + 1,
                run,
                largest: self.largest.max(run),
            }
        }
    }
}

/// The measure of the words from `start` up to `end`.
pub(crate) fn measured(taken: &[bool], start: usize, end: usize) -> Measure
    requires ordered { start ≤ end }
    requires within { end ≤ 65536 }
    requires sized { length taken.now ≡ 65536 }
    ensures { (page : ℕ) (places : List place.Place) → KnowsTaken taken.now page places → IsMeasured page places start end result }
{
    let mut measure = Measure::none();
    for word in start..end {
        measure = measure.after_word(taken[word]);
    }
    measure
}
