//! A pseudo-random generator with a fixed seed.

ghost use Rattle.std.specs.Prelude.{◌<◌};

/// A linear congruential generator.
#[derive(Drop)]
pub struct Generator {
    state: u64,
}

/// Words at the edges of the processor's cases.
const EDGES: [u16; 10] = [
    0, 1, 0x7FFF, 0x8000, 0xFFFF, 0x01FF, 0x0200, 0x02FF, 0xFEFF, 0xFF00,
];

impl Generator {
    /// The generator at its first number.
    pub fn new() -> Generator {
        Generator { state: 25 }
    }

    /// The next number, of 31 bits.
    fn next_number(&mut self) -> u64 {
        self.state = self
            .state
            .wrapping_mul(6_364_136_223_846_793_005)
            .wrapping_add(1_442_695_040_888_963_407);
        self.state >> 33
    }

    /// The next number below a limit.
    pub fn below(&mut self, limit: u16) -> u16
        requires { 0 < limit }
        ensures { result < limit }
    {
        (self.next_number() % u64::from(limit)) as u16
    }

    /// The low 16 bits of the next number.
    pub fn bits(&mut self) -> u16 {
        (self.next_number() % 0x1_0000) as u16
    }

    /// A word: in one of 4 cases one of `EDGES`.
    pub fn word(&mut self) -> u16 {
        if self.below(4) == 0 {
            EDGES[usize::from(self.below(10))]
        } else {
            self.bits()
        }
    }

    /// Eight words.
    pub fn eight(&mut self) -> [u16; 8] {
        let mut words = [0; 8];
        for word in &mut words {
            *word = self.word();
        }
        words
    }
}
