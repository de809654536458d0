//! The interrupt lines.

use bitflags::{Flag, Flags, bitflag_items};

/// A set of interrupt lines. Its bits are those of the mask register IMR (SPRU014, "External Interrupts").
#[derive(Clone, Copy)]
pub struct Lines(u8);

bitflag_items! {
    impl Lines: u8 {
        const INT0 = 1;
        const INT1 = 2;
        const INT2 = 4;
    }
}

impl Flags for Lines {
    ghost use Rattle.std.specs.Prelude.{⊤, [], ◌∷◌, codes};

    type Bits = u8;

    ghost exact = { ⊤ };

    ghost table = { (codes "INT0", 1) ∷ (codes "INT1", 2) ∷ (codes "INT2", 4) ∷ [] };

    ghost set_of = { λ lines. lines.0 };

    fn flags<'a>() -> &'a [Flag<Lines>] {
        Lines::FLAGS
    }

    fn bits(&self) -> u8 {
        self.0
    }

    fn from_bits_retain(bits: u8) -> Lines {
        Lines(bits)
    }
}
