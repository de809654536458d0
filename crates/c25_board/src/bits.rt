//! A bit for each address.

ghost use Rattle.std.specs.Prelude.{◌≡◌, ◌≢◌, ℕ, ◌/◌, ◌%◌, ◌^◌, true, false};
ghost use Rattle.c25_board.specs.Bits.{bit_of};

/// How many words of 64 bits hold a bit for each of 65,536 addresses.
const WORDS: usize = 1024;

/// A bit for each address: bit `address % 64`, 0 being the lowest, of word `address / 64`.
#[derive(Drop)]
pub struct Bits {
    words: [u64; WORDS],
}

impl Bits {
    /// Bits of which none is set.
    pub fn new() -> Self
        ensures { (address : ℕ) → bit_of result.words address ≡ false }
    {
        Bits { words: [0; WORDS] }
    }

    /// Whether the bit of an address is set.
    #[inline(always)]
    pub fn has(&self, address: u16) -> bool
        ensures { result ≡ bit_of self.now.words address }
    {
        self.words[word_of(address)] & mask_of(address) != 0
    }

    /// Sets the bit of an address.
    pub fn set(&mut self, address: u16)
        ensures same { bit_of self.new.words address ≡ true }
        ensures others { (other : ℕ) → other ≢ address
            → bit_of self.new.words other ≡ bit_of self.old.words other }
    {
        self.words[word_of(address)] |= mask_of(address);
    }

    /// Clears the bit of an address.
    pub fn clear(&mut self, address: u16)
        ensures same { bit_of self.new.words address ≡ false }
        ensures others { (other : ℕ) → other ≢ address
            → bit_of self.new.words other ≡ bit_of self.old.words other }
    {
        self.words[word_of(address)] &= !mask_of(address);
    }
}

/// The number of the word that holds the bit of an address.
#[inline(always)]
fn word_of(address: u16) -> usize
    ensures { result ≡ address / 64 }
{
    usize::from(address / 64)
}

/// A word in which only the bit of an address is set.
#[inline(always)]
fn mask_of(address: u16) -> u64
    ensures { result ≡ 2 ^ (address % 64) }
{
    1 << (address % 64)
}
