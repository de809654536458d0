//! The words of one data line.

ghost use Rattle.std.specs.Prelude.{◌≡◌, ◌<◌, ◌++◌, [], ◌∷◌, length};
ghost use Rattle.std.specs.List.{flat_map};
ghost use Rattle.c25_hex.specs.HexText as spec;
ghost use Rattle.c25_hex.specs.View.{stretch_of};

use arrayvec::ArrayVec;

/// At most eight words at consecutive addresses.
#[derive(Drop)]
pub(crate) struct Stretch {
    pub address: u16,
    pub words: ArrayVec<u16, 8>,
}

/// The first word address of the upper half, whose words have a base of their own.
pub(crate) const UPPER_HALF: u16 = 0x8000;

/// A stretch of one word.
pub(crate) fn alone(address: u16, word: u16) -> Stretch
    ensures { stretch_of result ≡ spec.alone (address, word) }
{
    let mut words = ArrayVec::new();
    words.push(word);
    Stretch { address, words }
}

/// Whether a word at an address goes on the line of these words.
pub(crate) fn goes_on(stretch: &Stretch, address: u16) -> bool
    ensures { result ≡ spec.goes_on (stretch_of stretch.now) address }
{
    usize::from(address) == usize::from(stretch.address) + stretch.words.len()
        && stretch.words.len() < 8
        && address != UPPER_HALF
}

/// The bytes of the words, the high byte of each first.
pub(crate) fn bytes_of_words(words: &[u16]) -> ArrayVec<u8, 16>
    requires { length words.now < 9 }
    ensures { result.items ≡ flat_map spec.word_bytes words.now }
{
    let mut bytes = ArrayVec::new();
    for word in words {
        bytes.push((word / 256) as u8);
        bytes.push((word % 256) as u8);
    }
    bytes
}
