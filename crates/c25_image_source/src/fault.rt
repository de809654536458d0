//! Why an image has no source.

use c25_binary::binary_fault::BinaryFault;
use c25_chain::fault::ChainFault;
use c25_meaning_common::placed::Placed;
use c25_source::NotMade;

/// What is wrong with the files of an image or with its hints. The code has names as `String`, the definitions as lists
/// of bytes.
#[derive(Drop)]
pub enum ImageFault<Name> {
    /// A file cannot be read (8), or a line of a hex text is wrong (80 to 89).
    Chain(ChainFault<Name>),
    /// The file of this name is no hex text.
    NoHex(Name),
    /// The bytes of a file, or of a pair, are no words (93, 94, 96).
    Binary(Placed<Name, BinaryFault>),
    /// A line of the hints is no hint, or does not go together with those before it (92).
    Hint { line: usize },
}

/// Why an image has no source.
#[derive(Drop)]
pub enum SourceFault {
    /// Its files or its hints are wrong.
    Image(ImageFault<String>),
    /// Its words have none.
    NotMade(NotMade),
}
