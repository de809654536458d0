//! The words of an image, read from its files.

ghost use Rattle.std.specs.Prelude.{◌≡◌, IfErr, IfOk};
ghost use Rattle.c25_binary.specs.Binary as binary;
ghost use Rattle.c25_disk.specs.Held.{IsAllOf};
ghost use Rattle.c25_image_source.specs.Faults.{IsImageFault, IsToldOfFile, IsUnread};
ghost use Rattle.c25_image_source.specs.Words.{AreHexWords, AreWords, ReadsBinary, ReadsHex, ReadsImage, ReadsLow, ReadsPair, hex_given, is_hex, lines_given, text_given};
ghost use Rattle.c25_image_source.specs.declared.fault.ImageFault.TheVariants as image;

use crate::asked::ImageFiles;
use crate::fault::ImageFault;
use c25_binary::binary_fault::BinaryFault;
use c25_binary::{words_of_file, words_of_pair};
use c25_chain::fault::ChainFault;
use c25_disk::disk::Disk;
use c25_disk::fault::FileFault;
use c25_disk::read_binary;
use c25_hex::read_hex;
use c25_meaning_common::failure::Failure;
use c25_meaning_common::no_memory::NoMemory;
use c25_meaning_common::placed::Placed;
use c25_meaning_image::word_map::WordMap;
use c25_rom::byte_order::ByteOrder;
use std::alloc::Global;

/// The words of an image, or why there are none.
type Words = Result<WordMap, Failure<ImageFault<String>>>;

/// A failure of a file as one of an image.
pub(crate) fn fault_of_file(
    failure: Failure<Placed<String, FileFault>>,
) -> Failure<ImageFault<String>>
    ensures { IsToldOfFile failure result }
{
    match failure {
        Failure::NoMemory(error) => Failure::NoMemory(error),
        Failure::Fault(fault) => Failure::Fault(ImageFault::Chain(ChainFault::File(fault))),
    }
}

/// The bytes of a file. A file that cannot be read is 8.
fn bytes_of<D: Disk>(
    alloc: Global,
    disk: &D,
    name: &str,
) -> Result<Vec<u8>, Failure<ImageFault<String>>>
    ensures bytes { IfOk result (λ bytes. IsAllOf (D.bytes_of disk.now name.now) bytes.items) }
    ensures fault { IfErr result (IsUnread name.now) }
{
    match read_binary(alloc, disk, name) {
        Ok(bytes) => Ok(bytes),
        Err(failure) => Err(fault_of_file(failure)),
    }
}

/// Whether bytes are those of a hex text: they begin with `:`.
fn is_hex(bytes: &[u8]) -> bool
    ensures { result ≡ is_hex bytes.now }
{
    match bytes.first() {
        Some(first) => *first == b':',
        None => false,
    }
}

/// The fault of a file that is no hex text, unless memory runs out for its name.
fn no_hex(alloc: Global, name: &str) -> Failure<ImageFault<String>>
    ensures { IsImageFault (image.NoHex name.now) result }
{
    match String::from_str(alloc, name) {
        Ok(name) => Failure::Fault(ImageFault::NoHex(name)),
        Err(error) => Failure::NoMemory(NoMemory::from(error)),
    }
}

/// The fault of a hex text that is not UTF-8 (8), unless memory runs out for its name.
fn no_text(alloc: Global, name: &str) -> Failure<ImageFault<String>>
    ensures { IsUnread name.now result }
{
    match String::from_str(alloc, name) {
        Ok(place) => {
            let fault = FileFault::CannotRead;
            let fault = ChainFault::File(Placed { place, fault });
            Failure::Fault(ImageFault::Chain(fault))
        }
        Err(error) => Failure::NoMemory(NoMemory::from(error)),
    }
}

/// The fault of a file whose bytes are no words, unless memory runs out for its name.
fn no_words(alloc: Global, name: &str, fault: BinaryFault) -> Failure<ImageFault<String>>
    ensures { IsImageFault (image.Binary (record { place = name.now; fault = fault })) result }
{
    match String::from_str(alloc, name) {
        Ok(place) => Failure::Fault(ImageFault::Binary(Placed { place, fault })),
        Err(error) => Failure::NoMemory(NoMemory::from(error)),
    }
}

/// The words of a hex text. The faults are those of its lines (80 to 89).
fn hex_lines(alloc: Global, text: &str) -> Words
    ensures { AreHexWords (lines_given text.now) result }
{
    match read_hex(alloc, text) {
        Ok(words) => Ok(words),
        Err(Failure::NoMemory(error)) => Err(Failure::NoMemory(error)),
        Err(Failure::Fault(fault)) => Err(Failure::Fault(ImageFault::Chain(ChainFault::Hex(
            fault,
        )))),
    }
}

/// The words of the bytes of a hex text. The faults are that they are not UTF-8 (8), and then those of its lines.
fn hex_text(alloc: Global, name: &str, bytes: &[u8]) -> Words
    ensures { AreHexWords (text_given name.now bytes.now) result }
{
    match str::from_utf8(bytes) {
        Ok(text) => hex_lines(alloc, text),
        Err(_not_utf8) => Err(no_text(alloc, name)),
    }
}

/// The words of the bytes of a file that begins with `:`, as a hex text does.
fn hex_words(alloc: Global, name: &str, bytes: &[u8]) -> Words
    ensures { AreHexWords (hex_given name.now bytes.now) result }
{
    if is_hex(bytes) {
        hex_text(alloc, name, bytes)
    } else {
        Err(no_hex(alloc, name))
    }
}

/// The words of the bytes of a binary file.
fn binary_words(alloc: Global, name: &str, order: ByteOrder, bytes: &[u8]) -> Words
    ensures { AreWords name.now (binary.words_of_file order bytes.now) result }
{
    match words_of_file(alloc, order, bytes) {
        Ok(words) => Ok(words),
        Err(Failure::NoMemory(error)) => Err(Failure::NoMemory(error)),
        Err(Failure::Fault(fault)) => Err(no_words(alloc, name, fault)),
    }
}

/// The words of the bytes of a pair. A fault is reported with the name of the file that has the low bytes.
fn pair_words(alloc: Global, name: &str, high: &[u8], low: &[u8]) -> Words
    ensures { AreWords name.now (binary.words_of_pair high.now low.now) result }
{
    match words_of_pair(alloc, high, low) {
        Ok(words) => Ok(words),
        Err(Failure::NoMemory(error)) => Err(Failure::NoMemory(error)),
        Err(Failure::Fault(fault)) => Err(no_words(alloc, name, fault)),
    }
}

/// The words of a hex text on a disk.
fn hex_file<D: Disk>(alloc: Global, disk: &D, name: &str) -> Words
    ensures { ReadsHex (D.bytes_of disk.now) name.now result }
{
    let bytes = bytes_of(alloc, disk, name)?;
    hex_words(alloc, name, &bytes)
}

/// The words of a binary file on a disk.
fn binary_file<D: Disk>(alloc: Global, disk: &D, name: &str, order: ByteOrder) -> Words
    ensures { ReadsBinary (D.bytes_of disk.now) name.now order result }
{
    let bytes = bytes_of(alloc, disk, name)?;
    binary_words(alloc, name, order, &bytes)
}

/// The words of a pair of which the high bytes are read, and the low ones are on a disk.
fn low_file<D: Disk>(alloc: Global, disk: &D, high: &[u8], low: &str) -> Words
    ensures { ReadsLow (D.bytes_of disk.now) high.now low.now result }
{
    let bytes = bytes_of(alloc, disk, low)?;
    pair_words(alloc, low, high, &bytes)
}

/// The words of a pair of files on a disk.
fn pair_files<D: Disk>(alloc: Global, disk: &D, high: &str, low: &str) -> Words
    ensures { ReadsPair (D.bytes_of disk.now) high.now low.now result }
{
    let bytes = bytes_of(alloc, disk, high)?;
    low_file(alloc, disk, &bytes, low)
}

/// The words of the files of an image. A file that cannot be read is 8; then come the faults of what it has: it is no hex
/// text, or a line of it is wrong (80 to 89), or its bytes are no words (93, 94, 96).
pub(crate) fn words_of<D: Disk>(alloc: Global, disk: &D, files: ImageFiles<'_>) -> Words
    ensures { ReadsImage (D.bytes_of disk.now) files.entry result }
{
    match files {
        ImageFiles::Hex(name) => hex_file(alloc, disk, name),
        ImageFiles::Binary(name, order) => binary_file(alloc, disk, name, order),
        ImageFiles::Pair { high, low } => pair_files(alloc, disk, high, low),
    }
}
