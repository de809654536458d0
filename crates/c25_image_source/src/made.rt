//! The source of an image, made of its files.

ghost use Rattle.std.specs.Prelude.{◌≡◌, ℕ, IfOk, string_bytes};
ghost use Rattle.c25_image_source.specs.Made.{AreNames, IsToldOfImage, MakesSource, ReadsAll, SourcesImage, is_named, is_read, overwrites};
ghost use Rattle.c25_image_source.specs.Told.{IsTold};
ghost use Rattle.c25_layout.specs.Layout.{ArePartsOf};
ghost use Rattle.c25_options.specs.Task.{text_of};

use crate::asked::{ImageAsked, ImageFiles};
use crate::fault::{ImageFault, SourceFault};
use crate::hints::hints_of;
use crate::told::told_of;
use crate::words::words_of;
use c25_disk::disk::Disk;
use c25_layout::hint::Hint;
use c25_meaning_common::failure::Failure;
use c25_meaning_common::no_memory::NoMemory;
use c25_meaning_image::word_map::WordMap;
use c25_source::source::{Asked, Source};
use c25_source::source_of_words;
use std::alloc::Global;

/// The names of the files that are written of an image.
#[derive(Drop)]
pub struct MadeNames {
    pub source: String,
    pub command: String,
}

/// An image as a source, and what is printed of it.
#[derive(Drop)]
pub struct MadeSource {
    pub source: Source,
    pub told: String,
}

/// An image as a source, or why it has none.
type Made = Result<MadeSource, Failure<SourceFault>>;

/// The names of the files that are written of an image: `BASE.asm` and `BASE.cmd`.
pub fn made_names(alloc: Global, base: &str) -> Result<MadeNames, NoMemory>
    ensures { IfOk result (AreNames base.now) }
{
    let source = format!(in alloc; "{base}.asm")?;
    let command = format!(in alloc; "{base}.cmd")?;
    Ok(MadeNames { source, command })
}

/// Whether a file of an image has this name.
fn is_image_file(files: ImageFiles<'_>, name: &str) -> bool
    ensures { result ≡ is_named files.entry name.now }
{
    match files {
        ImageFiles::Hex(file) | ImageFiles::Binary(file, _) => file == name,
        ImageFiles::Pair { high, low } => high == name || low == name,
    }
}

/// Whether a file of this name is read for an image.
fn is_read(asked: ImageAsked<'_>, name: &str) -> bool
    ensures { result ≡ is_read asked.entry.files (text_of asked.entry.hints) name.now }
{
    match asked.hints {
        Some(hints) => hints == name || is_image_file(asked.files, name),
        None => is_image_file(asked.files, name),
    }
}

/// Whether a file that is read for an image has one of the names under which it is written.
pub fn overwrites(asked: ImageAsked<'_>, names: &MadeNames) -> bool
    ensures { result ≡ overwrites asked.entry (string_bytes names.now.source) (string_bytes names.now.command) }
{
    is_read(asked, names.source.as_str()) || is_read(asked, names.command.as_str())
}

/// The words of an image, and its hints.
#[derive(Drop)]
struct Image {
    words: WordMap,
    hints: Vec<Hint<String>>,
}

/// The words of an image and its hints, read from a disk: first those, then these.
fn image_on<D: Disk>(
    alloc: Global,
    disk: &D,
    asked: ImageAsked<'_>,
) -> Result<Image, Failure<ImageFault<String>>>
    ensures { ReadsAll (D.bytes_of disk.now) asked.entry result }
{
    let words = words_of(alloc, disk, asked.files)?;
    match hints_of(alloc, disk, asked.hints) {
        Ok(hints) => Ok(Image { words, hints }),
        Err(failure) => Err(failure),
    }
}

/// A fault of an image as that of its source.
fn fault_of_image(failure: Failure<ImageFault<String>>) -> Failure<SourceFault>
    ensures { IsToldOfImage failure result }
{
    match failure {
        Failure::NoMemory(error) => Failure::NoMemory(error),
        Failure::Fault(fault) => Failure::Fault(SourceFault::Image(fault)),
    }
}

/// The source of an image with what is printed of it.
fn with_told(
    alloc: Global,
    base: &str,
    image: &Image,
    source: Source,
) -> Result<MadeSource, NoMemory>
    requires { (blank : ℕ) × ArePartsOf image.now.words blank source.parts.items }
    ensures same { IfOk result (λ made. made.source ≡ source) }
    ensures told { IfOk result (λ made. IsTold base.now image.now.words source.parts.items (string_bytes made.told)) }
{
    let told = told_of(alloc, base, &image.words, &source.parts, &image.hints)?;
    Ok(MadeSource { source, told })
}

/// The source of an image that was read, under the name of its file.
fn source_of_image(alloc: Global, image: &Image, asked: ImageAsked<'_>, name: &str) -> Made
    ensures { SourcesImage name.now asked.entry.base.now image.now.words asked.entry.blank result }
{
    let request = Asked {
        name,
        hints: &image.hints,
        blank: asked.blank,
    };
    match source_of_words(alloc, &image.words, request) {
        Ok(source) => match with_told(alloc, asked.base, image, source) {
            Ok(made) => Ok(made),
            Err(error) => Err(Failure::NoMemory(error)),
        },
        Err(Failure::NoMemory(error)) => Err(Failure::NoMemory(error)),
        Err(Failure::Fault(why)) => Err(Failure::Fault(SourceFault::NotMade(why))),
    }
}

/// The source of an image whose files are on a disk, under the name of the file that it will stand in, and what is
/// printed of it.
///
/// The faults are those of the files of the image (8, 80 to 89, 93, 94, 96; or that one is no hex text), then those of the
/// hints (8, 92), then `NotMade`: the words come to more sections than a module may have (97), or the name of the file is
/// too long (54). Nothing is written. `NoMemory` where memory runs out.
pub fn made_source<D: Disk>(alloc: Global, disk: &D, asked: ImageAsked<'_>, name: &str) -> Made
    ensures { MakesSource (D.bytes_of disk.now) asked.entry name.now result }
{
    match image_on(alloc, disk, asked) {
        Ok(image) => source_of_image(alloc, &image, asked, name),
        Err(failure) => Err(fault_of_image(failure)),
    }
}
