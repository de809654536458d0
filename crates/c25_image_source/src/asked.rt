//! What `dis` is asked for: to print a file, or to write an image as a source; and the image that `run` or `debug` is asked
//! for.

ghost use Rattle.std.specs.Prelude.{◌≡◌};
ghost use Rattle.c25_image_source.specs.Asked.{ask_print, ask_source, blank_of, dis_asked, file_of, files_of, first_file, has_files, image_of, order_of, pair_of, run_asked, run_files, run_image_of, says_image};

use crate::mistake::Mistake;
use c25_options::task::{DisassembleTask, ImageOptions, ImageRun};
use c25_rom::byte_order::ByteOrder;

/// How many erased words, one after the other, are left out of a binary image where the command line does not say it.
pub const BLANK: u32 = 16;

/// The files of an image, and how its words stand in them.
#[derive(Clone, Copy)]
pub enum ImageFiles<'a> {
    /// An Intel hex text.
    Hex(&'a str),
    /// A binary file of words, with the order of their bytes.
    Binary(&'a str, ByteOrder),
    /// Two binary files, one with the high bytes and one with the low bytes.
    Pair { high: &'a str, low: &'a str },
}

/// An image that is to be made to a source.
#[derive(Clone, Copy)]
pub struct ImageAsked<'a> {
    pub files: ImageFiles<'a>,
    /// How many erased words, one after the other, are left out as blank; none for 0.
    pub blank: u32,
    /// The file of the hints, if there is one.
    pub hints: Option<&'a str>,
    /// How the names of the source and of the command file begin.
    pub base: &'a str,
}

/// A file that is to be printed.
#[derive(Clone, Copy)]
pub struct Printing<'a> {
    pub file: &'a str,
    /// The argument of `--from`, where it is given.
    pub from: Option<&'a str>,
}

/// What `dis` is asked for.
#[derive(Clone, Copy)]
pub enum DisAsked<'a> {
    Print(Printing<'a>),
    Source(ImageAsked<'a>),
}

/// The order of the bytes of a word in one file.
fn order_of(low_first: bool) -> ByteOrder
    ensures { result ≡ order_of low_first }
{
    if low_first {
        ByteOrder::LowFirst
    } else {
        ByteOrder::HighFirst
    }
}

/// One file: binary with `--binary`, else a hex text.
fn file_of<'a>(name: &'a str, options: ImageOptions<'a>) -> Result<ImageFiles<'a>, Mistake>
    ensures { result ≡ file_of name.entry options.entry }
{
    if options.binary {
        Ok(ImageFiles::Binary(name, order_of(options.low_first)))
    } else if options.low_first {
        Err(Mistake::LowFirst)
    } else {
        Ok(ImageFiles::Hex(name))
    }
}

/// A pair of files, where both are named.
fn pair_of<'a>(options: ImageOptions<'a>) -> Result<ImageFiles<'a>, Mistake>
    ensures { result ≡ pair_of options.entry }
{
    match options.high {
        None => Err(Mistake::NoFile),
        Some(high) => match options.low {
            None => Err(Mistake::NoFile),
            Some(low) => {
                if options.low_first {
                    Err(Mistake::LowFirst)
                } else {
                    Ok(ImageFiles::Pair { high, low })
                }
            }
        },
    }
}

/// The files of an image: one, or else a pair.
fn files_of<'a>(file: Option<&'a str>, options: ImageOptions<'a>) -> Result<ImageFiles<'a>, Mistake>
    ensures { result ≡ files_of file.entry options.entry }
{
    match file {
        None => pair_of(options),
        Some(name) => {
            if options.high.is_some() || options.low.is_some() {
                Err(Mistake::FileAndPair)
            } else {
                file_of(name, options)
            }
        }
    }
}

/// How many erased words are left out as blank.
fn blank_of(files: ImageFiles<'_>, blank: Option<u32>) -> u32
    ensures { result ≡ blank_of files.entry blank }
{
    match blank {
        Some(count) => count,
        None => match files {
            ImageFiles::Hex(_) => 0,
            ImageFiles::Binary(_, _) | ImageFiles::Pair { .. } => BLANK,
        },
    }
}

/// An image of files, that is to be written under names that begin so.
fn image_of<'a>(
    files: ImageFiles<'a>,
    options: ImageOptions<'a>,
    base: Option<&'a str>,
) -> Result<DisAsked<'a>, Mistake>
    ensures { result ≡ image_of files.entry options.entry base.entry }
{
    match base {
        None => Err(Mistake::NoBase),
        Some(base) => Ok(DisAsked::Source(ImageAsked {
            files,
            blank: blank_of(files, options.blank),
            hints: options.hints,
            base,
        })),
    }
}

/// What `dis --source` is asked for.
fn ask_source<'a>(task: DisassembleTask<'a>) -> Result<DisAsked<'a>, Mistake>
    ensures { result ≡ ask_source task.entry }
{
    if task.from.is_some() {
        return Err(Mistake::From);
    }
    match files_of(task.file, task.image) {
        Ok(files) => image_of(files, task.image, task.base),
        Err(mistake) => Err(mistake),
    }
}

/// Whether a command line says something of an image that is to be written.
fn says_image(task: DisassembleTask<'_>) -> bool
    ensures { result ≡ says_image task.entry }
{
    task.image.high.is_some()
        || task.image.low.is_some()
        || task.image.binary
        || task.image.low_first
        || task.image.blank.is_some()
        || task.image.hints.is_some()
        || task.base.is_some()
}

/// What `dis` without `--source` is asked for.
fn ask_print<'a>(task: DisassembleTask<'a>) -> Result<DisAsked<'a>, Mistake>
    ensures { result ≡ ask_print task.entry }
{
    if says_image(task) {
        return Err(Mistake::NoSource);
    }
    match task.file {
        None => Err(Mistake::NoFile),
        Some(file) => Ok(DisAsked::Print(Printing {
            file,
            from: task.from,
        })),
    }
}

/// What a command line of `dis` asks for, or what is wrong with it.
pub fn dis_asked<'a>(task: DisassembleTask<'a>) -> Result<DisAsked<'a>, Mistake>
    ensures { result ≡ dis_asked task.entry }
{
    if task.source {
        ask_source(task)
    } else {
        ask_print(task)
    }
}

/// The first file of an image.
pub fn first_file<'a>(files: ImageFiles<'a>) -> &'a str
    ensures { result ≡ first_file files.entry }
{
    match files {
        ImageFiles::Hex(name) | ImageFiles::Binary(name, _) => name,
        ImageFiles::Pair { high, .. } => high,
    }
}

/// Whether an image that is run has its files: one, or both of a pair.
fn has_files(image: ImageRun<'_>) -> bool
    ensures { result ≡ has_files image.entry }
{
    image.file.is_some() || (image.options.high.is_some() && image.options.low.is_some())
}

/// The files of an image that is run.
fn run_files<'a>(image: ImageRun<'a>) -> Result<ImageFiles<'a>, Mistake>
    ensures { result ≡ run_files image.entry }
{
    if has_files(image) {
        files_of(image.file, image.options)
    } else {
        Err(Mistake::NoImage)
    }
}

/// An image of files that is run. The names of the texts that are made of it begin with the name of its first file.
fn run_image_of<'a>(files: ImageFiles<'a>, options: ImageOptions<'a>) -> ImageAsked<'a>
    ensures { result ≡ run_image_of files.entry options.entry }
{
    ImageAsked {
        files,
        blank: blank_of(files, options.blank),
        hints: options.hints,
        base: first_file(files),
    }
}

/// The image that a command line of `run` or `debug` names, or what is wrong with it.
pub fn run_asked<'a>(image: ImageRun<'a>) -> Result<ImageAsked<'a>, Mistake>
    ensures { result ≡ run_asked image.entry }
{
    match run_files(image) {
        Ok(files) => Ok(run_image_of(files, image.options)),
        Err(mistake) => Err(mistake),
    }
}
