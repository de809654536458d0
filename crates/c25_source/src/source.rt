//! The source of an image.

ghost use Rattle.std.specs.Prelude.{◌≡◌, ◌≤◌, IfNone, IfOk, IfSome, length, true};
ghost use Rattle.c25_layout.specs.Buildable.{IsBuildable};
ghost use Rattle.c25_layout.specs.Layout.{ArePartsOf};
ghost use Rattle.c25_meaning_assembly.specs.Sections.{is_file_name};
ghost use Rattle.c25_source.specs.Answer.{Answers, IsLaidOut, IsOneTooMany};

use crate::laws::images_are_rebuilt;
use c25_buildable::buildable_parts;
use c25_layout::hint::Hint;
use c25_layout::layout::Part;
use c25_layout::{command_text, parts_of_words, source_text};
use c25_meaning_common::failure::Failure;
use c25_meaning_common::no_memory::NoMemory;
use c25_meaning_image::word_map::WordMap;
use std::alloc::Global;

/// The most parts of a source: sections of a module, apart from `.text`.
const MOST_PARTS: usize = 254;

/// The most bytes of a file's name in an object.
const LONGEST_NAME: usize = 65_535;

/// An image as a source: its parts, the text of the source, and that of the command file.
#[derive(Drop)]
pub struct Source {
    pub parts: Vec<Part>,
    pub source: String,
    pub command: String,
}

/// Why the words of an image have no source.
#[derive(Clone, Copy)]
pub enum NotMade {
    /// They come to more parts than a module may have sections, of which the first one too many begins at this address
    /// (97).
    TooManySections(u16),
    /// The name of the source's file is longer than an object says (54).
    LongName,
}

/// A source, or why there is none.
type Made = Result<Source, Failure<NotMade>>;

/// What is asked for besides the words of an image.
#[derive(Clone, Copy)]
pub struct Asked<'a> {
    /// The name of the file that the source will stand in.
    pub name: &'a str,
    pub hints: &'a [Hint<String>],
    /// How many erased words one after another are left out as blank; none for 0.
    pub blank: u32,
}

/// Whether an object can say the name of a file.
fn is_file_name(name: &str) -> bool
    ensures { result ≡ is_file_name name.now }
{
    name.len() <= LONGEST_NAME
}

/// The texts of parts.
fn texts_of(alloc: Global, parts: Vec<Part>) -> Result<Source, NoMemory>
    ensures texts { IfOk result IsLaidOut }
    ensures same { IfOk result (λ made. made.parts ≡ parts) }
{
    let source = source_text(alloc, &parts)?;
    match command_text(alloc, &parts) {
        Ok(command) => Ok(Source {
            parts,
            source,
            command,
        }),
        Err(error) => Err(error),
    }
}

/// The source of parts of an image that are built to its words.
fn sure_source(alloc: Global, words: &WordMap, asked: Asked<'_>, parts: Vec<Part>) -> Made
    requires are { ArePartsOf words.now asked.blank parts.items }
    requires file { is_file_name asked.name.now ≡ true }
    requires buildable { IsBuildable parts.items }
    ensures { Answers asked.entry.name.now words.now asked.entry.blank result }
{
    images_are_rebuilt();
    match texts_of(alloc, parts) {
        Ok(made) => Ok(made),
        Err(error) => Err(Failure::NoMemory(error)),
    }
}

/// The source of parts of an image, no more than a module may have sections.
fn few_source(alloc: Global, words: &WordMap, asked: Asked<'_>, parts: Vec<Part>) -> Made
    requires are { ArePartsOf words.now asked.blank parts.items }
    requires file { is_file_name asked.name.now ≡ true }
    requires few { length parts.items ≤ 254 }
    ensures { Answers asked.entry.name.now words.now asked.entry.blank result }
{
    match buildable_parts(alloc, words, parts) {
        Ok(made) => sure_source(alloc, words, asked, made),
        Err(error) => Err(Failure::NoMemory(error)),
    }
}

/// Where the first part begins that is one too many, if there are too many.
fn first_too_many(parts: &[Part]) -> Option<u16>
    ensures many { IfSome result (IsOneTooMany parts.now) }
    ensures few { IfNone result (length parts.now ≤ 254) }
{
    match parts.get(MOST_PARTS) {
        Some(part) => Some(part.address),
        None => None,
    }
}

/// The source of parts of an image, unless they are too many.
fn source_of_parts(alloc: Global, words: &WordMap, asked: Asked<'_>, parts: Vec<Part>) -> Made
    requires are { ArePartsOf words.now asked.blank parts.items }
    requires file { is_file_name asked.name.now ≡ true }
    ensures { Answers asked.entry.name.now words.now asked.entry.blank result }
{
    match first_too_many(&parts) {
        Some(address) => Err(Failure::Fault(NotMade::TooManySections(address))),
        None => few_source(alloc, words, asked, parts),
    }
}

/// The source of the words of an image: the texts of its parts.
///
/// Which words are taken for instructions, and where names stand, is chosen by the flow and by hints; names are left
/// out where they would hinder a build. What is claimed holds of every choice: the texts are those of the parts, and they
/// are built to a program that has the words of the image at their addresses, and no others; only such erased words may
/// be missing as stand `blank` at least one after the other.
///
/// `TooManySections` where the image comes to more than 254 parts, `LongName` where the name of the file has more than
/// 65,535 bytes, and `NoMemory` where memory runs out; else there is a source.
pub fn source_of_words(alloc: Global, words: &WordMap, asked: Asked<'_>) -> Made
    ensures { Answers asked.entry.name.now words.now asked.entry.blank result }
{
    if !is_file_name(asked.name) {
        return Err(Failure::Fault(NotMade::LongName));
    }
    match parts_of_words(alloc, words, asked.hints, asked.blank) {
        Ok(parts) => source_of_parts(alloc, words, asked, parts),
        Err(error) => Err(Failure::NoMemory(error)),
    }
}
