//! Old files, read.

ghost use Rattle.std.specs.Prelude.{◌≡◌, IfErr, IfOk, IfSome, string_bytes};
ghost use Rattle.c25_move.specs.Bytes.{IsDecoded};
ghost use Rattle.c25_disk.specs.declared.fault.FileFault.TheVariants.{CannotRead};
ghost use Rattle.c25_move_files.specs.Files.{IsRead, IsSpelledAs, old_of};
ghost use Rattle.c25_move_files.specs.Refusals.{IsFaulty, file_line};

use crate::refusals::{Refusal, short, unread};
use crate::spelling::Spellings;
use c25_disk::disk::Disk;
use c25_disk::read_binary;
use c25_meaning_common::failure::Failure;
use c25_meaning_common::no_memory::NoMemory;
use c25_move::{CodePage, Decoded, decode};
use std::alloc::Global;

/// An old file: its name, and the text that its bytes stand for.
#[derive(Drop)]
pub struct OldFile {
    pub name: String,
    /// The text, with its names in one spelling, where that is asked for.
    pub text: String,
    /// The text as it was read, where it has other spellings.
    pub unspelled: Option<String>,
    /// The code page by which the bytes were read, since they are no UTF-8.
    pub code_page: Option<CodePage>,
}

/// A disk with old files, the spellings of the names in their texts, and the code page of those that are no UTF-8.
#[derive(Clone, Copy)]
pub(crate) struct OldDisk<'a, D> {
    pub disk: &'a D,
    pub spellings: &'a Spellings,
    pub code_page: CodePage,
}

/// An old file of this name and this text.
fn old_file(
    alloc: Global,
    spellings: &Spellings,
    name: &str,
    decoded: Decoded,
) -> Result<OldFile, NoMemory>
    ensures name { IfOk result (λ f. (old_of f).name ≡ name.now) }
    ensures read { IfOk result (λ f. (old_of f).read ≡ string_bytes decoded.text) }
    ensures code_page { IfOk result (λ f. f.code_page ≡ decoded.code_page) }
    ensures spelled { IfOk result (λ f. IsSpelledAs (old_of f).read (old_of f).text) }
{
    let name = String::from_str(alloc, name)?;
    let Decoded { text, code_page } = decoded;
    match spellings.change(alloc, text.as_str())? {
        Some(spelled) => Ok(OldFile {
            name,
            text: spelled,
            unspelled: Some(text),
            code_page,
        }),
        None => Ok(OldFile {
            name,
            text,
            unspelled: None,
            code_page,
        }),
    }
}

/// An old file of this name and these bytes.
fn old_file_of<D: Disk>(
    alloc: Global,
    old: &OldDisk<'_, D>,
    name: &str,
    bytes: &[u8],
) -> Result<OldFile, NoMemory>
    ensures name { IfOk result (λ f. (old_of f).name ≡ name.now) }
    ensures read { IfOk result (λ f. IsDecoded old.now.code_page bytes.now (old_of f).read f.code_page) }
    ensures spelled { IfOk result (λ f. IsSpelledAs (old_of f).read (old_of f).text) }
{
    let decoded = decode(alloc, old.code_page, bytes)?;
    let file = old_file(alloc, old.spellings, name, decoded)?;
    Ok(file)
}

/// Reads an old file, unless it cannot be read.
pub(crate) fn read_old<D: Disk>(
    alloc: Global,
    old: &OldDisk<'_, D>,
    name: &str,
) -> Result<Option<OldFile>, NoMemory>
    ensures name { IfOk result (λ f. IfSome f (λ f. (old_of f).name ≡ name.now)) }
    ensures read { IfOk result (λ f. IfSome f (λ f. IsRead (D.bytes_of old.now.disk.now) old.now.code_page (old_of f))) }
{
    match read_binary(alloc, old.disk, name) {
        Ok(bytes) => Ok(Some(old_file_of(alloc, old, name, bytes.as_slice())?)),
        Err(Failure::NoMemory(error)) => Err(error),
        Err(Failure::Fault(_)) => Ok(None),
    }
}

/// Reads an old file that is named on the command line. Refused (8) where it cannot be read.
pub(crate) fn read_named<D: Disk>(
    alloc: Global,
    old: &OldDisk<'_, D>,
    name: &str,
) -> Result<OldFile, Refusal>
    ensures name { IfOk result (λ f. (old_of f).name ≡ name.now) }
    ensures read { IfOk result (λ f. IsRead (D.bytes_of old.now.disk.now) old.now.code_page (old_of f)) }
    ensures refused { IfErr result (IsFaulty (λ line. line ≡ file_line name.now CannotRead)) }
{
    match read_old(alloc, old, name) {
        Ok(Some(file)) => Ok(file),
        Ok(None) => Err(unread(alloc, name)),
        Err(error) => Err(short(error)),
    }
}
