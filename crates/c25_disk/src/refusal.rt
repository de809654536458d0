//! Why a file cannot be opened or read.

ghost use Rattle.std.specs.Prelude.{◌≡◌, ◌<◌, IfSome, IsTrue, length};
ghost use Rattle.std.specs.IoError.{error_kind, raw_os_error};
ghost use Rattle.c25_disk.specs.Refusals.{refusal_by};

use crate::disk::{Disk, DiskFault};
use std::io;
use std::io::{ErrorKind, Read};

/// Why a file cannot be opened or read.
#[derive(Clone, Copy, PartialEq, Debug)]
pub enum Refusal {
    /// There is no file of this name, or a folder of its path is missing.
    Missing,
    /// The rights of the file, or those of a folder of its path, do not allow it.
    Forbidden,
    /// A folder has this name.
    IsFolder,
    /// A part of its path is a file, and no folder.
    FileInPath,
    /// The name, or a part of it, is longer than the system allows.
    LongName,
    /// Its symbolic links lead in a circle, or are too many.
    LinkCircle,
    /// Another error of the system, with its number.
    System(u32),
}

/// Why a file is refused, by the error of the system; `None` where the error says nothing of the file.
pub(crate) fn refusal_of(error: &io::Error) -> Option<Refusal>
    ensures { result ≡ refusal_by (error_kind error.now) (raw_os_error error.now) }
{
    match error.kind() {
        ErrorKind::NotFound => Some(Refusal::Missing),
        ErrorKind::PermissionDenied => Some(Refusal::Forbidden),
        ErrorKind::IsADirectory => Some(Refusal::IsFolder),
        ErrorKind::NotADirectory => Some(Refusal::FileInPath),
        ErrorKind::InvalidFilename => Some(Refusal::LongName),
        ErrorKind::FilesystemLoop => Some(Refusal::LinkCircle),
        _ => match error.raw_os_error() {
            Some(code) => Some(Refusal::System(code.unsigned_abs())),
            None => None,
        },
    }
}

/// Whether a reader gives more than 16,777,216 bytes; `false` where a read of these fails.
fn gives_more<R: Read + Drop>(reader: R) -> bool
    ensures { IsTrue result → IfSome (R.remaining reader) (λ bytes. 16777216 < length bytes) }
{
    let mut first = reader.take(16_777_217);
    match io::copy(&mut first, &mut io::sink()) {
        Ok(count) => count > 16_777_216,
        Err(_) => false,
    }
}

/// Whether a file has more than 16,777,216 bytes; `false` where it cannot be opened, or a read of these fails.
pub fn is_too_long<D: Disk>(disk: &D, name: &str) -> bool
    ensures { IsTrue result → IfSome (D.bytes_of disk.now name.now) (λ bytes. 16777216 < length bytes) }
{
    match disk.open(name) {
        Ok(reader) => gives_more(reader),
        Err(DiskFault) => false,
    }
}
