//! The files of a case, in memory.

use c25_disk::disk::{Disk, DiskFault};
use c25_disk::refusal::Refusal;
use std::alloc::{AllocError, Global};

/// A file: its name and its bytes.
#[derive(Drop, PartialEq)]
pub(crate) struct File {
    pub(crate) name: String,
    pub(crate) bytes: Vec<u8>,
}

impl File {
    /// The file of this name and these bytes.
    pub(crate) fn new(alloc: Global, name: &str, bytes: &[u8]) -> Result<File, AllocError> {
        let name = String::from_str(alloc, name)?;
        let bytes = bytes.to_vec(alloc)?;
        Ok(File { name, bytes })
    }
}

/// A folder in memory: the files that a case gives, and those that were written.
#[derive(Drop)]
pub(crate) struct Folder<'a> {
    alloc: Global,
    given: &'a [File],
    written: Vec<File>,
}

impl<'a> Folder<'a> {
    pub(crate) fn new(alloc: Global, given: &'a [File]) -> Folder<'a> {
        Folder {
            alloc,
            given,
            written: Vec::new(alloc),
        }
    }

    /// The file of this name that the case gives, if it gives one.
    fn find(&self, name: &str) -> Option<&'a File> {
        for file in self.given {
            if file.name.as_str() == name {
                return Some(file);
            }
        }
        None
    }

    /// Whether these files were written, and no others.
    pub(crate) fn wrote(&self, files: &[File]) -> bool {
        for file in files {
            if !self.written.contains(file) {
                return false;
            }
        }
        self.written.len() == files.len()
    }
}

/// Whether the file of this name stands in a folder of that name.
fn stands_in(name: &str, folder: &str) -> bool {
    match name.strip_prefix(folder) {
        Some(rest) => rest.starts_with('/'),
        None => false,
    }
}

/// Why a name among those of files is that of no file.
fn refusal_among(files: &[File], name: &str) -> Refusal {
    for file in files {
        if stands_in(file.name.as_str(), name) {
            return Refusal::IsFolder;
        }
        if stands_in(name, file.name.as_str()) {
            return Refusal::FileInPath;
        }
    }
    Refusal::Missing
}

impl<'a> Disk for Folder<'a> {
    ghost use Rattle.std.specs.Prelude.{None, ⊤};

    type Reader = &'a [u8];

    ghost bytes_of = { λ _ _. None };

    ghost refuses = { λ _ _ _. ⊤ };

    ghost written = { λ _. None };

    fn open(&self, name: &str) -> Result<&'a [u8], DiskFault> {
        match self.find(name) {
            Some(file) => Ok(file.bytes.as_slice()),
            None => Err(DiskFault),
        }
    }

    fn refusal(&self, name: &str) -> Option<Refusal> {
        match self.find(name) {
            Some(_) => None,
            None => Some(refusal_among(self.given, name)),
        }
    }

    fn write(&mut self, name: &str, bytes: &[u8]) -> Result<(), DiskFault> {
        if name.contains('/') {
            return Err(DiskFault);
        }
        let Ok(file) = File::new(self.alloc, name, bytes) else {
            return Err(DiskFault);
        };
        match self.written.push(file) {
            Ok(()) => Ok(()),
            Err(_) => Err(DiskFault),
        }
    }
}
