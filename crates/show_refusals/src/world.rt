//! A disk in memory whose files are read and written as a case asks for.

use crate::memory_reader::{End, Reading};
use c25_disk::disk::{Disk, DiskFault};
use std::alloc::Global;

/// A file: its name and its bytes.
pub(crate) type File = (&'static str, &'static [u8]);

/// A disk with the files of a list. It keeps what was written: for each file its name, a line feed, and its
/// bytes.
#[derive(Drop)]
pub(crate) struct World<'a> {
    files: &'static [File],
    /// A file that is read in this way and not from the list, with its name.
    other: Option<(&'a str, Reading<'a>)>,
    /// How many writes succeed before one is refused; all writes after that one succeed again.
    before: usize,
    pub(crate) written: Vec<u8>,
}

impl<'a> World<'a> {
    /// A disk of these files that refuses nothing.
    pub(crate) fn new(alloc: Global, files: &'static [File]) -> World<'a> {
        World {
            files,
            other: None,
            before: usize::MAX,
            written: Vec::new(alloc),
        }
    }

    /// A disk of these files but for one, which is read in this way.
    pub(crate) fn with_reading(
        alloc: Global,
        files: &'static [File],
        name: &'a str,
        reading: Reading<'a>,
    ) -> World<'a> {
        World {
            other: Some((name, reading)),
            ..World::new(alloc, files)
        }
    }

    /// A disk of these files that refuses the write after the first `before`.
    pub(crate) fn with_refusal(alloc: Global, files: &'static [File], before: usize) -> World<'a> {
        World {
            before,
            ..World::new(alloc, files)
        }
    }

    /// How the file of a name is read, if not from the list.
    fn other_reading(&self, name: &str) -> Option<Reading<'a>> {
        let (other, reading) = self.other?;
        if other == name { Some(reading) } else { None }
    }
}

/// The bytes of the file of a name.
pub(crate) fn bytes_of(files: &'static [File], name: &str) -> Option<&'static [u8]> {
    for (held, bytes) in files {
        if *held == name {
            return Some(bytes);
        }
    }
    None
}

impl<'a> Disk for World<'a> {
    ghost use Rattle.std.specs.Prelude.{None};

    type Reader = Reading<'a>;

    ghost bytes_of = { λ _ _. None };

    ghost written = { λ _. None };

    fn open(&self, name: &str) -> Result<Reading<'a>, DiskFault> {
        if let Some(reading) = self.other_reading(name) {
            return Ok(reading);
        }
        match bytes_of(self.files, name) {
            Some(rest) => Ok(Reading {
                rest,
                most: 1,
                end: End::Ends,
            }),
            None => Err(DiskFault),
        }
    }

    fn write(&mut self, name: &str, bytes: &[u8]) -> Result<(), DiskFault> {
        if self.before == 0 {
            self.before = usize::MAX;
            return Err(DiskFault);
        }
        self.before -= 1;
        for part in [name.as_bytes(), b"\n".as_slice(), bytes] {
            if self.written.extend_from_slice(part).is_err() {
                return Err(DiskFault);
            }
        }
        Ok(())
    }
}
