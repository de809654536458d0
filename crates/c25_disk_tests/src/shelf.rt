//! Files in memory.

use crate::readers::Pieces;
use c25_disk::disk::{Disk, DiskFault};

/// A disk in memory. It has a list of files, and a text that every other name has, if there is one. It keeps
/// what was written (for each file its name, a line feed and its bytes), and accepts only so many writes.
#[derive(Drop)]
pub struct Shelf<'a> {
    pub files: &'a [(&'a str, &'a [u8])],
    pub others: Option<&'a [u8]>,
    pub room: usize,
    pub written: Vec<u8>,
}

impl<'a> Shelf<'a> {
    fn find(&self, name: &str) -> Option<&'a [u8]> {
        for (held, bytes) in self.files {
            if *held == name {
                return Some(bytes);
            }
        }
        self.others
    }
}

impl<'a> Disk for Shelf<'a> {
    ghost use Rattle.std.specs.Prelude.{None};

    type Reader = Pieces<'a>;

    ghost bytes_of = { λ _ _. None };

    ghost written = { λ _. None };

    fn open(&self, name: &str) -> Result<Pieces<'a>, DiskFault> {
        match self.find(name) {
            Some(rest) => Ok(Pieces {
                rest,
                most: 3,
                fails: false,
            }),
            None => Err(DiskFault),
        }
    }

    fn write(&mut self, name: &str, bytes: &[u8]) -> Result<(), DiskFault> {
        if self.room == 0 {
            return Err(DiskFault);
        }
        self.room -= 1;
        for part in [name.as_bytes(), b"\n".as_slice(), bytes] {
            if self.written.extend_from_slice(part).is_err() {
                return Err(DiskFault);
            }
        }
        Ok(())
    }
}
