//! Disks on which sources have fronts.

use crate::find::find;
use crate::front::Front;
use c25_disk::disk::{Disk, DiskFault};
use c25_disk::refusal::Refusal;
use std::io;
use std::io::Read;

/// A disk that has fronts in addition to its files. It is read and not written.
#[derive(Drop)]
pub struct Fronted<'a, D> {
    pub disk: &'a D,
    pub fronts: &'a [Front],
}

/// A front that is read, or a file of the disk.
#[derive(Drop)]
pub enum FrontReader<'a, R> {
    Front(&'a [u8]),
    File(R),
}

impl<R: Read> Read for FrontReader<'_, R> {
    ghost use Rattle.c25_fronts.specs.Fronted.{left_of};

    ghost remaining = { left_of R.remaining };

    fn read(&mut self, buf: &mut [u8]) -> io::Result<usize> {
        match self {
            FrontReader::Front(rest) => rest.read(buf),
            FrontReader::File(reader) => reader.read(buf),
        }
    }
}

impl<'a, D: Disk> Disk for Fronted<'a, D> {
    ghost use Rattle.std.specs.Prelude.{map};
    ghost use Rattle.c25_fronts.specs.Fronts.{entry_of, fronted, with_fronts};

    type Reader = FrontReader<'a, D::Reader>;

    ghost bytes_of = { λ it. fronted (map entry_of it.fronts.now) (D.bytes_of it.disk.now) };

    ghost opens = { λ it. with_fronts (map entry_of it.fronts.now) (D.opens it.disk.now) };

    ghost refuses = { λ it. D.refuses it.disk.now };

    ghost written = { λ it. D.written it.disk.now };

    fn open(&self, name: &str) -> Result<FrontReader<'a, D::Reader>, DiskFault> {
        match find(self.fronts, name) {
            Some(text) => Ok(FrontReader::Front(text.as_bytes())),
            None => Ok(FrontReader::File(self.disk.open(name)?)),
        }
    }

    fn refusal(&self, name: &str) -> Option<Refusal> {
        match find(self.fronts, name) {
            Some(_) => None,
            None => self.disk.refusal(name),
        }
    }

    fn write(&mut self, _name: &str, _bytes: &[u8]) -> Result<(), DiskFault> {
        Err(DiskFault)
    }
}
