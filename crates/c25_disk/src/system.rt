//! The files of the system.

ghost use Rattle.std.specs.Prelude.{IfSome};
ghost use Rattle.c25_disk.specs.Refusals.{IsOfSystem};

use crate::disk::{Disk, DiskFault};
use crate::refusal::{Refusal, refusal_of};
use std::fs;
use std::io::{Read, Write};
use std::rt::Files;

/// The files of the system. A name is a path from the current folder. No contract says what the files have.
#[derive(Drop)]
pub struct System<'a, R: Files> {
    files: &'a R,
}

impl<'a, R: Files> System<'a, R> {
    /// The files that a runtime reaches.
    pub fn new(files: &'a R) -> System<'a, R> {
        System { files }
    }
}

/// Why the first read of a file fails; `None` where it does not.
fn first_refusal<R: Read + Drop>(file: R) -> Option<Refusal>
    ensures { IfSome result IsOfSystem }
{
    let mut file = file;
    match file.read(&mut [0u8]) {
        Ok(_) => None,
        Err(error) => refusal_of(&error),
    }
}

impl<'a, R: Files> Disk for System<'a, R> {
    ghost use Rattle.std.specs.Prelude.{None};
    ghost use Rattle.c25_disk.specs.Refusals.{IsOfSystem};

    type Reader = R::File;

    ghost bytes_of = { λ _ _. None };

    ghost refuses = { λ _ _. IsOfSystem };

    ghost written = { λ _. None };

    fn open(&self, name: &str) -> Result<R::File, DiskFault> {
        match fs::open(self.files, name) {
            Ok(file) => Ok(file),
            Err(_) => Err(DiskFault),
        }
    }

    fn refusal(&self, name: &str) -> Option<Refusal> {
        match fs::open(self.files, name) {
            Ok(file) => first_refusal(file),
            Err(error) => refusal_of(&error),
        }
    }

    fn write(&mut self, name: &str, bytes: &[u8]) -> Result<(), DiskFault> {
        match fs::write(self.files, name, bytes) {
            Ok(()) => Ok(()),
            Err(_) => Err(DiskFault),
        }
    }
}
