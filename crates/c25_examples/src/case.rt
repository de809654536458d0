//! Cases: a call of the program over files in memory, and what it must do.

use crate::files::{File, Folder};
use c25_tasks::{Streams, run_words};
use std::alloc::{AllocError, Global};
use std::io;
use std::process::ExitCode;

/// A call of the program, and what it must do.
#[derive(Drop)]
pub(crate) struct Case<'a> {
    pub(crate) name: &'a str,
    /// The command line, with the program's name first.
    pub(crate) words: Vec<String>,
    pub(crate) input: Vec<u8>,
    pub(crate) given: Vec<File>,
    pub(crate) status: u8,
    pub(crate) output: Vec<u8>,
    /// Whether standard error is compared.
    pub(crate) has_errors: bool,
    pub(crate) errors: Vec<u8>,
    pub(crate) written: Vec<File>,
}

/// Prints a difference, unless this part of a case is right.
fn tell_unless(rt: &HostRuntime, is_right: bool, name: &str, told: &str) -> io::Result<()> {
    if is_right {
        return Ok(());
    }
    println!(rt; "{name}: {told}")
}

/// What a call of the program did.
#[derive(Drop)]
struct Called<'a> {
    status: ExitCode,
    output: &'a [u8],
    errors: &'a [u8],
}

impl<'a> Case<'a> {
    /// A case of this name with no command line but the program's name.
    pub(crate) fn new(alloc: Global, name: &'a str) -> Result<Case<'a>, AllocError> {
        let mut words = Vec::new(alloc);
        words.push(String::from_str(alloc, "c25")?)?;
        Ok(Case {
            name,
            words,
            input: Vec::new(alloc),
            given: Vec::new(alloc),
            status: 0,
            output: Vec::new(alloc),
            has_errors: false,
            errors: Vec::new(alloc),
            written: Vec::new(alloc),
        })
    }

    /// Prints each part of the call that is not as it must be.
    fn compare(
        &self,
        rt: &HostRuntime,
        called: &Called<'_>,
        folder: &Folder<'_>,
    ) -> io::Result<()> {
        let name = self.name;
        if called.status != ExitCode::from(self.status) {
            println!(rt; "{name}: another status than {}", self.status)?;
        }
        let has_output = called.output == self.output.as_slice();
        tell_unless(rt, has_output, name, "another standard output")?;
        let has_errors = !self.has_errors || called.errors == self.errors.as_slice();
        tell_unless(rt, has_errors, name, "another standard error")?;
        let has_written = folder.wrote(&self.written);
        tell_unless(rt, has_written, name, "other files written")
    }

    /// Calls the program, and prints each part that is not as it must be.
    pub(crate) fn run(&self, rt: &HostRuntime) -> io::Result<()> {
        let mut folder = Folder::new(rt.alloc(), &self.given);
        let mut streams = Streams {
            input: self.input.as_slice(),
            out: Vec::<u8>::new(rt.alloc()),
            err: Vec::<u8>::new(rt.alloc()),
        };
        let status = run_words(rt.alloc(), &self.words, &mut folder, &mut streams).status();
        let called = Called {
            status,
            output: &streams.out,
            errors: &streams.err,
        };
        self.compare(rt, &called, &folder)
    }
}
