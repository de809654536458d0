//! What the tests give the program: a command line, writers and files.

ghost use Rattle.std.specs.Io.{WritesAtMost};

use c25_disk_tests::readers::Pieces;
use c25_disk_tests::shelf::Shelf;
use std::alloc::Global;
use std::env::FillError;
use std::io;
use std::io::{Error, ErrorKind, Write};
use std::rt::Env;

/// A command line of these arguments after the program's name.
#[derive(Drop)]
pub(crate) struct CommandLine<'a> {
    pub(crate) words: &'a [&'a str],
}

/// Copies an argument to the start of a buffer.
fn fill(word: &[u8], buf: &mut [u8]) -> Result<usize, FillError>
    ensures { WritesAtMost result buf.new }
{
    if buf.len() < word.len() {
        return Err(FillError::TooLong);
    }
    buf[..word.len()].copy_from_slice(word);
    Ok(word.len())
}

impl Env for CommandLine<'_> {
    fn arg(&self, i: usize, buf: &mut [u8]) -> Result<usize, FillError> {
        if i == 0 {
            return fill(b"c25", buf);
        }
        match self.words.get(i - 1) {
            Some(word) => fill(word.as_bytes(), buf),
            None => Err(FillError::NotPresent),
        }
    }

    fn var(&self, _name: &str, _buf: &mut [u8]) -> Result<usize, FillError> {
        Err(FillError::NotPresent)
    }

    fn var_at(&self, _i: usize, _buf: &mut [u8]) -> Result<usize, FillError> {
        Err(FillError::NotPresent)
    }
}

/// A command line of one argument, which is not UTF-8.
#[derive(Drop)]
pub(crate) struct NotText;

impl Env for NotText {
    fn arg(&self, i: usize, buf: &mut [u8]) -> Result<usize, FillError> {
        if i == 0 {
            fill(b"\xFF", buf)
        } else {
            Err(FillError::NotPresent)
        }
    }

    fn var(&self, _name: &str, _buf: &mut [u8]) -> Result<usize, FillError> {
        Err(FillError::NotPresent)
    }

    fn var_at(&self, _i: usize, _buf: &mut [u8]) -> Result<usize, FillError> {
        Err(FillError::NotPresent)
    }
}

/// A writer that takes nothing.
#[derive(Drop)]
pub(crate) struct Closed;

impl Write for Closed {
    fn write(&mut self, _buf: &[u8]) -> io::Result<usize> {
        Err(Error::from(ErrorKind::BrokenPipe))
    }

    fn flush(&mut self) -> io::Result<()> {
        Ok(())
    }
}

/// A writer that takes a limited number of bytes.
#[derive(Drop)]
pub(crate) struct Narrow {
    pub(crate) room: usize,
    pub(crate) taken: Vec<u8>,
}

impl Write for Narrow {
    fn write(&mut self, buf: &[u8]) -> io::Result<usize> {
        let count = buf.len().min(self.room);
        if count == 0 {
            return Err(Error::from(ErrorKind::BrokenPipe));
        }
        self.taken.extend_from_slice(&buf[..count])?;
        self.room -= count;
        Ok(count)
    }

    fn flush(&mut self) -> io::Result<()> {
        Ok(())
    }
}

/// A reader of these bytes, at most nine at a time.
pub(crate) fn input_of(bytes: &[u8]) -> Pieces<'_> {
    Pieces {
        rest: bytes,
        most: 9,
        fails: false,
    }
}

/// A disk without files, with room for some.
pub(crate) fn empty_shelf(alloc: Global) -> Shelf<'static> {
    Shelf {
        files: &[],
        others: None,
        room: 9,
        written: Vec::new(alloc),
    }
}
