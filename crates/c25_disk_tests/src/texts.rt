//! Tests of texts that come from readers.

use crate::readers::Pieces;
use c25_disk::{CannotRead, read_text};
use c25_files::files::{FileTwice, Files};
use c25_meaning_common::failure::Failure;
use std::io;
use std::io::Read;
use std::process::Abort;
use std::test::Fail;

/// A reader of so many `*`.
#[derive(Drop)]
struct Stars {
    left: usize,
}

impl Read for Stars {
    fn read(&mut self, buf: &mut [u8]) -> io::Result<usize> {
        let count = buf.len().min(self.left);
        buf[..count].fill(b'*');
        self.left -= count;
        Ok(count)
    }
}

/// Checks that the file of this name has this text.
fn has(rt: &(impl Abort + AllocGlobal), files: &Files, name: &str, text: Option<&str>) {
    let found = files.text(name);
    assert_eq!(rt; found, text);
}

#[test]
fn characters_may_be_cut_between_reads(rt: HostRuntime) -> Result<(), Fail> {
    let text = "a\u{e9}\r\n\u{20ac}\r\n\u{1f600}\r";
    for most in 1..6 {
        let mut input = Pieces {
            rest: text.as_bytes(),
            most,
            fails: false,
        };
        let read = read_text(rt.alloc(), &mut input)?;
        assert_eq!(rt; read.as_str(), text);
    }
    Ok(())
}

/// Checks that the rest of a reader cannot be read.
fn cannot_be_read<R: Read>(rt: &impl AllocGlobal, reader: &mut R) -> Result<(), Fail> {
    match read_text(rt.alloc(), reader) {
        Err(Failure::Fault(CannotRead)) => Ok(()),
        Err(Failure::NoMemory(error)) => Err(error.into()),
        Ok(_) => Err(Fail::from("it was read")),
    }
}

#[test]
fn the_limit_is_16777216_bytes(rt: HostRuntime) -> Result<(), Fail> {
    let mut full = Stars { left: 16_777_216 };
    let text = read_text(rt.alloc(), &mut full)?;
    assert_eq!(rt; text.len(), 16_777_216);
    let mut past = Stars { left: 16_777_217 };
    cannot_be_read(&rt, &mut past)
}

/// Adds a file `b` with the text 2, and a file that is read one byte at a time.
fn add_two(files: &mut Files) -> Result<(), Fail> {
    files.add("b", "2")?;
    let mut reader = Pieces {
        rest: "a\u{e9}\r".as_bytes(),
        most: 1,
        fails: false,
    };
    files.add_from("a", &mut reader).map_err(Fail::from)
}

#[test]
fn a_text_joins_the_files(rt: HostRuntime) -> Result<(), Fail> {
    let mut files = Files::new(rt.alloc());
    add_two(&mut files)?;
    has(&rt, &files, "a", Some("a\u{e9}\r"));
    has(&rt, &files, "b", Some("2"));
    Ok(())
}

#[test]
fn files_keep_the_first_text_of_a_name(rt: HostRuntime) -> Result<(), Fail> {
    let mut files = Files::new(rt.alloc());
    files.add("a", "1")?;
    files.add("b", "2")?;
    let again = files.add("a", "3");
    assert_eq!(rt; again, Err(Failure::Fault(FileTwice)));
    has(&rt, &files, "a", Some("1"));
    has(&rt, &files, "b", Some("2"));
    has(&rt, &files, "A", None);
    Ok(())
}
