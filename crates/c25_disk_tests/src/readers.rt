//! Readers for tests.

use std::io;
use std::io::{Error, ErrorKind, Read};

/// A reader that gives its bytes in pieces of a limited length, and then ends or fails.
#[derive(Drop)]
pub struct Pieces<'a> {
    pub rest: &'a [u8],
    pub most: usize,
    pub fails: bool,
}

impl Read for Pieces<'_> {
    fn read(&mut self, buf: &mut [u8]) -> io::Result<usize> {
        if self.rest.is_empty() && self.fails {
            return Err(Error::from(ErrorKind::Other));
        }
        let count = self.most.min(buf.len()).min(self.rest.len());
        let (now, later) = self.rest.split_at(count);
        buf[..count].copy_from_slice(now);
        self.rest = later;
        Ok(count)
    }
}
