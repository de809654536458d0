//! Readers of bytes in memory.

ghost use Rattle.std.specs.Io.{ReadsAtMost};

use std::io;
use std::io::{Error, ErrorKind, Read};

/// What a reader does after its bytes.
#[derive(Clone, Copy)]
pub(crate) enum End {
    /// The reader ends.
    Ends,
    /// The reader fails.
    Fails,
    /// The reader gives 61h for ever.
    Goes,
}

/// A reader that gives its bytes in pieces of a limited length, and then does what `end` says.
#[derive(Clone, Copy)]
pub(crate) struct Reading<'a> {
    pub(crate) rest: &'a [u8],
    pub(crate) most: usize,
    pub(crate) end: End,
}

/// Reads after the last byte.
fn read_behind(end: End, buf: &mut [u8]) -> io::Result<usize>
    ensures { ReadsAtMost result buf.new }
{
    match end {
        End::Ends => Ok(0),
        End::Fails => Err(Error::from(ErrorKind::Other)),
        End::Goes => {
            buf.fill(b'a');
            Ok(buf.len())
        }
    }
}

impl Read for Reading<'_> {
    fn read(&mut self, buf: &mut [u8]) -> io::Result<usize> {
        if self.rest.is_empty() {
            return read_behind(self.end, buf);
        }
        let count = self.most.min(buf.len()).min(self.rest.len());
        let (now, later) = self.rest.split_at(count);
        buf[..count].copy_from_slice(now);
        self.rest = later;
        Ok(count)
    }
}
