//! Programs with files of each kind, and their output files.

use crate::world::File;
use std::alloc::{AllocError, Global};

/// The files of the cases. The source `a.asm` gives the one word of port 2 out at port 3 and sleeps.
pub(crate) const FILES: &[File] = &[
    ("a.asm", b" IN 60h,PA2\n OUT 60h,PA3\n .copy \"b.inc\"\n"),
    ("b.inc", b"S IDLE\n B S\n"),
    ("c.asm", b" .word 5\n"),
    ("t.asm", b" .title \"t\"\n"),
    ("no.cmd", b"SECTIONS { .text : }\n"),
    ("samples.txt", b"2 00FF\n"),
    ("schedule.txt", b"5 INT0\n"),
    ("script.txt", b"step 2\ndata 60 1\n"),
    ("a.obj", EMPTY),
    ("b.obj", EMPTY),
];

/// A source on standard input, which gives 41h out at port 1.
pub(crate) const INPUT: &[u8] = b" LACK 65\n SACL 60h\n OUT 60h,PA1\nS B S\n";

/// The object of a module without words, symbols and relocations: `.text` alone.
const EMPTY: &[u8] =
    b"C25O\x02\x01\x00\x00\x00\x0B\x01\x05.text\x00\x00\x00\x00\xFF\x00\x00\x00\x00";

/// The files that `asm` writes of `t.asm`.
pub(crate) const ASSEMBLED: [File; 2] = [
    ("t.obj", EMPTY),
    ("t.lst", b"     1             .title \"t\"\n"),
];

/// The files that `link` writes of an object without words.
pub(crate) const LINKED: [File; 3] = [
    ("b.p0.hex", b":00000001FF\n"),
    ("b.p1.hex", b":00000001FF\n"),
    (
        "b.map",
        b"C25 MAP 1\nSECTION 0 0000 00000 .text\nPART 0 0000 00000\nEND\n",
    ),
];

/// The files that `build` writes of `c.asm`.
pub(crate) const BUILT: [File; 4] = [
    ("b.p0.hex", b":020000000005F9\n:00000001FF\n"),
    ("b.p1.hex", b":00000001FF\n"),
    (
        "b.map",
        b"C25 MAP 1\nSECTION 0 0000 00001 .text\nPART 0 0000 00001\nEND\n",
    ),
    ("b.1.lst", b"     1 0000 0005   .word 5\n"),
];

/// Files as `World` keeps what was written: for each its name, a line feed, and its bytes.
pub(crate) fn text_of(alloc: Global, files: &[File]) -> Result<Vec<u8>, AllocError> {
    let mut text = Vec::new(alloc);
    for (name, bytes) in files {
        text.extend_from_slice(name.as_bytes())?;
        text.push(b'\n')?;
        text.extend_from_slice(bytes)?;
    }
    Ok(text)
}
