//! Tests of sources on a disk.

use crate::readers::Pieces;
use crate::shelf::Shelf;
use c25_disk::disk::{Disk, DiskFault};
use c25_disk::{read_file, read_sources};
use std::cell::Cell;
use std::process::Abort;
use std::test::Fail;

/// A shelf that counts how often a file is opened.
#[derive(Drop)]
struct Counting<'a> {
    shelf: Shelf<'a>,
    opened: Cell<usize>,
}

impl<'a> Disk for Counting<'a> {
    ghost use Rattle.std.specs.Prelude.{None};

    type Reader = Pieces<'a>;

    ghost bytes_of = { λ _ _. None };

    ghost written = { λ _. None };

    fn open(&self, name: &str) -> Result<Pieces<'a>, DiskFault> {
        self.opened.set(self.opened.get().wrapping_add(1));
        self.shelf.open(name)
    }

    fn write(&mut self, name: &str, bytes: &[u8]) -> Result<(), DiskFault> {
        self.shelf.write(name, bytes)
    }
}

/// Checks that sources that are read have their texts, and that no others are read.
fn have_texts(rt: &(impl Abort + AllocGlobal), disk: &Counting<'_>) -> Result<(), Fail> {
    let files = read_sources(rt.alloc(), disk, &["b", "a"])?;
    let texts = [files.text("a"), files.text("b"), files.text("c")];
    assert_eq!(rt; texts, [Some(" NOP\n"), Some(""), None]);
    Ok(())
}

/// Checks that each of two sources is opened once, and that a file has its text.
fn are_read(rt: &(impl Abort + AllocGlobal), disk: &Counting<'_>) -> Result<(), Fail> {
    have_texts(rt, disk)?;
    assert_eq!(rt; disk.opened.get(), 2);
    let text = read_file(rt.alloc(), disk, "a")?;
    assert_eq!(rt; text.as_str(), " NOP\n");
    Ok(())
}

#[test]
fn each_source_is_opened_once(rt: HostRuntime) -> Result<(), Fail> {
    let disk = Counting {
        shelf: Shelf {
            files: &[("a", b" NOP\n"), ("b", b""), ("c", b"\xFF")],
            others: None,
            room: 0,
            written: Vec::new(rt.alloc()),
        },
        opened: Cell::new(0),
    };
    are_read(&rt, &disk)
}
