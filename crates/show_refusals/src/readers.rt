//! Files of each kind, and standard input, whose reading fails: the file is reported (8), and nothing else is
//! done.

use crate::call::{Wanted, call, prints, refuses, writes};
use crate::memory_reader::{End, Reading};
use crate::programs::{FILES, INPUT, LINKED, text_of};
use crate::world::{World, bytes_of};
use std::io;

/// Command lines, each with a file that it reads: one row for each kind of file.
const READ: [(&str, &str); 9] = [
    ("c25 asm a.asm --obj b.obj", "a.asm"),
    ("c25 run a.asm", "b.inc"),
    ("c25 build a.asm --out b --command no.cmd", "no.cmd"),
    ("c25 link no.cmd a.obj --out b", "no.cmd"),
    ("c25 link no.cmd a.obj b.obj --out b", "b.obj"),
    ("c25 run a.asm --samples samples.txt", "samples.txt"),
    ("c25 run a.asm --schedule schedule.txt", "schedule.txt"),
    ("c25 debug a.asm --script script.txt", "script.txt"),
    ("c25", "stdin"),
];

/// Standard input that must not be read.
const CLOSED: Reading<'static> = Reading {
    rest: b"",
    most: 1,
    end: End::Fails,
};

/// Checks that a file is reported, and nothing is printed or written, where the file of a name, or standard
/// input, is read in this way.
fn is_told(
    rt: &HostRuntime,
    line: &str,
    told: &str,
    name: &str,
    reading: Reading<'_>,
) -> io::Result<()> {
    let errors = format!(in rt.alloc(); "{told}: 8 CannotRead\n")?;
    let mut world = World::with_reading(rt.alloc(), FILES, name, reading);
    let input = if name == "stdin" { reading } else { CLOSED };
    call(rt, line, &mut world, input, refuses(errors.as_str()))
}

/// The bytes of a file, or those of standard input.
fn whole(name: &str) -> &'static [u8] {
    match bytes_of(FILES, name) {
        Some(bytes) => bytes,
        None => INPUT,
    }
}

/// Checks a file that fails after these bytes, which it gives one at a time.
fn fail_behind(rt: &HostRuntime, line: &str, name: &str, rest: &[u8]) -> io::Result<()> {
    let reading = Reading {
        rest,
        most: 1,
        end: End::Fails,
    };
    is_told(rt, line, name, name, reading)
}

/// Checks a file with each of its reads failing in turn, the last one after its last byte.
fn fail_at_each_read(rt: &HostRuntime, line: &str, name: &str) -> io::Result<()> {
    let bytes = whole(name);
    for before in 0..bytes.len() {
        fail_behind(rt, line, name, &bytes[..before])?;
    }
    fail_behind(rt, line, name, bytes)?;
    println!(rt;
        "{line}: {name} fails at read 1 to {}",
        bytes.len().saturating_add(1)
    )
}

/// Checks a file that goes on for ever.
fn go_on(rt: &HostRuntime, line: &str, name: &str) -> io::Result<()> {
    let reading = Reading {
        rest: whole(name),
        most: 1,
        end: End::Goes,
    };
    is_told(rt, line, name, name, reading)?;
    println!(rt; "{line}: {name} goes on for ever")
}

/// Checks a file that ends within a character of two, three or four bytes.
fn end_within_a_character(rt: &HostRuntime, line: &str, name: &str) -> io::Result<()> {
    for rest in [b"* \xC3".as_slice(), b"* \xE2\x82", b"* \xF0\x9F\x98"] {
        let reading = Reading {
            rest,
            most: 1,
            end: End::Ends,
        };
        is_told(rt, line, name, name, reading)?;
    }
    println!(rt; "{line}: {name} ends within a character")
}

/// Checks that of two objects that cannot be read the first is reported.
fn tell_the_first(rt: &HostRuntime) -> io::Result<()> {
    for (line, name) in [
        ("c25 link no.cmd q r --out b", "q"),
        ("c25 link no.cmd r q --out b", "r"),
        ("c25 link no.cmd b.obj q --out b", "b.obj"),
        ("c25 link no.cmd q b.obj --out b", "q"),
    ] {
        is_told(rt, line, name, "b.obj", CLOSED)?;
        println!(rt; "{line}: {name} is told")?;
    }
    Ok(())
}

/// Checks a call whose files and standard input are read one byte at a time.
fn read_slowly(rt: &HostRuntime, line: &str, wanted: Wanted<'_>) -> io::Result<()> {
    let mut world = World::new(rt.alloc(), FILES);
    let input = Reading {
        rest: INPUT,
        most: 1,
        end: End::Ends,
    };
    call(rt, line, &mut world, input, wanted)?;
    println!(rt; "{line}: a byte a read")
}

/// Checks calls that read files of each kind, one byte at a time.
fn read_each_slowly(rt: &HostRuntime) -> io::Result<()> {
    let run =
        "c25 run a.asm --command no.cmd --samples samples.txt --schedule schedule.txt --steps 4";
    let debug =
        "c25 debug a.asm --command no.cmd --samples samples.txt --schedule schedule.txt --script script.txt";
    read_slowly(rt, run, prints("3 00FF\nran 4\n"))?;
    read_slowly(rt, debug, prints("ran 2\n0060 00FF\n"))?;
    let linked = text_of(rt.alloc(), &LINKED)?;
    read_slowly(rt, "c25 link no.cmd a.obj --out b", writes(&linked))?;
    read_slowly(rt, "c25", prints("1 0041\nran 1000\n"))
}

/// Checks each kind of file with each kind of failure.
pub(crate) fn run_all(rt: &HostRuntime) -> io::Result<()> {
    println!(rt; "== readers")?;
    for (line, name) in READ {
        fail_at_each_read(rt, line, name)?;
        go_on(rt, line, name)?;
        if name != "b.obj" {
            end_within_a_character(rt, line, name)?;
        }
    }
    tell_the_first(rt)?;
    read_each_slowly(rt)
}
