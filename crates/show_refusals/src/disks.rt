//! Disks that refuse one write and take all others: the refused file is reported (7), the files before it are
//! written, and none after it.

ghost use Rattle.std.specs.Prelude.{◌<◌, length};

use crate::call::{Wanted, call, refuses, writes};
use crate::memory_reader::{End, Reading};
use crate::programs::{ASSEMBLED, BUILT, FILES, LINKED, text_of};
use crate::world::{File, World};
use std::io;

/// A call on a disk that refuses the write after the first `before`.
fn refuse_behind(
    rt: &HostRuntime,
    line: &str,
    before: usize,
    wanted: Wanted<'_>,
) -> io::Result<()> {
    let mut world = World::with_refusal(rt.alloc(), FILES, before);
    let input = Reading {
        rest: b"",
        most: 1,
        end: End::Fails,
    };
    call(rt, line, &mut world, input, wanted)
}

/// Checks a call of which the write after the first `before` is refused.
fn refuse_one(rt: &HostRuntime, line: &str, files: &'static [File], before: usize) -> io::Result<()>
    requires { before < length files.now }
{
    let (name, _) = files[before];
    let written = text_of(rt.alloc(), &files[..before])?;
    let errors = format!(in rt.alloc(); "{name}: 7 CannotWrite\n")?;
    let wanted = Wanted {
        written: &written,
        ..refuses(errors.as_str())
    };
    refuse_behind(rt, line, before, wanted)
}

/// Checks a call of which no write is refused.
fn refuse_none(rt: &HostRuntime, line: &str, files: &'static [File]) -> io::Result<()> {
    let written = text_of(rt.alloc(), files)?;
    refuse_behind(rt, line, files.len(), writes(&written))
}

/// Checks a call with each of its writes refused in turn, and then with none refused.
fn refuse_each(rt: &HostRuntime, line: &str, files: &'static [File]) -> io::Result<()> {
    for before in 0..files.len() {
        refuse_one(rt, line, files, before)?;
    }
    refuse_none(rt, line, files)?;
    println!(rt; "{line}: write 1 to {} refused", files.len())
}

/// Checks each call that writes files.
pub(crate) fn run_all(rt: &HostRuntime) -> io::Result<()> {
    println!(rt; "== disks")?;
    refuse_each(rt, "c25 asm t.asm --obj t.obj --list t.lst", &ASSEMBLED)?;
    refuse_each(rt, "c25 link no.cmd a.obj --out b", &LINKED)?;
    refuse_each(rt, "c25 build c.asm --out b", &BUILT)
}
