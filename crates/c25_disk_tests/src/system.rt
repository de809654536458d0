//! Tests of the files of the system.

use c25_disk::disk::{Disk, DiskFault};
use c25_disk::refusal::Refusal;
use c25_disk::system::System;
use c25_disk::{Output, read_file, write_outputs};
use std::alloc::{AllocError, Global};
use std::process::Abort;
use std::rt::Files;
use std::test::Fail;
use std::{fs, process};

/// One file of this name and text, ready to be written.
fn outputs_of<'a>(alloc: Global, name: &'a str, text: &str) -> Result<Vec<Output<'a>>, AllocError> {
    let bytes = text.as_bytes().to_vec(alloc)?;
    let mut outputs = Vec::new(alloc);
    outputs.push(Output { name, bytes })?;
    Ok(outputs)
}

/// Checks that a text is written to a file, and read back.
fn is_written<R: Files>(
    rt: &(impl Abort + AllocGlobal),
    system: &mut System<'_, R>,
    name: &str,
    text: &str,
) -> Result<(), Fail> {
    let outputs = outputs_of(rt.alloc(), name, text)?;
    write_outputs(rt.alloc(), system, &outputs)?;
    let read = read_file(rt.alloc(), system, name)?;
    assert_eq!(rt; read.as_str(), text);
    Ok(())
}

/// Checks the reasons for which the system refuses a folder, a file that is not there, and a file below a file.
fn are_refused<R: Files>(
    rt: &(impl Abort + AllocGlobal),
    system: &System<'_, R>,
    name: &str,
) -> Result<(), Fail> {
    let gone = format!(in rt.alloc(); "{name}.gone")?;
    let below = format!(in rt.alloc(); "{name}/below")?;
    let said = [
        system.refusal("/"),
        system.refusal(&gone),
        system.refusal(&below),
        system.refusal(name),
    ];
    let reasons = [
        Some(Refusal::IsFolder),
        Some(Refusal::Missing),
        Some(Refusal::FileInPath),
        None,
    ];
    assert_eq!(rt; said, reasons);
    Ok(())
}

#[test]
fn what_is_written_is_read(rt: HostRuntime) -> Result<(), Fail> {
    let name = format!(in rt.alloc(); "/tmp/c25_disk_{}", process::id(rt.process()))?;
    let mut system = System::new(&rt);
    is_written(&rt, &mut system, &name, "longer")?;
    is_written(&rt, &mut system, &name, "text")?;
    are_refused(&rt, &system, &name)?;
    fs::remove_file(&rt, &name)?;
    assert!(rt; system.open(&name).is_err());
    assert_eq!(rt; system.write("/", b"x"), Err(DiskFault));
    assert!(rt; read_file(rt.alloc(), &system, "/").is_err());
    Ok(())
}
