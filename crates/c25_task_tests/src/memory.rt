//! The line for out of memory, which no call of the program reports where memory is ample.

use crate::values::equal;
use c25_chain::write_fault;
use c25_meaning_common::failure::Failure;
use c25_meaning_common::no_memory::NoMemory;
use std::alloc::Global;
use std::test::Fail;

/// The line for out of memory after a refused allocation.
fn refused_line(alloc: Global) -> Result<String, Fail> {
    match Vec::<u8>::with_capacity(alloc, usize::MAX) {
        Ok(_) => Err(Fail::from("all of memory was had")),
        Err(error) => {
            let fault = Failure::NoMemory(NoMemory::from(error));
            write_fault(alloc, &fault).map_err(Fail::from)
        }
    }
}

#[test]
fn refused_memory_has_its_number(rt: HostRuntime) -> Result<(), Fail> {
    let line = refused_line(rt.alloc())?;
    equal(&rt, line.as_str(), "memory: 9 NoMemory");
    Ok(())
}
