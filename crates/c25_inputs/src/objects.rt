//! The modules of object files.

ghost use Rattle.std.specs.Prelude.{◌≡◌, ◌++◌, ◌∷◌, [], OnOk, map};
ghost use Rattle.c25_chain.specs.Refusal.{IsRefusedAs, refusal_of};
ghost use Rattle.c25_chain.specs.declared.fault.ChainFault.TheVariants as refusal;
ghost use Rattle.c25_meaning_common.specs.Results.{MeetsBy};
ghost use Rattle.c25_inputs.specs.Objects.{ReadsBytes, module_in, modules_in, objects_of};

use crate::files::fault_of_file;
use c25_chain::fault::{ChainFault, Fault};
use c25_disk::disk::Disk;
use c25_disk::read_binary;
use c25_meaning_common::failure::Failure;
use c25_meaning_common::no_memory::NoMemory;
use c25_meaning_common::placed::Placed;
use c25_meaning_objects::object::ObjectFault;
use c25_module::Module;
use c25_records::read_module;
use std::alloc::Global;

/// The name and the bytes of an object file.
#[derive(Drop)]
pub struct Object<'a> {
    pub name: &'a str,
    pub bytes: Vec<u8>,
}

/// Reads object files in order. Stops at the first that cannot be read (8).
#[tactic(auto, using(crate::proofs::Unread::files_none, crate::proofs::Unread::files_more))]
pub fn read_objects<'a, D: Disk>(
    alloc: Global,
    disk: &D,
    names: &[&'a str],
) -> Result<Vec<Object<'a>>, Fault>
    ensures { ReadsBytes (D.bytes_of disk.now) (map (λ name. name.now) names.now) result }
{
    let mut objects = Vec::new(alloc);
    for name in names {
        match read_binary(alloc, disk, name) {
            Ok(bytes) => objects.push(Object { name: *name, bytes })?,
            Err(failure) => return Err(fault_of_file(failure)),
        }
    }
    Ok(objects)
}

/// The fault of an object file whose bytes are invalid, unless memory runs out for its name.
fn no_module(alloc: Global, name: &str, fault: ObjectFault) -> Fault
    ensures { IsRefusedAs (refusal.Object (record { place = name.now; fault = fault })) result }
{
    match String::from_str(alloc, name) {
        Ok(place) => Failure::Fault(ChainFault::Object(Placed { place, fault })),
        Err(error) => Failure::NoMemory(NoMemory::from(error)),
    }
}

/// The module of an object file. Invalid bytes are fault 40 to 45.
pub fn module_of(alloc: Global, object: &Object<'_>) -> Result<Module, Fault>
    ensures { MeetsBy refusal_of (λ m. m) (module_in (object.now.name.now, object.now.bytes.items)) result }
{
    match read_module(alloc, object.bytes.as_slice()) {
        Ok(module) => Ok(module),
        Err(Failure::NoMemory(error)) => Err(error.into()),
        Err(Failure::Fault(fault)) => Err(no_module(alloc, object.name, fault)),
    }
}

/// The modules of object files, in order. Stops at the first whose bytes are invalid (40 to 45).
pub fn modules_of(alloc: Global, objects: &[Object<'_>]) -> Result<Vec<Module>, Fault>
    ensures { MeetsBy refusal_of (λ ms. ms.items) (modules_in (objects_of objects.now)) result }
{
    let mut modules = Vec::new(alloc);
    for object in objects {
        modules.push(module_of(alloc, object)?)?;
    }
    Ok(modules)
}
