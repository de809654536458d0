//! The files of a ROM, and the lines of files.

ghost use Rattle.std.specs.Prelude.{◌≡◌, ◌++◌, IfOk, map};
ghost use Rattle.c25_rom.specs.Files.{files_of};
ghost use Rattle.c25_rom.specs.View.{contents_of};

use crate::byte_order::ByteOrder;
use crate::bytes::{file_bytes, high_bytes, low_bytes};
use crate::shape::Devices;
use c25_meaning_common::no_memory::NoMemory;
use std::alloc::Global;

/// A file of a ROM.
#[derive(Drop)]
pub struct RomFile {
    pub name: String,
    pub bytes: Vec<u8>,
}

/// A file whose name is a base name with an ending.
fn file(alloc: Global, base: &str, ending: &str, bytes: Vec<u8>) -> Result<RomFile, NoMemory>
    ensures { IfOk result (λ file. contents_of file ≡ (base.now ++ ending.now, bytes.items)) }
{
    let name = format!(in alloc; "{base}{ending}")?;
    Ok(RomFile { name, bytes })
}

/// The files of two devices.
fn pair_files(alloc: Global, base: &str, words: &[u16]) -> Result<Vec<RomFile>, NoMemory>
    ensures { IfOk result (λ files. map contents_of files.items ≡ files_of base.now Devices.Pair words.now) }
{
    let high = file(alloc, base, ".hi.bin", high_bytes(alloc, words)?)?;
    let low = file(alloc, base, ".lo.bin", low_bytes(alloc, words)?)?;
    let mut files = Vec::new(alloc);
    files.push(high)?;
    files.push(low)?;
    Ok(files)
}

/// The file of a ROM whose words stand in one.
fn one_file(
    alloc: Global,
    base: &str,
    words: &[u16],
    order: ByteOrder,
) -> Result<Vec<RomFile>, NoMemory>
    ensures { IfOk result (λ files. map contents_of files.items ≡ files_of base.now (Devices.File order) words.now) }
{
    let both = file(alloc, base, ".bin", file_bytes(alloc, words, order)?)?;
    let mut files = Vec::new(alloc);
    files.push(both)?;
    Ok(files)
}

/// The files of the words of a ROM, whose names begin with a base name: `BASE.hi.bin` and `BASE.lo.bin` of two devices,
/// `BASE.bin` of one file.
pub fn rom_files(
    alloc: Global,
    base: &str,
    devices: Devices,
    words: &[u16],
) -> Result<Vec<RomFile>, NoMemory>
    ensures { IfOk result (λ files. map contents_of files.items ≡ files_of base.now devices words.now) }
{
    match devices {
        Devices::Pair => pair_files(alloc, base, words),
        Devices::File(order) => one_file(alloc, base, words, order),
    }
}
