//! Disks on which copied files are looked for in folders.

ghost use Rattle.std.specs.Prelude.{◌≡◌, IfOk, IfSome, Some, map};
ghost use Rattle.c25_fronts.specs.Folders.{RefusesIn, found_in, places};

use crate::places::{place_in, stands_alone};
use c25_disk::disk::{Disk, DiskFault};
use c25_disk::refusal::Refusal;

/// A disk whose files are looked for in folders too: a name is tried as it stands, and then in each folder, in
/// their order. It is read and not written.
#[derive(Drop)]
pub struct InFolders<'a, D> {
    pub disk: &'a D,
    pub folders: &'a [&'a str],
    /// The names of the sources, which are tried only as they stand.
    pub sources: &'a [&'a str],
    /// The names of the files next to the sources, where there are any, which are tried only as they stand.
    pub beside: &'a [Option<&'a str>],
}

/// Opens the file of a name in the first of these folders in which it can be opened.
fn open_in<D: Disk>(disk: &D, folders: &[&str], name: &str) -> Result<D::Reader, DiskFault>
    ensures { IfOk result (λ reader. IfSome (found_in (D.bytes_of disk.now) (D.opens disk.now) (places name.now (map (λ folder. folder.now) folders.now))) (λ bytes. D.Reader.remaining reader ≡ Some bytes)) }
{
    for folder in folders {
        if let Some(place) = place_in(folder, name) {
            if let Ok(reader) = disk.open(place.as_str()) {
                return Ok(reader);
            }
        }
    }
    Err(DiskFault)
}

/// Whether a file is refused for another reason than that it is missing.
fn is_there(refusal: Option<Refusal>) -> bool {
    match refusal {
        Some(Refusal::Missing) | None => false,
        Some(_) => true,
    }
}

/// Why the file of a name, of which no place can be opened, cannot be read: the first reason, of the name as it stands and of
/// its places in these folders, other than that it is missing; and where there is none, that of the name as it stands.
fn refusal_of_all<D: Disk>(disk: &D, folders: &[&str], name: &str) -> Option<Refusal>
    ensures { IfSome result (RefusesIn (D.refuses disk.now) (map (λ folder. folder.now) folders.now) name.now) }
{
    let refusal = disk.refusal(name);
    if is_there(refusal) {
        return refusal;
    }
    for folder in folders {
        if let Some(place) = place_in(folder, name) {
            let refusal = disk.refusal(place.as_str());
            if is_there(refusal) {
                return refusal;
            }
        }
    }
    refusal
}

/// Why the file of a name, which cannot be opened as it stands, cannot be read: by the first place in these folders that
/// can be opened, if there is one, and else by all.
fn refusal_in<D: Disk>(disk: &D, folders: &[&str], name: &str) -> Option<Refusal>
    ensures { IfSome result (RefusesIn (D.refuses disk.now) (map (λ folder. folder.now) folders.now) name.now) }
{
    for folder in folders {
        if let Some(place) = place_in(folder, name) {
            if disk.open(place.as_str()).is_ok() {
                return disk.refusal(place.as_str());
            }
        }
    }
    refusal_of_all(disk, folders, name)
}

impl<'a, D: Disk> Disk for InFolders<'a, D> {
    ghost use Rattle.std.specs.Prelude.{map, option_map};
    ghost use Rattle.c25_fronts.specs.Folders.{RefusesIn, in_folders};

    type Reader = D::Reader;

    ghost bytes_of = { λ it. in_folders (map (λ name. name.now) it.sources.now) (map (option_map (λ name. name.now)) it.beside.now) (map (λ folder. folder.now) it.folders.now) (D.opens it.disk.now) (D.bytes_of it.disk.now) };

    ghost refuses = { λ it. RefusesIn (D.refuses it.disk.now) (map (λ folder. folder.now) it.folders.now) };

    ghost written = { λ it. D.written it.disk.now };

    fn open(&self, name: &str) -> Result<D::Reader, DiskFault> {
        if self.folders.is_empty() || stands_alone(self.sources, self.beside, name) {
            return self.disk.open(name);
        }
        match self.disk.open(name) {
            Ok(reader) => Ok(reader),
            Err(DiskFault) => open_in(self.disk, self.folders, name),
        }
    }

    fn refusal(&self, name: &str) -> Option<Refusal> {
        if stands_alone(self.sources, self.beside, name) || self.disk.open(name).is_ok() {
            return self.disk.refusal(name);
        }
        refusal_in(self.disk, self.folders, name)
    }

    fn write(&mut self, _name: &str, _bytes: &[u8]) -> Result<(), DiskFault> {
        Err(DiskFault)
    }
}
