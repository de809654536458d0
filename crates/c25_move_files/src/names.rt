//! The names of old files and of the new ones.

ghost use Rattle.std.specs.Prelude.{◌≡◌, IfOk, map, string_bytes};
ghost use Rattle.c25_move_files.specs.Names as meaning;

use c25_meaning_common::no_memory::NoMemory;
use std::alloc::Global;
use std::path::Path;

/// The last part of a file's name, after its folders.
pub(crate) fn last_part(name: &str) -> &str
    ensures { result.now ≡ meaning.last_part name.now }
{
    match Path::new(name).file_name() {
        Some(last) => last,
        None => name,
    }
}

/// The name of the new file in a folder.
pub fn new_name(alloc: Global, folder: &str, old: &str) -> Result<String, NoMemory>
    ensures { IfOk result (λ name. string_bytes name ≡ meaning.new_name folder.now old.now) }
{
    match Path::new(folder).join(alloc, last_part(old)) {
        Ok(path) => Ok(path.into_string()),
        Err(error) => Err(NoMemory::from(error)),
    }
}

/// The name of a file that lies in the folder of another one.
pub(crate) fn name_beside(alloc: Global, file: &str, name: &str) -> Result<String, NoMemory> {
    match Path::new(file).parent() {
        Some(folder) => Ok(folder.join(alloc, name)?.into_string()),
        None => Ok(String::from_str(alloc, name)?),
    }
}

/// A name without the `./` that begin it.
#[tactic(auto, using(crate::proofs::Plain::stripped, crate::proofs::Plain::all_stripped))]
fn plain(name: &str) -> &str
    ensures { result.now ≡ meaning.plain name.now }
{
    let mut rest = name;
    while let Some(inner) = rest.strip_prefix("./") {
        rest = inner;
    }
    rest
}

/// Whether a name is one of these, where a name may begin with `./` or not.
#[tactic(auto, unfolding(crate::specs::Names::is_among))]
pub(crate) fn is_among(names: &[&str], name: &str) -> bool
    ensures { result ≡ meaning.is_among (map (λ n. n.now) names.now) name.now }
{
    for one in names {
        if plain(name) == plain(one) {
            return true;
        }
    }
    false
}

/// Whether one of some names is among others.
#[tactic(auto, unfolding(crate::specs::Names::meet))]
pub fn meet(names: &[&str], others: &[&str]) -> bool
    ensures { result ≡ meaning.meet (map (λ n. n.now) names.now) (map (λ n. n.now) others.now) }
{
    for name in names {
        if is_among(others, name) {
            return true;
        }
    }
    false
}
