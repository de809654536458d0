//! The files that are written of a linked program.

ghost use Rattle.std.specs.Prelude.{◌≡◌, ◌++◌, ◌∷◌, [], ℕ, List, IfOk, OnOk, map, string_bytes, zip};
ghost use Rattle.c25_disk.specs.Written.{contents_of};
ghost use Rattle.c25_report.specs.ProgramFiles.{AreNames, files_of, listing_name, listing_names};

use c25_disk::Output;
use c25_meaning_common::no_memory::NoMemory;
use std::alloc::Global;

/// The names of the files of a linked program.
#[derive(Drop)]
pub struct ProgramFileNames {
    page0: String,
    page1: String,
    map: String,
    listings: Vec<String>,
}

/// The texts of the files of a linked program.
#[derive(Drop)]
pub struct ProgramFileTexts {
    /// The Intel hex text of program memory.
    pub page0: String,
    /// The Intel hex text of data memory.
    pub page1: String,
    pub map: String,
    /// The listings of the sources, in their order.
    pub listings: Vec<String>,
}

/// The name of a listing, `BASE.NUMBER.lst`.
fn listing_name(alloc: Global, base: &str, number: usize) -> Result<String, NoMemory>
    ensures { IfOk result (λ name. string_bytes name ≡ listing_name base.now number) }
{
    Ok(format!(in alloc; "{base}.{number}.lst")?)
}

/// The names of the listings, `BASE.1.lst`, `BASE.2.lst` and so on.
#[tactic(auto, using(crate::proofs::Listings::names_more))]
fn listing_names(alloc: Global, base: &str, count: usize) -> Result<Vec<String>, NoMemory>
    ensures { IfOk result (λ names. map string_bytes names.items ≡ listing_names base.now count) }
{
    let mut names = Vec::new(alloc);
    for index in 0..count {
        let number = index + 1;
        names.push(listing_name(alloc, base, number)?)?;
    }
    Ok(names)
}

/// The names of the files of a program: `BASE.p0.hex`, `BASE.p1.hex`, `BASE.map`, and those of so many
/// listings.
pub fn file_names(alloc: Global, base: &str, listings: usize) -> Result<ProgramFileNames, NoMemory>
    ensures { IfOk result (AreNames base.now listings) }
{
    Ok(ProgramFileNames {
        page0: format!(in alloc; "{base}.p0.hex")?,
        page1: format!(in alloc; "{base}.p1.hex")?,
        map: format!(in alloc; "{base}.map")?,
        listings: listing_names(alloc, base, listings)?,
    })
}

/// Appends a file with this name and text.
fn push_text<'a>(outputs: &mut Vec<Output<'a>>, name: &'a str, text: String) -> Result<(), NoMemory>
    ensures { OnOk result (map contents_of outputs.new.items ≡ map contents_of outputs.old.items ++ (name.entry.now, string_bytes text) ∷ []) }
{
    let bytes = text.into_bytes();
    outputs.push(Output { name, bytes }).map_err(NoMemory::from)
}

/// Appends the listings under their names.
#[tactic(auto, using(crate::proofs::Listings::listings_more, crate::proofs::Listings::listings_done, crate::proofs::Listings::listings_out))]
fn push_listings<'a>(
    outputs: &mut Vec<Output<'a>>,
    names: &'a [String],
    listings: Vec<String>,
) -> Result<(), NoMemory>
    ensures { OnOk result (map contents_of outputs.new.items ≡ map contents_of outputs.old.items ++ zip (map string_bytes names.entry.now) (map string_bytes listings.items)) }
{
    let mut texts = listings.into_iter();
    for name in names {
        let Some(text) = texts.next() else {
            return Ok(());
        };
        push_text(outputs, name.as_str(), text)?;
    }
    Ok(())
}

/// The files of a program under these names, which must be for as many listings: both hex texts, the map, and
/// the listings. A listing without a name is left out.
pub fn program_outputs<'a>(
    alloc: Global,
    names: &'a ProgramFileNames,
    texts: ProgramFileTexts,
) -> Result<Vec<Output<'a>>, NoMemory>
    ensures { (base : List ℕ) → AreNames base texts.listings.len names.entry.now → IfOk result (λ outputs. map contents_of outputs.items ≡ files_of base texts) }
{
    let ProgramFileTexts {
        page0,
        page1,
        map,
        listings,
    } = texts;
    let mut outputs = Vec::new(alloc);
    push_text(&mut outputs, names.page0.as_str(), page0)?;
    push_text(&mut outputs, names.page1.as_str(), page1)?;
    push_text(&mut outputs, names.map.as_str(), map)?;
    push_listings(&mut outputs, names.listings.as_slice(), listings)?;
    Ok(outputs)
}
