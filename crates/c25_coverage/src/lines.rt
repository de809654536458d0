//! How often the lines of the sources act.

ghost use Rattle.std.specs.Prelude.{◌≡◌, ◌++◌, ℕ, [], IfOk, List, OnOk, map};
ghost use Rattle.std.specs.List.{flat_map, list_any};
ghost use Rattle.std.specs.Option.{option_map};
ghost use Rattle.std.specs.Str.{bytes_eq};
ghost use Rattle.c25_counts.specs.Counting.{count_in};
ghost use Rattle.c25_coverage.specs.Lines.{CountedPlace, counted_place, counted_places, files_of, lines_of, with_file, with_place};
ghost use Rattle.c25_coverage.specs.View.{place_of, places_of};
ghost use Rattle.c25_meaning_linking.specs.Linking.{line_at};

use c25_counts::counts::Counts;
use c25_link::Image;
use c25_meaning_common::no_memory::NoMemory;
use std::alloc::Global;
use std::collections::BTreeMap;

/// An instruction: the file and the line where it stands in the sources, and how often it acted.
#[derive(Clone, Copy)]
pub(crate) struct Place<'a> {
    pub(crate) file: &'a str,
    pub(crate) line: u32,
    pub(crate) count: u32,
}

/// Appends an instruction that stands in this line, if its line is known.
fn push_place<'a>(
    places: &mut Vec<Place<'a>>,
    source: Option<(&'a str, u32)>,
    count: u32,
) -> Result<(), NoMemory>
    ensures { OnOk result (places_of places.new.items
        ≡ places_of places.old.items ++ counted_place (option_map (λ r. (r.0.now, r.1)) source.entry) count) }
{
    match source {
        None => Ok(()),
        Some((file, line)) => Ok(places.push(Place { file, line, count })?),
    }
}

/// Appends the instructions that run where they are loaded.
fn push_marks<'a>(
    places: &mut Vec<Place<'a>>,
    image: &'a Image,
    counts: &Counts,
) -> Result<(), NoMemory>
    ensures { OnOk result (places_of places.new.items ≡ places_of places.old.items
        ++ flat_map (λ m. counted_place (line_at m.address image.now.lines) (count_in counts.now.acts.items m.address)) image.now.marks) }
{
    for mark in image.marks() {
        push_place(
            places,
            image.line_of(mark.address),
            counts.acts_at(mark.address),
        )?;
    }
    Ok(())
}

/// Appends the instructions that run in block B0.
fn push_run_marks<'a>(
    places: &mut Vec<Place<'a>>,
    image: &'a Image,
    counts: &Counts,
) -> Result<(), NoMemory>
    ensures { OnOk result (places_of places.new.items ≡ places_of places.old.items
        ++ flat_map (λ m. counted_place (line_at m.load image.now.lines) (count_in counts.now.acts.items m.run)) image.now.run_marks) }
{
    for mark in image.run_marks() {
        push_place(places, image.line_of(mark.load), counts.acts_at(mark.run))?;
    }
    Ok(())
}

/// The instructions of an image whose lines are known.
pub(crate) fn counted_places<'a>(
    alloc: Global,
    image: &'a Image,
    counts: &Counts,
) -> Result<Vec<Place<'a>>, NoMemory>
    ensures { IfOk result (λ places. places_of places.items ≡ counted_places image.now (count_in counts.now.acts.items)) }
{
    let mut places = Vec::new(alloc);
    push_marks(&mut places, image, counts)?;
    push_run_marks(&mut places, image, counts)?;
    Ok(places)
}

/// Whether a name is among others.
fn has_file(files: &[&str], file: &str) -> bool
    ensures { result ≡ list_any (bytes_eq file.now) (map (λ other. other.now) files.now) }
{
    for other in files {
        if file == *other {
            return true;
        }
    }
    false
}

/// Appends the name of a file, unless it is among the others.
fn add_file<'a>(files: &mut Vec<&'a str>, file: &'a str) -> Result<(), NoMemory>
    ensures { OnOk result (map (λ other. other.now) files.new.items
        ≡ with_file (map (λ other. other.now) files.old.items) file.entry.now) }
{
    if has_file(files.as_slice(), file) {
        return Ok(());
    }
    Ok(files.push(file)?)
}

/// The files in which instructions stand, in the order of the first of each.
#[tactic(auto, using(std::proofs::lemmas::List::Sums::fold_more))]
pub(crate) fn files_of<'a>(alloc: Global, places: &[Place<'a>]) -> Result<Vec<&'a str>, NoMemory>
    ensures { IfOk result (λ files. map (λ file. file.now) files.items ≡ files_of (places_of places.now)) }
{
    let mut files = Vec::new(alloc);
    for place in places {
        add_file(&mut files, place.file)?;
    }
    Ok(files)
}

/// Adds the count of an instruction to its line, if it stands in this file.
fn add_place(
    lines: &mut BTreeMap<usize, u64>,
    file: &str,
    place: &Place<'_>,
) -> Result<(), NoMemory>
    ensures { OnOk result (lines.new.entries ≡ with_place file.now lines.old.entries (place_of place.now)) }
{
    if place.file != file {
        return Ok(());
    }
    let line = place.line as usize;
    let count = lines.get(&line).copied().unwrap_or(0);
    lines.insert(line, count.saturating_add(u64::from(place.count)))?;
    Ok(())
}

/// The lines of a file with their counts, in ascending order.
pub(crate) fn pairs_of(
    alloc: Global,
    lines: &BTreeMap<usize, u64>,
) -> Result<Vec<(usize, u64)>, NoMemory>
    ensures { IfOk result (λ pairs. pairs.items ≡ lines.now.entries) }
{
    let pairs = lines
        .iter()
        .map(|(line, count)| (*line, *count))
        .collect(alloc)?;
    Ok(pairs)
}

/// The lines of a file in which instructions stand, each with the sum of the counts of its
/// instructions.
#[tactic(auto, using(std::proofs::lemmas::List::Sums::fold_more))]
pub(crate) fn lines_of(
    alloc: Global,
    places: &[Place<'_>],
    file: &str,
) -> Result<BTreeMap<usize, u64>, NoMemory>
    ensures { IfOk result (λ lines. lines.entries ≡ lines_of (places_of places.now) file.now) }
{
    let mut lines = BTreeMap::new(alloc);
    for place in places {
        add_place(&mut lines, file, place)?;
    }
    Ok(lines)
}
