//! Counts of lines next to the lines of the sources.

ghost use Rattle.std.specs.Prelude.{◌≡◌, ◌++◌, IfOk, OnOk, Some, codes, map, string_bytes};
ghost use Rattle.std.specs.List.{flat_map};
ghost use Rattle.c25_counts.specs.Counting.{count_in};
ghost use Rattle.c25_coverage.specs.Branches.{counted_branches};
ghost use Rattle.c25_coverage.specs.Lines.{counted_places};
ghost use Rattle.c25_coverage.specs.List.{count_column, counted_line, counted_row, file_text, list_text, named_text, text_of, ways_line};
ghost use Rattle.c25_coverage.specs.View.{branches_seen, places_of};
ghost use Rattle.c25_meaning_expansion.specs.Rows.{rows_of};

use crate::branches::{self, Branch, Ways, counted_branches, have_acted};
use crate::lcov::push_times;
use crate::lines::{Place, counted_places, files_of, lines_of};
use c25_counts::counts::Counts;
use c25_files::files::Files;
use c25_files::{Rows, count_lines};
use c25_link::Image;
use c25_meaning_common::no_memory::NoMemory;
use c25_texts::appending::{push_text, push_texts};
use std::alloc::{AllocError, Global};
use std::collections::BTreeMap;

/// The instructions and the conditional branches of an image whose lines are known.
#[derive(Drop)]
struct Counted<'a> {
    places: Vec<Place<'a>>,
    branches: Vec<Branch<'a>>,
}

/// Appends a count, right-aligned in ten columns.
#[tactic(auto, using(crate::proofs::Columns::ten_columns))]
fn push_number(text: &mut String, count: u64) -> Result<(), AllocError>
    ensures { OnOk result (string_bytes text.new ≡ string_bytes text.old ++ count_column (Some count)) }
{
    write!(text, "{count:10}")
}

/// Appends the column of a line's count, if it has one.
fn push_count(text: &mut String, count: Option<u64>) -> Result<(), NoMemory>
    ensures { OnOk result (string_bytes text.new ≡ string_bytes text.old ++ count_column count) }
{
    match count {
        Some(count) => Ok(push_number(text, count)?),
        None => push_text(text, "          "),
    }
}

/// Appends how often the branches of a line were taken and how often they passed, on a line of its own.
fn push_both(text: &mut String, ways: &Ways) -> Result<(), NoMemory>
    ensures { OnOk result (string_bytes text.new ≡ string_bytes text.old ++ ways_line (Some ways.now)) }
{
    let acted = have_acted(ways);
    push_text(text, "            taken ")?;
    push_times(text, acted, ways.taken)?;
    push_text(text, ", passed ")?;
    push_times(text, acted, ways.passed)?;
    push_text(text, "\n")
}

/// Appends the ways of the branches of a line, if it has any.
fn push_ways(text: &mut String, ways: Option<Ways>) -> Result<(), NoMemory>
    ensures { OnOk result (string_bytes text.new ≡ string_bytes text.old ++ ways_line ways) }
{
    match ways {
        Some(ways) => push_both(text, &ways),
        None => Ok(()),
    }
}

/// Appends a line after its count.
fn push_line(text: &mut String, count: Option<u64>, line: &str) -> Result<(), NoMemory>
    ensures { OnOk result (string_bytes text.new ≡ string_bytes text.old
        ++ (count_column count ++ codes "  " ++ line.now ++ codes "\n")) }
{
    push_count(text, count)?;
    push_texts(text, &["  ", line, "\n"])
}

/// Appends a line after its count, and then the ways of its branches.
fn push_row(
    text: &mut String,
    count: Option<u64>,
    ways: Option<Ways>,
    line: &str,
) -> Result<(), NoMemory>
    ensures { OnOk result (string_bytes text.new ≡ string_bytes text.old ++ counted_line count ways line.now) }
{
    push_line(text, count, line)?;
    push_ways(text, ways)
}

/// Appends the lines of a file's text, each with its count and the ways of its branches.
fn push_rows(
    text: &mut String,
    file: &str,
    counts: &BTreeMap<usize, u64>,
    ways: &BTreeMap<usize, Ways>,
) -> Result<(), NoMemory>
    ensures { OnOk result (string_bytes text.new ≡ string_bytes text.old
        ++ flat_map (counted_row counts.now.entries ways.now.entries) (rows_of 0 file.now)) }
{
    let mut passage = Rows::of_file(0, file, count_lines(file)).into_passage();
    while let Some(row) = passage.next() {
        let line = row.place().line;
        let count = counts.get(&line).copied();
        let gone = ways.get(&line).copied();
        push_row(text, count, gone, row.text())?;
    }
    Ok(())
}

/// The text of the file of this name; empty where there is no such file.
fn text_of<'a>(files: &'a Files, name: &str) -> &'a str
    ensures { result.now ≡ text_of files.now name.now }
{
    match files.text(name) {
        Some(text) => text,
        None => "",
    }
}

/// Appends a file of this name and text with the counts of its lines and the ways of their branches.
fn push_file(
    text: &mut String,
    name: &str,
    file: &str,
    counts: &BTreeMap<usize, u64>,
    ways: &BTreeMap<usize, Ways>,
) -> Result<(), NoMemory>
    ensures { OnOk result (string_bytes text.new
        ≡ string_bytes text.old ++ file_text name.now file.now counts.now.entries ways.now.entries) }
{
    push_texts(text, &[name, "\n"])?;
    push_rows(text, file, counts, ways)?;
    push_text(text, "\n")
}

/// Appends the file of this name with the counts of its lines and the ways of their branches.
fn push_named(
    alloc: Global,
    text: &mut String,
    files: &Files,
    counted: &Counted<'_>,
    name: &str,
) -> Result<(), NoMemory>
    ensures { OnOk result (string_bytes text.new ≡ string_bytes text.old ++ named_text files.now
        (places_of counted.now.places.items) (branches_seen counted.now.branches.items) name.now) }
{
    let counts = lines_of(alloc, counted.places.as_slice(), name)?;
    let ways = branches::lines_of(alloc, counted.branches.as_slice(), name)?;
    push_file(text, name, text_of(files, name), &counts, &ways)
}

/// Appends the files of these names with the counts of their lines and the ways of their branches.
fn push_all(
    alloc: Global,
    text: &mut String,
    files: &Files,
    counted: &Counted<'_>,
    names: &[&str],
) -> Result<(), NoMemory>
    ensures { OnOk result (string_bytes text.new ≡ string_bytes text.old
        ++ flat_map (named_text files.now (places_of counted.now.places.items) (branches_seen counted.now.branches.items))
        (map (λ name. name.now) names.now)) }
{
    for name in names {
        push_named(alloc, text, files, counted, name)?;
    }
    Ok(())
}

/// The instructions and the conditional branches of an image whose lines are known.
fn counted_of<'a>(alloc: Global, image: &'a Image, counts: &Counts) -> Result<Counted<'a>, NoMemory>
    ensures places { IfOk result (λ c. places_of c.places.items ≡ counted_places image.now (count_in counts.now.acts.items)) }
    ensures branches { IfOk result (λ c. branches_seen c.branches.items
        ≡ counted_branches image.now (count_in counts.now.acts.items) (count_in counts.now.passes.items)) }
{
    let places = counted_places(alloc, image, counts)?;
    let branches = counted_branches(alloc, image, counts)?;
    Ok(Counted { places, branches })
}

/// The counts of an image's instructions next to the lines of the sources, whose texts are in `files`: each file
/// in which an instruction stands, in the order of the first of each, with its name and all of its lines. A
/// line with instructions has the sum of their counts before it, and one with conditional branches has under it
/// how often they were taken and how often they passed.
pub fn list_text(
    alloc: Global,
    files: &Files,
    image: &Image,
    counts: &Counts,
) -> Result<String, NoMemory>
    ensures { IfOk result (λ text. string_bytes text
        ≡ list_text files.now image.now (count_in counts.now.acts.items) (count_in counts.now.passes.items)) }
{
    let counted = counted_of(alloc, image, counts)?;
    let names = files_of(alloc, counted.places.as_slice())?;
    let mut text = String::new(alloc);
    push_all(alloc, &mut text, files, &counted, names.as_slice())?;
    Ok(text)
}
