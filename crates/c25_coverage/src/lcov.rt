//! Counts of lines and of their conditional branches as a text that lcov reads.

ghost use Rattle.std.specs.Prelude.{◌≡◌, ◌++◌, IfOk, OnOk, count_by, map, nat_lt, string_bytes};
ghost use Rattle.std.specs.List.{flat_map};
ghost use Rattle.c25_counts.specs.Counting.{count_in};
ghost use Rattle.c25_coverage.specs.Branches.{ways_of};
ghost use Rattle.c25_coverage.specs.Lcov.{branch_text, branches_text, lcov_text, line_text, number_text, record_text, summary_text, times_text, way_text, ways_in, ways_text};
ghost use Rattle.c25_coverage.specs.Lines.{lines_of};
ghost use Rattle.c25_coverage.specs.View.{branches_seen, places_of};

use crate::branches::{Branch, Ways, counted_branches, have_acted, ways_of};
use crate::lines::{Place, counted_places, files_of, lines_of, pairs_of};
use c25_counts::counts::Counts;
use c25_link::Image;
use c25_meaning_common::no_memory::NoMemory;
use c25_texts::appending::{push_text, push_texts};
use itoa::Buffer;
use std::alloc::Global;

/// Appends a line of a number after its name.
fn push_number(text: &mut String, name: &str, number: usize) -> Result<(), NoMemory>
    ensures { OnOk result (string_bytes text.new ≡ string_bytes text.old ++ number_text name.now number) }
{
    let mut digits = Buffer::new();
    push_texts(text, &[name, digits.format(number), "\n"])
}

/// Appends how often the branches of a line went a way.
pub(crate) fn push_times(text: &mut String, acted: bool, times: u64) -> Result<(), NoMemory>
    ensures { OnOk result (string_bytes text.new ≡ string_bytes text.old ++ times_text acted times) }
{
    if !acted {
        return push_text(text, "-");
    }
    let mut digits = Buffer::new();
    push_text(text, digits.format(times))
}

/// Appends one way of the branches of a line.
fn push_way(
    text: &mut String,
    line: usize,
    way: &str,
    acted: bool,
    times: u64,
) -> Result<(), NoMemory>
    ensures { OnOk result (string_bytes text.new ≡ string_bytes text.old ++ way_text line way.now acted times) }
{
    let mut digits = Buffer::new();
    push_texts(text, &["BRDA:", digits.format(line), way])?;
    push_times(text, acted, times)?;
    push_text(text, "\n")
}

/// Appends both ways of the branches of a line.
fn push_branch(text: &mut String, line: usize, ways: &Ways) -> Result<(), NoMemory>
    ensures { OnOk result (string_bytes text.new ≡ string_bytes text.old ++ branch_text (line, ways.now)) }
{
    let acted = have_acted(ways);
    push_way(text, line, ",0,0,", acted, ways.taken)?;
    push_way(text, line, ",0,1,", acted, ways.passed)
}

/// Appends the lines with branches.
fn push_ways(text: &mut String, lines: &[(usize, Ways)]) -> Result<(), NoMemory>
    ensures { OnOk result (string_bytes text.new ≡ string_bytes text.old ++ flat_map branch_text lines.now) }
{
    for (line, ways) in lines {
        push_branch(text, *line, ways)?;
    }
    Ok(())
}

/// How often each way of the branches of these lines was gone.
fn ways_in(alloc: Global, lines: &[(usize, Ways)]) -> Result<Vec<u64>, NoMemory>
    ensures { IfOk result (λ ways. ways.items ≡ ways_in lines.now) }
{
    let mut gone = Vec::new(alloc);
    for line in lines {
        gone.push(line.1.taken)?;
        gone.push(line.1.passed)?;
    }
    Ok(gone)
}

/// How many ways have a count that is not 0.
fn gone(ways: &[u64]) -> usize
    ensures { result ≡ count_by (nat_lt 0) ways.now }
{
    ways.iter().filter(|way| 0 < **way).count()
}

/// Appends how many ways there are, and how many of them have a count that is not 0.
fn push_gone(text: &mut String, ways: &[u64]) -> Result<(), NoMemory>
    ensures { OnOk result (string_bytes text.new ≡ string_bytes text.old ++ ways_text ways.now) }
{
    push_number(text, "BRF:", ways.len())?;
    push_number(text, "BRH:", gone(ways))
}

/// Appends some lines with branches, and how many ways they have.
fn push_some(alloc: Global, text: &mut String, lines: &[(usize, Ways)]) -> Result<(), NoMemory>
    ensures { OnOk result (string_bytes text.new ≡ string_bytes text.old
        ++ (flat_map branch_text lines.now ++ ways_text (ways_in lines.now))) }
{
    push_ways(text, lines)?;
    let ways = ways_in(alloc, lines)?;
    push_gone(text, ways.as_slice())
}

/// Appends the lines of a file with branches, and how many ways they have; nothing, if there are none.
fn push_branches(alloc: Global, text: &mut String, lines: &[(usize, Ways)]) -> Result<(), NoMemory>
    ensures { OnOk result (string_bytes text.new ≡ string_bytes text.old ++ branches_text lines.now) }
{
    match lines {
        [] => Ok(()),
        [_, ..] => push_some(alloc, text, lines),
    }
}

/// Appends a line and its count.
fn push_line(text: &mut String, line: usize, count: u64) -> Result<(), NoMemory>
    ensures { OnOk result (string_bytes text.new ≡ string_bytes text.old ++ line_text (line, count)) }
{
    let mut line_digits = Buffer::new();
    let mut count_digits = Buffer::new();
    let line = line_digits.format(line);
    let count = count_digits.format(count);
    push_texts(text, &["DA:", line, ",", count, "\n"])
}

/// Appends lines and their counts.
fn push_lines(text: &mut String, lines: &[(usize, u64)]) -> Result<(), NoMemory>
    ensures { OnOk result (string_bytes text.new ≡ string_bytes text.old ++ flat_map line_text lines.now) }
{
    for (line, count) in lines {
        push_line(text, *line, *count)?;
    }
    Ok(())
}

/// How many lines have a count that is not 0.
fn hit(lines: &[(usize, u64)]) -> usize
    ensures { result ≡ count_by (λ line. nat_lt 0 line.1) lines.now }
{
    lines.iter().filter(|line| 0 < line.1).count()
}

/// Appends how many lines there are, and how many of them have a count that is not 0.
fn push_summary(text: &mut String, lines: &[(usize, u64)]) -> Result<(), NoMemory>
    ensures { OnOk result (string_bytes text.new ≡ string_bytes text.old ++ summary_text lines.now) }
{
    push_number(text, "LF:", lines.len())?;
    push_number(text, "LH:", hit(lines))?;
    push_text(text, "end_of_record\n")
}

/// Appends the record of a file with these branches and lines.
fn push_record(
    alloc: Global,
    text: &mut String,
    file: &str,
    branches: &[(usize, Ways)],
    lines: &[(usize, u64)],
) -> Result<(), NoMemory>
    ensures { OnOk result (string_bytes text.new ≡ string_bytes text.old ++ record_text file.now branches.now lines.now) }
{
    push_texts(text, &["TN:\nSF:", file, "\n"])?;
    push_branches(alloc, text, branches)?;
    push_lines(text, lines)?;
    push_summary(text, lines)
}

/// Appends the record of a file.
fn push_file(
    alloc: Global,
    text: &mut String,
    places: &[Place<'_>],
    branches: &[Branch<'_>],
    file: &str,
) -> Result<(), NoMemory>
    ensures { OnOk result (string_bytes text.new ≡ string_bytes text.old
        ++ record_text file.now (ways_of (branches_seen branches.now) file.now) (lines_of (places_of places.now) file.now)) }
{
    let ways = ways_of(alloc, branches, file)?;
    let lines = lines_of(alloc, places, file)?;
    let pairs = pairs_of(alloc, &lines)?;
    push_record(alloc, text, file, ways.as_slice(), pairs.as_slice())
}

/// Appends the records of files.
fn push_files(
    alloc: Global,
    text: &mut String,
    places: &[Place<'_>],
    branches: &[Branch<'_>],
    files: &[&str],
) -> Result<(), NoMemory>
    ensures { OnOk result (string_bytes text.new ≡ string_bytes text.old
        ++ flat_map (λ file. record_text file (ways_of (branches_seen branches.now) file) (lines_of (places_of places.now) file)) (map (λ file. file.now) files.now)) }
{
    for file in files {
        push_file(alloc, text, places, branches, file)?;
    }
    Ok(())
}

/// The counts of an image's instructions by files and lines, as lcov reads them (`genhtml`): a record for each
/// file, in the order of their first instructions, which has each line with an instruction once, with the sum
/// of the counts of its instructions, and each line with a conditional branch twice, with how often its branches
/// were taken and how often they passed. Instructions of modules whose lines are not known are left out.
pub fn lcov_text(alloc: Global, image: &Image, counts: &Counts) -> Result<String, NoMemory>
    ensures { IfOk result (λ text. string_bytes text
        ≡ lcov_text image.now (count_in counts.now.acts.items) (count_in counts.now.passes.items)) }
{
    let places = counted_places(alloc, image, counts)?;
    let branches = counted_branches(alloc, image, counts)?;
    let files = files_of(alloc, places.as_slice())?;
    let mut text = String::new(alloc);
    push_files(
        alloc,
        &mut text,
        places.as_slice(),
        branches.as_slice(),
        files.as_slice(),
    )?;
    Ok(text)
}
