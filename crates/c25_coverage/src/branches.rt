//! How often the conditional branches on the lines of the sources are taken, and how often they pass.

ghost use Rattle.std.specs.Prelude.{◌≡◌, ◌++◌, IfOk, OnOk, true, unwrap_or};
ghost use Rattle.std.specs.List.{flat_map};
ghost use Rattle.std.specs.Option.{option_map};
ghost use Rattle.c25_counts.specs.Counting.{count_in};
ghost use Rattle.c25_coverage.specs.Branches.{branch_at, branch_if, branches_of, counted_branch, counted_branches, have_acted, is_conditional, more_ways, ways_of, with_branch};
ghost use Rattle.c25_coverage.specs.View.{branch_of, branches_seen};
ghost use Rattle.c25_meaning_linking.specs.Linking.{line_at};

use c25_counts::counts::Counts;
use c25_link::Image;
use c25_meaning_common::no_memory::NoMemory;
use std::alloc::Global;
use std::collections::BTreeMap;

/// A conditional branch: the file and the line where it stands in the sources, how often it acted, and how often
/// it passed.
#[derive(Clone, Copy)]
pub(crate) struct Branch<'a> {
    pub(crate) file: &'a str,
    pub(crate) line: u32,
    pub(crate) acts: u32,
    pub(crate) passes: u32,
}

/// How often the conditional branches of a line were taken, and how often they passed.
#[derive(Clone, Copy)]
pub(crate) struct Ways {
    pub(crate) taken: u64,
    pub(crate) passed: u64,
}

/// Whether one of the branches of a line acted.
pub(crate) fn have_acted(ways: &Ways) -> bool
    ensures { result ≡ have_acted ways.now }
{
    0 < ways.taken || 0 < ways.passed
}

/// Whether an instruction with this first word is a conditional branch.
fn is_conditional(word: u16) -> bool
    ensures { result ≡ is_conditional word }
{
    matches!(
        word / 256 * 256,
        0x5e00
            | 0x5f00
            | 0xf000
            | 0xf100
            | 0xf200
            | 0xf300
            | 0xf400
            | 0xf500
            | 0xf600
            | 0xf700
            | 0xf800
            | 0xf900
            | 0xfa00
            | 0xfb00
    )
}

/// Whether the instruction that is loaded at an address is a conditional branch.
fn branch_at(image: &Image, address: u16) -> bool
    ensures { result ≡ branch_at image.now address }
{
    match image.words(0).get(address) {
        Some(word) => is_conditional(word),
        None => false,
    }
}

/// Appends an address, if a conditional branch is there.
fn push_address(branches: &mut Vec<u16>, is_branch: bool, address: u16) -> Result<(), NoMemory>
    ensures { OnOk result (branches.new.items ≡ branches.old.items ++ branch_if is_branch address) }
{
    if is_branch {
        branches.push(address)?;
    }
    Ok(())
}

/// Appends the addresses of the conditional branches that run where they are loaded.
fn push_loaded(branches: &mut Vec<u16>, image: &Image) -> Result<(), NoMemory>
    ensures { OnOk result (branches.new.items ≡ branches.old.items
        ++ flat_map (λ m. branch_if (branch_at image.now m.address) m.address) image.now.marks) }
{
    for mark in image.marks() {
        push_address(branches, branch_at(image, mark.address), mark.address)?;
    }
    Ok(())
}

/// Appends the addresses of the conditional branches that run in block B0.
fn push_moved(branches: &mut Vec<u16>, image: &Image) -> Result<(), NoMemory>
    ensures { OnOk result (branches.new.items ≡ branches.old.items
        ++ flat_map (λ m. branch_if (branch_at image.now m.load) m.run) image.now.run_marks) }
{
    for mark in image.run_marks() {
        push_address(branches, branch_at(image, mark.load), mark.run)?;
    }
    Ok(())
}

/// The addresses where the conditional branches of an image run.
pub(crate) fn branches_of(alloc: Global, image: &Image) -> Result<Vec<u16>, NoMemory>
    ensures { IfOk result (λ branches. branches.items ≡ branches_of image.now) }
{
    let mut branches = Vec::new(alloc);
    push_loaded(&mut branches, image)?;
    push_moved(&mut branches, image)?;
    Ok(branches)
}

/// Appends a conditional branch that stands in this line and runs at this address, if its line is known.
fn push_known<'a>(
    branches: &mut Vec<Branch<'a>>,
    source: Option<(&'a str, u32)>,
    counts: &Counts,
    address: u16,
) -> Result<(), NoMemory>
    ensures { OnOk result (branches_seen branches.new.items ≡ branches_seen branches.old.items
        ++ counted_branch true (option_map (λ r. (r.0.now, r.1)) source.entry) (count_in counts.now.acts.items address)
        (count_in counts.now.passes.items address)) }
{
    match source {
        None => Ok(()),
        Some((file, line)) => {
            let acts = counts.acts_at(address);
            let passes = counts.passes_at(address);
            Ok(branches.push(Branch {
                file,
                line,
                acts,
                passes,
            })?)
        }
    }
}

/// Appends the instruction that is loaded at one address and runs at another, if it is a conditional branch and
/// its line is known.
fn push_branch<'a>(
    branches: &mut Vec<Branch<'a>>,
    image: &'a Image,
    counts: &Counts,
    load: u16,
    run: u16,
) -> Result<(), NoMemory>
    ensures { OnOk result (branches_seen branches.new.items ≡ branches_seen branches.old.items
        ++ counted_branch (branch_at image.now load) (line_at load image.now.lines) (count_in counts.now.acts.items run)
        (count_in counts.now.passes.items run)) }
{
    if branch_at(image, load) {
        return push_known(branches, image.line_of(load), counts, run);
    }
    Ok(())
}

/// Appends the conditional branches that run where they are loaded.
fn push_marks<'a>(
    branches: &mut Vec<Branch<'a>>,
    image: &'a Image,
    counts: &Counts,
) -> Result<(), NoMemory>
    ensures { OnOk result (branches_seen branches.new.items ≡ branches_seen branches.old.items
        ++ flat_map (λ m. counted_branch (branch_at image.now m.address) (line_at m.address image.now.lines)
        (count_in counts.now.acts.items m.address) (count_in counts.now.passes.items m.address)) image.now.marks) }
{
    for mark in image.marks() {
        push_branch(branches, image, counts, mark.address, mark.address)?;
    }
    Ok(())
}

/// Appends the conditional branches that run in block B0.
fn push_run_marks<'a>(
    branches: &mut Vec<Branch<'a>>,
    image: &'a Image,
    counts: &Counts,
) -> Result<(), NoMemory>
    ensures { OnOk result (branches_seen branches.new.items ≡ branches_seen branches.old.items
        ++ flat_map (λ m. counted_branch (branch_at image.now m.load) (line_at m.load image.now.lines)
        (count_in counts.now.acts.items m.run) (count_in counts.now.passes.items m.run)) image.now.run_marks) }
{
    for mark in image.run_marks() {
        push_branch(branches, image, counts, mark.load, mark.run)?;
    }
    Ok(())
}

/// The conditional branches of an image whose lines are known.
pub(crate) fn counted_branches<'a>(
    alloc: Global,
    image: &'a Image,
    counts: &Counts,
) -> Result<Vec<Branch<'a>>, NoMemory>
    ensures { IfOk result (λ branches. branches_seen branches.items
        ≡ counted_branches image.now (count_in counts.now.acts.items) (count_in counts.now.passes.items)) }
{
    let mut branches = Vec::new(alloc);
    push_marks(&mut branches, image, counts)?;
    push_run_marks(&mut branches, image, counts)?;
    Ok(branches)
}

/// The ways of a line so far, 0 of each where it has none yet.
fn ways_before(ways: Option<Ways>) -> Ways
    ensures taken { result.taken ≡ unwrap_or (option_map (λ w. w.taken) ways) 0 }
    ensures passed { result.passed ≡ unwrap_or (option_map (λ w. w.passed) ways) 0 }
{
    match ways {
        Some(ways) => ways,
        None => Ways {
            taken: 0,
            passed: 0,
        },
    }
}

/// The ways of a line with one more branch.
fn more_ways(ways: Option<Ways>, branch: &Branch<'_>) -> Ways
    ensures { result ≡ more_ways ways (branch_of branch.now) }
{
    let before = ways_before(ways);
    let taken = branch.acts.saturating_sub(branch.passes);
    Ways {
        taken: before.taken.saturating_add(u64::from(taken)),
        passed: before.passed.saturating_add(u64::from(branch.passes)),
    }
}

/// Adds a branch to its line, if it stands in this file.
fn add_branch(
    lines: &mut BTreeMap<usize, Ways>,
    file: &str,
    branch: &Branch<'_>,
) -> Result<(), NoMemory>
    ensures { OnOk result (lines.new.entries ≡ with_branch file.now lines.old.entries (branch_of branch.now)) }
{
    if branch.file != file {
        return Ok(());
    }
    let line = branch.line as usize;
    let ways = lines.get(&line).copied();
    lines.insert(line, more_ways(ways, branch))?;
    Ok(())
}

/// The lines of a file in which conditional branches stand, each with the sums of its branches.
#[tactic(auto, using(std::proofs::lemmas::List::Sums::fold_more))]
pub(crate) fn lines_of(
    alloc: Global,
    branches: &[Branch<'_>],
    file: &str,
) -> Result<BTreeMap<usize, Ways>, NoMemory>
    ensures { IfOk result (λ lines. lines.entries ≡ ways_of (branches_seen branches.now) file.now) }
{
    let mut lines = BTreeMap::new(alloc);
    for branch in branches {
        add_branch(&mut lines, file, branch)?;
    }
    Ok(lines)
}

/// The lines of a file in which conditional branches stand, each with the sums of its branches, in ascending
/// order.
pub(crate) fn ways_of(
    alloc: Global,
    branches: &[Branch<'_>],
    file: &str,
) -> Result<Vec<(usize, Ways)>, NoMemory>
    ensures { IfOk result (λ lines. lines.items ≡ ways_of (branches_seen branches.now) file.now) }
{
    let lines = lines_of(alloc, branches, file)?;
    let pairs = lines
        .iter()
        .map(|(line, ways)| (*line, *ways))
        .collect(alloc)?;
    Ok(pairs)
}
