//! Values of the operands and options that `clap` found.

ghost use Rattle.std.specs.Prelude.{◌≡◌, IfOk, IfSome, Some, codes};
ghost use Rattle.clap.specs.Words.{all_of, first_of, one_of};
ghost use Rattle.c25_options.specs.Complete.{AreImageFlags, IsFlagIn, IsNumberText, IsThere, rows_in};
ghost use Rattle.c25_options.specs.Task.{AreFaultOptions, AreOldOptions, AreImageOptions, AreImageRun, AreRomOptions, AreRunFiles, AreRunResults, AreSourceOptions, IsCount, IsFlag, IsSteps, text_of, texts_of, values_of};

use crate::task::{
    DEFAULT_STEPS, FaultOptions, ImageOptions, ImageRun, OldOptions, RomOptions, RunFiles,
    RunResults, SourceOptions,
};
use c25_meaning_common::no_memory::NoMemory;
use clap::ArgMatches;
use std::alloc::Global;

/// The value of an operand or option that is given.
pub(crate) fn needed<'a>(matches: &ArgMatches<'a>, id: &str) -> &'a str
    requires { IsThere (rows_in matches.now) id.now }
    ensures { first_of id.now (rows_in matches.now) ≡ Some result.now }
{
    match matches.get_str(id) {
        Some(value) => value,
        None => unreachable!(),
    }
}

/// The value of an option, if it was given.
pub(crate) fn optional<'a>(matches: &ArgMatches<'a>, id: &str) -> Option<&'a str>
    ensures { first_of id.now (rows_in matches.now) ≡ text_of result }
{
    matches.get_str(id)
}

/// A list of borrowed texts.
fn cloned<'a>(alloc: Global, texts: &[&'a str]) -> Result<Vec<&'a str>, NoMemory>
    ensures { IfOk result (λ v. v.items ≡ texts.now) }
{
    Vec::from_slice(alloc, texts).map_err(NoMemory::from)
}

/// The values of an operand that is given, in their order.
pub(crate) fn all<'a>(
    alloc: Global,
    matches: &ArgMatches<'a>,
    id: &str,
) -> Result<Vec<&'a str>, NoMemory>
    requires { IsThere (rows_in matches.now) id.now }
    ensures { IfOk result (λ v. all_of id.now (rows_in matches.now) ≡ Some (texts_of v.items)) }
{
    match matches.get_strs(id) {
        Some(values) => cloned(alloc, values),
        None => unreachable!(),
    }
}

/// The values of an option that may be given several times, in their order.
fn listed<'a>(alloc: Global, matches: &ArgMatches<'a>, id: &str) -> Result<Vec<&'a str>, NoMemory>
    ensures { IfOk result (λ v. texts_of v.items ≡ values_of id.now (rows_in matches.now)) }
{
    match matches.get_strs(id) {
        Some(values) => cloned(alloc, values),
        None => Ok(Vec::new(alloc)),
    }
}

/// How sources are read.
pub(crate) fn source_options<'a>(
    alloc: Global,
    matches: &ArgMatches<'a>,
) -> Result<SourceOptions<'a>, NoMemory>
    ensures { IfOk result (AreSourceOptions (rows_in matches.now)) }
{
    let definitions = listed(alloc, matches, "define")?;
    let folders = listed(alloc, matches, "include")?;
    Ok(SourceOptions {
        definitions,
        folders,
    })
}

/// Whether a flag was given.
pub(crate) fn flag(matches: &ArgMatches<'_>, id: &str) -> bool
    requires { IsFlagIn (rows_in matches.now) id.now }
    ensures { IsFlag (one_of id.now (rows_in matches.now)) result }
{
    matches.get_flag(id)
}

/// What is reported of faults.
pub(crate) fn fault_options(matches: &ArgMatches<'_>) -> FaultOptions
    requires { IsFlagIn (rows_in matches.now) (codes "explain") × IsFlagIn (rows_in matches.now) (codes "all") }
    ensures { AreFaultOptions (rows_in matches.now) result }
{
    FaultOptions {
        explain: flag(matches, "explain"),
        all: flag(matches, "all"),
    }
}

/// The number of steps of a run, `DEFAULT_STEPS` where the option is not given.
pub(crate) fn steps(matches: &ArgMatches<'_>) -> u32
    requires { IfSome (one_of (codes "steps") (rows_in matches.now)) (IsNumberText 32) }
    ensures { IsSteps (one_of (codes "steps") (rows_in matches.now)) result }
{
    matches.get_one::<u32>("steps").unwrap_or(DEFAULT_STEPS)
}

/// The files that a run reads in addition to its sources.
pub(crate) fn run_files<'a>(matches: &ArgMatches<'a>) -> RunFiles<'a>
    ensures { AreRunFiles (rows_in matches.now) result }
{
    RunFiles {
        command: optional(matches, "command"),
        samples: optional(matches, "samples"),
        schedule: optional(matches, "schedule"),
    }
}

/// What is printed and written of a run.
pub(crate) fn run_results<'a>(matches: &ArgMatches<'a>) -> RunResults<'a>
    requires { IsFlagIn (rows_in matches.now) (codes "regs") × IsFlagIn (rows_in matches.now) (codes "when") }
    ensures { AreRunResults (rows_in matches.now) result }
{
    RunResults {
        regs: flag(matches, "regs"),
        when: flag(matches, "when"),
        counts: optional(matches, "counts"),
        counts_list: optional(matches, "counts-list"),
    }
}

/// The EPROMs that are written of a program.
pub(crate) fn rom_options<'a>(matches: &ArgMatches<'a>) -> RomOptions<'a>
    ensures { AreRomOptions (rows_in matches.now) result }
{
    RomOptions {
        size: optional(matches, "rom"),
        fill: optional(matches, "fill"),
    }
}

/// How many erased words are left out, where that is said.
fn blank(matches: &ArgMatches<'_>) -> Option<u32>
    requires { IfSome (one_of (codes "blank") (rows_in matches.now)) (IsNumberText 32) }
    ensures { IsCount (one_of (codes "blank") (rows_in matches.now)) result }
{
    matches.get_one::<u32>("blank")
}

/// How the words of an image are read, and what is known of them.
pub(crate) fn image_options<'a>(matches: &ArgMatches<'a>) -> ImageOptions<'a>
    requires { IsFlagIn (rows_in matches.now) (codes "binary") × IsFlagIn (rows_in matches.now) (codes "low-first") × IfSome (one_of (codes "blank") (rows_in matches.now)) (IsNumberText 32) }
    ensures { AreImageOptions (rows_in matches.now) result }
{
    ImageOptions {
        high: optional(matches, "high"),
        low: optional(matches, "low"),
        binary: flag(matches, "binary"),
        low_first: flag(matches, "low-first"),
        blank: blank(matches),
        hints: optional(matches, "hints"),
    }
}

/// An image that is run in place of sources, and the files that the run reads in addition to it.
pub(crate) fn image_run<'a>(matches: &ArgMatches<'a>) -> ImageRun<'a>
    requires { AreImageFlags (rows_in matches.now) }
    ensures { AreImageRun (rows_in matches.now) result }
{
    ImageRun {
        file: optional(matches, "image"),
        options: image_options(matches),
        samples: optional(matches, "samples"),
        schedule: optional(matches, "schedule"),
    }
}

/// How old sources are written.
pub(crate) fn old_options<'a>(matches: &ArgMatches<'a>) -> OldOptions<'a>
    requires { IsFlagIn (rows_in matches.now) (codes "ignore-case") }
    ensures { AreOldOptions (rows_in matches.now) result }
{
    OldOptions {
        style: optional(matches, "style"),
        long_order: optional(matches, "long-order"),
        from: optional(matches, "from"),
        ignore_case: flag(matches, "ignore-case"),
    }
}
