//! Which arguments of `run` and `debug` stand together: those for sources, or those for an image in their place.

ghost use Rattle.std.specs.Prelude.{◌≡◌, [], ◌∷◌, IfOk};
ghost use Rattle.clap.specs.Words.{kind_of};
ghost use Rattle.c25_options.specs.Complete.{AreImageFlags, IsComplete, IsFlagIn, rows_in};
ghost use Rattle.c25_options.specs.Task.{RefusesBy};
ghost use Rattle.c25_options.specs.Together.{error_of, has, is_on, names_image, says_how, says_image, says_sources, subcommand_error, together_error};

use crate::fault::WordsFault;
use crate::matched::{flag, optional};
use crate::program::image_subcommand;
use c25_meaning_common::failure::Failure;
use c25_meaning_common::no_memory::NoMemory;
use clap::error::ErrorKind;
use clap::{ArgMatches, Error};
use std::alloc::{AllocError, Global};

/// Whether an operand or an option is given.
fn has(matches: &ArgMatches<'_>, id: &str) -> bool
    ensures { result ≡ has id.now (rows_in matches.now) }
{
    optional(matches, id).is_some()
}

/// Whether a flag is given.
fn is_on(matches: &ArgMatches<'_>, id: &str) -> bool
    requires { IsFlagIn (rows_in matches.now) id.now }
    ensures { result ≡ is_on id.now (rows_in matches.now) }
{
    flag(matches, id)
}

/// Whether an argument names the files of an image.
fn names_image(matches: &ArgMatches<'_>) -> bool
    ensures { result ≡ names_image (rows_in matches.now) }
{
    has(matches, "image") || has(matches, "high") || has(matches, "low")
}

/// Whether an argument says how an image is read, or what is known of it.
fn says_how(matches: &ArgMatches<'_>) -> bool
    requires { AreImageFlags (rows_in matches.now) }
    ensures { result ≡ says_how (rows_in matches.now) }
{
    is_on(matches, "binary")
        || is_on(matches, "low-first")
        || has(matches, "blank")
        || has(matches, "hints")
}

/// Whether an argument is for an image.
pub(crate) fn says_image(matches: &ArgMatches<'_>) -> bool
    requires { AreImageFlags (rows_in matches.now) }
    ensures { result ≡ says_image (rows_in matches.now) }
{
    names_image(matches) || says_how(matches)
}

/// Whether an argument is for sources.
fn says_sources(matches: &ArgMatches<'_>) -> bool
    ensures { result ≡ says_sources (rows_in matches.now) }
{
    has(matches, "source")
        || has(matches, "command")
        || has(matches, "define")
        || has(matches, "include")
}

/// The error of arguments, by whether some are for an image and some for sources, and whether there is a source.
fn error_of(image: bool, sources: bool, source: bool) -> Option<ErrorKind>
    ensures { result ≡ error_of image sources source }
{
    if image {
        if sources {
            Some(ErrorKind::ArgumentConflict)
        } else {
            None
        }
    } else if source {
        None
    } else {
        Some(ErrorKind::MissingRequiredArgument)
    }
}

/// The error of the arguments of `run` or `debug`, if they do not stand together.
fn together_error(matches: &ArgMatches<'_>) -> Option<ErrorKind>
    requires { AreImageFlags (rows_in matches.now) }
    ensures { result ≡ together_error (rows_in matches.now) }
{
    error_of(
        says_image(matches),
        says_sources(matches),
        has(matches, "source"),
    )
}

/// The error of the arguments of the subcommand of this name, if they do not stand together.
pub(crate) fn subcommand_error(name: &str, matches: &ArgMatches<'_>) -> Option<ErrorKind>
    requires { IsComplete name.now (rows_in matches.now) }
    ensures { result ≡ subcommand_error name.now (rows_in matches.now) }
{
    match name {
        "run" => together_error(matches),
        "debug" => together_error(matches),
        _ => None,
    }
}

/// Whether a flag is given, of which nothing is known.
fn is_given(matches: &ArgMatches<'_>, id: &str) -> bool {
    optional(matches, id) == Some("true")
}

/// An argument for an image that is given, as usage shows it.
fn image_argument(matches: &ArgMatches<'_>) -> &'static str {
    if has(matches, "image") {
        "--image <FILE>"
    } else if has(matches, "high") {
        "--high <FILE>"
    } else if has(matches, "low") {
        "--low <FILE>"
    } else if has(matches, "blank") {
        "--blank <N>"
    } else if has(matches, "hints") {
        "--hints <FILE>"
    } else if is_given(matches, "binary") {
        "--binary"
    } else {
        "--low-first"
    }
}

/// An argument for sources that is given, as usage shows it.
fn source_argument(matches: &ArgMatches<'_>) -> &'static str {
    if has(matches, "source") {
        "[SOURCE]..."
    } else if has(matches, "command") {
        "--command <FILE>"
    } else if has(matches, "define") {
        "--define <NAME=VALUE>"
    } else {
        "--include <FOLDER>"
    }
}

/// What is said of arguments that do not stand together.
fn message(alloc: Global, kind: ErrorKind, matches: &ArgMatches<'_>) -> Result<String, AllocError> {
    if kind == ErrorKind::ArgumentConflict {
        let image = image_argument(matches);
        let source = source_argument(matches);
        format!(in alloc; "the argument '{image}' cannot be used with '{source}'")
    } else {
        String::from_str(
            alloc,
            "the following required arguments were not provided:\n  <SOURCE>...",
        )
    }
}

/// The error of this kind, with the usage of the subcommand of this name.
fn error_for(
    alloc: Global,
    name: &str,
    kind: ErrorKind,
    matches: &ArgMatches<'_>,
) -> Result<Error, AllocError>
    ensures { IfOk result (λ error. kind_of error ≡ kind) }
{
    let message = message(alloc, kind, matches)?;
    let mut command = image_subcommand(alloc, name)?;
    command.error(kind, message.as_str())
}

/// The report of arguments of the subcommand of this name that do not stand together.
pub(crate) fn not_together(
    alloc: Global,
    name: &str,
    kind: ErrorKind,
    matches: &ArgMatches<'_>,
) -> WordsFault
    ensures { RefusesBy (kind ∷ []) result }
{
    match error_for(alloc, name, kind, matches) {
        Ok(error) => Failure::Fault(error),
        Err(error) => Failure::NoMemory(NoMemory::from(error)),
    }
}
