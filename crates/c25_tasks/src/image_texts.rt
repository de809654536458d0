//! The texts that are made of an image that is run: a source, and a command file.

ghost use Rattle.std.specs.Prelude.{◌≡◌, IfOk, Ok, map, string_bytes};
ghost use Rattle.c25_fronts.specs.Fronts.{entry_of};
ghost use Rattle.c25_image_source.specs.Asked.{run_asked};
ghost use Rattle.c25_image_source.specs.Made.{AreNames};
ghost use Rattle.c25_tasks.specs.ImageRuns.{MakesTexts, MakesUnder, TellsFailed};
ghost use Rattle.c25_tasks.specs.Images.{made_files};

use crate::images::{Telling, misused, report_failure};
use crate::report::notes_under;
use c25_disk::disk::Disk;
use c25_fronts::front::Front;
use c25_image_source::asked::ImageAsked;
use c25_image_source::fault::SourceFault;
use c25_image_source::made::{MadeNames, MadeSource};
use c25_image_source::{first_file, made_names, made_source, run_asked};
use c25_inputs::sources::without_definitions;
use c25_meaning_common::failure::Failure;
use c25_meaning_common::no_memory::NoMemory;
use c25_options::task::{FaultOptions, ImageRun};
use c25_report::ending::{Ending, Report};
use c25_source::source::Source;
use std::alloc::Global;

/// The texts of an image, in the form in which they stand on a disk in addition to its files, and their names.
#[derive(Drop)]
pub(crate) struct ImageTexts {
    pub(crate) names: MadeNames,
    pub(crate) fronts: Vec<Front>,
}

/// A text in the form in which it stands on a disk under a name.
fn front_of(alloc: Global, name: &str, text: String) -> Result<Front, NoMemory>
    ensures { IfOk result (λ front. entry_of front ≡ (name.now, string_bytes text)) }
{
    let name = String::from_str(alloc, name)?;
    Ok(Front { name, text })
}

/// The source and the command file of an image as files.
fn fronts_of(alloc: Global, names: &MadeNames, made: Source) -> Result<Vec<Front>, NoMemory>
    ensures { IfOk result (λ fronts. map entry_of fronts.items ≡ made_files (string_bytes names.now.source) (string_bytes names.now.command) made) }
{
    let Source {
        source,
        command,
        ..
    } = made;
    let mut fronts = Vec::new(alloc);
    fronts.push(front_of(alloc, names.source.as_str(), source)?)?;
    fronts.push(front_of(alloc, names.command.as_str(), command)?)?;
    Ok(fronts)
}

/// The texts of an image under names, unless memory runs out.
fn texts_under(alloc: Global, names: MadeNames, made: MadeSource) -> Result<ImageTexts, Report>
    ensures { MakesUnder names made.source result }
{
    let MadeSource { source, .. } = made;
    match fronts_of(alloc, &names, source) {
        Ok(fronts) => Ok(ImageTexts { names, fronts }),
        Err(error) => Err(Report::without_note(alloc, Ending::NoMemory(error))),
    }
}

/// The report of why an image has no source.
fn refused<D: Disk>(
    alloc: Global,
    asked: ImageAsked<'_>,
    failure: Failure<SourceFault>,
    explain: bool,
    disk: &D,
) -> Report
    ensures { TellsFailed (D.bytes_of disk.now) explain asked.entry failure result.ending (string_bytes result.note) }
{
    let files = [first_file(asked.files)];
    let options = FaultOptions {
        explain,
        all: false,
    };
    let telling = Telling {
        notes: notes_under(options, None, without_definitions(&[]), &files),
        hints: asked.hints,
    };
    report_failure(alloc, disk, failure, telling)
}

/// The texts of an image under the names that its base gives, or the report of why there are none.
fn texts_with_names<D: Disk>(
    alloc: Global,
    asked: ImageAsked<'_>,
    names: MadeNames,
    explain: bool,
    disk: &D,
) -> Result<ImageTexts, Report>
    requires { AreNames asked.base.now names }
    ensures { MakesTexts (D.bytes_of disk.now) explain (Ok asked.entry) result }
{
    match made_source(alloc, disk, asked, names.source.as_str()) {
        Ok(made) => texts_under(alloc, names, made),
        Err(failure) => Err(refused(alloc, asked, failure, explain, disk)),
    }
}

/// The texts of an image that is asked for, or the report of why there are none.
fn texts_of_image<D: Disk>(
    alloc: Global,
    asked: ImageAsked<'_>,
    explain: bool,
    disk: &D,
) -> Result<ImageTexts, Report>
    ensures { MakesTexts (D.bytes_of disk.now) explain (Ok asked.entry) result }
{
    match made_names(alloc, asked.base) {
        Ok(names) => texts_with_names(alloc, asked, names, explain, disk),
        Err(error) => Err(Report::without_note(alloc, Ending::NoMemory(error))),
    }
}

/// The texts of the image that a command line names, or the report of why there are none. Nothing is written.
pub(crate) fn image_texts<D: Disk>(
    alloc: Global,
    image: ImageRun<'_>,
    explain: bool,
    disk: &D,
) -> Result<ImageTexts, Report>
    ensures { MakesTexts (D.bytes_of disk.now) explain (run_asked image.entry) result }
{
    match run_asked(image) {
        Ok(asked) => texts_of_image(alloc, asked, explain, disk),
        Err(mistake) => Err(Report::without_note(alloc, misused(alloc, mistake))),
    }
}
