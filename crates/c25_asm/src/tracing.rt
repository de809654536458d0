//! Finding where a source is refused.

ghost use Rattle.std.specs.Prelude.{IfOk};
ghost use Rattle.c25_macro.specs.Tracers.{trace_of};
ghost use Rattle.c25_meaning_assembly.specs.Sections.{start};
ghost use Rattle.c25_meaning_expansion.specs.ExpansionBounds.{IsBounded};
ghost use Rattle.c25_phases.specs.Wrong.{wrong_of};
ghost use Rattle.c25_asm.specs.Traces.{HasWrongItem, IsRefused, IsTraced};
ghost use Rattle.c25_asm.specs.Walks.{EndsWalk};

use crate::seen_line::SeenLine;
use crate::walk::{End, walk};
use c25_macro::files::Files;
use c25_macro::tracer::{StepFault, Tracer};
use c25_meaning_common::no_memory::NoMemory;
use c25_meaning_common::placed::{FileLine, Placed};
use c25_phases::{FirstWrong, Progress, first_wrong};
use std::alloc::Global;

/// The fault of a source, what is open at its line, and that line.
#[derive(Drop)]
pub struct Refused<'a> {
    pub fault: StepFault<'a>,
    /// The lines that opened the copied files, expansions and turns that are open, the innermost first.
    pub trail: Vec<FileLine<usize>>,
    /// The line that is refused, as it was read; `None` where its expansion is refused, or there is no room for
    /// it (54).
    pub seen: Option<SeenLine<'a>>,
}

/// Whether a source is assembled or refused.
#[derive(Drop)]
pub enum Traced<'a> {
    /// The source is not there.
    Absent,
    /// The source is assembled.
    Whole,
    Refused(Refused<'a>),
}

/// Walks through the lines of a source from the first one on. The walk ends early with the line that brings
/// the item of the sought number, if a number is sought.
fn walk_all<'a>(
    alloc: Global,
    tracer: &mut Tracer<'a>,
    sought: Option<usize>,
) -> Result<End<'a>, NoMemory>
    requires { IsBounded (trace_of tracer.old).at }
    ensures { IfOk result (EndsWalk (trace_of tracer.old) start sought (trace_of tracer.new)) }
{
    let empty = Progress::new(alloc)?;
    let progress = Box::new(alloc, empty)?;
    walk(tracer, progress, sought)
}

/// The fault of the first item that is wrong, what is open at the line that brought the item, and that line.
fn trace_item<'a>(
    alloc: Global,
    files: &'a Files,
    name: &str,
    found: FirstWrong<'a>,
) -> Result<Refused<'a>, NoMemory>
    requires { HasWrongItem files.now name.now (wrong_of found.item) found.symbols }
    ensures { IfOk result (IsRefused files.now name.now) }
{
    let FirstWrong {
        item: wrong,
        symbols,
    } = found;
    let Some(mut tracer) = Tracer::new(alloc, files, name)? else {
        unreachable!();
    };
    match walk_all(alloc, &mut tracer, Some(wrong.number))? {
        End::Reached(text) => {
            let fault = StepFault::Faulty(Placed {
                place: wrong.origin,
                fault: wrong.kind,
            });
            let trail = tracer.into_trail();
            let seen = Some(SeenLine { text, symbols });
            Ok(Refused { fault, trail, seen })
        }
        End::Passed(_) => unreachable!(),
        End::Refused(_, _) => unreachable!(),
    }
}

/// Whether the source of a name is assembled; and if it is refused, what is open at the line of its fault, and
/// that line as it was read.
///
/// `NoMemory` where memory runs out.
pub fn trace<'a>(alloc: Global, files: &'a Files, name: &str) -> Result<Traced<'a>, NoMemory>
    ensures { IfOk result (IsTraced files.now name.now) }
{
    let Some(mut tracer) = Tracer::new(alloc, files, name)? else {
        return Ok(Traced::Absent);
    };
    match walk_all(alloc, &mut tracer, None)? {
        End::Reached(_) => unreachable!(),
        End::Refused(fault, seen) => {
            let trail = tracer.into_trail();
            Ok(Traced::Refused(Refused { fault, trail, seen }))
        }
        End::Passed(progress) => match first_wrong(Box::into_inner(progress))? {
            Some(found) => trace_item(alloc, files, name, found).map(Traced::Refused),
            None => Ok(Traced::Whole),
        },
    }
}
