//! All faults of a source, in the order in which they are reported.

ghost use Rattle.std.specs.Prelude.{◌≡◌, IfOk, OnOk, map, take};
ghost use Rattle.c25_macro.specs.Expander.{shown};
ghost use Rattle.c25_macro.specs.Expanders.{expansion_of};
ghost use Rattle.c25_macro.specs.Tracers.{fault_in};
ghost use Rattle.c25_meaning_assembly.specs.AllFaults as meaning;
ghost use Rattle.c25_phases.specs.View.{fault_of};
ghost use Rattle.c25_asm.specs.GoneOver.{EndsWith, HasRoom, IsGoneOver, LeadsTo, gone_over_of};

use crate::assembly::told;
use crate::lines_gone_over::LinesGoneOver;
use c25_macro::answer::{ExpLine, NextLine};
use c25_macro::expander::Expander;
use c25_macro::files::Files;
use c25_macro::tracer::StepFault;
use c25_meaning_common::failure::Failure;
use c25_meaning_common::no_memory::NoMemory;
use c25_meaning_common::placed::FileLine;
use c25_meaning_language::statement::FaultKind;
use c25_phases::fault::AsmFault;
use c25_phases::{Progress, line_fault, operand_faults, pass_or_leave_out};
use std::alloc::Global;

/// The state before the first line.
fn no_lines<'a>(alloc: Global) -> Result<LinesGoneOver<'a>, NoMemory>
    ensures { IfOk result (λ lines. gone_over_of lines ≡ meaning.no_lines) }
{
    Ok(LinesGoneOver {
        progress: Box::new(alloc, Progress::new(alloc)?)?,
        faults: Vec::new(alloc),
    })
}

/// Whether nothing is read after a fault of a line, since there is no room for more.
fn is_last(kind: FaultKind) -> bool
    ensures { result ≡ meaning.is_last_kind kind }
{
    match kind {
        FaultKind::TooLarge => true,
        _ => false,
    }
}

/// Goes over one line more, which passes or is left out. Whether what comes next is gone over too.
fn go_over_line<'a>(lines: &mut LinesGoneOver<'a>, line: ExpLine<'a>) -> Result<bool, NoMemory>
    ensures leads { IfOk result (LeadsTo (shown line.entry) (gone_over_of lines.old) (gone_over_of lines.new)) }
    ensures room { OnOk result (HasRoom (gone_over_of lines.new)) }
{
    let ExpLine { file, line, text } = line;
    let origin = FileLine { file, line };
    match pass_or_leave_out(&mut lines.progress, origin, text.as_str()) {
        Ok(()) => Ok(true),
        Err(Failure::NoMemory(error)) => Err(error),
        Err(Failure::Fault(kind)) => {
            lines.faults.push(line_fault(origin, kind))?;
            Ok(!is_last(kind))
        }
    }
}

/// The fault of a line that expansion refuses, as the fault of the source.
fn refused(fault: StepFault<'_>) -> AsmFault<'_>
    ensures { fault_of result ≡ fault_in fault.entry }
{
    match fault {
        StepFault::Faulty(placed) => AsmFault::Line(placed),
        StepFault::Missing { file, line, name } => AsmFault::NoFile { file, line, name },
    }
}

/// Adds the fault of a line that expansion refuses and leaves out.
fn add_left_out<'a>(lines: &mut LinesGoneOver<'a>, fault: StepFault<'a>) -> Result<(), NoMemory>
    ensures { OnOk result (gone_over_of lines.new ≡ meaning.with_fault (fault_in fault.entry) (gone_over_of lines.old)) }
{
    lines.faults.push(refused(fault))?;
    Ok(())
}

/// Adds the fault with which expansion ends.
fn add_last<'a>(
    lines: &mut LinesGoneOver<'a>,
    failure: Failure<AsmFault<'a>>,
) -> Result<(), NoMemory>
    ensures { OnOk result (EndsWith failure.entry (gone_over_of lines.old) (gone_over_of lines.new)) }
{
    match failure {
        Failure::NoMemory(error) => Err(error),
        Failure::Fault(fault) => {
            lines.faults.push(fault)?;
            Ok(())
        }
    }
}

/// Goes over all lines that are left.
fn go_over_rest<'a>(
    alloc: Global,
    expander: &mut Expander<'a>,
    lines: &mut LinesGoneOver<'a>,
) -> Result<(), NoMemory>
    requires { HasRoom (gone_over_of lines.old) }
    ensures over { OnOk result (IsGoneOver (expansion_of expander.old) (gone_over_of lines.old) (gone_over_of lines.new)) }
    ensures room { OnOk result (HasRoom (gone_over_of lines.new)) }
{
    loop {
        lines.progress.move_here();
        match expander.next_or_leave_out(lines.progress.symbols()) {
            Ok(NextLine::Given(line)) => {
                if !go_over_line(lines, line)? {
                    return Ok(());
                }
            }
            Ok(NextLine::LeftOut(fault)) => add_left_out(lines, fault)?,
            Ok(NextLine::Finished) => return Ok(()),
            Err(failure) => return add_last(lines, told(alloc, expander.missing(), failure)),
        }
    }
}

/// The faults of the lines that were gone over, or where there is none those of their operands.
fn faults_in<'a>(lines: LinesGoneOver<'a>) -> Result<Vec<AsmFault<'a>>, NoMemory>
    requires { HasRoom (gone_over_of lines) }
    ensures { IfOk result (λ faults. map fault_of faults.items ≡ meaning.faults_of (gone_over_of lines.entry)) }
{
    let LinesGoneOver { progress, faults } = lines;
    if faults.is_empty() {
        operand_faults(Box::into_inner(progress))
    } else {
        Ok(faults)
    }
}

/// All faults of a source.
fn faults_of<'a>(
    alloc: Global,
    files: &'a Files,
    name: &'a str,
) -> Result<Vec<AsmFault<'a>>, NoMemory>
    ensures { IfOk result (λ faults. map fault_of faults.items ≡ meaning.all_faults files.now name.now) }
{
    let mut lines = no_lines(alloc)?;
    let mut expander = Expander::new(alloc, files, name);
    go_over_rest(alloc, &mut expander, &mut lines)?;
    faults_in(lines)
}

/// All faults of the source of a name, in the order in which they are reported, and at most this many of
/// them. The first one is that of [`crate::assemble`], and there is none where it gives a module.
///
/// A line that the first phase refuses is left out but for its label, and one that expansion refuses with what it
/// would open; the lines after it are gone over. 31, 33, 34 and 54 end the list, and so does a refused `.if` or
/// `.loop` where 32 blocks are open. Where the first phase has no fault, the second one reports each operand that
/// it refuses.
///
/// `NoMemory` where memory runs out.
pub fn all_faults<'a>(
    alloc: Global,
    files: &'a Files,
    name: &'a str,
    most: usize,
) -> Result<Vec<AsmFault<'a>>, NoMemory>
    ensures { IfOk result (λ faults. map fault_of faults.items ≡ take most (meaning.all_faults files.now name.now)) }
{
    let mut faults = faults_of(alloc, files, name)?;
    faults.truncate(most);
    Ok(faults)
}
