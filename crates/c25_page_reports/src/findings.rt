//! What is found of the data pages of a linked program.

ghost use Rattle.std.specs.Prelude.{◌≡◌, ◌||◌, ◌++◌, [], true, false, None, List, IfOk, string_bytes};
ghost use Rattle.std.specs.List.{AllZip};
ghost use Rattle.c25_meaning_linking.specs.Command.{CommandData};
ghost use Rattle.c25_meaning_linking.specs.Linking.{ImageData, IsProgram};
ghost use Rattle.c25_meaning_pages.specs.Inductive.{IsClosed, IsInductive};
ghost use Rattle.c25_pages.specs.Program.{statements_of};
ghost use Rattle.c25_pages.specs.Table.{knowledge_of};
ghost use Rattle.c25_page_reports.specs.Findings.{ArePageFindings, IsWarningOf, is_wrong, places_in, shown_reports};
ghost use Rattle.c25_page_reports.specs.Operands.{page_operands};
ghost use Rattle.c25_page_reports.specs.Statements.{AreStatementsOf};
ghost use Rattle.c25_page_reports.specs.Warnings.{kind_of_fault};

use crate::facts::{Counts, facts_of};
use crate::operands::{AbsoluteOperand, PageOperand, page_operands};
use crate::remarks::{open_remark, operand_remark, refusal_remark, refused_at, way_to};
use crate::statements::statements_of_image;
use crate::subject::Subject;
use crate::supposed::{interrupt_lines, landings_of};
use crate::verdicts::{OperandFault, OperandReport, operand_reports};
use crate::warning::{PageWarning, PageWarningKind};
use c25_link::Image;
use c25_map::Map;
use c25_meaning_common::no_memory::NoMemory;
use c25_module::Module;
use c25_page_finder::find_table;
use c25_pages::{Program, Refusal, Table, verify, verify_closed};
use c25_symbols::entries::all_entries;
use std::alloc::Global;

/// What was found of the data pages of a program.
#[derive(Drop)]
pub struct PageFindings {
    /// The warnings, those of direct operands first.
    pub warnings: Vec<PageWarning>,
    /// What was supposed and what was found on the whole, in lines; empty where only what is certain is asked for.
    pub facts: String,
}

/// Whether a report is shown: all are where that is asked for, else those where DP is another page.
fn is_shown(report: OperandReport, all: bool) -> bool
    ensures { result ≡ (is_wrong report.fault || all) }
{
    match report.fault {
        OperandFault::WrongPage => true,
        OperandFault::PageUnsure => all,
    }
}

/// The warning of an operand's fault.
fn kind_of(fault: OperandFault) -> PageWarningKind
    ensures { result ≡ kind_of_fault fault }
{
    match fault {
        OperandFault::WrongPage => PageWarningKind::WrongPage,
        OperandFault::PageUnsure => PageWarningKind::PageUnsure,
    }
}

/// The warning of a report.
fn operand_warning(
    alloc: Global,
    subject: Subject<'_>,
    report: OperandReport,
) -> Result<PageWarning, NoMemory>
    ensures { IfOk result (IsWarningOf subject.entry.image.now report) }
{
    let (file, line) = subject.place_of(report.operand.load);
    let file = String::from_str(alloc, file)?;
    let remark = operand_remark(alloc, subject, report)?;
    Ok(PageWarning {
        kind: kind_of(report.fault),
        file,
        line,
        remark,
    })
}

/// The warnings of the reports that are shown.
fn operand_warnings(
    alloc: Global,
    subject: Subject<'_>,
    reports: &[OperandReport],
    all: bool,
) -> Result<Vec<PageWarning>, NoMemory>
    ensures { IfOk result (λ list. AllZip (IsWarningOf subject.entry.image.now) (shown_reports all reports.now) list.items) }
{
    let mut warnings = Vec::new(alloc);
    for report in reports {
        if is_shown(*report, all) {
            warnings.push(operand_warning(alloc, subject, *report)?)?;
        }
    }
    Ok(warnings)
}

/// A warning at the instruction that is loaded at an address.
fn warning_at(
    alloc: Global,
    subject: Subject<'_>,
    kind: PageWarningKind,
    load: u16,
    remark: String,
) -> Result<PageWarning, NoMemory> {
    let (file, line) = subject.place_of(load);
    let file = String::from_str(alloc, file)?;
    Ok(PageWarning {
        kind,
        file,
        line,
        remark,
    })
}

/// The warning that the code may be left, if it may.
fn open_warning(alloc: Global, subject: Subject<'_>) -> Result<Option<PageWarning>, NoMemory>
    ensures { IfOk result (λ found. found ≡ None → IsClosed (statements_of subject.entry.program.now) (knowledge_of subject.entry.table.now)) }
{
    match verify_closed(subject.program, subject.table) {
        Ok(()) => Ok(None),
        Err(refusal) => {
            let address = refused_at(refusal);
            let remark = open_remark(alloc, subject, address)?;
            let load = way_to(subject, address);
            Ok(Some(warning_at(alloc, subject, PageWarningKind::CodeLeft, load, remark)?))
        }
    }
}

/// The warnings that are of no operand: none where not all is asked for, and else one that the code may be left, if it
/// may.
fn other_warnings(
    alloc: Global,
    subject: Subject<'_>,
    all: bool,
) -> Result<Vec<PageWarning>, NoMemory>
    ensures closed { IfOk result (λ list. all ≡ true → list.items ≡ [] → IsClosed (statements_of subject.entry.program.now) (knowledge_of subject.entry.table.now)) }
    ensures quiet { IfOk result (λ list. all ≡ false → list.items ≡ []) }
{
    let mut warnings = Vec::new(alloc);
    if !all {
        return Ok(warnings);
    }
    match open_warning(alloc, subject)? {
        Some(warning) => {
            warnings.push(warning)?;
            Ok(warnings)
        }
        None => Ok(warnings),
    }
}

/// What was supposed and found, where that is asked for.
fn facts_for(
    alloc: Global,
    subject: Subject<'_>,
    counts: Counts,
    all: bool,
) -> Result<String, NoMemory>
    ensures { IfOk result (λ text. all ≡ false → string_bytes text ≡ []) }
{
    if all {
        facts_of(alloc, subject, counts)
    } else {
        Ok(String::new(alloc))
    }
}

/// What is found of a program by a table whose knowledge is inductive.
fn followed(
    alloc: Global,
    subject: Subject<'_>,
    operands: &[PageOperand],
    all: bool,
) -> Result<PageFindings, NoMemory>
    requires statements { AreStatementsOf subject.image.now subject.program.now }
    requires inductive { IsInductive (statements_of subject.program.now) (knowledge_of subject.table.now) }
    ensures { IfOk result (λ found. ArePageFindings all operands.now subject.entry.image.now found.warnings.items (string_bytes found.facts)) }
{
    let reports = operand_reports(alloc, subject.program, &subject.table.rows, operands)?;
    let mut warnings = operand_warnings(alloc, subject, &reports, all)?;
    let mut others = other_warnings(alloc, subject, all)?;
    let counts = Counts {
        operands: operands.len(),
        unsure: reports.len(),
        closed: others.is_empty(),
    };
    let facts = facts_for(alloc, subject, counts, all)?;
    warnings.append(&mut others)?;
    Ok(PageFindings { warnings, facts })
}

/// What is found of a program that was not followed: the warning, where all is asked for.
fn unfollowed(alloc: Global, warning: PageWarning, all: bool) -> Result<PageFindings, NoMemory>
    ensures { (operands : List PageOperand) (image : ImageData)
        → IfOk result (λ found. ArePageFindings all operands image found.warnings.items (string_bytes found.facts)) }
{
    let mut warnings = Vec::new(alloc);
    let facts = String::new(alloc);
    if !all {
        return Ok(PageFindings { warnings, facts });
    }
    warnings.push(warning)?;
    Ok(PageFindings { warnings, facts })
}

/// The warning of an image whose words at a mark read as no instruction.
fn unread_warning(alloc: Global) -> Result<PageWarning, NoMemory> {
    let file = String::from_str(alloc, "link")?;
    let remark = String::from_str(alloc, "the words of an instruction do not read as one")?;
    Ok(PageWarning {
        kind: PageWarningKind::NotFollowed,
        file,
        line: 0,
        remark,
    })
}

/// The warning of a program that was not followed through an instruction.
fn refusal_warning(
    alloc: Global,
    subject: Subject<'_>,
    refusal: Refusal,
) -> Result<PageWarning, NoMemory> {
    let remark = refusal_remark(alloc, subject, refusal)?;
    warning_at(
        alloc,
        subject,
        PageWarningKind::NotFollowed,
        refused_at(refusal),
        remark,
    )
}

/// What is found of a program by a table, whose knowledge may be inductive or not.
fn findings_by(
    alloc: Global,
    subject: Subject<'_>,
    operands: &[PageOperand],
    all: bool,
) -> Result<PageFindings, NoMemory>
    requires { AreStatementsOf subject.image.now subject.program.now }
    ensures { IfOk result (λ found. ArePageFindings all operands.now subject.entry.image.now found.warnings.items (string_bytes found.facts)) }
{
    match verify(subject.program, subject.table) {
        Ok(()) => followed(alloc, subject, operands, all),
        Err(refusal) => {
            let warning = refusal_warning(alloc, subject, refusal)?;
            unfollowed(alloc, warning, all)
        }
    }
}

/// A table of what is known of a program, of which nothing is claimed.
fn table_of(
    alloc: Global,
    program: &Program,
    operands: &[PageOperand],
    modules: &[Module],
    map: &Map,
) -> Result<Table, NoMemory> {
    let lines = interrupt_lines(program, operands);
    let landings = landings_of(alloc, program, modules, map)?;
    find_table(alloc, program, landings, lines)
}

/// Finds what the data pages of a linked program are: which direct operands are another word than the one that is meant,
/// and, where all is asked for, also those that are not sure, why the program cannot be followed, whether its code may
/// be left, and what was supposed. The operands are those that are relocated, and the absolute ones that are given.
/// Without warnings, where all is asked for, each of them is the word that is meant and the code is never left, in each
/// run that is as supposed.
///
/// Errors: out of memory.
pub fn page_findings(
    alloc: Global,
    absolutes: &[AbsoluteOperand],
    modules: &[Module],
    image: &Image,
    all: bool,
) -> Result<PageFindings, NoMemory>
    ensures { (command : CommandData) → IsProgram modules.now command image.now
        → IfOk result (λ found. ArePageFindings all (page_operands absolutes.now modules.now (places_in image.now)) image.now found.warnings.items (string_bytes found.facts)) }
{
    let Some(program) = statements_of_image(alloc, image)? else {
        let warning = unread_warning(alloc)?;
        return unfollowed(alloc, warning, all);
    };
    let map = image.map();
    let operands = page_operands(alloc, absolutes, modules, map)?;
    let table = table_of(alloc, &program, &operands, modules, map)?;
    let sources = Vec::new(alloc);
    let symbols = all_entries(alloc, modules, &sources, &map.sections)?;
    let subject = Subject {
        image,
        program: &program,
        table: &table,
        symbols: &symbols,
    };
    findings_by(alloc, subject, &operands, all)
}
