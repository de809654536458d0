//! Pages of warnings, found by name.

ghost use Rattle.c25_warning_pages.specs.Pages.{IsDataPageNamed, IsLineNamed, IsSectionNamed, IsWarningNamed, IsPageNamed};

use crate::page::Page;
use crate::pages::{AnyWarning, page_of};
use c25_page_reports::PageWarningKind;
use c25_warnings::{LinkWarningKind, WarningKind};

/// The warning of a line of this name, in letters of either case. `None` where none has the name.
#[tactic(auto, using(crate::proofs::NoName::no_line))]
fn line_named(name: &str) -> Option<WarningKind>
    ensures { IsLineNamed name.now result }
{
    if WarningKind::MnemonicLabel.name().eq_ignore_ascii_case(name) {
        Some(WarningKind::MnemonicLabel)
    } else if WarningKind::DirectiveLabel
        .name()
        .eq_ignore_ascii_case(name)
    {
        Some(WarningKind::DirectiveLabel)
    } else if WarningKind::RegisterShift.name().eq_ignore_ascii_case(name) {
        Some(WarningKind::RegisterShift)
    } else if WarningKind::ProgramAddress
        .name()
        .eq_ignore_ascii_case(name)
    {
        Some(WarningKind::ProgramAddress)
    } else if WarningKind::DataAddress.name().eq_ignore_ascii_case(name) {
        Some(WarningKind::DataAddress)
    } else if WarningKind::NotRepeatable.name().eq_ignore_ascii_case(name) {
        Some(WarningKind::NotRepeatable)
    } else if WarningKind::Unused.name().eq_ignore_ascii_case(name) {
        Some(WarningKind::Unused)
    } else if WarningKind::NotReached.name().eq_ignore_ascii_case(name) {
        Some(WarningKind::NotReached)
    } else {
        None
    }
}

/// The warning of a command file of this name, in letters of either case. `None` where none has the name.
#[tactic(auto, using(crate::proofs::NoName::no_section))]
fn section_named(name: &str) -> Option<LinkWarningKind>
    ensures { IsSectionNamed name.now result }
{
    if LinkWarningKind::ReservedInProgram
        .name()
        .eq_ignore_ascii_case(name)
    {
        Some(LinkWarningKind::ReservedInProgram)
    } else if LinkWarningKind::AbsentSection
        .name()
        .eq_ignore_ascii_case(name)
    {
        Some(LinkWarningKind::AbsentSection)
    } else {
        None
    }
}

/// The warning of data pages of this name, in letters of either case. `None` where none has the name.
#[tactic(auto, using(crate::proofs::NoName::no_data_page))]
fn data_page_named(name: &str) -> Option<PageWarningKind>
    ensures { IsDataPageNamed name.now result }
{
    if PageWarningKind::WrongPage.name().eq_ignore_ascii_case(name) {
        Some(PageWarningKind::WrongPage)
    } else if PageWarningKind::PageUnsure
        .name()
        .eq_ignore_ascii_case(name)
    {
        Some(PageWarningKind::PageUnsure)
    } else if PageWarningKind::NotFollowed
        .name()
        .eq_ignore_ascii_case(name)
    {
        Some(PageWarningKind::NotFollowed)
    } else if PageWarningKind::CodeLeft.name().eq_ignore_ascii_case(name) {
        Some(PageWarningKind::CodeLeft)
    } else {
        None
    }
}

/// The warning of this name, in letters of either case. `None` where none has the name.
#[tactic(auto, using(crate::proofs::NoName::no_warning))]
fn warning_named(name: &str) -> Option<AnyWarning>
    ensures { IsWarningNamed name.now result }
{
    if let Some(kind) = line_named(name) {
        return Some(AnyWarning::Line(kind));
    }
    if let Some(kind) = section_named(name) {
        return Some(AnyWarning::Section(kind));
    }
    match data_page_named(name) {
        Some(kind) => Some(AnyWarning::DataPage(kind)),
        None => None,
    }
}

/// The page of the warning of this name, in letters of either case. `None` where no warning has the name.
pub fn page_named(name: &str) -> Option<Page>
    ensures { IsPageNamed name.now result }
{
    Some(page_of(warning_named(name)?))
}
