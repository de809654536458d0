//! The page of each warning.

ghost use Rattle.std.specs.Prelude.{◌≡◌};
ghost use Rattle.c25_line_warnings.specs.Names.{warning_name};
ghost use Rattle.c25_warnings.specs.Names.{link_warning_name};
ghost use Rattle.c25_page_reports.specs.Warnings.{page_warning_name};
ghost use Rattle.c25_warning_pages.specs.Pages.{IsPageOf};

use crate::page::Page;
use crate::texts;
use c25_page_reports::PageWarningKind;
use c25_warnings::{LinkWarningKind, WarningKind};

/// A warning of any kind.
#[derive(Clone, Copy)]
pub enum AnyWarning {
    /// A warning of a line of a source.
    Line(WarningKind),
    /// A warning of a section of a command file.
    Section(LinkWarningKind),
    /// A warning of data pages.
    DataPage(PageWarningKind),
}

/// The page of a warning of a line of a source.
fn line_page(kind: WarningKind) -> Page
    ensures { result.name.now ≡ warning_name kind }
{
    match kind {
        WarningKind::MnemonicLabel => texts::mnemonic_label(),
        WarningKind::DirectiveLabel => texts::directive_label(),
        WarningKind::RegisterShift => texts::register_shift(),
        WarningKind::ProgramAddress => texts::program_address(),
        WarningKind::DataAddress => texts::data_address(),
        WarningKind::NotRepeatable => texts::not_repeatable(),
        WarningKind::Unused => texts::unused(),
        WarningKind::NotReached => texts::not_reached(),
    }
}

/// The page of a warning of a command file.
fn section_page(kind: LinkWarningKind) -> Page
    ensures { result.name.now ≡ link_warning_name kind }
{
    match kind {
        LinkWarningKind::ReservedInProgram => texts::reserved_in_program(),
        LinkWarningKind::AbsentSection => texts::absent_section(),
    }
}

/// The page of a warning of data pages.
fn data_page(kind: PageWarningKind) -> Page
    ensures { result.name.now ≡ page_warning_name kind }
{
    match kind {
        PageWarningKind::WrongPage => texts::wrong_page(),
        PageWarningKind::PageUnsure => texts::page_unsure(),
        PageWarningKind::NotFollowed => texts::not_followed(),
        PageWarningKind::CodeLeft => texts::code_left(),
    }
}

/// The page of a warning: what it means, its smallest example and what to do.
pub fn page_of(warning: AnyWarning) -> Page
    ensures { IsPageOf warning result }
{
    match warning {
        AnyWarning::Line(kind) => line_page(kind),
        AnyWarning::Section(kind) => section_page(kind),
        AnyWarning::DataPage(kind) => data_page(kind),
    }
}
