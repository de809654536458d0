//! The warnings of data pages, and how they are shown.

ghost use Rattle.std.specs.Prelude.{◌≡◌, ◌++◌, IfOk, OnOk, string_bytes};
ghost use Rattle.c25_page_reports.specs.Warnings.{page_warning_lines, page_warning_name, page_warning_text};

use c25_meaning_common::no_memory::NoMemory;
use std::alloc::Global;

/// What a program does with data pages that is most likely a mistake, or that cannot be followed.
#[derive(Clone, Copy, PartialEq, Debug)]
pub enum PageWarningKind {
    /// A direct operand is another word than the one that its name means, since DP is another page.
    WrongPage,
    /// DP is not known where a direct operand names a word.
    PageUnsure,
    /// The program cannot be followed through an instruction.
    NotFollowed,
    /// The program goes on to an address where no statement stands, or a repeat runs what may not be repeated.
    CodeLeft,
}

impl PageWarningKind {
    /// The warning's name, as shown to the user.
    pub fn name(&self) -> &'static str
        ensures { result.now ≡ page_warning_name self.now }
    {
        match self {
            PageWarningKind::WrongPage => "WrongPage",
            PageWarningKind::PageUnsure => "PageUnsure",
            PageWarningKind::NotFollowed => "NotFollowed",
            PageWarningKind::CodeLeft => "CodeLeft",
        }
    }
}

/// A warning of the data pages of a program.
#[derive(Debug, Drop)]
pub struct PageWarning {
    pub kind: PageWarningKind,
    /// The name of the file in which the instruction stands.
    pub file: String,
    /// The number of its line, from 1.
    pub line: u32,
    /// What is known, in words.
    pub remark: String,
}

/// The line of a warning, without a line feed: `a.asm:3: warning WrongPage: X is on page 6, DP is 0`.
///
/// `NoMemory` where memory runs out.
pub fn write_page_warning(alloc: Global, warning: &PageWarning) -> Result<String, NoMemory>
    ensures { IfOk result (λ text. string_bytes text ≡ page_warning_text warning.now) }
{
    let file = warning.file.as_str();
    let line = warning.line;
    let name = warning.kind.name();
    let remark = warning.remark.as_str();
    Ok(format!(in alloc; "{file}:{line}: warning {name}: {remark}")?)
}

/// Warnings, each on a line.
///
/// `NoMemory` where memory runs out.
pub fn write_page_warnings(alloc: Global, warnings: &[PageWarning]) -> Result<String, NoMemory>
    ensures { IfOk result (λ text. string_bytes text ≡ page_warning_lines warnings.now) }
{
    let mut text = String::new(alloc);
    for warning in warnings {
        let line = write_page_warning(alloc, warning)?;
        text.push_str(line.as_str())?;
        text.push('\n')?;
    }
    Ok(text)
}
