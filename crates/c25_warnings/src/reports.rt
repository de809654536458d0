//! The warnings so far.

ghost use Rattle.std.specs.Prelude.{◌≡◌, [], IfOk, OnOk};
ghost use Rattle.std.specs.List.{list_any};
ghost use Rattle.c25_line_warnings.specs.View.{line_of};
ghost use Rattle.c25_warnings.specs.View.{warning_of, warnings_view};
ghost use Rattle.c25_warnings.specs.Warnings.{at_line, same, with_new};

use crate::warning::Warning;
use c25_line_warnings::source_line::SourceLine;
use c25_line_warnings::warning_kind::WarningKind;
use c25_meaning_common::no_memory::NoMemory;
use std::alloc::Global;
use std::marker::Model;

/// Whether two warnings are of one kind and of one line.
fn is_same(a: &Warning<'_>, b: &Warning<'_>) -> bool
    ensures { result ≡ same (warning_of a.now) (warning_of b.now) }
{
    a.line == b.line && a.file == b.file && a.kind.name() == b.kind.name()
}

/// Whether a warning is among others.
fn has_same(warnings: &[Warning<'_>], warning: &Warning<'_>) -> bool
    ensures { result ≡ list_any (λ w. same (warning_of warning.now) (warning_of w)) warnings.now }
{
    warnings.iter().any(|other| is_same(warning, other))
}

/// Warnings in the order of lines, of which each line has at most one of a kind: expansion may give a line several times.
#[derive(Drop)]
pub(crate) struct Reports<'a> {
    alloc: Global,
    warnings: Vec<Warning<'a>>,
}

impl<'a> Model for Reports<'a> {
    ghost use Rattle.std.specs.Prelude.{List};
    ghost use Rattle.c25_warnings.specs.View.{warnings_view};
    ghost use Rattle.c25_warnings.specs.Warnings.{Warning};

    ghost Value = { List Warning };

    ghost view = { λ r. warnings_view r.warnings.items };
}

impl<'a> Reports<'a> {
    pub(crate) fn new(alloc: Global) -> Reports<'a>
        ensures { result ≡ [] }
    {
        Reports {
            alloc,
            warnings: Vec::new(alloc),
        }
    }

    /// The allocator of these warnings.
    pub(crate) fn alloc(&self) -> Global {
        self.alloc
    }

    /// Adds a warning of a line, unless the line has one of this kind.
    pub(crate) fn add(
        &mut self,
        kind: WarningKind,
        line: &SourceLine<'a>,
        name: &str,
    ) -> Result<(), NoMemory>
        ensures { OnOk result (self.new ≡ with_new self.old (at_line (line_of line.now) kind name.now)) }
    {
        let text = String::from_str(self.alloc, line.text.as_str())?;
        let name = String::from_str(self.alloc, name)?;
        let warning = Warning {
            kind,
            file: line.file,
            line: line.line,
            text,
            name,
        };
        if !has_same(self.warnings.as_slice(), &warning) {
            self.warnings.push(warning)?;
        }
        Ok(())
    }

    /// All warnings.
    pub(crate) fn into_list(self) -> Vec<Warning<'a>>
        ensures { warnings_view result.items ≡ self.entry }
    {
        self.warnings
    }
}
