//! Warnings, each with its place and the thing that it names.

use c25_line_warnings::warning_kind::WarningKind;

/// A warning of a line of a source.
#[derive(Debug, Drop)]
pub struct Warning<'a> {
    pub kind: WarningKind,
    /// The name of the file in which the line stands; a line of a macro stands where the macro's body does.
    pub file: &'a str,
    /// The number of the line in the file, from 1.
    pub line: usize,
    /// The line as it was read, after expansion.
    pub text: String,
    /// The symbol, register or mnemonic that the warning is about.
    pub name: String,
}

/// What a command file says that is most likely a mistake.
#[derive(Clone, Copy, PartialEq, Debug)]
pub enum LinkWarningKind {
    /// An uninitialised section, as `.bss` or that of a `.usect`, is placed in program memory.
    ReservedInProgram,
    /// A section of the command file that no module has.
    AbsentSection,
}

impl LinkWarningKind {
    ghost use Rattle.std.specs.Prelude.{◌≡◌};
    ghost use Rattle.c25_warnings.specs.Names.{link_warning_name};

    /// The warning's name, as shown to the user.
    pub fn name(&self) -> &'static str
        ensures { result.now ≡ link_warning_name self.now }
    {
        match self {
            LinkWarningKind::ReservedInProgram => "ReservedInProgram",
            LinkWarningKind::AbsentSection => "AbsentSection",
        }
    }
}

/// A warning of a command file, with the section that it is about.
#[derive(Clone, Copy, Debug)]
pub struct LinkWarning<'a> {
    pub kind: LinkWarningKind,
    pub section: &'a str,
}

/// The warnings of a program.
#[derive(Drop)]
pub struct ProgramWarnings<'a> {
    /// Those of its sources, one source after another.
    pub of_lines: Vec<Warning<'a>>,
    /// Those of its command file.
    pub of_sections: Vec<LinkWarning<'a>>,
}
