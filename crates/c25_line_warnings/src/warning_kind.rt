//! The warnings of a source.

ghost use Rattle.std.specs.Prelude.{◌≡◌};
ghost use Rattle.c25_line_warnings.specs.Names.{warning_name};

/// What a line of a source says that is most likely a mistake.
#[derive(Clone, Copy, PartialEq, Debug)]
pub enum WarningKind {
    /// A label in column 1 that is a mnemonic stands alone on its line, without a colon.
    MnemonicLabel,
    /// A label in column 1 that is a directive without its dot stands alone on its line, without a colon, and is
    /// never used.
    DirectiveLabel,
    /// The name of a register or a port stands where the shift of `ADD`, `SUB`, `LAC`, `SACL` or `SACH` does.
    RegisterShift,
    /// A data operand is the address of a word of program memory.
    ProgramAddress,
    /// A program operand is the address of a word of data memory.
    DataAddress,
    /// `RPT` or `RPTK` stands before an instruction that may not be repeated.
    NotRepeatable,
    /// A symbol is defined and never used.
    Unused,
    /// No branch leads to an instruction, and the words before it do not run into it.
    NotReached,
}

impl WarningKind {
    /// The warning's name, as shown to the user.
    pub fn name(&self) -> &'static str
        ensures { result.now ≡ warning_name self.now }
    {
        match self {
            WarningKind::MnemonicLabel => "MnemonicLabel",
            WarningKind::DirectiveLabel => "DirectiveLabel",
            WarningKind::RegisterShift => "RegisterShift",
            WarningKind::ProgramAddress => "ProgramAddress",
            WarningKind::DataAddress => "DataAddress",
            WarningKind::NotRepeatable => "NotRepeatable",
            WarningKind::Unused => "Unused",
            WarningKind::NotReached => "NotReached",
        }
    }
}
