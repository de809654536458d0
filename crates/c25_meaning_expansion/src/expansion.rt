//! The directives that expansion acts on, and the state of an open `.if`.

/// The directives that expansion acts on; the lines that it gives have none of them (SPRU018, assembler
/// directives and macro language).
#[derive(Clone, Copy)]
pub enum Directive {
    /// `.if`
    If,
    /// `.elseif`
    ElseIf,
    /// `.else`
    Else,
    /// `.endif`
    EndIf,
    /// `.macro`
    Macro,
    /// `.endm`
    EndMacro,
    /// `.mexit`
    ExitMacro,
    /// `.loop`
    Loop,
    /// `.break`
    Break,
    /// `.endloop`
    EndLoop,
    /// `.asg`
    Assign,
    /// `.eval`
    Evaluate,
    /// `.copy`, `.include`
    Copy,
    /// `.end`
    End,
}

/// What happens to the lines of an open `.if` from here on.
#[derive(Clone, Copy)]
pub enum Phase {
    /// Lines are skipped: no condition was true so far.
    Seeking,
    /// Lines are taken: the last condition was true.
    Taking,
    /// Lines are skipped: those of a true condition were taken before.
    Passing,
    /// Lines are taken: they stand after `.else`, and no condition was true.
    ElseTaking,
    /// Lines are skipped: they stand after `.else`, and those of a true condition were taken before.
    ElsePassing,
}

/// An open `.if`.
#[derive(Clone, Copy)]
pub struct Branch {
    pub phase: Phase,
    /// How many `.if`s are open inside the lines that are being skipped.
    pub nested: usize,
}
