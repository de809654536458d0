//! The commands at the prompt, and why a line is invalid or refused.

ghost use Rattle.std.specs.Prelude.{◌≡◌};
ghost use Rattle.c25_prompt_lines.specs.Wrong.{wrong_text};

use c25_meaning_processor::script::Cmd;

/// What is shown as a number.
#[derive(Clone, Copy)]
pub enum Shown {
    /// This number.
    Number(u16),
    /// The word at this data address.
    Word(u16),
}

/// A command at the prompt.
#[derive(Clone, Copy)]
pub enum PromptCommand {
    /// A command of a script.
    Script(Cmd),
    /// Do so many steps, each over the whole of a routine that it calls.
    Next(u32),
    /// Run to the return of this call.
    Finish,
    /// Run so many steps at most, with a breakpoint at a program address that is not kept.
    Until { address: u16, count: u32 },
    /// Let runs stop after a step that changes the word at a data address.
    Watch(u16),
    /// Watch a data address no longer.
    Unwatch(u16),
    /// Set a breakpoint that is cleared when it is met.
    Once(u16),
    /// Let runs pass the next so many meetings of the breakpoint at a program address.
    Ignore { address: u16, count: u32 },
    /// Show how many meetings of each breakpoint are passed.
    Ignored,
    /// Go to the point that was so many steps before.
    Back(u32),
    /// Go back to the last point at which a breakpoint is met or a watched word is another.
    BackTo,
    /// Show how often a breakpoint at a program address was met.
    Hits(u16),
    /// Show so many of the last steps that led elsewhere than on.
    Trace(u32),
    /// Show how many samples each port has left.
    Inputs,
    /// Show so many instructions of the program from a program address on.
    ListFrom { address: u16, count: u32 },
    /// Show so many of the last outputs.
    Outputs(u32),
    /// Show a number, or a word of data memory, in several forms.
    Print(Shown),
    /// Show the commands.
    Help,
    /// End the session.
    Quit,
}

/// A command of a session: one of the prompt, or one that shows lines of the sources or says what is displayed.
#[derive(Clone, Copy)]
pub enum SessionCommand {
    /// A command of the prompt.
    Plain(PromptCommand),
    /// Show the lines of the source around the one where the instruction at PC stands.
    Line,
    /// Show this, and again after each command that leads to another state.
    Display(Shown),
    /// Show what is displayed.
    Displayed,
    /// Do not display what has this number any longer.
    Undisplay(u32),
    /// Display nothing any longer.
    UndisplayAll,
}

/// Why a line is invalid, or its command is refused.
#[derive(Clone, Copy, PartialEq, Debug)]
pub enum Wrong {
    /// There is no command of this name.
    NoCommand,
    /// The command has other operands.
    Operands,
    /// A count is not a decimal number, or is too large.
    Count,
    /// The program has no symbol of this name.
    NoName,
    /// Several sources have a symbol of this name.
    SeveralNames,
    /// No instruction begins at this line of a source.
    NoLine,
    /// The number is too large for an address.
    TooFar,
    /// Some of the words are not in the memory.
    Outside,
    /// This is neither an address nor an expression.
    NoExpression,
    /// A name in an expression has no address, or one in several sources.
    NoNameInside,
    /// An expression divides by 0.
    DivideByZero,
    /// A value is too large.
    TooLarge,
    /// No breakpoint is set at this address.
    NoBreakpoint,
}

impl Wrong {
    /// The reason in words.
    pub fn text(&self) -> &'static str
        ensures { result.now ≡ wrong_text self.now }
    {
        match self {
            Wrong::NoCommand => "no command has this name: `help` shows those that there are",
            Wrong::Operands => "this command has other operands: `help` shows them",
            Wrong::Count => "a count is a decimal number, at most 4294967295",
            Wrong::NoName => "the program has no symbol of this name",
            Wrong::SeveralNames => "several sources have a symbol of this name: write SOURCE:NAME",
            Wrong::NoLine => "no instruction begins at this line",
            Wrong::TooFar => "an address is at most FFFF",
            Wrong::Outside => "the memory ends before the last of these words",
            Wrong::NoExpression => "this is neither an address nor an expression",
            Wrong::NoNameInside =>
                "a name in this expression has no address, or one in several sources",
            Wrong::DivideByZero => "this expression divides by 0",
            Wrong::TooLarge =>
                "a value has 16 bits, 32 on the way to it, and a shift count is at most 31",
            Wrong::NoBreakpoint => "no breakpoint is set at this address",
        }
    }
}
