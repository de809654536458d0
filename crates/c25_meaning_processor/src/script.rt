//! Commands of the debugger.

use thiserror::Error;

/// A command of a script. Counts are in decimal, addresses in hexadecimal.
#[derive(Clone, Copy)]
pub enum Cmd {
    /// Do so many steps.
    Step(u32),
    /// Do so many steps, but end at the first breakpoint.
    Run(u32),
    /// Set a breakpoint at a program address.
    Break(u16),
    /// Clear the breakpoint at a program address.
    Clear(u16),
    /// Show the registers.
    Regs,
    /// Show so many words of data memory; address and count are at most 65,536 together.
    Data { address: u16, count: u32 },
    /// Show so many words of program memory; address and count are at most 65,536 together.
    Prog { address: u16, count: u32 },
    /// Show the hardware stack.
    Stack,
    /// Show the instruction at PC.
    Where,
    /// Show at most so many instructions of the image, from PC on.
    List(u32),
    /// Show the symbols.
    Symbols,
}

/// A line is no command (95). It is reported with the number of the line, counted from 1.
#[derive(Clone, Copy, Debug, Error)]
#[error("{}", self.name())]
pub struct BadCommand;

impl BadCommand {
    ghost use Rattle.std.specs.Prelude.{◌≡◌, codes};

    /// The fault number shown to the user.
    pub fn number(&self) -> u8
        ensures { result ≡ 95 }
    {
        95
    }

    /// The name of the fault shown to the user.
    pub fn name(&self) -> &'static str
        ensures { result.now ≡ codes "BadCommand" }
    {
        "BadCommand"
    }
}
