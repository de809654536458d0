//! Why a line of samples, of a schedule or of a script is refused, and the sentence that says what is wanted there.

ghost use Rattle.std.specs.Prelude.{◌≡◌};
ghost use Rattle.c25_file_hints.specs.Items.{cause_text};

/// Why a line is refused.
#[derive(Clone, Copy, PartialEq, Debug)]
pub enum Cause {
    /// A comment stands in the line.
    Comment,
    /// A line of samples has other than two parts.
    SampleParts,
    /// The first part of a line of samples is no port.
    Port,
    /// The second part of a line of samples is no word.
    Word,
    /// A line of a schedule has other than two parts.
    EntryParts,
    /// The first part of a line of a schedule is no step.
    Step,
    /// The second part of a line of a schedule is no event.
    Event,
    /// The step of a line of a schedule is less than that of the line before.
    Order,
    /// The first part of a line of a script is the name of no command.
    Command,
    /// Something stands after a command that takes nothing.
    Alone,
    /// What stands after a command that takes a count is no count alone.
    Count,
    /// What stands after a command that takes an address is no address alone.
    Address,
    /// Other than two parts stand after a command that shows words of the memory.
    MemoryParts,
    /// The first of these two parts is no address.
    MemoryAddress,
    /// The second of these two parts is no count.
    MemoryCount,
    /// The words of such a command go on past the end of the memory.
    PastMemory,
}

impl Cause {
    /// What is wanted in the line.
    pub fn text(self) -> &'static str
        ensures { result.now ≡ cause_text self }
    {
        match self {
            Cause::Comment => {
                "there are no comments in samples, schedules and scripts: take it out"
            }
            Cause::SampleParts => "a line has two parts, a port and a word",
            Cause::Port => "the first part is a port, a decimal number from 0 to 15",
            Cause::Word => "the second part is a word of four hexadecimal digits, without h",
            Cause::EntryParts => "a line has two parts, a step and an event",
            Cause::Step => "the first part is a step, a decimal number up to 4294967295",
            Cause::Event => "the second part is INT0, INT1, INT2, BIO0 or BIO1",
            Cause::Order => "the step is less than that of the line before",
            Cause::Command => {
                "a command is step, run, list, break, clear, regs, data, prog, stack, where or symbols"
            }
            Cause::Alone => "regs, stack, where and symbols stand alone in a line",
            Cause::Count => {
                "after step, run or list stands a count alone, a decimal number up to 4294967295"
            }
            Cause::Address => {
                "after break or clear stands an address alone, one to four hexadecimal digits without h"
            }
            Cause::MemoryParts => "after data or prog stand an address and a count of words",
            Cause::MemoryAddress => {
                "the second part is an address, one to four hexadecimal digits without h"
            }
            Cause::MemoryCount => {
                "the third part is a count of words, a decimal number up to 4294967295"
            }
            Cause::PastMemory => "the words go on past FFFF, the last word of the memory",
        }
    }
}
