//! The outputs of a run.

ghost use Rattle.std.specs.Prelude.{◌≡◌, ◌++◌, OnOk, string_bytes};
ghost use Rattle.c25_prompt_texts.specs.Outputs.{output_shown, outputs_shown};

use c25_meaning_common::no_memory::NoMemory;
use c25_texts::appending::push_texts;
use c25_texts::digits::four;
use itoa::Buffer;

/// An output of a run, with its step.
#[derive(Clone, Copy)]
pub struct TimedOutput {
    /// How many steps were done with the one that put it out.
    pub steps: u32,
    pub port: u16,
    pub word: u16,
}

/// Appends the line of an output.
fn push_output(text: &mut String, output: &TimedOutput) -> Result<(), NoMemory>
    ensures { OnOk result (string_bytes text.new ≡ string_bytes text.old ++ output_shown output.now) }
{
    let (mut steps, mut port) = (Buffer::new(), Buffer::new());
    let word = four(output.word);
    push_texts(
        text,
        &[
            steps.format(output.steps),
            " ",
            port.format(output.port),
            " ",
            word.as_str(),
            "\n",
        ],
    )
}

/// Appends the lines of outputs, each the number of its step, a port and a word.
pub fn push_outputs(text: &mut String, outputs: &[TimedOutput]) -> Result<(), NoMemory>
    ensures { OnOk result (string_bytes text.new ≡ string_bytes text.old ++ outputs_shown outputs.now) }
{
    for output in outputs {
        push_output(text, output)?;
    }
    Ok(())
}
