//! The samples that ports have left.

ghost use Rattle.std.specs.Prelude.{◌≡◌, ◌++◌, OnOk, string_bytes};
ghost use Rattle.c25_prompt_texts.specs.Inputs.{input_line, inputs_below};

use c25_meaning_common::no_memory::NoMemory;
use c25_texts::appending::push_texts;
use c25_unused_inputs::ports::count_at;
use itoa::Buffer;

/// Appends the line of a port, if it has samples left.
fn push_input(text: &mut String, port: u16, left: u64) -> Result<(), NoMemory>
    ensures { OnOk result (string_bytes text.new ≡ string_bytes text.old ++ input_line port left) }
{
    if left == 0 {
        return Ok(());
    }
    let (mut digits, mut count) = (Buffer::new(), Buffer::new());
    push_texts(text, &[digits.format(port), " ", count.format(left), "\n"])
}

/// Appends a line for each of the ports 0 to 15 that has samples left: the port, and how many. `left` has the
/// counts of the ports.
pub fn push_inputs(text: &mut String, left: &[u64]) -> Result<(), NoMemory>
    ensures { OnOk result (string_bytes text.new ≡ string_bytes text.old ++ inputs_below left.now 16) }
{
    for port in 0..16 {
        push_input(text, port, count_at(left, port))?;
    }
    Ok(())
}
