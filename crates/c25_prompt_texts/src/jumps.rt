//! Jumps of a run.

ghost use Rattle.std.specs.Prelude.{◌≡◌, ◌++◌, codes, option_map, OnOk, string_bytes};
ghost use Rattle.std.specs.Fmt.{decimal};
ghost use Rattle.c25_meaning_common.specs.Digits.{four_digits};
ghost use Rattle.c25_meaning_debugger.specs.Texts.{source_line_end};
ghost use Rattle.c25_prompt_texts.specs.Jumps.{jump_line};

use c25_meaning_common::no_memory::NoMemory;
use c25_texts::appending::{push_text, push_texts};
use c25_texts::digits::four;
use itoa::Buffer;

/// A step that led elsewhere than to the same address or to one or two words on: a branch, a call, a return or an
/// interrupt.
#[derive(Clone, Copy)]
pub struct Jump {
    /// How many steps were done with it.
    pub steps: u32,
    /// PC before it.
    pub from: u16,
    /// PC after it.
    pub to: u16,
}

/// Appends how many steps were done with a jump, and its addresses.
fn push_addresses(text: &mut String, jump: &Jump) -> Result<(), NoMemory>
    ensures { OnOk result (string_bytes text.new ≡ string_bytes text.old ++ (decimal jump.now.steps ++ codes " " ++ four_digits jump.now.from ++ codes " " ++ four_digits jump.now.to)) }
{
    let mut digits = Buffer::new();
    let (from, to) = (four(jump.from), four(jump.to));
    push_texts(
        text,
        &[
            digits.format(jump.steps),
            " ",
            from.as_str(),
            " ",
            to.as_str(),
        ],
    )
}

/// Appends the end of a line: where its instruction stands in the sources, if that is known.
fn push_place(text: &mut String, source: Option<(&str, u32)>) -> Result<(), NoMemory>
    ensures { OnOk result (string_bytes text.new ≡ string_bytes text.old ++ source_line_end (option_map (λ r. (r.0.now, r.1)) source.entry)) }
{
    match source {
        None => push_text(text, "\n"),
        Some((file, line)) => {
            let mut digits = Buffer::new();
            push_texts(text, &[" ", file, ":", digits.format(line), "\n"])
        }
    }
}

/// Appends the line of a jump: how many steps were done with it, from where and to where it led, and where the
/// instruction there stands in the sources, if that is known.
pub fn push_jump(
    text: &mut String,
    jump: &Jump,
    source: Option<(&str, u32)>,
) -> Result<(), NoMemory>
    ensures { OnOk result (string_bytes text.new ≡ string_bytes text.old ++ jump_line (option_map (λ r. (r.0.now, r.1)) source.entry) jump.entry.now) }
{
    push_addresses(text, jump)?;
    push_place(text, source)
}
