//! The lines of a run, made without allocation.

ghost use Rattle.std.specs.Prelude.{◌≡◌, ◌+◌, ◌*◌, ◌≤◌, ◌++◌, codes, decimal, length};
ghost use Rattle.arrayvec.specs.ArrayString.{array_string_len};
ghost use Rattle.arrayvec.specs.ArrayVec.{array_vec_len};
ghost use Rattle.c25_chain.specs.OutcomeText.{outcome_text};
ghost use Rattle.c25_meaning_processor.specs.RunText.{output_line, outputs_text};
ghost use Rattle.c25_run.specs.Timed.{at_step, timed_line, timed_text};

use arrayvec::{ArrayString, ArrayVec};
use c25_board::board::Outcome;
use c25_texts::digits::four_bytes;
use itoa::Buffer;

/// How many bytes the lines of a batch of outputs have at most, each at most 11.
pub(crate) const LINES: usize = 45_056;

/// How many bytes the line of an output after the number of its step has at most.
pub(crate) const TIMED_LINE: usize = 22;

/// The lines of a batch of outputs.
pub(crate) type OutputLines = ArrayVec<u8, 45_056>;

/// The line that says how a run ended.
pub(crate) type OutcomeLine = ArrayString<32>;

/// Appends the number of a port in decimal.
#[inline(always)]
#[tactic(auto, using(std::proofs::lemmas::Fmt::decimal_digit))]
fn push_port(lines: &mut OutputLines, port: u16)
    requires { array_vec_len lines.old + 5 ≤ 45056 }
    ensures bytes { lines.new.items ≡ lines.old.items ++ decimal port }
    ensures short { array_vec_len lines.new ≤ array_vec_len lines.old + 5 }
{
    if port < 10 {
        lines.push(b'0' + port as u8);
    } else if port < 100 {
        lines.push(b'0' + (port / 10) as u8);
        lines.push(b'0' + (port % 10) as u8);
    } else {
        let mut number = Buffer::new();
        let _room = lines.try_extend_from_slice(number.format(port).as_bytes());
    }
}

/// Appends the line of an output.
#[inline(always)]
fn push_output(lines: &mut OutputLines, port: u16, word: u16)
    requires { array_vec_len lines.old + 11 ≤ 45056 }
    ensures bytes { lines.new.items ≡ lines.old.items ++ output_line (port, word) }
    ensures short { array_vec_len lines.new ≤ array_vec_len lines.old + 11 }
{
    push_port(lines, port);
    let [first, second, third, fourth] = four_bytes(word);
    let _room = lines.try_extend_from_slice(&[b' ', first, second, third, fourth, b'\n']);
}

/// Replaces `lines` by the lines of these outputs.
#[tactic(auto, using(crate::proofs::OutputLines::outputs_more, crate::proofs::OutputLines::outputs_none))]
pub(crate) fn put_outputs(lines: &mut OutputLines, outputs: &[(u16, u16)])
    requires { length outputs.now ≤ 4096 }
    ensures { lines.new.items ≡ outputs_text outputs.now }
{
    lines.clear();
    for (port, word) in outputs {
        push_output(lines, *port, *word);
    }
}

/// Appends the number of a step, and a blank.
fn push_step(lines: &mut OutputLines, step: u32)
    requires { array_vec_len lines.old + 11 ≤ 45056 }
    ensures bytes { lines.new.items ≡ lines.old.items ++ decimal step ++ codes " " }
    ensures short { array_vec_len lines.new ≤ array_vec_len lines.old + 11 }
{
    let mut number = Buffer::new();
    let _room = lines.try_extend_from_slice(number.format(step).as_bytes());
    lines.push(b' ');
}

/// Appends the line of an output after the number of its step.
fn push_timed(lines: &mut OutputLines, step: u32, port: u16, word: u16)
    requires { array_vec_len lines.old + 22 ≤ 45056 }
    ensures bytes { lines.new.items ≡ lines.old.items ++ timed_line (step, (port, word)) }
    ensures short { array_vec_len lines.new ≤ array_vec_len lines.old + 22 }
{
    push_step(lines, step);
    push_output(lines, port, word);
}

/// Appends the lines of the outputs of a step, each after its number.
#[tactic(auto, using(crate::proofs::OutputLines::timed_more, crate::proofs::OutputLines::timed_none))]
pub(crate) fn push_outputs(lines: &mut OutputLines, step: u32, outputs: &[(u16, u16)])
    requires { array_vec_len lines.old + 22 * length outputs.now ≤ 45056 }
    ensures { lines.new.items ≡ lines.old.items ++ timed_text (at_step step outputs.now) }
{
    for (port, word) in outputs {
        push_timed(lines, step, *port, *word);
    }
}

/// Replaces `line` by a text that ends with a blank, and a number of steps.
fn put_count(line: &mut OutcomeLine, word: &str, steps: u32)
    requires { length word.now ≤ 5 }
    ensures bytes { line.new.bytes ≡ word.now ++ decimal steps }
    ensures short { array_string_len line.new ≤ 15 }
{
    let mut number = Buffer::new();
    line.clear();
    line.push_str(word);
    line.push_str(number.format(steps));
}

/// Replaces `line` by the line that says how a run ended.
pub(crate) fn put_outcome(line: &mut OutcomeLine, outcome: Outcome, steps: u32)
    ensures { line.new.bytes ≡ outcome_text outcome steps }
{
    match outcome {
        Outcome::Ran => {
            put_count(line, "ran ", steps);
            line.push_str("\n");
        }
        Outcome::Left(_, stop) => {
            put_count(line, "left ", steps);
            line.push_str(" ");
            line.push_str(stop.name());
            line.push_str("\n");
        }
        Outcome::SinkFault(_) => {
            put_count(line, "sink ", steps);
            line.push_str("\n");
        }
    }
}
