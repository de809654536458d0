//! The lines that answer steps, made without allocation.

ghost use Rattle.std.specs.Prelude.{◌≡◌, ◌+◌, ◌≤◌, ◌++◌, codes, decimal, length};
ghost use Rattle.arrayvec.specs.ArrayString.{array_string_len};
ghost use Rattle.c25_meaning_common.specs.Digits.{four_digits};
ghost use Rattle.c25_meaning_processor.specs.RunText.{stop_name};

use arrayvec::ArrayString;
use c25_meaning_processor::stop::Stop;
use c25_texts::digits::four;
use itoa::Buffer;

/// How many bytes the longest answer to steps has: `left 4294967295 OutOfCode` and its LF.
pub(crate) const MOST_BYTES: usize = 26;

/// A text and after it a number in decimal.
fn counted(word: &str, steps: u32) -> ArrayString<MOST_BYTES>
    requires { length word.now ≤ 6 }
    ensures bytes { result.bytes ≡ word.now ++ decimal steps }
    ensures short { array_string_len result ≤ length word.now + 10 }
{
    let mut digits = Buffer::new();
    let mut line = ArrayString::new();
    line.push_str(word);
    line.push_str(digits.format(steps));
    line
}

/// The line where all steps were done.
pub(super) fn ran(steps: u32) -> ArrayString<MOST_BYTES>
    ensures { result.bytes ≡ codes "ran " ++ decimal steps ++ codes "\n" }
{
    let mut line = counted("ran ", steps);
    line.push_str("\n");
    line
}

/// The line where a breakpoint was met.
pub(super) fn met(steps: u32, pc: u16) -> ArrayString<MOST_BYTES>
    ensures { result.bytes ≡ codes "break " ++ decimal steps ++ codes " " ++ four_digits pc ++ codes "\n" }
{
    let mut line = counted("break ", steps);
    line.push_str(" ");
    line.push_str(four(pc).as_str());
    line.push_str("\n");
    line
}

/// The line where a step stopped.
pub(super) fn left(steps: u32, stop: Stop) -> ArrayString<MOST_BYTES>
    ensures { result.bytes ≡ codes "left " ++ decimal steps ++ codes " " ++ stop_name stop ++ codes "\n" }
{
    let mut line = counted("left ", steps);
    line.push_str(" ");
    line.push_str(stop.name());
    line.push_str("\n");
    line
}

/// The line where the sink refused a word.
pub(super) fn sink(steps: u32) -> ArrayString<MOST_BYTES>
    ensures { result.bytes ≡ codes "sink " ++ decimal steps ++ codes "\n" }
{
    let mut line = counted("sink ", steps);
    line.push_str("\n");
    line
}
