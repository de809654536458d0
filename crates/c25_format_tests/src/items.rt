//! Tests of the fields of lines, of numbers and of items of texts.

use crate::values::equal;
use c25_meaning_common::failure::Failure;
use c25_meaning_common::placed::Placed;
use c25_texts::{LineFormat, decimal_of, hexadecimal_of, is_word, read_items};
use std::alloc::Global;

#[test]
fn words_are_numbers_and_names(rt: HostRuntime) {
    let decimals = [decimal_of(15, b"015"), decimal_of(15, b"16")];
    let hexadecimals = [hexadecimal_of(4, b"0aF9"), hexadecimal_of(4, b"FFF")];
    let names = [is_word(b"ReGs", "regs"), is_word(b"reg", "regs")];
    let wanted = ([Some(15), None], [Some(0x0af9), None], [true, false]);
    equal(&rt, (decimals, hexadecimals, names), wanted);
}

/// The format of a line of at most three fields: its item is their number.
struct Counts;

impl LineFormat for Counts {
    ghost use Rattle.std.specs.Prelude.{Some, None, length, nat_le, if◌then◌else◌};

    type Item = usize;

    type Fault = &'static str;

    ghost item_of = { λ before words. if nat_le (length words) 3 then Some (length words) else None };

    fn item(_before: &[usize], words: &[&[u8]]) -> Option<usize> {
        if words.len() <= 3 {
            Some(words.len())
        } else {
            None
        }
    }

    fn fault() -> &'static str {
        "TooManyWords"
    }
}

/// Why a line is refused: it has too many fields.
type Refused = Failure<Placed<usize, &'static str>>;

/// The counts of a text's lines, if it has two lines.
fn two_counts(alloc: Global, text: &str) -> Result<Option<[usize; 2]>, Refused> {
    let counts = read_items::<Counts>(alloc, text)?;
    match counts.as_slice() {
        [first, second] => Ok(Some([*first, *second])),
        _ => Ok(None),
    }
}

#[test]
fn lines_are_counted_from_one(rt: HostRuntime) {
    let found = [
        two_counts(rt.alloc(), "a b\r\n\n \t\n c\td  e "),
        two_counts(rt.alloc(), "a\r\n\nb\n a b c d\na b c d"),
    ];
    let refused = Placed {
        place: 4,
        fault: "TooManyWords",
    };
    let wanted = [Ok(Some([2, 3])), Err(Failure::Fault(refused))];
    equal(&rt, found, wanted);
}
