//! Tests of lines and their tokens, as a caller sees them.

use crate::values::equal;
use c25_meaning_common::bytes::{begins_name, byte_at, is_blank, is_digit};
use c25_meaning_common::digits::{are_digits, digit, value_in};
use c25_meaning_common::runs::{all_go_on_name, constant_run, name_run};
use c25_meaning_language::line::{Sign, TokenKind};
use c25_text::line::{Word, first_word, split_line};
use c25_text::tokens::Tokens;
use c25_text::{constant_value, past_blanks, past_field, quoted_len};
use std::test::Fail;

/// The place and the text of a part.
fn placed<'a>(part: Option<Word<'a>>) -> Option<(usize, &'a str)> {
    match part {
        Some(word) => Some((word.start, word.text)),
        None => None,
    }
}

/// The kind, the place and the text of the next token.
fn next_of<'a>(tokens: &mut Tokens<'a>) -> Option<(TokenKind, usize, &'a str)> {
    match tokens.next() {
        Some(token) => Some((token.kind, token.start, token.text)),
        None => None,
    }
}

#[test]
fn a_line_has_its_parts(rt: HostRuntime) -> Result<(), Fail> {
    let line = split_line("GO:\tOUT 60h,.x ; é")?;
    let parts = (line.label, placed(line.word), placed(line.comment));
    let wanted = (Some("GO"), Some((4, "OUT")), Some((15, "; é")));
    equal(&rt, parts, wanted);
    let mut tokens = line.tokens();
    let found = [
        next_of(&mut tokens),
        next_of(&mut tokens),
        next_of(&mut tokens),
        next_of(&mut tokens),
    ];
    let wanted = [
        Some((TokenKind::Constant, 8, "60h")),
        Some((TokenKind::Sign(Sign::Comma), 11, ",")),
        Some((TokenKind::DottedName, 12, ".x")),
        None,
    ];
    equal(&rt, found, wanted);
    Ok(())
}

#[test]
fn the_first_word_is_found_on_any_text(rt: HostRuntime) {
    let found = [
        first_word("X: NOP ; é"),
        first_word("é\t.endm;"),
        first_word("* NOP"),
        first_word("X ;NOP"),
    ];
    equal(&rt, found, [Some("NOP"), Some(".endm"), None, None]);
}

#[test]
fn bytes_and_digits_are_of_their_kinds(rt: HostRuntime) {
    let some = [
        is_blank(b'\t'),
        is_digit(b'9'),
        begins_name(b'_'),
        all_go_on_name(b"1$_"),
        are_digits(16, b"1aF"),
    ];
    let others = [
        is_blank(b';'),
        is_digit(b'A'),
        begins_name(b'$'),
        all_go_on_name(b"a."),
        are_digits(8, b"18"),
        are_digits(10, b""),
    ];
    equal(&rt, (some, others), ([true; 5], [false; 6]));
}

#[test]
fn runs_end_before_another_byte(rt: HostRuntime) {
    let runs = [
        name_run(b"a$1+b"),
        constant_run(b"12h_"),
        past_blanks(b" \tb", 0),
        past_field(b"a;b", 0),
        quoted_len(b"a\"\"b\"c").unwrap_or(0),
    ];
    equal(&rt, runs, [3, 3, 2, 1, 5]);
}

#[test]
fn bytes_make_numbers(rt: HostRuntime) {
    let bytes = [
        digit(b'9'),
        digit(b'f'),
        digit(b'_'),
        byte_at(b"ab", 1),
        byte_at(b"ab", 2),
    ];
    let numbers = [
        value_in(16, b"1aF"),
        value_in(10, b"4294967297"),
        u64::from(constant_value(b"60h")),
    ];
    let wanted = ([9, 15, 36, b'b', 0], [431, 4_294_967_296, 96]);
    equal(&rt, (bytes, numbers), wanted);
}
