//! Fields of words, words as 32 bits, and reversed carry: one example of each call.

use crate::values::equal;
use c25_bits::{Field, extend, reverse_add, reverse_sub};

#[test]
fn a_field_is_read_and_replaced(rt: HostRuntime) {
    let words = [
        Field::<12, 4>::get(0x9f8a),
        Field::<8, 4>::put(0x908a, 15),
        Field::<0, 16>::get(0xffff),
    ];
    let fit = [
        Field::<0, 9>::fits(511),
        Field::<0, 9>::fits(512),
        Field::<0, 9>::fits(-1),
    ];
    let wanted = ([9, 0x9f8a, 0xffff], [true, false, false]);
    equal(&rt, (words, fit), wanted);
}

#[test]
fn a_word_is_extended(rt: HostRuntime) {
    let extended = [
        extend(0x8001, true),
        extend(0x8001, false),
        extend(0x7fff, true),
    ];
    equal(&rt, extended, [0xffff_8001, 0x8001, 0x7fff]);
}

/// A table of sixteen entries in bit-reversed order, with AR0 half its length.
#[test]
fn carries_go_down(rt: HostRuntime) {
    let found = [
        reverse_add(0, 8),
        reverse_add(8, 8),
        reverse_add(4, 8),
        reverse_add(12, 8),
        reverse_sub(2, 8),
        reverse_sub(0, 0x8000),
    ];
    equal(&rt, found, [8, 4, 12, 2, 12, 0xffff]);
}
