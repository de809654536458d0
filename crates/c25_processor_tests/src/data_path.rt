//! The data path (`c25_alu`): one example of each call, at values worked out by hand.

use crate::values::equal;
use c25_alu::{
    add, negate, norm, product, rotate_left, rotate_right, shift_left, shift_left_once,
    shift_right_once, shifted_product, subc, subtract, take_absolute_value,
};
use c25_meaning_processor::accumulator::{Acc, ProductShift};

/// An accumulator with this value and these flags.
fn acc(value: u32, ov: bool, c: bool) -> Acc {
    Acc { value, ov, c }
}

/// 7FFFFFFFh plus 1, without OVM and with it; 0 less 1, which borrows while OV stays set; the absolute value
/// of -2, and 80000000h negated under OVM.
#[test]
fn sums_differences_and_signs(rt: HostRuntime) {
    let mut sum = acc(0x7fff_ffff, false, true);
    let mut saturated = sum;
    let mut difference = acc(0, true, true);
    let mut absolute = acc(0xffff_fffe, false, true);
    let mut negative = acc(0x8000_0000, false, true);
    add(&mut sum, 1, false);
    add(&mut saturated, 1, true);
    subtract(&mut difference, 1, false);
    take_absolute_value(&mut absolute, false);
    negate(&mut negative, true);
    let found = [sum, saturated, difference, absolute, negative];
    let wanted = [
        acc(0x8000_0000, true, false),
        acc(0x7fff_ffff, true, false),
        acc(0xffff_ffff, true, false),
        acc(2, false, false),
        acc(0x7fff_ffff, true, false),
    ];
    equal(&rt, found, wanted);
}

/// 41 by 7: the quotient 5 in the low half, the remainder 6 in the high half.
#[test]
fn sixteen_steps_divide(rt: HostRuntime) {
    let mut quotient = acc(41, false, false);
    for _ in 0..16 {
        quotient = subc(quotient, 7 << 15);
    }
    equal(&rt, quotient.value, 0x0006_0005);
}

#[test]
fn products(rt: HostRuntime) {
    let found = [
        product(-1, 2),
        product(-32768, -32768),
        shifted_product(0xffff_ffc0, ProductShift::None),
        shifted_product(0xffff_ffc0, ProductShift::Left1),
        shifted_product(0xffff_ffc0, ProductShift::Left4),
        shifted_product(0xffff_ffc0, ProductShift::Right6),
    ];
    let wanted = [
        0xffff_fffe,
        0x4000_0000,
        0xffff_ffc0,
        0xffff_ff80,
        0xffff_fc00,
        0xffff_ffff,
    ];
    equal(&rt, found, wanted);
}

#[test]
fn shifts(rt: HostRuntime) {
    let moved = [shift_left(3, 31), shift_left(3, 32)];
    equal(&rt, moved, [0x8000_0000, 0]);
    let normalized = [norm(0x2000_0000), norm(0x4000_0000), norm(0)];
    equal(&rt, normalized, [Some(0x4000_0000), None, None]);
    let found = [
        shift_left_once(acc(0x8000_0001, false, false)),
        shift_right_once(acc(0x8000_0001, false, false), true),
        rotate_left(acc(0x8000_0000, false, true)),
        rotate_right(acc(1, false, true)),
    ];
    let wanted = [
        acc(2, false, true),
        acc(0xc000_0000, false, true),
        acc(1, false, true),
        acc(0x8000_0000, false, true),
    ];
    equal(&rt, found, wanted);
}
