//! Tests of lists of marks.

use crate::values::equal;
use c25_meaning_image::mark::{Mark, RunMark};
use c25_meaning_image::marks::{marks_fit, run_marks_fit};

/// Whether three marks of these sizes at these addresses fit.
fn fit(sizes: [u16; 3], addresses: [u16; 3]) -> bool {
    let [a, b, c] = addresses;
    marks_fit(&[
        Mark {
            address: a,
            size: sizes[0],
        },
        Mark {
            address: b,
            size: sizes[1],
        },
        Mark {
            address: c,
            size: sizes[2],
        },
    ])
}

#[test]
fn marks_of_an_image_fit(rt: HostRuntime) {
    let fitting = [marks_fit(&[]), fit([1, 2, 1], [0, 1, 0xffff])];
    equal(&rt, fitting, [true; 2]);
    let others = [
        // The last mark ends past the page.
        fit([1, 2, 2], [0, 1, 0xffff]),
        // Two marks share a word, or do not ascend.
        fit([1, 2, 1], [0, 1, 2]),
        fit([1, 1, 1], [0, 2, 1]),
        // A mark has three words, or none.
        fit([1, 3, 1], [0, 1, 9]),
        fit([0, 1, 1], [0, 1, 9]),
    ];
    equal(&rt, others, [false; 5]);
}

/// An instruction of this size that runs in block B0.
fn run_mark(load: u16, run: u16, size: u16) -> RunMark {
    RunMark { load, run, size }
}

/// The one mark of an image, next to which the instructions below are loaded.
const MARKS: [Mark; 1] = [Mark {
    address: 0x10,
    size: 2,
}];

/// Whether two instructions in block B0 fit.
fn run_fit(first: RunMark, second: RunMark) -> bool {
    run_marks_fit(&MARKS, &[first, second])
}

#[test]
fn marks_of_code_in_b0_fit(rt: HostRuntime) {
    let last = run_mark(0xffff, 0xffff, 1);
    let two = run_mark(0x20, 0xff00, 2);
    let fitting = [
        run_marks_fit(&MARKS, &[]),
        run_fit(two, last),
        run_fit(two, run_mark(0x12, 0xff02, 1)),
    ];
    equal(&rt, fitting, [true; 3]);
    let others = [
        // An instruction runs before B0, or past the page.
        run_fit(run_mark(0x20, 0xfeff, 1), last),
        run_fit(two, run_mark(0x40, 0xffff, 2)),
        // An instruction is loaded past the page.
        run_fit(two, run_mark(0xffff, 0xff80, 2)),
        // Two instructions run at one word, or do not ascend.
        run_fit(two, run_mark(0x40, 0xff01, 1)),
        run_fit(last, two),
        // An instruction has three words, or none.
        run_fit(run_mark(0x20, 0xff00, 3), last),
        run_fit(run_mark(0x20, 0xff00, 0), last),
        // Two instructions are loaded at one word; the last word of one, or its first, is another's.
        run_fit(two, run_mark(0x21, 0xff80, 1)),
        run_fit(two, run_mark(0x0f, 0xff80, 2)),
        run_fit(two, run_mark(0x11, 0xff80, 2)),
    ];
    equal(&rt, others, [false; 10]);
}
