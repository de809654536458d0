//! Lines that a text does not have: no fault is ever reported for them.

use crate::values::equal;
use c25_explain::note::line_of;

#[test]
fn a_text_has_no_line_0_and_none_behind_its_last(rt: HostRuntime) {
    equal(&rt, line_of("A\nB\n", 0), None);
    equal(&rt, line_of("A\nB\n", 2), Some("B"));
    equal(&rt, line_of("A\nB\n", 3), None);
}
