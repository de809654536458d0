//! Refusals of a line, as they are printed.

use crate::values::equal;
use c25_hex::hex_fault::HexFault;
use c25_meaning_common::failure::Failure;
use c25_meaning_common::placed::Placed;
use c25_meaning_linking::command_fault::CommandFault;
use c25_meaning_processor::sample::BadSamples;
use c25_meaning_processor::schedule::BadSchedule;
use c25_meaning_processor::script::BadCommand;
use std::alloc::Global;
use std::fmt::Display;

/// Whether the refusal of a line is printed as this text.
fn prints<F: Display + Drop>(alloc: Global, place: usize, fault: F, text: &str) -> bool {
    let refusal = Failure::Fault(Placed { place, fault });
    match refusal.to_string(alloc) {
        Ok(printed) => printed.as_str() == text,
        Err(_) => false,
    }
}

#[test]
fn refusals_are_printed(rt: HostRuntime) {
    let alloc = rt.alloc();
    let printed = [
        prints(alloc, 3, BadSamples, "3: BadSamples"),
        prints(alloc, 12, BadSchedule, "12: BadSchedule"),
        prints(alloc, 7, BadCommand, "7: BadCommand"),
        prints(alloc, 2, CommandFault::Syntax, "2: Syntax"),
        prints(alloc, 2, HexFault::AfterEnd, "2: AfterEnd"),
    ];
    equal(&rt, printed, [true; 5]);
}
