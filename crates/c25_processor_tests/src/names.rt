//! Tests of the names of instructions.

use crate::values::equal;
use c25_isa::mnemonic;
use c25_meaning_instructions::mnemonic::{MemName, Mnemonic, PlainName, Spelling};

#[test]
fn names_are_read_in_either_case(rt: HostRuntime) {
    let found = [
        mnemonic("Lt"),
        mnemonic("norm"),
        mnemonic("ZAC"),
        mnemonic("nop"),
        mnemonic("larp"),
        mnemonic("LARPX"),
        mnemonic(""),
    ];
    let names = [
        Some(Spelling::Row(Mnemonic::Mem(MemName::Lt))),
        Some(Spelling::Row(Mnemonic::Plain(PlainName::Norm))),
        Some(Spelling::Zac),
        Some(Spelling::Nop),
        Some(Spelling::Larp),
        None,
        None,
    ];
    equal(&rt, found, names);
}
