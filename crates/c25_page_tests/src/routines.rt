//! Branches, and a routine that is called from two pages.

use crate::building::*;
use c25_meaning_common::no_memory::NoMemory;
use c25_meaning_instructions::mnemonic::{JumpName, PlainName};
use c25_pages::{Program, Refusal, Row, Table, is_surely_on, verify, verify_closed};
use std::alloc::Global;
use std::test::Fail;

/// A routine at 8 that is called with DP 4 and with DP 6.
pub(crate) fn called_twice(alloc: Global) -> Result<Program, NoMemory> {
    let plain = vec![in alloc;
        at(0, ldpk(4)),
        at(1, jump(JumpName::Call, 8)),
        at(3, ldpk(6)),
        at(4, jump(JumpName::Call, 8)),
        at(6, jump(JumpName::B, 6)),
        at(8, sacl(3)),
        at(9, plain(PlainName::Ret)),
    ]?;
    Ok(program(alloc, plain))
}

/// The table with a context for each page.
fn two_contexts(alloc: Global) -> Result<Table, NoMemory> {
    let rows = vec![in alloc;
        row(0, 0, on(0)),
        row(0, 1, on(4)),
        row(0, 3, on(4)),
        row(0, 4, on(6)),
        row(0, 6, on(6)),
        row(1, 8, on(4)),
        row(1, 9, on(4)),
        row(2, 8, on(6)),
        row(2, 9, on(6)),
    ]?;
    let contexts = vec![in alloc; whole(), returning(1, on(4)), returning(1, on(6))]?;
    Ok(table(alloc, rows, contexts, 0))
}

#[test]
fn each_call_returns_with_its_page(rt: HostRuntime) -> Result<(), Fail> {
    let program = called_twice(rt.alloc())?;
    let table = two_contexts(rt.alloc())?;
    assert_eq!(rt; verify(&program, &table), Ok(()));
    assert!(rt; is_surely_on(&table, 3, 4));
    assert!(rt; is_surely_on(&table, 6, 6));
    assert!(rt; !is_surely_on(&table, 8, 4));
    assert!(rt; !is_surely_on(&table, 8, 6));
    Ok(())
}

#[test]
fn one_context_for_both(rt: HostRuntime) -> Result<(), Fail> {
    let program = called_twice(rt.alloc())?;
    let mut table = two_contexts(rt.alloc())?;
    say(&mut table, 2, 8, on(4));
    assert_eq!(rt;
        verify(&program, &table),
        Err(Refusal::Acts(row(0, 4, on(6))))
    );
    Ok(())
}

#[test]
fn the_page_of_the_other_call(rt: HostRuntime) -> Result<(), Fail> {
    let program = called_twice(rt.alloc())?;
    let mut table = two_contexts(rt.alloc())?;
    say_of(&mut table, 2, returning(1, on(4)));
    assert_eq!(rt;
        verify(&program, &table),
        Err(Refusal::Acts(row(0, 4, on(6))))
    );
    Ok(())
}

#[test]
fn a_word_that_is_pushed(rt: HostRuntime) -> Result<(), Fail> {
    let mut program = called_twice(rt.alloc())?;
    let table = two_contexts(rt.alloc())?;
    put(&mut program, 8, plain(PlainName::Push));
    assert_eq!(rt;
        verify(&program, &table),
        Err(Refusal::Acts(row(1, 8, on(4))))
    );
    Ok(())
}

/// LDPK 4 or LDPK 6, by a branch, and a branch to itself where both ways meet.
fn branching(alloc: Global) -> Result<Program, NoMemory> {
    let plain = vec![in alloc;
        at(0, ldpk(4)),
        at(1, jump(JumpName::Bz, 4)),
        at(3, ldpk(6)),
        at(4, jump(JumpName::B, 4)),
    ]?;
    Ok(program(alloc, plain))
}

/// What is said where both ways meet.
fn meeting(alloc: Global, last: Row) -> Result<Table, NoMemory> {
    let rows = vec![in alloc; row(0, 0, on(0)), row(0, 1, on(4)), row(0, 3, on(4)), last]?;
    let contexts = vec![in alloc; whole()]?;
    Ok(table(alloc, rows, contexts, 0))
}

#[test]
fn two_ways_meet(rt: HostRuntime) -> Result<(), Fail> {
    let program = branching(rt.alloc())?;
    let unknown = meeting(rt.alloc(), row(0, 4, unsure()))?;
    assert_eq!(rt; verify(&program, &unknown), Ok(()));
    assert_eq!(rt; verify_closed(&program, &unknown), Ok(()));
    assert!(rt; !is_surely_on(&unknown, 4, 6));
    let one = meeting(rt.alloc(), row(0, 4, on(6)))?;
    assert_eq!(rt;
        verify(&program, &one),
        Err(Refusal::Acts(row(0, 1, on(4))))
    );
    Ok(())
}

#[test]
fn a_row_that_is_missing(rt: HostRuntime) -> Result<(), Fail> {
    let program = branching(rt.alloc())?;
    let table = meeting(rt.alloc(), row(0, 5, unsure()))?;
    assert_eq!(rt;
        verify(&program, &table),
        Err(Refusal::Acts(row(0, 1, on(4))))
    );
    Ok(())
}

/// The call at 1 goes to the address in the accumulator, which is supposed to be 8.
#[test]
fn a_call_by_the_accumulator(rt: HostRuntime) -> Result<(), Fail> {
    let plain = vec![in rt.alloc();
        at(0, ldpk(4)),
        at(1, plain(PlainName::Cala)),
        at(2, jump(JumpName::B, 2)),
        at(8, plain(PlainName::Ret)),
    ]?;
    let program = program(rt.alloc(), plain);
    let rows = vec![in rt.alloc();
        row(0, 0, on(0)),
        row(0, 1, on(4)),
        row(0, 2, on(4)),
        row(1, 8, on(4)),
    ]?;
    let contexts = vec![in rt.alloc(); whole(), returning(1, on(4))]?;
    let mut table = table(rt.alloc(), rows, contexts, 0);
    table.landings.push(8)?;
    assert_eq!(rt; verify(&program, &table), Ok(()));
    table.landings.push(9)?;
    assert_eq!(rt;
        verify(&program, &table),
        Err(Refusal::Acts(row(0, 1, on(4))))
    );
    Ok(())
}
