//! Tables that are found, and verified.

use crate::building::*;
use crate::interrupts::interrupted;
use crate::routines::called_twice;
use c25_meaning_instructions::mnemonic::{JumpName, PlainName};
use c25_page_finder::find_table;
use c25_pages::{is_surely_on, verify, verify_closed};
use std::test::Fail;

#[test]
fn of_an_interrupt_routine_that_saves_its_page(rt: HostRuntime) -> Result<(), Fail> {
    let program = interrupted(rt.alloc())?;
    let table = find_table(rt.alloc(), &program, Vec::new(rt.alloc()), 1)?;
    assert_eq!(rt; verify(&program, &table), Ok(()));
    assert_eq!(rt; verify_closed(&program, &table), Ok(()));
    assert!(rt; is_surely_on(&table, 10, 4));
    assert!(rt; is_surely_on(&table, 0x22, 6));
    assert!(rt; is_surely_on(&table, 0x26, 4));
    Ok(())
}

#[test]
fn of_a_routine_that_two_pages_call(rt: HostRuntime) -> Result<(), Fail> {
    let program = called_twice(rt.alloc())?;
    let table = find_table(rt.alloc(), &program, Vec::new(rt.alloc()), 0)?;
    assert_eq!(rt; verify(&program, &table), Ok(()));
    assert!(rt; is_surely_on(&table, 3, 4));
    assert!(rt; is_surely_on(&table, 6, 6));
    assert!(rt; !is_surely_on(&table, 8, 4));
    Ok(())
}

/// A routine that calls itself: no depth is right for it.
#[test]
fn of_a_recursion_that_is_not_verified(rt: HostRuntime) -> Result<(), Fail> {
    let plain = vec![in rt.alloc();
        at(0, jump(JumpName::Call, 4)),
        at(2, jump(JumpName::B, 2)),
        at(4, jump(JumpName::Bz, 8)),
        at(6, jump(JumpName::Call, 4)),
        at(8, plain(PlainName::Ret)),
    ]?;
    let program = program(rt.alloc(), plain);
    let table = find_table(rt.alloc(), &program, Vec::new(rt.alloc()), 0)?;
    assert!(rt; verify(&program, &table).is_err());
    Ok(())
}

/// An indirect store in the routine is supposed to spare the saved ST0.
#[test]
fn of_a_store_that_is_supposed_to_spare(rt: HostRuntime) -> Result<(), Fail> {
    let mut program = interrupted(rt.alloc())?;
    put(&mut program, 0x22, sacl_indirect());
    let table = find_table(rt.alloc(), &program, Vec::new(rt.alloc()), 1)?;
    assert_eq!(rt; verify(&program, &table), Ok(()));
    assert_eq!(rt; table.spared_at(0x22), Some(0x60));
    assert_eq!(rt; table.spared_at(0x21), None);
    assert!(rt; is_surely_on(&table, 0x26, 4));
    Ok(())
}
