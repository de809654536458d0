//! A program whose routine of INT0 saves ST0 and loads it again.

use crate::building::*;
use c25_meaning_common::no_memory::NoMemory;
use c25_meaning_instructions::mnemonic::{JumpName, MemName, PlainName};
use c25_meaning_pages::known::Known;
use c25_pages::{Context, Program, Refusal, Row, Table, is_surely_on, verify, verify_closed};
use std::alloc::Global;
use std::test::Fail;

/// INT0 branches to 20h; the program loads DP, lets interrupts through and stays at 10.
pub(crate) fn interrupted(alloc: Global) -> Result<Program, NoMemory> {
    let plain = vec![in alloc;
        at(0, jump(JumpName::B, 8)),
        at(2, jump(JumpName::B, 0x20)),
        at(8, ldpk(4)),
        at(9, plain(PlainName::Eint)),
        at(10, jump(JumpName::B, 10)),
        at(0x20, direct(MemName::Sst, 0x60)),
        at(0x21, ldpk(6)),
        at(0x22, sacl(3)),
        at(0x23, ldpk(0)),
        at(0x24, direct(MemName::Lst, 0x60)),
        at(0x25, plain(PlainName::Eint)),
        at(0x26, plain(PlainName::Ret)),
    ]?;
    Ok(program(alloc, plain))
}

/// The rows that are right: at 10 DP is 4, and so it is once the routine has loaded ST0 again.
fn right_rows(alloc: Global) -> Result<Vec<Row>, NoMemory> {
    let rows = vec![in alloc;
        row(0, 0, on(0)),
        row(0, 8, on(0)),
        row(0, 9, on(4)),
        row(0, 10, open(on(4))),
        row(1, 2, on(4)),
        row(1, 0x20, on(4)),
        row(1, 0x21, saving(4, 4)),
        row(1, 0x22, saving(6, 4)),
        row(1, 0x23, saving(6, 4)),
        row(1, 0x24, saving(0, 4)),
        row(1, 0x25, saving(4, 4)),
        row(
            1,
            0x26,
            Known {
                shadowed: true,
                ..open(saving(4, 4))
            }
        ),
    ]?;
    Ok(rows)
}

/// The table that is right.
fn right_table(alloc: Global) -> Result<Table, NoMemory> {
    let contexts = vec![in alloc; whole(), returning(1, open(saving(4, 4)))]?;
    Ok(table(alloc, right_rows(alloc)?, contexts, 1))
}

#[test]
fn the_table_is_right(rt: HostRuntime) -> Result<(), Fail> {
    let program = interrupted(rt.alloc())?;
    let table = right_table(rt.alloc())?;
    assert_eq!(rt; verify(&program, &table), Ok(()));
    assert_eq!(rt; verify_closed(&program, &table), Ok(()));
    assert!(rt; is_surely_on(&table, 10, 4));
    assert!(rt; is_surely_on(&table, 0x22, 6));
    assert!(rt; !is_surely_on(&table, 0x22, 4));
    Ok(())
}

/// What is said of the table when something else stands at one row.
fn refusal_of(
    alloc: Global,
    context: usize,
    address: u16,
    known: Known,
) -> Result<Option<Refusal>, NoMemory> {
    let program = interrupted(alloc)?;
    let mut table = right_table(alloc)?;
    say(&mut table, context, address, known);
    Ok(verify(&program, &table).err())
}

#[test]
fn more_than_a_reset_leaves(rt: HostRuntime) -> Result<(), Fail> {
    assert_eq!(rt; refusal_of(rt.alloc(), 0, 0, on(1))?, Some(Refusal::Reset));
    Ok(())
}

#[test]
fn another_page_than_ldpk_loads(rt: HostRuntime) -> Result<(), Fail> {
    let refusal = refusal_of(rt.alloc(), 0, 9, on(5))?;
    assert_eq!(rt; refusal, Some(Refusal::Acts(row(0, 8, on(0)))));
    Ok(())
}

#[test]
fn masked_after_eint(rt: HostRuntime) -> Result<(), Fail> {
    let refusal = refusal_of(rt.alloc(), 0, 10, on(4))?;
    assert_eq!(rt; refusal, Some(Refusal::Acts(row(0, 9, on(4)))));
    Ok(())
}

#[test]
fn shadowed_for_ever(rt: HostRuntime) -> Result<(), Fail> {
    let shadowed = Known {
        shadowed: true,
        ..open(on(4))
    };
    let refusal = refusal_of(rt.alloc(), 0, 10, shadowed)?;
    assert_eq!(rt; refusal, Some(Refusal::Acts(row(0, 10, shadowed))));
    Ok(())
}

#[test]
fn another_page_than_sst_saves(rt: HostRuntime) -> Result<(), Fail> {
    let refusal = refusal_of(rt.alloc(), 1, 0x21, saving(4, 7))?;
    assert_eq!(rt; refusal, Some(Refusal::Acts(row(1, 0x20, on(4)))));
    Ok(())
}

#[test]
fn another_page_than_lst_loads(rt: HostRuntime) -> Result<(), Fail> {
    let refusal = refusal_of(rt.alloc(), 1, 0x25, saving(6, 4))?;
    assert_eq!(rt; refusal, Some(Refusal::Acts(row(1, 0x24, saving(0, 4)))));
    Ok(())
}

/// What is said of the table when something else is said of the routine's context, and other lines are let through.
fn refusal_of_context(
    alloc: Global,
    said: Context,
    lines: u16,
) -> Result<Option<Refusal>, NoMemory> {
    let program = interrupted(alloc)?;
    let mut table = right_table(alloc)?;
    say_of(&mut table, 1, said);
    table.lines = lines;
    Ok(verify(&program, &table).err())
}

#[test]
fn another_page_on_return(rt: HostRuntime) -> Result<(), Fail> {
    let refusal = refusal_of_context(rt.alloc(), returning(1, open(saving(6, 4))), 1)?;
    let ret = row(
        1,
        0x26,
        Known {
            shadowed: true,
            ..open(saving(4, 4))
        },
    );
    assert_eq!(rt; refusal, Some(Refusal::Acts(ret)));
    Ok(())
}

#[test]
fn no_word_more_on_the_stack(rt: HostRuntime) -> Result<(), Fail> {
    let refusal = refusal_of_context(rt.alloc(), returning(0, open(saving(4, 4))), 1)?;
    assert_eq!(rt; refusal, Some(Refusal::Interrupts(row(0, 10, open(on(4))))));
    Ok(())
}

#[test]
fn nine_words_on_the_stack(rt: HostRuntime) -> Result<(), Fail> {
    let refusal = refusal_of_context(rt.alloc(), returning(9, open(saving(4, 4))), 1)?;
    assert_eq!(rt; refusal, Some(Refusal::Interrupts(row(0, 10, open(on(4))))));
    Ok(())
}

#[test]
fn a_line_without_a_routine(rt: HostRuntime) -> Result<(), Fail> {
    let refusal = refusal_of_context(rt.alloc(), returning(1, open(saving(4, 4))), 3)?;
    assert_eq!(rt; refusal, Some(Refusal::Interrupts(row(0, 10, open(on(4))))));
    Ok(())
}
