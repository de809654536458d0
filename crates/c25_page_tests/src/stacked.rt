//! Words that a routine pushes onto the stack and takes from it, and sleep.

use crate::building::*;
use c25_meaning_common::no_memory::NoMemory;
use c25_meaning_instructions::insn::Insn;
use c25_meaning_instructions::mnemonic::{JumpName, PlainName};
use c25_meaning_pages::known::{Dropped, Known};
use c25_page_finder::find_table;
use c25_pages::{Context, Program, Refusal, Row, Table, is_surely_on, verify, verify_closed};
use std::alloc::Global;
use std::test::Fail;

/// PUSH.
fn push() -> Insn {
    plain(PlainName::Push)
}

/// POP.
fn pop() -> Insn {
    plain(PlainName::Pop)
}

/// The same with this many words pushed.
fn pushed(count: u16, known: Known) -> Known {
    Known {
        pushed: count,
        ..known
    }
}

/// The same, asleep by IDLE.
fn asleep(known: Known) -> Known {
    Known {
        asleep: true,
        ..open(known)
    }
}

/// A routine at 8 that is called with DP 4, and keeps a word on the stack while DP is 6.
fn keeping(alloc: Global) -> Result<Program, NoMemory> {
    let plain = vec![in alloc;
        at(0, ldpk(4)),
        at(1, jump(JumpName::Call, 8)),
        at(3, jump(JumpName::B, 3)),
        at(8, push()),
        at(9, ldpk(6)),
        at(10, sacl(3)),
        at(11, pop()),
        at(12, ldpk(4)),
        at(13, plain(PlainName::Ret)),
    ]?;
    Ok(program(alloc, plain))
}

/// The table that is right for it.
fn kept(alloc: Global) -> Result<Table, NoMemory> {
    let rows = vec![in alloc;
        row(0, 0, on(0)),
        row(0, 1, on(4)),
        row(0, 3, on(4)),
        row(1, 8, on(4)),
        row(1, 9, pushed(1, on(4))),
        row(1, 10, pushed(1, on(6))),
        row(1, 11, pushed(1, on(6))),
        row(1, 12, on(6)),
        row(1, 13, on(4)),
    ]?;
    let contexts = vec![in alloc; whole(), returning(1, on(4))]?;
    Ok(table(alloc, rows, contexts, 0))
}

#[test]
fn a_word_that_is_taken_again(rt: HostRuntime) -> Result<(), Fail> {
    let program = keeping(rt.alloc())?;
    let table = kept(rt.alloc())?;
    assert_eq!(rt; verify(&program, &table), Ok(()));
    assert_eq!(rt; verify_closed(&program, &table), Ok(()));
    assert!(rt; is_surely_on(&table, 10, 6));
    assert!(rt; is_surely_on(&table, 3, 4));
    Ok(())
}

#[test]
fn a_word_that_is_found_to_be_taken(rt: HostRuntime) -> Result<(), Fail> {
    let program = keeping(rt.alloc())?;
    let table = find_table(rt.alloc(), &program, Vec::new(rt.alloc()), 0)?;
    assert_eq!(rt; verify(&program, &table), Ok(()));
    assert!(rt; is_surely_on(&table, 10, 6));
    assert!(rt; is_surely_on(&table, 3, 4));
    Ok(())
}

/// Something else is said at a row of the routine that keeps a word: whether the table is refused.
fn is_refused(alloc: Global, context: usize, address: u16, known: Known) -> Result<bool, NoMemory> {
    let program = keeping(alloc)?;
    let mut table = kept(alloc)?;
    say(&mut table, context, address, known);
    Ok(verify(&program, &table).is_err())
}

#[test]
fn another_number_of_words(rt: HostRuntime) -> Result<(), Fail> {
    let alloc = rt.alloc();
    assert!(rt; is_refused(alloc, 1, 9, on(4))?);
    assert!(rt; is_refused(alloc, 1, 9, pushed(2, on(4)))?);
    assert!(rt; is_refused(alloc, 1, 12, pushed(1, on(6)))?);
    assert!(rt; is_refused(alloc, 1, 8, pushed(1, on(4)))?);
    assert!(rt; is_refused(alloc, 1, 13, pushed(1, on(4)))?);
    assert!(rt; is_refused(alloc, 0, 3, pushed(1, on(4)))?);
    Ok(())
}

#[test]
fn another_page_or_a_sleep(rt: HostRuntime) -> Result<(), Fail> {
    let alloc = rt.alloc();
    assert!(rt; is_refused(alloc, 1, 10, pushed(1, on(4)))?);
    assert!(rt; is_refused(alloc, 0, 3, on(6))?);
    assert!(rt; is_refused(alloc, 1, 11, asleep(pushed(1, on(6))))?);
    assert!(rt; is_refused(alloc, 0, 1, asleep(on(4)))?);
    Ok(())
}

/// The routine returns while its word is on the stack: RET goes to that word.
#[test]
fn a_return_to_a_word_that_was_pushed(rt: HostRuntime) -> Result<(), Fail> {
    let mut program = keeping(rt.alloc())?;
    let mut table = kept(rt.alloc())?;
    put(&mut program, 11, sacl(3));
    assert_eq!(rt;
        verify(&program, &table),
        Err(Refusal::Acts(row(1, 11, pushed(1, on(6)))))
    );
    say(&mut table, 1, 12, pushed(1, on(6)));
    say(&mut table, 1, 13, pushed(1, on(4)));
    assert_eq!(rt;
        verify(&program, &table),
        Err(Refusal::Acts(row(1, 13, pushed(1, on(4)))))
    );
    Ok(())
}

/// The routine at 8 takes its own return, so that 9 is reached in the context of the program itself.
fn dropping(alloc: Global) -> Result<Program, NoMemory> {
    let plain = vec![in alloc;
        at(0, ldpk(4)),
        at(1, jump(JumpName::Call, 8)),
        at(8, pop()),
        at(9, sacl(3)),
        at(10, jump(JumpName::B, 10)),
    ]?;
    Ok(program(alloc, plain))
}

/// A table that says of the routine's context where it takes its return.
fn dropped(alloc: Global, end: Option<Dropped>) -> Result<Table, NoMemory> {
    let rows = vec![in alloc;
        row(0, 0, on(0)),
        row(0, 1, on(4)),
        row(0, 9, on(4)),
        row(0, 10, on(4)),
        row(1, 8, on(4)),
    ]?;
    let routine = Context {
        depth: 1,
        known_on_return: None,
        known_on_drop: end,
    };
    let contexts = vec![in alloc; whole(), routine]?;
    Ok(table(alloc, rows, contexts, 0))
}

/// A routine goes on at an address with DP 4.
fn going_on_at(next: u16) -> Option<Dropped> {
    Some(Dropped { next, known: on(4) })
}

#[test]
fn a_return_that_is_taken(rt: HostRuntime) -> Result<(), Fail> {
    let program = dropping(rt.alloc())?;
    let right = dropped(rt.alloc(), going_on_at(9))?;
    assert_eq!(rt; verify(&program, &right), Ok(()));
    assert_eq!(rt; verify_closed(&program, &right), Ok(()));
    let found = find_table(rt.alloc(), &program, Vec::new(rt.alloc()), 0)?;
    assert_eq!(rt; verify(&program, &found), Ok(()));
    assert!(rt; is_surely_on(&found, 9, 4));
    Ok(())
}

#[test]
fn a_return_that_is_said_to_be_taken_elsewhere(rt: HostRuntime) -> Result<(), Fail> {
    let program = dropping(rt.alloc())?;
    let never = dropped(rt.alloc(), None)?;
    assert_eq!(rt;
        verify(&program, &never),
        Err(Refusal::Acts(row(1, 8, on(4))))
    );
    let elsewhere = dropped(rt.alloc(), going_on_at(10))?;
    assert_eq!(rt;
        verify(&program, &elsewhere),
        Err(Refusal::Acts(row(1, 8, on(4))))
    );
    Ok(())
}

/// Nine PUSH and a branch to itself, with the words that are right.
fn nine_words(alloc: Global) -> Result<(Program, Table), NoMemory> {
    let mut plain = Vec::new(alloc);
    let mut rows = Vec::new(alloc);
    for address in 0..9u16 {
        plain.push(at(address, push()))?;
        rows.push(row(0, address, pushed(address, on(0))))?;
    }
    plain.push(at(9, jump(JumpName::B, 9)))?;
    rows.push(row(0, 9, pushed(9, on(0))))?;
    let contexts = vec![in alloc; whole()]?;
    Ok((program(alloc, plain), table(alloc, rows, contexts, 0)))
}

#[test]
fn a_ninth_word(rt: HostRuntime) -> Result<(), Fail> {
    let (mut program, table) = nine_words(rt.alloc())?;
    assert_eq!(rt;
        verify(&program, &table),
        Err(Refusal::Acts(row(0, 8, pushed(8, on(0)))))
    );
    put(&mut program, 8, jump(JumpName::B, 8));
    assert_eq!(rt; verify(&program, &table), Ok(()));
    Ok(())
}

/// `RPTK 3` before PUSH, which pushes four words.
#[test]
fn words_that_a_repeat_pushes(rt: HostRuntime) -> Result<(), Fail> {
    let plain = vec![in rt.alloc(); at(0, rptk(3)), at(1, push()), at(2, jump(JumpName::B, 2))]?;
    let repeated = Known {
        once: false,
        ..on(0)
    };
    let rows = vec![in rt.alloc();
        row(0, 0, on(0)),
        row(0, 1, repeated),
        row(0, 2, pushed(1, on(0))),
    ]?;
    let program = program(rt.alloc(), plain);
    let contexts = vec![in rt.alloc(); whole()]?;
    let table = table(rt.alloc(), rows, contexts, 0);
    assert_eq!(rt;
        verify(&program, &table),
        Err(Refusal::Repeats(row(0, 1, repeated)))
    );
    Ok(())
}

/// The program sleeps at 10, with a routine of INT0 at 20h that returns there.
fn sleeping(alloc: Global) -> Result<Program, NoMemory> {
    let plain = vec![in alloc;
        at(0, jump(JumpName::B, 8)),
        at(2, jump(JumpName::B, 0x20)),
        at(8, ldpk(4)),
        at(9, plain(PlainName::Idle)),
        at(0x20, plain(PlainName::Ret)),
    ]?;
    Ok(program(alloc, plain))
}

/// What is said of it, with what is known after IDLE and the interrupt lines that are let through.
fn slept(alloc: Global, after: Known, lines: u16) -> Result<Table, NoMemory> {
    let rows: Vec<Row> = vec![in alloc;
        row(0, 0, on(0)),
        row(0, 8, on(0)),
        row(0, 9, on(4)),
        row(0, 10, after),
        row(1, 2, on(4)),
        row(1, 0x20, on(4)),
    ]?;
    let contexts = vec![in alloc; whole(), returning(1, on(4))]?;
    Ok(table(alloc, rows, contexts, lines))
}

#[test]
fn a_sleep_that_nothing_ends(rt: HostRuntime) -> Result<(), Fail> {
    let program = sleeping(rt.alloc())?;
    let for_ever = slept(rt.alloc(), asleep(on(4)), 0)?;
    assert_eq!(rt; verify(&program, &for_ever), Ok(()));
    assert_eq!(rt; verify_closed(&program, &for_ever), Ok(()));
    let found = find_table(rt.alloc(), &program, Vec::new(rt.alloc()), 0)?;
    assert_eq!(rt; verify(&program, &found), Ok(()));
    assert_eq!(rt; verify_closed(&program, &found), Ok(()));
    Ok(())
}

#[test]
fn a_sleep_that_an_interrupt_ends(rt: HostRuntime) -> Result<(), Fail> {
    let program = sleeping(rt.alloc())?;
    let for_ever = slept(rt.alloc(), asleep(on(4)), 1)?;
    assert_eq!(rt;
        verify(&program, &for_ever),
        Err(Refusal::Interrupts(row(0, 10, asleep(on(4)))))
    );
    let ended = slept(rt.alloc(), open(on(4)), 1)?;
    assert_eq!(rt; verify(&program, &ended), Ok(()));
    assert_eq!(rt;
        verify_closed(&program, &ended),
        Err(Refusal::Open(row(0, 10, open(on(4)))))
    );
    Ok(())
}
