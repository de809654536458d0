//! Stores to the word in which ST0 is saved; repeats.

use crate::building::*;
use c25_meaning_common::no_memory::NoMemory;
use c25_meaning_instructions::insn::Insn;
use c25_meaning_instructions::mnemonic::{JumpName, MemName};
use c25_meaning_pages::known::Known;
use c25_pages::{Program, Refusal, Row, Table, verify, verify_closed};
use std::alloc::Global;
use std::test::Fail;

/// ST0 is saved, a statement stands at 2, DP becomes 0, and ST0 is loaded again.
fn storing(alloc: Global, stored: Insn) -> Result<Program, NoMemory> {
    let plain = vec![in alloc;
        at(0, ldpk(4)),
        at(1, direct(MemName::Sst, 0x60)),
        at(2, stored),
        at(3, ldpk(0)),
        at(4, direct(MemName::Lst, 0x60)),
        at(5, jump(JumpName::B, 5)),
    ]?;
    Ok(program(alloc, plain))
}

/// A table that says that the word is spared, and DP is 4 in the end.
fn sparing(alloc: Global) -> Result<Table, NoMemory> {
    let rows = vec![in alloc;
        row(0, 0, on(0)),
        row(0, 1, on(4)),
        row(0, 2, saving(4, 4)),
        row(0, 3, saving(4, 4)),
        row(0, 4, saving(0, 4)),
        row(0, 5, on(4)),
    ]?;
    let contexts = vec![in alloc; whole()]?;
    Ok(table(alloc, rows, contexts, 0))
}

/// What is said of that table.
fn refusal_of(alloc: Global, stored: Insn) -> Result<Option<Refusal>, NoMemory> {
    Ok(verify(&storing(alloc, stored)?, &sparing(alloc)?).err())
}

#[test]
fn a_store_on_another_page(rt: HostRuntime) -> Result<(), Fail> {
    assert_eq!(rt; refusal_of(rt.alloc(), sacl(0x60))?, None);
    Ok(())
}

#[test]
fn a_status_over_the_saved_one(rt: HostRuntime) -> Result<(), Fail> {
    let refusal = refusal_of(rt.alloc(), direct(MemName::Sst1, 0x60))?;
    assert_eq!(rt; refusal, Some(Refusal::Acts(row(0, 2, saving(4, 4)))));
    Ok(())
}

#[test]
fn a_page_loaded_from_memory(rt: HostRuntime) -> Result<(), Fail> {
    let refusal = refusal_of(rt.alloc(), direct(MemName::Ldp, 3))?;
    assert_eq!(rt; refusal, Some(Refusal::Acts(row(0, 2, saving(4, 4)))));
    Ok(())
}

#[test]
fn an_indirect_store(rt: HostRuntime) -> Result<(), Fail> {
    let refusal = refusal_of(rt.alloc(), sacl_indirect())?;
    assert_eq!(rt; refusal, Some(Refusal::Acts(row(0, 2, saving(4, 4)))));
    Ok(())
}

#[test]
fn an_indirect_store_that_spares(rt: HostRuntime) -> Result<(), Fail> {
    let program = storing(rt.alloc(), sacl_indirect())?;
    let mut table = sparing(rt.alloc())?;
    suppose_spared(&mut table, 2, 0x60)?;
    assert_eq!(rt; verify(&program, &table), Ok(()));
    Ok(())
}

/// `RPTK 3`, `LDPK 4`, and a branch to itself, with what is said before LDPK.
fn repeating(alloc: Global, known: Known) -> Result<(Program, Table), NoMemory> {
    let plain = vec![in alloc; at(0, rptk(3)), at(1, ldpk(4)), at(2, jump(JumpName::B, 2))]?;
    let rows = vec![in alloc; row(0, 0, on(0)), row(0, 1, known), row(0, 2, on(4))]?;
    let contexts = vec![in alloc; whole()]?;
    Ok((program(alloc, plain), table(alloc, rows, contexts, 0)))
}

#[test]
fn a_page_that_a_repetition_changes(rt: HostRuntime) -> Result<(), Fail> {
    let known = Known {
        once: false,
        ..on(0)
    };
    let (program, table) = repeating(rt.alloc(), known)?;
    assert_eq!(rt;
        verify(&program, &table),
        Err(Refusal::Repeats(row(0, 1, known)))
    );
    Ok(())
}

#[test]
fn a_repetition_that_is_forgotten(rt: HostRuntime) -> Result<(), Fail> {
    let (program, table) = repeating(rt.alloc(), on(0))?;
    assert_eq!(rt;
        verify(&program, &table),
        Err(Refusal::Acts(row(0, 0, on(0))))
    );
    Ok(())
}

#[test]
fn a_page_that_is_not_known_in_a_repeat(rt: HostRuntime) -> Result<(), Fail> {
    let (program, table) = repeating(
        rt.alloc(),
        Known {
            once: false,
            ..unsure()
        },
    )?;
    assert_eq!(rt; verify(&program, &table), Ok(()));
    assert_eq!(rt; verify_closed(&program, &table), Ok(()));
    Ok(())
}

/// `RPTK 3` before a branch, which may not be repeated; then DP is not known.
#[test]
fn a_branch_in_a_repeat(rt: HostRuntime) -> Result<(), Fail> {
    let known = Known {
        once: false,
        ..on(0)
    };
    let (mut program, mut table) = repeating(rt.alloc(), known)?;
    put(&mut program, 1, jump(JumpName::B, 1));
    assert_eq!(rt; verify(&program, &table), Ok(()));
    assert_eq!(rt;
        verify_closed(&program, &table),
        Err(Refusal::Open(row(0, 1, known)))
    );
    Ok(())
}
