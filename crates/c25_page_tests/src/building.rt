//! Statements, rows and tables, written short.

use c25_meaning_common::no_memory::NoMemory;
use c25_meaning_instructions::insn::{Addr, Change, Insn, PlainOperand};
use c25_meaning_instructions::mnemonic::{JumpName, MemName, PlainName, ShiftedName, ShortName};
use c25_meaning_pages::known::{Known, Saved};
use c25_pages::{Context, PlainStatement, Program, Row, Spared, Table};
use std::alloc::Global;

/// LDPK.
pub(crate) fn ldpk(page: i16) -> Insn {
    Insn::Short(ShortName::Ldpk, 0, page)
}

/// RPTK.
pub(crate) fn rptk(count: i16) -> Insn {
    Insn::Short(ShortName::Rptk, 0, count)
}

/// A jump.
pub(crate) fn jump(name: JumpName, target: u16) -> Insn {
    Insn::Jump(name, target, Change::Keep, None)
}

/// An instruction without an operand.
pub(crate) fn plain(name: PlainName) -> Insn {
    Insn::Plain(name, PlainOperand::Nothing)
}

/// An instruction with a direct operand.
pub(crate) fn direct(name: MemName, low: u16) -> Insn {
    Insn::Mem(name, Addr::Direct(low))
}

/// SACL with a direct operand.
pub(crate) fn sacl(low: u16) -> Insn {
    Insn::Shifted(ShiftedName::Sacl, Addr::Direct(low), 0)
}

/// `SACL *`.
pub(crate) fn sacl_indirect() -> Insn {
    Insn::Shifted(ShiftedName::Sacl, Addr::Indirect(Change::Keep, None), 0)
}

/// A statement at an address.
pub(crate) fn at(address: u16, insn: Insn) -> PlainStatement {
    PlainStatement { address, insn }
}

/// A program that runs where it stands.
pub(crate) fn program(alloc: Global, plain: Vec<PlainStatement>) -> Program {
    Program {
        plain,
        copied: Vec::new(alloc),
    }
}

/// DP is known, INTM is 1, no repeat is running, and no word was pushed.
pub(crate) fn on(page: u16) -> Known {
    Known {
        page: Some(page),
        saved: None,
        masked: true,
        shadowed: false,
        once: true,
        asleep: false,
        pushed: 0,
    }
}

/// DP is not known, INTM is 1, and no repeat is running.
pub(crate) fn unsure() -> Known {
    Known {
        page: None,
        ..on(0)
    }
}

/// DP is known, and an ST0 with a DP is saved in word 60h.
pub(crate) fn saving(page: u16, saved: u16) -> Known {
    Known {
        saved: Some(Saved {
            address: 0x60,
            page: saved,
        }),
        ..on(page)
    }
}

/// The same, but INTM may be 0.
pub(crate) fn open(known: Known) -> Known {
    Known {
        masked: false,
        ..known
    }
}

/// A row.
pub(crate) fn row(context: usize, address: u16, known: Known) -> Row {
    Row {
        context,
        address,
        known,
    }
}

/// The context of the program itself.
pub(crate) fn whole() -> Context {
    Context {
        depth: 0,
        known_on_return: None,
        known_on_drop: None,
    }
}

/// The context of a routine that returns.
pub(crate) fn returning(depth: u16, known: Known) -> Context {
    Context {
        depth,
        known_on_return: Some(known),
        known_on_drop: None,
    }
}

/// A table that supposes only which interrupt lines are let through.
pub(crate) fn table(alloc: Global, rows: Vec<Row>, contexts: Vec<Context>, lines: u16) -> Table {
    Table {
        rows,
        contexts,
        spared: Vec::new(alloc),
        landings: Vec::new(alloc),
        lines,
    }
}

/// A statement is supposed not to write a word.
pub(crate) fn suppose_spared(table: &mut Table, address: u16, word: u16) -> Result<(), NoMemory> {
    table.spared.push(Spared { address, word })?;
    Ok(())
}

/// Something else is said at the row of an address in a context.
pub(crate) fn say(table: &mut Table, context: usize, address: u16, known: Known) {
    for row in table.rows.iter_mut() {
        if row.context == context && row.address == address {
            row.known = known;
        }
    }
}

/// Something else is said of a context.
pub(crate) fn say_of(table: &mut Table, context: usize, said: Context) {
    if let Some(place) = table.contexts.get_mut(context) {
        *place = said;
    }
}

/// Another instruction stands at an address.
pub(crate) fn put(program: &mut Program, address: u16, insn: Insn) {
    for statement in program.plain.iter_mut() {
        if statement.address == address {
            statement.insn = insn;
        }
    }
}
