//! Which ST0 is known to be saved after an instruction.

ghost use Rattle.std.specs.Prelude.{◌≡◌, ◌%◌, ◌<◌, Some, IsTrue};
ghost use Rattle.c25_meaning_pages.specs.KnownAfter.{IsSavedAfter, Saves, Spares};
ghost use Rattle.c25_meaning_pages.specs.declared.known.Saved.{Saved};
ghost use Rattle.c25_pages.specs.Table.{knowledge_of};

use crate::table::{Row, Table};
use crate::written::{may_write, writes};
use c25_meaning_instructions::insn::{Addr, Insn};
use c25_meaning_instructions::mnemonic::MemName;
use c25_meaning_pages::known::{Known, Saved};

/// Whether the statement of a row does not write a data word, or is supposed not to write it.
fn spares(table: &Table, row: &Row, insn: &Insn, word: u16) -> bool
    ensures { IsTrue result → Spares (knowledge_of table.now) row.now.address insn.now row.now.known word }
{
    if !may_write(&writes(insn), row.known.page, word) {
        return true;
    }
    match table.spared_at(row.address) {
        Some(spared) => spared == word,
        None => false,
    }
}

/// The ST0 that is known to be saved before the statement of a row, if its word surely is not written.
pub(crate) fn saved_before(table: &Table, row: &Row, insn: &Insn) -> Option<Saved>
    ensures { IsSavedAfter (knowledge_of table.now) row.now.address insn.now row.now.known result }
{
    match row.known.saved {
        Some(saved) => {
            if spares(table, row, insn, saved.address) {
                Some(saved)
            } else {
                None
            }
        }
        None => None,
    }
}

/// A word of data page 0 with an ST0 whose DP is known.
fn saved_in(page: Option<u16>, low: u16) -> Option<Saved>
    ensures { (v : Saved) → result ≡ Some v → (v.address ≡ low % 128) × (page ≡ Some v.page) × (v.page < 512) }
{
    match page {
        Some(page) => {
            if page < 512 {
                Some(Saved {
                    address: low % 128,
                    page,
                })
            } else {
                None
            }
        }
        None => None,
    }
}

/// The ST0 that an instruction saves: SST with a direct operand does, where DP is known.
pub fn saved_by(insn: &Insn, known: &Known) -> Option<Saved>
    ensures { (v : Saved) → result ≡ Some v → Saves insn.now known.now v }
{
    match insn {
        Insn::Mem(MemName::Sst, Addr::Direct(low)) => saved_in(known.page, *low),
        _ => None,
    }
}
