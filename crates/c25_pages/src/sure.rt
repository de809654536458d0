//! Whether DP is surely a page.

ghost use Rattle.std.specs.Prelude.{IsTrue};
ghost use Rattle.c25_meaning_pages.specs.Inductive.{IsSurelyOn};
ghost use Rattle.c25_pages.specs.Clauses.{IsOnAt};
ghost use Rattle.c25_pages.specs.Table.{knowledge_of};

use crate::table::{Row, Table};

/// Whether a row says that DP is a page, if the row is at an address.
fn is_on(row: &Row, address: u16, page: u16) -> bool
    ensures { IsTrue result → IsOnAt address page row.now }
{
    if row.address != address {
        return true;
    }
    match row.known.page {
        Some(known) => known == page,
        None => false,
    }
}

/// Whether DP is surely a page before the statement at an address acts, in every context in which it is reached. True
/// too where the address is in no row.
pub fn is_surely_on(table: &Table, address: u16, page: u16) -> bool
    ensures { IsTrue result → IsSurelyOn (knowledge_of table.now) address page }
{
    for row in &table.rows {
        if !is_on(row, address, page) {
            return false;
        }
    }
    true
}
