//! Words that a routine pushes onto the stack and takes from it.

ghost use Rattle.std.specs.Prelude.{◌≡◌, ◌+◌, ◌≤◌, suc, IsTrue};
ghost use Rattle.c25_meaning_pages.specs.Routines.{MayDrop, Pushes, Takes};
ghost use Rattle.c25_pages.specs.Table.{IsOrdered, knowledge_of};

use crate::implied::implies;
use crate::leads::leads_to;
use crate::table::Table;
use c25_meaning_pages::known::Known;

/// Whether the stack of eight has room for one word more.
fn has_room(below: u16, pushed: u16) -> bool
    ensures { IsTrue result → suc (below + pushed) ≤ 8 }
{
    u32::from(below) + u32::from(pushed) < 8
}

/// Whether a word is pushed, for which the stack has room, and `next` is led to.
pub(crate) fn pushes(table: &Table, known: &Known, context: usize, next: u16) -> bool
    requires { IsOrdered table.now }
    ensures { IsTrue result → Pushes (knowledge_of table.now) known.now context next }
{
    if !has_room(table.depth(context), known.pushed) {
        return false;
    }
    let after = Known {
        pushed: known.pushed + 1,
        ..*known
    };
    leads_to(table, &after, context, next)
}

/// Whether a routine that has no word pushed may take its own return from the stack. The program itself may not.
fn may_drop(table: &Table, known: &Known, context: usize, next: u16) -> bool
    ensures { IsTrue result → MayDrop (knowledge_of table.now) known.now context next }
{
    if context == 0 {
        return false;
    }
    match table.known_on_drop(context) {
        Some(end) => end.next == next && implies(known, &end.known),
        None => false,
    }
}

/// Whether a word is taken, the last that was pushed or else the routine's own return, and `next` is led to.
pub(crate) fn takes(table: &Table, known: &Known, context: usize, next: u16) -> bool
    requires { IsOrdered table.now }
    ensures { IsTrue result → Takes (knowledge_of table.now) known.now known.now.pushed context next }
{
    if known.pushed == 0 {
        return may_drop(table, known, context, next);
    }
    let after = Known {
        pushed: known.pushed - 1,
        ..*known
    };
    leads_to(table, &after, context, next)
}
