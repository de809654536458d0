//! Where what is known leads: to an address, to a routine, or back from one.

ghost use Rattle.std.specs.Prelude.{◌≡◌, ◌+◌, ◌≤◌, suc, IsTrue};
ghost use Rattle.c25_meaning_pages.specs.Known.{LeadsTo};
ghost use Rattle.c25_meaning_pages.specs.Routines.{Begins, DropsTo, MayReturn, ReturnsTo};
ghost use Rattle.c25_pages.specs.Clauses.{BeginsIn};
ghost use Rattle.c25_pages.specs.Table.{IsOrdered, knowledge_of};

use crate::implied::implies;
use crate::table::Table;
use c25_meaning_pages::known::{Dropped, Known};

/// A call, or an interrupt that is taken.
#[derive(Clone, Copy)]
pub(crate) struct Call {
    /// The address at which the routine begins.
    pub target: u16,
    /// The context of the caller.
    pub context: usize,
    /// The address to which the routine returns.
    pub back: u16,
}

/// Whether no more is known at an address, in a context, than what is known on the way there.
pub(crate) fn leads_to(table: &Table, known: &Known, context: usize, address: u16) -> bool
    requires { IsOrdered table.now }
    ensures { IsTrue result → LeadsTo (knowledge_of table.now) known.now context address }
{
    match table.find_known(context, address) {
        Some(there) => implies(known, &there),
        None => false,
    }
}

/// Whether the return of a routine leads back to where it was called, with as many words pushed as there. A routine that
/// never returns does.
fn returns_to(table: &Table, end: &Option<Known>, pushed: u16, call: &Call) -> bool
    requires { IsOrdered table.now }
    ensures { IsTrue result → ReturnsTo (knowledge_of table.now) end.now pushed call.now.context call.now.back }
{
    match end {
        Some(known) => {
            let back = Known { pushed, ..*known };
            leads_to(table, &back, call.context, call.back)
        }
        None => true,
    }
}

/// Whether a routine that takes its own return from the stack goes on in its caller's context, with as many words pushed as
/// there. A routine that never does goes on.
fn drops_to(table: &Table, end: &Option<Dropped>, pushed: u16, context: usize) -> bool
    requires { IsOrdered table.now }
    ensures { IsTrue result → DropsTo (knowledge_of table.now) end.now pushed context }
{
    match end {
        Some(dropped) => {
            let after = Known {
                pushed,
                ..dropped.known
            };
            leads_to(table, &after, context, dropped.next)
        }
        None => true,
    }
}

/// Whether a routine that begins with this many words on the stack at most may be called: there are fewer below, with those
/// that the caller pushed, and none is lost.
fn has_room(below: u16, pushed: u16, depth: u16) -> bool
    ensures { IsTrue result → (suc (below + pushed) ≤ depth) × (depth ≤ 8) }
{
    u32::from(below) + u32::from(pushed) < u32::from(depth) && depth <= 8
}

/// Whether a routine begins in this context of the table.
fn begins_in(table: &Table, known: &Known, call: &Call, callee: usize) -> bool
    requires { IsOrdered table.now }
    ensures { IsTrue result → BeginsIn (knowledge_of table.now) known.now call.now callee }
{
    if !has_room(table.depth(call.context), known.pushed, table.depth(callee)) {
        return false;
    }
    let on_entry = Known {
        pushed: 0,
        ..*known
    };
    if !leads_to(table, &on_entry, callee, call.target) {
        return false;
    }
    let end = table.known_on_return(callee);
    if !returns_to(table, &end, known.pushed, call) {
        return false;
    }
    let dropped = table.known_on_drop(callee);
    drops_to(table, &dropped, known.pushed, call.context)
}

/// Whether a routine begins in some context of the table, other than that of the program itself.
pub(crate) fn begins(table: &Table, known: &Known, call: &Call) -> bool
    requires { IsOrdered table.now }
    ensures { IsTrue result → Begins (knowledge_of table.now) known.now call.now.target call.now.context call.now.back }
{
    for callee in 1..table.contexts.len() {
        if begins_in(table, known, call, callee) {
            return true;
        }
    }
    false
}

/// Whether a routine may return, with no word pushed. The program itself may not.
pub(crate) fn may_return(table: &Table, known: &Known, context: usize) -> bool
    ensures { IsTrue result → MayReturn (knowledge_of table.now) known.now context }
{
    if context == 0 || known.pushed != 0 {
        return false;
    }
    match table.known_on_return(context) {
        Some(end) => implies(known, &end),
        None => false,
    }
}
