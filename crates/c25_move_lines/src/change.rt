//! What becomes of a line.

ghost use Rattle.std.specs.Prelude.{◌≡◌, [], ◌∷◌, IfOk};
ghost use Rattle.c25_move_lines.specs.Changes.{KeepsUnreported, lines_of};

use crate::rule::Rule;
use c25_meaning_common::no_memory::NoMemory;
use std::alloc::Global;

/// What becomes of a line: the lines that take its place, without their ends, and the rules of which something is
/// reported, each in the order in which they were applied.
#[derive(Drop)]
pub struct Change {
    pub lines: Vec<String>,
    pub done: Vec<Rule>,
    pub left: Vec<Rule>,
}

/// A line that stays as it is. `NoMemory` (9) where memory runs out.
pub fn unchanged(alloc: Global, line: &str) -> Result<Change, NoMemory>
    ensures lines { IfOk result (λ c. lines_of c ≡ line.now ∷ []) }
    ensures done { IfOk result (λ c. c.done.items ≡ []) }
    ensures left { IfOk result (λ c. c.left.items ≡ []) }
{
    let mut lines = Vec::new(alloc);
    lines.push(String::from_str(alloc, line)?)?;
    Ok(Change {
        lines,
        done: Vec::new(alloc),
        left: Vec::new(alloc),
    })
}

/// The change that rules made of a line, if one of them reports something; else the line as it is. `NoMemory` (9)
/// where memory runs out.
pub fn settled(alloc: Global, line: &str, change: Change) -> Result<Change, NoMemory>
    ensures { IfOk result (KeepsUnreported line.now) }
{
    if change.done.is_empty() && change.left.is_empty() {
        unchanged(alloc, line)
    } else {
        Ok(change)
    }
}
