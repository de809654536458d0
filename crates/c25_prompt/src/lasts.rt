//! The last so many of a list that grows.

ghost use Rattle.std.specs.Prelude.{◌≡◌, ◌≤◌, ◌++◌, ◌∷◌, [], OnOk, length};
ghost use Rattle.c25_prompt.specs.Lasts.{last_of};

use c25_meaning_common::no_memory::NoMemory;
use std::collections::VecDeque;

/// Keeps one item more, of the last so many.
pub(crate) fn keep_last<T: Drop>(kept: &mut VecDeque<T>, most: u32, item: T) -> Result<(), NoMemory>
    requires { length kept.old.items ≤ most }
    ensures { OnOk result (kept.new.items ≡ last_of most (kept.old.items ++ item ∷ [])) }
{
    kept.push_back(item)?;
    if kept.len() > most as usize {
        let _first = kept.pop_front();
    }
    Ok(())
}
