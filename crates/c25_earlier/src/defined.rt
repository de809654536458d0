//! Where the name was defined first that a line defines again.

ghost use Rattle.std.specs.Option.{option_map};
ghost use Rattle.std.specs.Prelude.{IfOk, map};
ghost use Rattle.c25_asm.specs.Seen.{seen_of};
ghost use Rattle.c25_macro.specs.Expander.{shown};
ghost use Rattle.c25_statements.specs.View.{texts_of};
ghost use Rattle.c25_earlier.specs.Defined.{IsDefinedFirst, IsEarlier, names_seen};

use crate::names::names_in;
use crate::walk::first_line;
use c25_asm::{SeenLine, Traced, trace};
use c25_expr::symbols::is_predefined;
use c25_files::files::Files;
use c25_macro::answer::ExpLine;
use c25_meaning_common::no_memory::NoMemory;
use std::alloc::Global;

/// The line that defines the first of these names that has a value; `None` where that name is predefined, or no
/// line defines one of them.
fn defined_first<'a>(
    alloc: Global,
    files: &'a Files,
    source: &str,
    names: &[&str],
) -> Result<Option<ExpLine<'a>>, NoMemory>
    ensures { IfOk result (λ line. IsDefinedFirst files.now source.now (texts_of names.now) (option_map shown line)) }
{
    for name in names {
        if is_predefined(name) {
            return Ok(None);
        }
        if let Some(line) = first_line(alloc, files, source, name)? {
            return Ok(Some(line));
        }
    }
    Ok(None)
}

/// The same for the names that a line defines.
fn defined_before<'a>(
    alloc: Global,
    files: &'a Files,
    source: &str,
    seen: Option<&SeenLine<'_>>,
) -> Result<Option<ExpLine<'a>>, NoMemory>
    ensures { IfOk result (λ line. IsDefinedFirst files.now source.now (names_seen (option_map (λ s. seen_of s.now) seen.entry)) (option_map shown line)) }
{
    match seen {
        Some(seen) => {
            let names = names_in(alloc, seen.text.as_str())?;
            defined_first(alloc, files, source, names.as_slice())
        }
        None => Ok(None),
    }
}

/// The line of the first source that is refused in which the name was defined first that the refused line defines
/// again.
pub(crate) fn earlier_line<'a>(
    alloc: Global,
    files: &'a Files,
    sources: &[&str],
) -> Result<Option<ExpLine<'a>>, NoMemory>
    ensures { IfOk result (λ line. IsEarlier files.now (map (λ s. s.now) sources.now) (option_map shown line)) }
{
    for source in sources {
        match trace(alloc, files, source)? {
            Traced::Whole => {}
            Traced::Absent => return Ok(None),
            Traced::Refused(refused) => {
                return defined_before(alloc, files, source, refused.seen.as_ref());
            }
        }
    }
    Ok(None)
}
