//! The addresses that names stand for.

ghost use Rattle.std.specs.Prelude.{◌≡◌, ℕ, true, IfOk};
ghost use Rattle.c25_buildable.specs.Places.{IsOwn, IsTable, places_view};
ghost use Rattle.c25_layout.specs.Hints.{is_name};

use crate::names::NamedPlace;
use c25_expr::symbols::is_predefined;
use c25_meaning_common::bytes::begins_name;
use c25_meaning_common::failure::Failure;
use c25_meaning_common::runs::all_go_on_name;
use std::alloc::Global;
use std::collections::HashMap;

/// The most bytes of a name.
const LONGEST_NAME: usize = 128;

/// A name may be no label, or stands twice.
#[derive(Clone, Copy)]
pub(crate) struct BadNames;

/// Whether a text is a letter or `_`, and then letters, digits, `_` and `$`.
fn is_name(text: &[u8]) -> bool
    ensures { result ≡ is_name text.now }
{
    match text {
        [] => false,
        [first, rest @ ..] => begins_name(*first) && all_go_on_name(rest),
    }
}

/// Whether a name may be a label, and is not a register's or a port's.
fn is_own(name: &str) -> bool
    ensures { result ≡ true → (address : ℕ) → IsOwn (name.now, address) }
{
    if name.len() > LONGEST_NAME || is_predefined(name) {
        return false;
    }
    is_name(name.as_bytes())
}

/// The addresses of names, unless one of them may be no label, or stands twice.
pub(crate) fn table_of<'a>(
    alloc: Global,
    places: &'a [NamedPlace],
) -> Result<HashMap<&'a str, u32>, Failure<BadNames>>
    ensures { IfOk result (λ table. IsTable table (places_view places.now)) }
{
    let mut table = HashMap::new(alloc);
    for place in places {
        let name = place.name.as_str();
        if !is_own(name) {
            return Err(Failure::Fault(BadNames));
        }
        if table.insert(name, place.address)?.is_some() {
            return Err(Failure::Fault(BadNames));
        }
    }
    Ok(table)
}
