//! The first place of a text that substitution changes.

ghost use Rattle.std.specs.Prelude.{◌≡◌, []};
ghost use Rattle.c25_substitution.specs.View.{names_of, IsFirstChange};

use crate::aside::Aside;
use crate::fragments::{Fragment, behind_blank, first_fragment};
use crate::quoting::{behind, is_comment};
use crate::visible::Visible;
use c25_meaning_language::quoting::Quoting;
use std::alloc::Global;

/// A text, parted at its first fragment that is not kept as it is.
#[derive(Clone, Copy)]
pub(crate) struct Change<'a> {
    /// The text before the fragment.
    pub(crate) front: &'a str,
    pub(crate) fragment: Fragment<'a>,
    /// The quoting in which the text after the fragment begins.
    pub(crate) quoting: Quoting,
    pub(crate) rest: &'a str,
}

/// The first change of a text that begins in this quoting; None where it stays as it is. No name is
/// set aside.
pub(crate) fn first_change<'a>(
    alloc: Global,
    names: &Visible<'a>,
    quoting: Quoting,
    text: &'a str,
) -> Option<Change<'a>>
    ensures { IsFirstChange (names_of names.now) quoting text.now result }
{
    first_change_without(names, &Aside::new(alloc), quoting, text)
}

/// The first change of a text that begins in this quoting, with no names set aside.
fn first_change_without<'a>(
    names: &Visible<'a>,
    aside: &Aside<'_>,
    mut quoting: Quoting,
    text: &'a str,
) -> Option<Change<'a>>
    requires { aside.now ≡ [] }
    ensures { IsFirstChange (names_of names.now) quoting text.now result }
{
    let mut rest = text;
    while !rest.is_empty() {
        if is_comment(quoting) {
            return None;
        }
        let first = rest.as_bytes()[0];
        let next = behind(first, quoting);
        if first == b' ' {
            quoting = next;
            rest = behind_blank(rest);
            continue;
        }
        let (fragment, after) = first_fragment(names, aside, quoting, rest);
        match fragment {
            Fragment::Kept(_) => {
                quoting = next;
                rest = after;
            }
            fragment => {
                let (front, _) = text.split_at(text.len() - rest.len());
                return Some(Change {
                    front,
                    fragment,
                    quoting: next,
                    rest: after,
                });
            }
        }
    }
    None
}
