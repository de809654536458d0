//! Which hints go together: one name has one address, and words are loaded and run at one place each.

ghost use Rattle.std.specs.Prelude.{◌≡◌, map};
ghost use Rattle.c25_layout.specs.Hints.{are_apart, fits, go_together, hint_data, label_goes, run_apart, run_goes};

use crate::hint::Hint;

/// So many words that are loaded at one address and run at another.
#[derive(Clone, Copy)]
struct Moved {
    load: u16,
    count: u16,
    run: u16,
}

/// Whether so many words at one address and so many at another have none in common.
fn are_apart(one: u16, count: u16, other: u16, others: u16) -> bool
    ensures { result ≡ are_apart one count other others }
{
    u32::from(one) + u32::from(count) <= u32::from(other)
        || u32::from(other) + u32::from(others) <= u32::from(one)
}

/// Whether two lots of words that run elsewhere go together: each word is loaded and runs at one place, and no other
/// one there.
fn run_apart(one: Moved, other: Moved) -> bool
    ensures { result ≡ run_apart one.load one.count one.run other.load other.count other.run }
{
    if u32::from(one.load) + u32::from(other.run) == u32::from(other.load) + u32::from(one.run) {
        return true;
    }
    are_apart(one.load, one.count, other.load, other.count)
        && are_apart(one.run, one.count, other.run, other.count)
}

/// Whether the name of an address goes together with a hint.
fn label_goes(address: u16, name: &str, hint: &Hint<String>) -> bool
    ensures { result ≡ label_goes address name.now (hint_data hint.now) }
{
    match hint {
        Hint::Label {
            address: other,
            name: others,
        } => address == *other || name != others.as_str(),
        _ => true,
    }
}

/// Whether words that run elsewhere go together with a hint.
fn run_goes(moved: Moved, hint: &Hint<String>) -> bool
    ensures { result ≡ run_goes moved.load moved.count moved.run (hint_data hint.now) }
{
    match hint {
        Hint::Run {
            address,
            count,
            run,
        } => run_apart(
            moved,
            Moved {
                load: *address,
                count: *count,
                run: *run,
            },
        ),
        _ => true,
    }
}

/// Whether two hints go together.
fn go_together(hint: &Hint<String>, other: &Hint<String>) -> bool
    ensures { result ≡ go_together (hint_data hint.now) (hint_data other.now) }
{
    match hint {
        Hint::Label { address, name } => label_goes(*address, name.as_str(), other),
        Hint::Run {
            address,
            count,
            run,
        } => run_goes(
            Moved {
                load: *address,
                count: *count,
                run: *run,
            },
            other,
        ),
        _ => true,
    }
}

/// Whether a hint goes together with all that come before it.
pub(crate) fn fits(hints: &[Hint<String>], hint: &Hint<String>) -> bool
    ensures { result ≡ fits (map hint_data hints.now) (hint_data hint.now) }
{
    for before in hints {
        if !go_together(hint, before) {
            return false;
        }
    }
    true
}
